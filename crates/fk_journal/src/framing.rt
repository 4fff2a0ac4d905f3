ghost use Rattle.std.specs.Prelude.{◌≡◌, ◌+◌, ◌++◌, ◌∷◌, ◌<◌, ◌≤◌, ◌^◌, [], length, IsOk, OnErr, OnOk};
ghost use Rattle.fk_journal.specs.Limits.{overhead};
ghost use Rattle.fk_journal.specs.Pieces.{begun, closed_gate, framed};

use fk_json::Buffer;
use std::alloc::AllocError;

/// The gate byte of a piece that counts.
pub const OPEN_GATE: u8 = 1;

/// The gate byte that is written where no piece counts.
pub const CLOSED_GATE: u8 = 0;

/// The bytes of a framed piece besides its moves.
pub const OVERHEAD: usize = 17;

/// Puts the piece with this number and these moves into an empty buffer, as it is handed in to be
/// written: number, length, moves, and the closed gate behind it. Without memory the buffer stays empty.
#[tactic(auto, unfolding(crate::specs::Pieces::numbered))]
pub fn frame(out: &mut Buffer, number: u64, moves: &[u8]) -> Result<(), AllocError>
    requires empty { out.old.items ≡ [] }
    ensures ok { OnOk result (out.new.items ≡ framed number moves.now) }
    ensures err { OnErr result (out.new.items ≡ []) }
    ensures ready { length moves.now + overhead ≤ out.old.spare → IsOk result }
    ensures kept { out.old.spare ≤ length out.new.items + out.new.spare }
{
    begin_piece(out, number, moves.len())?;
    put(out, moves);
    end_piece(out);
    Ok(())
}

/// Begins the piece with this number in an empty buffer: its number, and how many bytes its moves are. They
/// are to be put behind that, and then the piece is to be ended: there is room for both. Without memory the
/// buffer stays empty.
pub fn begin_piece(out: &mut Buffer, number: u64, count: usize) -> Result<(), AllocError>
    requires empty { out.old.items ≡ [] }
    ensures ok { OnOk result (out.new.items ≡ begun number count) }
    ensures room { OnOk result (count + 1 ≤ out.new.spare) }
    ensures bound { OnOk result (count < 2 ^ 63) }
    ensures err { OnErr result (out.new.items ≡ []) }
    ensures ready { count + overhead ≤ out.old.spare → IsOk result }
    ensures kept { out.old.spare ≤ length out.new.items + out.new.spare }
{
    out.reserve(count.saturating_add(OVERHEAD))?;
    put(out, &number.to_be_bytes());
    put(out, &(count as u64).to_be_bytes());
    Ok(())
}

/// Ends a piece that was begun, behind its moves: the closed gate is put there.
pub fn end_piece(out: &mut Buffer)
    requires room { 0 < out.old.spare }
    ensures items { out.new.items ≡ out.old.items ++ closed_gate ∷ [] }
    ensures kept { out.old.spare ≤ out.new.spare + 1 }
{
    put(out, &[CLOSED_GATE]);
}

/// Puts bytes behind those that are there, where there is room for them.
fn put(out: &mut Buffer, bytes: &[u8])
    requires room { length bytes.now ≤ out.old.spare }
    ensures items { out.new.items ≡ out.old.items ++ bytes.now }
    ensures spare { out.old.spare ≤ out.new.spare + length bytes.now }
{
    let _ = out.push_bytes(bytes);
}
