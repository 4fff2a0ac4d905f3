// All memory of a turn's moves: in the tables, and for their piece.
ghost use Rattle.std.specs.Prelude.{◌≡◌, ◌+◌, ◌≤◌, length, All, IsOk, OnErr, OnOk};
ghost use Rattle.fk_journal.specs.Limits.{overhead};
ghost use Rattle.fk_journal.specs.Pieces.{framed};
ghost use Rattle.fk_model.specs.Changes.{FitInTurn};
ghost use Rattle.fk_model.specs.Spellings.{HasSpelling};
ghost use Rattle.fk_moves.specs.Spelling.{moves_bytes};
ghost use Rattle.fk_core.specs.Reserved.{Reserved};
ghost use Rattle.fk_store.specs.RoomForTurns.{HasRoom, IsOneDrop};

use crate::store::Room;
use fk_core::Tables;
use fk_journal::{begin_piece, end_piece};
use fk_json::Buffer;
use fk_model::Moves;
use fk_moves::{moves_length, write_moves};
use std::alloc::AllocError;

/// Takes all memory that the moves need before they are made: in the tables, and for their piece, which gets this
/// number.
pub(crate) fn prepare(tables: &mut Tables, room: &mut Room, number: u64) -> Result<(), AllocError>
    requires fit { FitInTurn tables.old.kept room.old.moves.items }
    requires room { HasRoom room.old }
    ensures reserved { OnOk result (Reserved tables.new room.old.moves.items) }
    ensures piece { OnOk result (room.new.piece.items ≡ framed number (moves_bytes room.old.moves.items)) }
    ensures ready { IsOneDrop room.old.moves.items → IsOk result }
    ensures kept { tables.new.kept ≡ tables.old.kept }
    ensures moves { room.new.moves ≡ room.old.moves }
    ensures room { HasRoom room.new }
{
    tables.reserve(&room.moves)?;
    spell(&room.moves, number, &mut room.piece)
}

/// Spells the moves in a piece with this number, in the place of what was there. Their bytes stand there alone, since
/// those of a long list are many.
fn spell(moves: &Moves, number: u64, piece: &mut Buffer) -> Result<(), AllocError>
    requires { All HasSpelling moves.now.items }
    ensures ok { OnOk result (piece.new.items ≡ framed number (moves_bytes moves.now.items)) }
    ensures ready { length (moves_bytes moves.now.items) + overhead ≤ length piece.old.items + piece.old.spare
        → IsOk result }
    ensures room { length piece.old.items + piece.old.spare ≤ length piece.new.items + piece.new.spare }
{
    piece.clear();
    begin_piece(piece, number, moves_length(moves))?;
    write_moves(moves, piece)?;
    end_piece(piece);
    Ok(())
}
