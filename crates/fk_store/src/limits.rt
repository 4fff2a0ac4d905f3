// Whether moves would be over a limit.
ghost use Rattle.std.specs.Prelude.{◌≡◌, ◌<◌, ◌+◌, ◌⊎◌, ◌↔◌, ℕ, IsTrue, length};
ghost use Rattle.fk_moves.specs.Writing.{told};
ghost use Rattle.fk_store.specs.Turning.{EndBeyond, IsFull};

use fk_core::GREATEST_NEXT;
use fk_journal::{GREATEST_FILE, GREATEST_NUMBER, OVERHEAD};
use fk_model::{Move, Moves};

/// Whether the moves lead to a next number beyond the greatest.
pub(crate) fn end_beyond(moves: &Moves) -> bool
    ensures { IsTrue result ↔ EndBeyond moves.now.items }
{
    match moves.get(moves.len().saturating_sub(1)) {
        Some(Move::Totals { next, .. }) => *next > GREATEST_NEXT,
        _ => false,
    }
}

/// Whether there is no number for one more piece, or no place for it behind the size. The length is that of its
/// moves' bytes, or the greatest where they are more.
pub(crate) fn is_full(number: u64, size: u64, length: usize) -> bool
    ensures { (count : ℕ) → length ≡ told count → (IsTrue result ↔ IsFull number size count) }
{
    let behind = size
        .saturating_add(OVERHEAD as u64)
        .saturating_add(length as u64);
    number > GREATEST_NUMBER || behind > GREATEST_FILE
}
