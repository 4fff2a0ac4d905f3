// The numbers are told last.
ghost use Rattle.std.specs.Prelude.{◌≡◌, ◌<◌, ◌≤◌, ◌+◌, length, IsOk, OnOk};
ghost use Rattle.fk_model.specs.State.{KeptState};
ghost use Rattle.fk_model.specs.Turns.{closed};
ghost use Rattle.fk_plan.specs.Plans.{AreNumbersOf};

use crate::numbers::Numbers;
use fk_model::{Move, Moves};
use std::alloc::AllocError;

/// Adds the numbers at the end, where there is any move.
pub(crate) fn close(numbers: Numbers, moves: &mut Moves) -> Result<(), AllocError>
    ensures ok { (kept : KeptState) → AreNumbersOf kept numbers
        → OnOk result (moves.new.items ≡ closed moves.old.items kept) }
    ensures room { moves.old.spare + length moves.old.items
        ≤ length moves.new.items + moves.new.spare }
    ensures ready { 0 < moves.old.spare → IsOk result }
{
    if moves.is_empty() {
        return Ok(());
    }
    moves.push(Move::Totals {
        next: numbers.next,
        processed: numbers.processed,
        failures: numbers.failures,
    })
}
