// What a flush does.
ghost use Rattle.std.specs.Prelude.{◌≡◌, ◌≤◌, ◌+◌, ◌++◌, ℕ, length, IfOk, OnOk};
ghost use Rattle.fk_model.specs.declared.ask.Ask.TheVariants.{Flush};
ghost use Rattle.fk_model.specs.State.{State};
ghost use Rattle.fk_model.specs.Mutated.{has_something, moves_of_flush};
ghost use Rattle.fk_plan.specs.Plans.{AreNumbersOf, IsDone};

use crate::numbers::Numbers;
use crate::replies::ok;
use fk_core::Tables;
use fk_frame::Reply;
use fk_model::{Move, Moves};
use std::alloc::{AllocError, Global};

/// All rows leave, and both counts begin anew. Where bringing the state up to date has emptied it, the
/// rows that were there leave all the same.
pub(crate) fn flush(
    alloc: Global,
    tables: &Tables,
    numbers: &mut Numbers,
    moves: &mut Moves,
) -> Result<Reply, AllocError>
    ensures ok { (up : State) (moment word : ℕ) → AreNumbersOf up.kept numbers.old
        → IfOk result (λ reply. IsDone tables.now.kept up Flush moment word reply moves.old.items
        moves.new.items numbers.new) }
    ensures room { moves.old.spare + length moves.old.items
        ≤ length moves.new.items + moves.new.spare }
{
    drop_all(tables, moves)?;
    numbers.processed = 0;
    numbers.failures = 0;
    Ok(ok(alloc))
}

/// Adds the move by which all rows leave, where there is anything to flush.
fn drop_all(tables: &Tables, moves: &mut Moves) -> Result<(), AllocError>
    ensures ok { OnOk result
        (moves.new.items ≡ moves.old.items ++ moves_of_flush tables.now.kept) }
    ensures room { moves.old.spare + length moves.old.items
        ≤ length moves.new.items + moves.new.spare }
{
    if !has_something(tables) {
        return Ok(());
    }
    moves.push(Move::DropAll)
}

/// Whether the tables have a row, or a count that isn't 0.
fn has_something(tables: &Tables) -> bool
    ensures { result ≡ has_something tables.now.kept }
{
    !tables.is_empty() || tables.processed() != 0 || tables.failures() != 0
}
