// The move of a row that a MUTATE takes.
ghost use Rattle.std.specs.Prelude.{◌≡◌, ◌<◌, ◌+◌, ◌^◌, IfOk, Some};
ghost use Rattle.std.specs.Option.{option_copied};
ghost use Rattle.fk_model.specs.Bringing.{move_for, waiting_row};
ghost use Rattle.fk_model.specs.Mutated.{killed_row};
ghost use Rattle.fk_plan.specs.Choosing.{row_told};
ghost use Rattle.fk_plan.specs.Taking.{move_taken, next_behind};

use crate::matching::stamp_told;
use fk_model::{Cmd, Move, Place, Row};
use fk_retry::end_of_dead;
use std::alloc::AllocError;

/// The move of a row that is taken, as the move before leaves it: it is dead from now on, or it leaves,
/// or it waits in its queue with a rank.
pub(crate) fn move_taken(
    cmd: Cmd,
    row: &Row,
    step: Option<&Move>,
    ticket: u64,
    moment: u64,
    rank: u64,
) -> Result<Move, AllocError>
    ensures { IfOk result (λ made. made ≡ move_taken cmd moment rank
        (ticket, row_told (option_copied step.entry) row.now)) }
{
    match cmd {
        Cmd::Kill => kill(row, step, ticket, moment),
        Cmd::Requeue => requeue(row, step, ticket, moment, rank),
        Cmd::Discard => Ok(Move::Drop { ticket }),
        Cmd::Clear => Ok(Move::Drop { ticket }),
    }
}

/// The move by which a row is dead from a moment on. Its failure stays as it is.
fn kill(row: &Row, step: Option<&Move>, ticket: u64, moment: u64) -> Result<Move, AllocError>
    ensures { IfOk result (λ made. made ≡ move_for ticket
        (Some (killed_row moment (row_told (option_copied step.entry) row.now)))) }
{
    let stamp = stamp_told(row, step)?;
    Ok(Move::Put {
        ticket,
        enqueued: stamp.enqueued,
        failure: stamp.failure,
        place: Place::Dead {
            until: end_of_dead(moment),
        },
    })
}

/// The move by which a row is put into its queue with a rank.
fn requeue(
    row: &Row,
    step: Option<&Move>,
    ticket: u64,
    moment: u64,
    rank: u64,
) -> Result<Move, AllocError>
    ensures { IfOk result (λ made. made ≡ move_for ticket
        (Some (waiting_row moment rank (row_told (option_copied step.entry) row.now)))) }
{
    let stamp = stamp_told(row, step)?;
    Ok(Move::Put {
        ticket,
        enqueued: Some(moment),
        failure: stamp.failure,
        place: Place::Queued { rank },
    })
}

/// The next number behind a row that is taken.
pub(crate) fn next_behind(cmd: Cmd, next: u64) -> u64
    requires { next + 1 < 2 ^ 64 }
    ensures { result ≡ next_behind cmd next 1 }
{
    match cmd {
        Cmd::Requeue => next + 1,
        _ => next,
    }
}
