// What a push does.
ghost use Rattle.std.specs.Prelude.{◌≡◌, ◌<◌, ◌≤◌, ◌∷◌, ◌++◌, ◌+◌, ◌^◌, ℕ, [], length, IfOk, OnOk};
ghost use Rattle.fk_model.specs.declared.ask.Ask.TheVariants.{Push, PushBatch};
ghost use Rattle.fk_model.specs.declared.move_.Move.TheVariants.{Add};
ghost use Rattle.fk_model.specs.State.{KeptState, State};
ghost use Rattle.fk_model.specs.Requests.{is_later, pushed_row};
ghost use Rattle.fk_model.specs.Turns.{moves_of_push};
ghost use Rattle.fk_plan.specs.Plans.{AreNumbersOf, IsDone};

use crate::numbers::Numbers;
use crate::replies::ok;
use fk_frame::Reply;
use fk_job::{Job, Jobs, Stamp};
use fk_json::Text;
use fk_model::{Move, Moves, Place, Row};
use std::alloc::{AllocError, Global};

/// One job is pushed.
pub(crate) fn push(
    alloc: Global,
    job: Job,
    moment: u64,
    numbers: &mut Numbers,
    moves: &mut Moves,
) -> Result<Reply, AllocError>
    requires { numbers.old.next ≤ 2 ^ 63 }
    ensures ok { (before : KeptState) (up : State) (word : ℕ) → AreNumbersOf up.kept numbers.old
        → IfOk result (λ reply. IsDone before up (Push job) moment word reply moves.old.items
        moves.new.items numbers.new) }
    ensures room { moves.old.spare + length moves.old.items
        ≤ length moves.new.items + moves.new.spare }
{
    add_row(job, moment, numbers, moves)?;
    Ok(ok(alloc))
}

/// Jobs are pushed at once.
pub(crate) fn push_batch(
    jobs: Jobs,
    told: Text,
    moment: u64,
    numbers: &mut Numbers,
    moves: &mut Moves,
) -> Result<Reply, AllocError>
    requires next { numbers.old.next ≤ 2 ^ 63 }
    requires short { length jobs.items < 2 ^ 32 }
    ensures ok { (before : KeptState) (up : State) (word : ℕ) → AreNumbersOf up.kept numbers.old
        → IfOk result (λ reply. IsDone before up (PushBatch jobs.items told) moment word reply
        moves.old.items moves.new.items numbers.new) }
    ensures room { moves.old.spare + length moves.old.items
        ≤ length moves.new.items + moves.new.spare }
{
    add_rows(jobs.into_vec(), moment, numbers, moves)?;
    Ok(Reply::Bulk(told))
}

/// Adds a new row for each job, in order.
fn add_rows(
    jobs: Vec<Job>,
    moment: u64,
    numbers: &mut Numbers,
    moves: &mut Moves,
) -> Result<(), AllocError>
    requires fits { numbers.old.next + length jobs.items < 2 ^ 64 }
    ensures ok { OnOk result (moves.new.items
        ≡ moves.old.items ++ moves_of_push moment numbers.old.next jobs.items) }
    ensures next { OnOk result
        (numbers.new ≡ record numbers.old { next = numbers.old.next + length jobs.items }) }
    ensures room { moves.old.spare + length moves.old.items
        ≤ length moves.new.items + moves.new.spare }
{
    moves.reserve(jobs.len())?;
    'adding: for job in jobs {
        add_row(job, moment, numbers, moves)?;
    }
    Ok(())
}

/// Adds a new row for a job.
fn add_row(
    job: Job,
    moment: u64,
    numbers: &mut Numbers,
    moves: &mut Moves,
) -> Result<(), AllocError>
    requires fits { numbers.old.next + 1 < 2 ^ 64 }
    ensures ok { OnOk result (moves.new.items
        ≡ moves.old.items ++ Add numbers.old.next (pushed_row moment numbers.old.next job) ∷ []) }
    ensures next { OnOk result (numbers.new ≡ record numbers.old { next = numbers.old.next + 1 }) }
    ensures room { moves.old.spare + length moves.old.items
        ≤ length moves.new.items + moves.new.spare }
{
    let ticket = numbers.next;
    let row = new_row(job, moment, ticket);
    moves.push(Move::Add { ticket, row })?;
    numbers.next += 1;
    Ok(())
}

/// The row of a job that is pushed: scheduled where it is due later, and else waiting from now on, with
/// its ticket for a rank.
fn new_row(job: Job, moment: u64, ticket: u64) -> Row
    ensures { result ≡ pushed_row moment ticket job }
{
    let place = match job.at {
        Some(at) if moment < at => Place::Scheduled { at },
        _ => Place::Queued { rank: ticket },
    };
    let enqueued = match place {
        Place::Scheduled { .. } => None,
        _ => Some(moment),
    };
    Row {
        job,
        stamp: Stamp {
            created: moment,
            enqueued,
            failure: None,
        },
        place,
    }
}
