// A worker that is to stop gets no new job.
ghost use Rattle.std.specs.Prelude.{◌≡◌, ◌<◌, ◌≤◌, ◌+◌, ◌^◌, ℕ, length, IfOk};
ghost use Rattle.fk_time.specs.Moments.{greatest};
ghost use Rattle.fk_model.specs.declared.ask.Ask.TheVariants.{Fetch};
ghost use Rattle.fk_model.specs.State.{with_workers};
ghost use Rattle.fk_model.specs.Between.{IsWellKept};
ghost use Rattle.fk_model.specs.Bringing.{brought_up};
ghost use Rattle.fk_model.specs.Requests.{is_held_back};
ghost use Rattle.fk_model.specs.Workers.{fresh};
ghost use Rattle.fk_plan.specs.declared.numbers.Numbers.{Numbers};
ghost use Rattle.fk_plan.specs.Plans.{AreNumbersOf, IsDone};
ghost use Rattle.fk_plan.specs.Upkeep.{pairs_due};

use crate::fetching::fetch;
use fk_core::Tables;
use fk_frame::Reply;
use fk_json::{Pairs, Text, Texts};
use fk_model::{Moves, WorkState};
use fk_workers::Workers;
use std::alloc::{AllocError, Global};

/// A worker, or a producer where the name is empty, wants a job. One that is held back gets none, and no
/// queue is looked at.
pub(crate) fn fetch_unless_held(
    alloc: Global,
    tables: &Tables,
    workers: &Workers,
    wid: Text,
    queues: &Texts,
    pairs: &Pairs,
    moment: u64,
    moves: &mut Moves,
) -> Result<Reply, AllocError>
    requires moment { moment < greatest }
    requires kept { IsWellKept tables.now.kept }
    requires due { pairs.now.items ≡ pairs_due tables.now.kept moment }
    requires next { tables.now.kept.next + length pairs.now.items < 2 ^ 64 }
    ensures ok { (word : ℕ) (numbers : Numbers)
        → AreNumbersOf (brought_up tables.now.kept moment word) numbers
        → IfOk result (λ reply. IsDone tables.now.kept (with_workers
        (brought_up tables.now.kept moment word) (fresh moment workers.now.workers))
        (Fetch wid queues.now) moment word reply moves.old.items moves.new.items numbers) }
    ensures room { moves.old.spare + length moves.old.items
        ≤ length moves.new.items + moves.new.spare }
{
    if is_held_back(workers, &wid, moment) {
        return Ok(Reply::Nil);
    }
    fetch(alloc, tables, wid, queues, pairs, moment, moves)
}

/// Whether a worker of this name is listed, and is to get no new job.
fn is_held_back(workers: &Workers, wid: &Text, moment: u64) -> bool
    ensures { result ≡ is_held_back (fresh moment workers.now.workers) wid.now }
{
    match workers.state(wid, moment) {
        None => false,
        Some(WorkState::Running) => false,
        Some(WorkState::Quiet) => true,
        Some(WorkState::Terminate) => true,
    }
}
