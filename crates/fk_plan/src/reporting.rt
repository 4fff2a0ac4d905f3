// What the report of a failure does.
ghost use Rattle.std.specs.Prelude.{◌≡◌, ◌<◌, ◌≤◌, ◌+◌, List, length, IfOk};
ghost use Rattle.fk_time.specs.Moments.{greatest};
ghost use Rattle.fk_model.specs.declared.ask.Ask.TheVariants.{Fail};
ghost use Rattle.fk_model.specs.State.{Worker, with_workers};
ghost use Rattle.fk_model.specs.Between.{IsWellKept};
ghost use Rattle.fk_model.specs.Bringing.{brought_up};
ghost use Rattle.fk_plan.specs.Plans.{AreNumbersOf, IsDone};

use crate::failing::{Reason, fail_row};
use crate::numbers::Numbers;
use crate::replies::{ok, unknown_job};
use fk_core::Tables;
use fk_frame::Reply;
use fk_json::Text;
use fk_model::{Move, Moves};
use std::alloc::{AllocError, Global};

/// The job of a jid failed, for this reason. Of the rows of that jid that workers have beyond the moment,
/// the one of the least ticket meets its fate.
pub(crate) fn report(
    alloc: Global,
    tables: &Tables,
    jid: &Text,
    reason: Reason,
    moment: u64,
    word: u64,
    numbers: &mut Numbers,
    moves: &mut Moves,
) -> Result<Reply, AllocError>
    requires moment { moment < greatest }
    requires kept { IsWellKept tables.now.kept }
    ensures ok { (workers : List Worker)
        → AreNumbersOf (brought_up tables.now.kept moment word) numbers.old
        → IfOk result (λ reply. IsDone tables.now.kept
        (with_workers (brought_up tables.now.kept moment word) workers)
        (Fail jid.now reason.errtype reason.message reason.backtrace) moment word reply
        moves.old.items moves.new.items numbers.new) }
    ensures room { moves.old.spare + length moves.old.items
        ≤ length moves.new.items + moves.new.spare }
{
    let Some(ticket) = tables.leased_beyond(jid, moment) else {
        return Ok(unknown_job(alloc));
    };
    let Some(row) = tables.row(ticket) else {
        return Ok(unknown_job(alloc));
    };
    moves.push(fail_row(alloc, row, ticket, reason, moment, word)?)?;
    numbers.processed = numbers.processed.saturating_add(1);
    numbers.failures = numbers.failures.saturating_add(1);
    Ok(ok(alloc))
}
