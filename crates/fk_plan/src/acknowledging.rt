// What an acknowledgement does.
ghost use Rattle.std.specs.Prelude.{◌≡◌, ◌<◌, ◌≤◌, ◌+◌, ℕ, List, length, IfOk, IsOk};
ghost use Rattle.fk_time.specs.Moments.{greatest};
ghost use Rattle.fk_model.specs.declared.ask.Ask.TheVariants.{Ack};
ghost use Rattle.fk_model.specs.State.{Worker, with_workers};
ghost use Rattle.fk_model.specs.Between.{IsWellKept};
ghost use Rattle.fk_model.specs.Bringing.{brought_up};
ghost use Rattle.fk_plan.specs.Plans.{AreNumbersOf, IsDone};

use crate::numbers::Numbers;
use crate::replies::ok;
use fk_core::Tables;
use fk_frame::Reply;
use fk_json::Text;
use fk_model::{Move, Moves};
use std::alloc::{AllocError, Global};

/// The job of a jid was done. Of the rows of that jid that workers have beyond the moment, the one of the
/// least ticket leaves.
pub(crate) fn acknowledge(
    alloc: Global,
    tables: &Tables,
    jid: &Text,
    moment: u64,
    numbers: &mut Numbers,
    moves: &mut Moves,
) -> Result<Reply, AllocError>
    requires moment { moment < greatest }
    requires kept { IsWellKept tables.now.kept }
    ensures ok { (word : ℕ) (workers : List Worker)
        → AreNumbersOf (brought_up tables.now.kept moment word) numbers.old
        → IfOk result (λ reply. IsDone tables.now.kept
        (with_workers (brought_up tables.now.kept moment word) workers) (Ack jid.now) moment word
        reply moves.old.items moves.new.items numbers.new) }
    ensures room { moves.old.spare + length moves.old.items
        ≤ length moves.new.items + moves.new.spare }
    ensures one { moves.old.spare ≤ moves.new.spare + 1 }
    ensures ready { 0 < moves.old.spare → IsOk result }
{
    let Some(ticket) = tables.leased_beyond(jid, moment) else {
        return Ok(ok(alloc));
    };
    moves.push(Move::Drop { ticket })?;
    numbers.processed = numbers.processed.saturating_add(1);
    Ok(ok(alloc))
}
