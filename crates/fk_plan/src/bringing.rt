// The kept state is brought up to the moment of a turn.
ghost use Rattle.std.specs.Prelude.{◌≡◌, ◌<◌, ◌≤◌, ◌+◌, [], length, IfOk, IsOk, OnOk};
ghost use Rattle.fk_time.specs.Moments.{greatest};
ghost use Rattle.fk_model.specs.Due.{IsUpToDate};
ghost use Rattle.fk_model.specs.Between.{IsWellKept};
ghost use Rattle.fk_model.specs.Bringing.{moves_up};
ghost use Rattle.fk_plan.specs.Upkeep.{pairs_due, IsBroughtUp};

use crate::enqueuing::enqueue;
use crate::expiring::expire;
use crate::forgetting::forget;
use crate::listing::come;
use crate::merging::merged;
use crate::numbers::Numbers;
use fk_core::Tables;
use fk_json::Pairs;
use fk_model::{Moves, Target};
use std::alloc::{AllocError, Global};

/// What bringing the state up to a moment comes to: the numbers behind it, how many reservations had run
/// out, and the moments and tickets of the rows that were put into their queues, in order.
#[derive(Drop)]
pub(crate) struct BroughtUp {
    pub(crate) numbers: Numbers,
    pub(crate) expired: u64,
    pub(crate) due: Pairs,
}

/// Adds the moves by which the kept state is brought up to a moment. Where nothing is due it takes no
/// memory.
pub(crate) fn bring_up(
    alloc: Global,
    tables: &Tables,
    moment: u64,
    word: u64,
    moves: &mut Moves,
) -> Result<BroughtUp, AllocError>
    requires empty { moves.old.items ≡ [] }
    requires moment { moment < greatest }
    requires kept { IsWellKept tables.now.kept }
    ensures ok { IfOk result (IsBroughtUp tables.now.kept moment word) }
    ensures moves { OnOk result (moves.new.items ≡ moves_up tables.now.kept moment word) }
    ensures room { moves.old.spare ≤ length moves.new.items + moves.new.spare }
    ensures ready { IsUpToDate moment tables.now.kept → IsOk result }
{
    let numbers = Numbers::of(tables);
    if tables.nothing_due(moment) {
        return Ok(BroughtUp {
            numbers,
            expired: 0,
            due: Pairs::new(alloc),
        });
    }
    forget(alloc, tables, moment, moves)?;
    let expired = expire(alloc, tables, moment, word, moves)?;
    let due = pairs_due(alloc, tables, moment)?;
    enqueue(tables, &due, numbers.next, moment, moves)?;
    Ok(BroughtUp {
        numbers: numbers.behind(expired, due.len() as u64),
        expired,
        due,
    })
}

/// The moments and tickets of the rows that are to be put into their queues, in order.
fn pairs_due(alloc: Global, tables: &Tables, moment: u64) -> Result<Pairs, AllocError>
    ensures { IfOk result (λ due. due.items ≡ pairs_due tables.now.kept moment) }
{
    let scheduled = come(alloc, tables, Target::Scheduled, moment)?;
    let retries = come(alloc, tables, Target::Retries, moment)?;
    merged(alloc, &scheduled, &retries)
}
