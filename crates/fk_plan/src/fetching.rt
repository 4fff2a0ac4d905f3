// What a fetch does.
ghost use Rattle.std.specs.Prelude.{◌≡◌, ◌<◌, ◌≤◌, ◌++◌, ◌+◌, ◌*◌, ◌^◌, ℕ, List, false, length, option_map, slice_get, IfOk};
ghost use Rattle.fk_time.specs.Moments.{greatest};
ghost use Rattle.fk_job.specs.Fields.{most_reserve};
ghost use Rattle.fk_model.specs.declared.ask.Ask.TheVariants.{Fetch};
ghost use Rattle.fk_model.specs.declared.move_.Move.TheVariants.{Put};
ghost use Rattle.fk_model.specs.declared.place.Place.TheVariants.{Working};
ghost use Rattle.fk_model.specs.Limits.{later_by, second_length};
ghost use Rattle.fk_model.specs.Rows.{ticket_of};
ghost use Rattle.fk_model.specs.State.{Worker, with_workers};
ghost use Rattle.fk_model.specs.Orders.{first_waiting, queue, ticket_in};
ghost use Rattle.fk_model.specs.Between.{IsWellKept};
ghost use Rattle.fk_model.specs.Bringing.{brought_up};
ghost use Rattle.fk_model.specs.Requests.{is_held_back};
ghost use Rattle.fk_lists.specs.Room.{list_at};
ghost use Rattle.fk_plan.specs.declared.numbers.Numbers.{Numbers};
ghost use Rattle.fk_plan.specs.Arrivals.{stamp_in_queue, HasArrived};
ghost use Rattle.fk_plan.specs.Plans.{AreNumbersOf, IsDone};
ghost use Rattle.fk_plan.specs.Upkeep.{pairs_due};

use crate::arriving::arrivals;
use fk_core::Tables;
use fk_frame::Reply;
use fk_job::{Stamp, write_job};
use fk_json::{Pairs, Text, Texts};
use fk_model::{Move, Moves, Place, Row};
use fk_queues::Queues;
use fk_time::GREATEST;
use std::alloc::{AllocError, Global};

/// A worker that isn't held back, or a producer where the name is empty, wants a job of the first of
/// these queues that has one, once those that are due were put into them: these are their moments and
/// tickets.
pub(crate) fn fetch(
    alloc: Global,
    tables: &Tables,
    wid: Text,
    queues: &Texts,
    pairs: &Pairs,
    moment: u64,
    moves: &mut Moves,
) -> Result<Reply, AllocError>
    requires moment { moment < greatest }
    requires kept { IsWellKept tables.now.kept }
    requires due { pairs.now.items ≡ pairs_due tables.now.kept moment }
    requires next { tables.now.kept.next + length pairs.now.items < 2 ^ 64 }
    ensures ok { (word : ℕ) (workers : List Worker) (numbers : Numbers)
        → is_held_back workers wid ≡ false
        → AreNumbersOf (brought_up tables.now.kept moment word) numbers
        → IfOk result (λ reply. IsDone tables.now.kept
        (with_workers (brought_up tables.now.kept moment word) workers) (Fetch wid queues.now)
        moment word reply moves.old.items moves.new.items numbers) }
    ensures room { moves.old.spare + length moves.old.items
        ≤ length moves.new.items + moves.new.spare }
{
    let arrived = arrivals(alloc, tables, pairs, moment)?;
    let Some(ticket) = first_waiting(tables, &arrived, queues, moment) else {
        return Ok(Reply::Nil);
    };
    let Some(row) = tables.row(ticket) else {
        return Ok(Reply::Nil);
    };
    let stamp = stamp_in_queue(row, moment)?;
    let text = write_job(alloc, &row.job, &stamp)?;
    moves.push(hand_out(row, stamp, ticket, wid, moment))?;
    Ok(Reply::Bulk(text))
}

/// The ticket of the first row to fetch: that of the least rank in the first of the queues that has a
/// row, in the tables or among those that have arrived.
fn first_waiting(tables: &Tables, arrived: &Queues, queues: &Texts, moment: u64) -> Option<u64>
    requires kept { IsWellKept tables.now.kept }
    requires arrived { HasArrived tables.now.kept moment arrived.now.items }
    ensures { (word : ℕ) → result ≡ option_map ticket_of
        (first_waiting (brought_up tables.now.kept moment word) queues.now) }
{
    'looking: for queue in queues.as_slice() {
        if let Some(ticket) = first_in(tables, arrived, queue, moment) {
            return Some(ticket);
        }
    }
    None
}

/// The ticket of a queue's first row: those that have arrived are behind those of the tables.
fn first_in(tables: &Tables, arrived: &Queues, name: &Text, moment: u64) -> Option<u64>
    requires kept { IsWellKept tables.now.kept }
    requires arrived { HasArrived tables.now.kept moment arrived.now.items }
    ensures { (word : ℕ) → result ≡ option_map ticket_in
        (slice_get (queue (brought_up tables.now.kept moment word).rows name.now) 0) }
{
    match tables.first_queued(name) {
        Some(ticket) => Some(ticket),
        None => match arrived.first(name) {
            Some((_, ticket)) => Some(ticket),
            None => None,
        },
    }
}

/// The stamp of a row that waits once the state was brought up to a moment: one that waits only since
/// then was put into its queue at that moment.
fn stamp_in_queue(row: &Row, moment: u64) -> Result<Stamp, AllocError>
    ensures { IfOk result (λ stamp. stamp ≡ stamp_in_queue moment row.now) }
{
    let mut stamp = row.stamp.copied()?;
    if row.place.rank().is_none() {
        stamp.enqueued = Some(moment);
    }
    Ok(stamp)
}

/// The move by which a row of this stamp goes to a worker.
fn hand_out(row: &Row, stamp: Stamp, ticket: u64, wid: Text, moment: u64) -> Move
    requires moment { moment < greatest }
    requires seconds { row.now.job.reserve_for ≤ most_reserve }
    ensures { result ≡ Put ticket stamp.enqueued stamp.failure
        (Working wid moment (later_by (second_length * row.now.job.reserve_for) moment)) }
{
    Move::Put {
        ticket,
        enqueued: stamp.enqueued,
        failure: stamp.failure,
        place: Place::Working {
            wid,
            since: moment,
            until: later_by(row.job.reserve_for, moment),
        },
    }
}

/// A moment so many seconds later, up to the greatest.
fn later_by(seconds: u64, moment: u64) -> u64
    requires moment { moment < greatest }
    requires seconds { seconds ≤ most_reserve }
    ensures { result ≡ later_by (second_length * seconds) moment }
{
    (moment + 1000 * seconds).min(GREATEST)
}
