// The queues of the rows that are put into them as the state is brought up to date.
ghost use Rattle.std.specs.Prelude.{◌≡◌, ◌<◌, ◌∷◌, ◌++◌, ◌+◌, ◌^◌, ℕ, [], if◌then◌else◌, bytes_eq, length, IfOk, OnOk, List, All};
ghost use Rattle.fk_model.specs.Orders.{number_in};
ghost use Rattle.fk_model.specs.Between.{IsWellKept};
ghost use Rattle.fk_lists.specs.Room.{list_at};
ghost use Rattle.fk_plan.specs.Arrivals.{HasArrived};
ghost use Rattle.fk_plan.specs.Upkeep.{pairs_due};

use crate::enqueuing::ticket_at;
use fk_core::Tables;
use fk_json::Pairs;
use fk_lists::RoomByName;
use fk_model::Row;
use fk_queues::Queues;
use std::alloc::{AllocError, Global};

/// The queues of the rows that are due, whose moments and tickets these are: each with the rank that it
/// gets.
pub(crate) fn arrivals(
    alloc: Global,
    tables: &Tables,
    pairs: &Pairs,
    moment: u64,
) -> Result<Queues, AllocError>
    requires kept { IsWellKept tables.now.kept }
    requires due { pairs.now.items ≡ pairs_due tables.now.kept moment }
    requires next { tables.now.kept.next + length pairs.now.items < 2 ^ 64 }
    ensures { IfOk result (λ queues. HasArrived tables.now.kept moment queues.items) }
{
    let mut queues = Queues::new(alloc);
    let mut rank = tables.next();
    'arriving: for at in 0..pairs.len() {
        let ticket = ticket_at(pairs, at);
        if let Some(row) = tables.row(ticket) {
            arrive(&mut queues, row, rank, ticket)?;
            rank += 1;
        }
    }
    Ok(queues)
}

/// Puts a row at the end of its queue.
fn arrive(queues: &mut Queues, row: &Row, rank: u64, ticket: u64) -> Result<(), AllocError>
    requires { (name : List ℕ)
        → All (λ pair. number_in pair < rank) (list_at queues.old.items name) }
    ensures { (name : List ℕ) → OnOk result (list_at queues.new.items name
        ≡ list_at queues.old.items name
        ++ (if bytes_eq row.now.job.queue name then (rank, ticket) ∷ [] else [])) }
{
    queues.reserve(&row.job.queue, 1)?;
    queues.put(&row.job.queue, rank, ticket);
    Ok(())
}
