// The scheduled rows and those to be tried again that are due are put into their queues.
ghost use Rattle.std.specs.Prelude.{◌≡◌, ◌++◌, ◌+◌, ◌≤◌, ◌<◌, ◌^◌, length, option_map, slice_get, IfOk, OnOk, Some};
ghost use Rattle.fk_model.specs.Orders.{ticket_in};
ghost use Rattle.fk_model.specs.Due.{rows_of};
ghost use Rattle.fk_model.specs.Bringing.{move_for, moves_of_enqueued, waiting_row};

use fk_core::Tables;
use fk_job::Failure;
use fk_json::Pairs;
use fk_model::{Move, Moves, Place, Row};
use std::alloc::AllocError;

/// Adds the moves by which the rows of these pairs are put into their queues, in order, with the ranks
/// from a number on.
pub(crate) fn enqueue(
    tables: &Tables,
    due: &Pairs,
    next: u64,
    moment: u64,
    moves: &mut Moves,
) -> Result<(), AllocError>
    requires { next + length due.now.items < 2 ^ 64 }
    ensures ok { OnOk result (moves.new.items ≡ moves.old.items
        ++ moves_of_enqueued moment next (rows_of tables.now.kept.rows due.now.items)) }
    ensures room { moves.old.spare + length moves.old.items
        ≤ length moves.new.items + moves.new.spare }
{
    moves.reserve(due.len())?;
    let mut rank = next;
    'enqueuing: for at in 0..due.len() {
        let ticket = ticket_at(due, at);
        if let Some(row) = tables.row(ticket) {
            moves.push(put_waiting(row, ticket, rank, moment)?)?;
            rank += 1;
        }
    }
    Ok(())
}

/// The ticket of the pair at a place.
pub(crate) fn ticket_at(due: &Pairs, at: usize) -> u64
    requires { at < length due.now.items }
    ensures { Some result ≡ option_map ticket_in (slice_get due.now.items at) }
{
    let Some((_, ticket)) = due.get(at) else {
        unreachable!()
    };
    *ticket
}

/// The move by which a row is put into its queue with a rank.
fn put_waiting(row: &Row, ticket: u64, rank: u64, moment: u64) -> Result<Move, AllocError>
    ensures { IfOk result (λ step.
        step ≡ move_for ticket (Some (waiting_row moment rank row.now))) }
{
    Ok(Move::Put {
        ticket,
        enqueued: Some(moment),
        failure: copied(&row.stamp.failure)?,
        place: Place::Queued { rank },
    })
}

/// An equal failure, if there is one.
pub(crate) fn copied(failure: &Option<Failure>) -> Result<Option<Failure>, AllocError>
    ensures { IfOk result (λ copy. copy ≡ failure.now) }
{
    match failure {
        None => Ok(None),
        Some(failure) => Ok(Some(failure.copied()?)),
    }
}
