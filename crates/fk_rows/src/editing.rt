// A row comes in, leaves or is changed among rows in chunks.
ghost use Rattle.std.specs.Prelude.{◌≡◌, ◌<◌, ◌≤◌, ◌+◌, ◌-◌, [], length, slice_get, slice_set, take, drop, option_map, IfSome};
ghost use Rattle.std.specs.List.{insert, remove};
ghost use Rattle.std.specs.VecDeque.{deque_capacity};
ghost use Rattle.fk_model.specs.Changes.{put_row};
ghost use Rattle.fk_model.specs.Rows.{row_of, ticket_of};
ghost use Rattle.fk_rows.specs.Chunks.{chunk_at, full, half, without_bare};

use crate::chunk::{Chunk, HALF};
use crate::row_box::RowBox;
use crate::spot::Spot;
use fk_job::Failure;
use fk_model::Place;
use std::collections::VecDeque;

/// The number of rows of a chunk, or 0 past the last one.
pub(crate) fn len_at(chunks: &VecDeque<Chunk>, at: usize) -> usize
    ensures count { result ≡ length (chunk_at chunks.now.items at) }
    ensures within { result ≤ full }
{
    match chunks.get(at) {
        Some(chunk) => chunk.len(),
        None => 0,
    }
}

/// The room that is left where a row comes into a chunk of so many.
pub(crate) fn room_less(room: usize, count: usize) -> usize
    requires { 0 < room }
    ensures one { room ≤ result + 1 }
    ensures paid { result + (count + 1 - half) ≤ room + (count - half) }
{
    if count >= HALF { room - 1 } else { room }
}

/// The room that there is where a row left a chunk, which now has so many.
pub(crate) fn room_more(room: usize, count: usize) -> usize
    ensures kept { room ≤ result }
    ensures paid { result + (count - half) ≤ room + (count + 1 - half) }
{
    if count >= HALF {
        room.saturating_add(1)
    } else {
        room
    }
}

/// Puts a row under a ticket to a spot of a chunk that isn't full.
pub(crate) fn enter(chunks: &mut VecDeque<Chunk>, spot: Spot, ticket: u64, row: RowBox)
    requires chunk { spot.chunk < length chunks.old.items }
    requires within { spot.at ≤ length (chunk_at chunks.old.items spot.chunk) }
    requires room { length (chunk_at chunks.old.items spot.chunk) < full }
    ensures items { chunks.new.items ≡ slice_set chunks.old.items spot.chunk
        (insert (chunk_at chunks.old.items spot.chunk) spot.at (ticket, row)) }
    ensures capacity { deque_capacity chunks.new ≡ deque_capacity chunks.old }
{
    if let Some(chunk) = chunks.get_mut(spot.chunk) {
        chunk.insert(spot.at, ticket, row);
    }
}

/// Takes the row at a spot out.
pub(crate) fn leave(chunks: &mut VecDeque<Chunk>, spot: Spot) -> Option<RowBox>
    requires chunk { spot.chunk < length chunks.old.items }
    ensures value { result ≡ option_map row_of
        (slice_get (chunk_at chunks.old.items spot.chunk) spot.at) }
    ensures items { chunks.new.items ≡ slice_set chunks.old.items spot.chunk
        (remove (chunk_at chunks.old.items spot.chunk) spot.at) }
    ensures capacity { deque_capacity chunks.new ≡ deque_capacity chunks.old }
{
    match chunks.get_mut(spot.chunk) {
        Some(chunk) => chunk.remove(spot.at),
        None => None,
    }
}

/// Changes what a move tells of the row at a spot.
pub(crate) fn change(
    chunks: &mut VecDeque<Chunk>,
    spot: Spot,
    enqueued: Option<u64>,
    failure: Option<Failure>,
    place: Place,
)
    requires chunk { spot.chunk < length chunks.old.items }
    requires at { spot.at < length (chunk_at chunks.old.items spot.chunk) }
    ensures items { IfSome (slice_get (chunk_at chunks.old.items spot.chunk) spot.at)
        (λ filed. chunks.new.items ≡ slice_set chunks.old.items spot.chunk
        (slice_set (chunk_at chunks.old.items spot.chunk) spot.at
        (ticket_of filed, put_row enqueued failure place (row_of filed)))) }
    ensures capacity { deque_capacity chunks.new ≡ deque_capacity chunks.old }
{
    chunks[spot.chunk].change(spot.at, enqueued, failure, place);
}

/// Makes two chunks of a full one, the second of them by a chunk that has no row.
pub(crate) fn part(chunks: &mut VecDeque<Chunk>, at: usize, mut second: Chunk)
    requires chunk { at < length chunks.old.items }
    requires full { length (chunk_at chunks.old.items at) ≡ full }
    requires bare { second ≡ [] }
    requires room { length chunks.old.items < deque_capacity chunks.old }
    ensures items { chunks.new.items ≡ insert
        (slice_set chunks.old.items at (take half (chunk_at chunks.old.items at)))
        (at + 1) (drop half (chunk_at chunks.old.items at)) }
    ensures capacity { deque_capacity chunks.old ≤ deque_capacity chunks.new }
{
    if let Some(first) = chunks.get_mut(at) {
        first.part(&mut second);
    }
    let _ = chunks.insert(at + 1, second);
}

/// Gives a chunk back that has no row, unless it is the only one.
pub(crate) fn close(chunks: &mut VecDeque<Chunk>, at: usize)
    requires { at < length chunks.old.items }
    ensures items { chunks.new.items ≡ without_bare chunks.old.items at }
    ensures capacity { deque_capacity chunks.new ≡ deque_capacity chunks.old }
{
    if chunks.len() > 1 && len_at(chunks, at) == 0 {
        let _ = chunks.remove(at);
    }
}

/// Takes all rows out, and gives all chunks back but one.
pub(crate) fn empty(chunks: &mut VecDeque<Chunk>)
    ensures items { chunks.new.items ≡ slice_set (take 1 chunks.old.items) 0 [] }
    ensures capacity { deque_capacity chunks.new ≡ deque_capacity chunks.old }
{
    chunks.truncate(1);
    if let Some(first) = chunks.get_mut(0) {
        first.clear();
    }
}
