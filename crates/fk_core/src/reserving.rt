// Room for moves.
ghost use Rattle.std.specs.Prelude.{◌≡◌, ◌<◌, ◌≤◌, false, count_by, option_map, option_copied, option_and_then, slice_get, take, IsOk, OnOk};
ghost use Rattle.std.specs.Option.{option_map_or};
ghost use Rattle.fk_model.specs.Rows.{row_at};
ghost use Rattle.fk_core.specs.Held.{IsNoLess};
ghost use Rattle.fk_core.specs.Reserved.{is_add, Reserved};
ghost use Rattle.fk_core.specs.Entrances.{known_after, put_at, row_added, IsLatest};
ghost use Rattle.fk_core.specs.Marks.{FindsTheSame};
ghost use Rattle.fk_core.specs.Marked.{AreMarked, HasOneMore, HasRoom, KeepsRoom, NoneMarked, OneIsMarked, OneUnmarked};

use crate::Tables;
use crate::index::Index;
use fk_job::Job;
use fk_model::{Move, Moves, Place, Row};
use fk_rows::Rows;
use std::alloc::AllocError;

/// A row of this job is put to this place.
#[derive(Drop)]
struct Entrance<'a> {
    job: &'a Job,
    place: &'a Place,
}

impl Tables {
    /// Makes room for moves. The kept state stays, and so does the room that was there.
    pub fn reserve(&mut self, moves: &Moves) -> Result<(), AllocError>
        ensures ok { OnOk result (Reserved self.new moves.now.items) }
        ensures same { self.new.kept ≡ self.old.kept }
        ensures kept { IsNoLess self.old.room self.new.room }
        ensures ready { Reserved self.old moves.now.items → IsOk result }
    {
        self.rows.reserve(count_of_adds(moves))?;
        unmark_all(&mut self.index, &self.rows, moves);
        mark_all(&mut self.index, &self.rows, moves)
    }
}

/// Takes away all marks from where the moves put rows.
fn unmark_all(index: &mut Index, rows: &Rows, moves: &Moves)
    ensures none { NoneMarked rows.now.items moves.now.items index.new }
    ensures kept { KeepsRoom index.old index.new }
    ensures same { FindsTheSame index.old index.new }
{
    let first = first_add(moves);
    'unmarking: for at in 0..moves.len() {
        unmark_one(index, rows, moves, first, at);
    }
}

/// Takes away all marks from where the move at a place puts a row.
fn unmark_one(index: &mut Index, rows: &Rows, moves: &Moves, first: usize, at: usize)
    requires none { count_by is_add (take first moves.now.items) ≡ 0 }
    ensures none { OneUnmarked (put_at rows.now.items moves.now.items at) index.old index.new }
    ensures kept { KeepsRoom index.old index.new }
    ensures same { FindsTheSame index.old index.new }
{
    if let Some(entrance) = entrance_of(rows, moves, first, at) {
        index.unmark(entrance.job, entrance.place);
    }
}

/// Marks room for each row that the moves put somewhere.
fn mark_all(index: &mut Index, rows: &Rows, moves: &Moves) -> Result<(), AllocError>
    ensures ok { OnOk result (AreMarked rows.now.items moves.now.items index.old index.new) }
    ensures kept { KeepsRoom index.old index.new }
    ensures same { FindsTheSame index.old index.new }
    ensures ready { NoneMarked rows.now.items moves.now.items index.old
        → HasRoom rows.now.items moves.now.items index.old → IsOk result }
{
    let first = first_add(moves);
    'marking: for at in 0..moves.len() {
        mark_one(index, rows, moves, first, at)?;
    }
    Ok(())
}

/// Marks room for the row that the move at a place puts somewhere, if it puts one.
fn mark_one(
    index: &mut Index,
    rows: &Rows,
    moves: &Moves,
    first: usize,
    at: usize,
) -> Result<(), AllocError>
    requires none { count_by is_add (take first moves.now.items) ≡ 0 }
    ensures ok { OnOk result
        (OneIsMarked (put_at rows.now.items moves.now.items at) index.old index.new) }
    ensures kept { KeepsRoom index.old index.new }
    ensures same { FindsTheSame index.old index.new }
    ensures ready { HasOneMore (put_at rows.now.items moves.now.items at) index.old
        → IsOk result }
{
    match entrance_of(rows, moves, first, at) {
        Some(entrance) => index.mark(entrance.job, entrance.place),
        None => Ok(()),
    }
}

/// How many of the moves are new rows.
#[tactic(auto, using(crate::proofs::PutCounts::adds_on))]
fn count_of_adds(moves: &Moves) -> usize
    ensures { result ≡ count_by is_add moves.now.items }
{
    let mut count: usize = 0;
    'counting: for at in 0..moves.len() {
        if is_add(moves, at) {
            count += 1;
        }
    }
    count
}

/// Whether the move at a place is a new row.
fn is_add(moves: &Moves, at: usize) -> bool
    ensures { result ≡ option_map_or is_add (slice_get moves.now.items at) false }
{
    matches!(moves.get(at), Some(Move::Add { .. }))
}

/// The place of the first new row, or the number of moves where there is none.
#[tactic(auto, using(crate::proofs::PutCounts::adds_on))]
fn first_add(moves: &Moves) -> usize
    ensures { count_by is_add (take result moves.now.items) ≡ 0 }
{
    'looking: for at in 0..moves.len() {
        if is_add(moves, at) {
            return at;
        }
    }
    moves.len()
}

/// The row that the move at a place puts somewhere, and where. No move before the place `first` is a
/// new row.
fn entrance_of<'a>(
    rows: &'a Rows,
    moves: &'a Moves,
    first: usize,
    at: usize,
) -> Option<Entrance<'a>>
    requires none { count_by is_add (take first moves.now.items) ≡ 0 }
    ensures { option_map (λ entrance. (entrance.job.now, entrance.place.now)) result
        ≡ put_at rows.now.items moves.now.items at }
{
    match moves.get(at) {
        Some(Move::Add { row, .. }) => Some(Entrance {
            job: &row.job,
            place: &row.place,
        }),
        Some(Move::Put { ticket, place, .. }) => match known_job(rows, moves, first, at, *ticket) {
            Some(job) => Some(Entrance { job, place }),
            None => None,
        },
        _ => None,
    }
}

/// The job of a ticket, as it is known before the move at a place.
fn known_job<'a>(
    rows: &'a Rows,
    moves: &'a Moves,
    first: usize,
    at: usize,
    ticket: u64,
) -> Option<&'a Job>
    requires none { count_by is_add (take first moves.now.items) ≡ 0 }
    ensures { option_copied result ≡ option_map (λ row. row.job)
        (row_at (known_after rows.now.items (take at moves.now.items)) ticket) }
{
    match latest_add(moves, first, at, ticket) {
        Some(row) => Some(&row.job),
        None => match rows.get(ticket) {
            Some(row) => Some(&row.job),
            None => None,
        },
    }
}

/// The latest new row of a ticket before a place, which is looked for from one place on.
fn latest_add<'a>(moves: &'a Moves, first: usize, at: usize, ticket: u64) -> Option<&'a Row>
    requires none { count_by is_add (take first moves.now.items) ≡ 0 }
    ensures { IsLatest (take at moves.now.items) ticket (option_copied result) }
{
    let mut left = at;
    'looking: while left > first {
        left -= 1;
        if let Some(row) = row_added(moves, left, ticket) {
            return Some(row);
        }
    }
    None
}

/// The row that the move at a place adds under a ticket.
fn row_added<'a>(moves: &'a Moves, at: usize, ticket: u64) -> Option<&'a Row>
    ensures { option_copied result
        ≡ option_and_then (row_added ticket) (slice_get moves.now.items at) }
{
    match moves.get(at) {
        Some(Move::Add { ticket: other, row }) if *other == ticket => Some(row),
        _ => None,
    }
}
