// Which moves fit.
ghost use Rattle.std.specs.Prelude.{◌≡◌, ◌↔◌, ◌<◌, ◌≤◌, slice_get, IfSome, IsTrue};
ghost use Rattle.fk_model.specs.Orders.{rank_of};
ghost use Rattle.fk_model.specs.Between.{IsAboveAll};
ghost use Rattle.fk_model.specs.Changes.{ComesLast, Fits, IsAllowed, IsBehindQueue, IsNextNumber, MayGo};
ghost use Rattle.fk_lists.specs.Room.{list_at};
ghost use Rattle.fk_core.specs.Index.{last_number};
ghost use Rattle.fk_core.specs.Tied.{IsBelow};

use crate::Tables;
use crate::index::Index;
use fk_json::Text;
use fk_model::{Move, Place, Row};
use fk_rows::Rows;

/// The greatest next ticket or rank.
pub const GREATEST_NEXT: u64 = 4_611_686_018_427_387_904;

impl Tables {
    /// Whether a move fits the kept state. It takes no memory.
    pub fn fits(&self, step: &Move) -> bool
        ensures { IsTrue result ↔ Fits self.now.kept step.now }
    {
        step.has_spelling() && self.allows(step)
    }

    /// Whether the kept state allows a move.
    fn allows(&self, step: &Move) -> bool
        ensures { IsTrue result ↔ IsAllowed self.now.kept step.now }
    {
        match step {
            Move::Add { ticket, row } => {
                self.rows.get(*ticket).is_none() && self.comes_last(&row.job.queue, &row.place)
            }
            Move::Put { ticket, place, .. } => match self.rows.get(*ticket) {
                Some(row) => self.may_go(*ticket, row, place),
                None => false,
            },
            Move::Drop { ticket } => match self.rows.get(*ticket) {
                Some(row) => row.place.rank().is_none(),
                None => false,
            },
            Move::DropAll => true,
            Move::Totals { next, .. } => self.is_next_number(*next),
        }
    }

    /// Whether a row may go to a place.
    fn may_go(&self, ticket: u64, row: &Row, place: &Place) -> bool
        ensures { IsTrue result ↔ MayGo self.now.kept ticket row.now place.now }
    {
        match place {
            Place::Working { .. } => self.first_queued(&row.job.queue) == Some(ticket),
            _ => row.place.rank().is_none() && self.comes_last(&row.job.queue, place),
        }
    }

    /// Whether a place in a queue is behind all others.
    fn comes_last(&self, queue: &Text, place: &Place) -> bool
        ensures { IsTrue result ↔ ComesLast self.now.kept queue.now place.now }
    {
        match place {
            Place::Queued { rank } => self.is_behind_queue(queue, *rank),
            _ => true,
        }
    }

    /// Whether a rank is above all ranks of a queue.
    fn is_behind_queue(&self, queue: &Text, rank: u64) -> bool
        ensures { IsTrue result ↔ IsBehindQueue self.now.kept queue.now rank }
    {
        match last_rank(&self.index, queue) {
            Some(last) => last < rank,
            None => true,
        }
    }

    /// Whether a number may be the next one.
    fn is_next_number(&self, next: u64) -> bool
        ensures { IsTrue result ↔ IsNextNumber self.now.kept next }
    {
        next <= GREATEST_NEXT && self.next <= next && self.is_above_all(next)
    }

    /// Whether a number is above each ticket and each rank. Where it isn't above those that came since
    /// the numbers were last told, the rows are looked at one by one.
    fn is_above_all(&self, next: u64) -> bool
        ensures { IsTrue result ↔ IsAboveAll next self.now.kept.rows }
    {
        self.index.greatest < next || self.are_below(next)
    }

    /// Whether each ticket and each rank is below a number, row by row.
    fn are_below(&self, next: u64) -> bool
        ensures { IsTrue result ↔ IsAboveAll next self.now.kept.rows }
    {
        'looking: for place in 0..self.rows.count() {
            if !is_below_at(&self.rows, place, next) {
                return false;
            }
        }
        true
    }
}

/// The rank of a queue's last row.
fn last_rank(index: &Index, queue: &Text) -> Option<u64>
    ensures { result ≡ last_number (list_at index.now.queues.items queue.now) }
{
    match index.queues.last(queue) {
        Some((rank, _)) => Some(rank),
        None => None,
    }
}

/// Whether the ticket and the rank of the row at a place are below a number. Past the end there is
/// none.
fn is_below_at(rows: &Rows, place: usize, next: u64) -> bool
    ensures { IsTrue result ↔ IfSome (slice_get rows.now.items place) (IsBelow next) }
{
    match rows.at(place) {
        Some((ticket, row)) => ticket < next && is_rank_below(&row.place, next),
        None => true,
    }
}

/// Whether the rank of a place, if it has one, is below a number.
fn is_rank_below(place: &Place, next: u64) -> bool
    ensures { IsTrue result ↔ IfSome (rank_of place.now) (λ rank. rank < next) }
{
    match place {
        Place::Queued { rank } => *rank < next,
        _ => true,
    }
}
