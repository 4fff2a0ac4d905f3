ghost use Rattle.std.specs.Prelude.{◌≡◌, ◌<◌, ◌≤◌, [], false, length, nat_lt, slice_get, slice_set, take, drop, option_map, IfErr, IfOk, IfSome};
ghost use Rattle.std.specs.List.{insert, remove};
ghost use Rattle.std.specs.Option.{option_copied, option_map_or};
ghost use Rattle.fk_model.specs.Changes.{put_row};
ghost use Rattle.fk_model.specs.Rows.{row_of, ticket_of};
ghost use Rattle.fk_rows.specs.Chunks.{full, half};
ghost use Rattle.fk_rows.specs.Order.{AreRising};
ghost use Rattle.fk_rows.specs.Searches.{IsGapIn, IsPlaceIn};

use crate::row_box::RowBox;
use fk_job::Failure;
use fk_model::Place;
use std::alloc::{AllocError, Global};
use std::collections::VecDeque;
use std::marker::Model;

/// How many rows a chunk has at most.
pub(crate) const FULL: usize = 2048;

/// How many rows each of the two chunks has that come of a full one.
pub(crate) const HALF: usize = 1024;

/// Some rows under their tickets. There is room for so many as a chunk has at most.
#[derive(Drop)]
pub(crate) struct Chunk {
    filed: VecDeque<(u64, RowBox)>,
}

impl Model for Chunk {
    ghost use Rattle.std.specs.Prelude.{ℕ, ◌≤◌, List, length};
    ghost use Rattle.std.specs.VecDeque.{deque_capacity};
    ghost use Rattle.fk_model.specs.declared.row.Row.{Row};
    ghost use Rattle.fk_rows.specs.Chunks.{full};

    ghost Value = { List (ℕ × Row) };

    ghost view = { λ chunk. chunk.filed.items };

    ghost invariant = { λ chunk. (full ≤ deque_capacity chunk.filed)
        × (length chunk.filed.items ≤ full) };
}

impl Chunk {
    /// No rows.
    pub(crate) fn new(alloc: Global) -> Result<Chunk, AllocError>
        ensures { IfOk result (λ chunk. chunk ≡ []) }
    {
        Ok(Chunk {
            filed: VecDeque::with_capacity(alloc, FULL)?,
        })
    }

    /// The number of rows.
    pub(crate) fn len(&self) -> usize
        ensures count { result ≡ length self.now }
        ensures within { result ≤ full }
    {
        self.filed.len()
    }

    /// The ticket and the row at a place, or `None` past the end.
    pub(crate) fn get(&self, at: usize) -> Option<&(u64, RowBox)>
        ensures { option_copied result ≡ slice_get self.now at }
    {
        self.filed.get(at)
    }

    /// Whether its first ticket is above this one.
    pub(crate) fn begins_above(&self, ticket: u64) -> bool
        ensures { result ≡ option_map_or (λ filed. nat_lt ticket (ticket_of filed))
            (slice_get self.now 0) false }
    {
        match self.filed.get(0) {
            Some(first) => ticket < first.0,
            None => false,
        }
    }

    /// Where a ticket stands, or where it would stand.
    pub(crate) fn place_of(&self, ticket: u64) -> Result<usize, usize>
        requires { AreRising self.now }
        ensures found { IfOk result (IsPlaceIn self.now ticket) }
        ensures absent { IfErr result (IsGapIn self.now ticket) }
    {
        self.filed.binary_search_by_key(&ticket, |filed| filed.0)
    }

    /// Puts a row under a ticket to a place.
    pub(crate) fn insert(&mut self, at: usize, ticket: u64, row: RowBox)
        requires within { at ≤ length self.old }
        requires room { length self.old < full }
        ensures { self.new ≡ insert self.old at (ticket, row) }
    {
        let _ = self.filed.insert(at, (ticket, row));
    }

    /// Takes the row at a place out, if there is one.
    pub(crate) fn remove(&mut self, at: usize) -> Option<RowBox>
        ensures value { result ≡ option_map row_of (slice_get self.old at) }
        ensures items { self.new ≡ remove self.old at }
    {
        match self.filed.remove(at) {
            Some(filed) => Some(filed.1),
            None => None,
        }
    }

    /// Changes what a move tells of the row at a place.
    pub(crate) fn change(
        &mut self,
        at: usize,
        enqueued: Option<u64>,
        failure: Option<Failure>,
        place: Place,
    )
        requires { at < length self.old }
        ensures { IfSome (slice_get self.old at) (λ filed. self.new ≡ slice_set self.old at
            (ticket_of filed, put_row enqueued failure place (row_of filed))) }
    {
        self.filed[at].1.change(enqueued, failure, place);
    }

    /// Moves the second half of its rows to a chunk that has none.
    #[tactic(auto, using(crate::proofs::Parting::cut_first, crate::proofs::Parting::cut_second))]
    pub(crate) fn part(&mut self, other: &mut Chunk)
        requires full { length self.old ≡ full }
        requires bare { other.old ≡ [] }
        ensures first { self.new ≡ take half self.old }
        ensures second { other.new ≡ drop half self.old }
    {
        'moving: while self.filed.len() > HALF {
            if let Some(last) = self.filed.pop_back() {
                other.filed.push_front_reserved(last);
            }
        }
    }

    /// Takes all rows out.
    pub(crate) fn clear(&mut self)
        ensures { self.new ≡ [] }
    {
        self.filed.clear();
    }
}
