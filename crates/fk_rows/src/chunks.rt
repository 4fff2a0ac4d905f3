ghost use Rattle.std.specs.Prelude.{◌≡◌, ◌<◌, ◌≤◌, ◌+◌, ◌-◌, ◌∷◌, ◌++◌, [], length, slice_get, option_map, IfSome, IsOk, OnOk};
ghost use Rattle.fk_model.specs.Changes.{put_row};
ghost use Rattle.fk_model.specs.Rows.{row_of, ticket_of};
ghost use Rattle.fk_rows.specs.Chunks.{chunk_at, full, rows_of};
ghost use Rattle.fk_rows.specs.Spots.{before, behind, from};

use crate::chunk::{Chunk, FULL, HALF};
use crate::editing::{change, close, empty, enter, leave, len_at, part, room_less, room_more};
use crate::row_box::RowBox;
use crate::spot::Spot;
use fk_job::Failure;
use fk_model::Place;
use std::alloc::{AllocError, Global};
use std::collections::VecDeque;
use std::marker::Model;

/// Rows in chunks, and how many more they take without memory, wherever these come in: a full chunk
/// is parted by one that is held ready.
#[derive(Drop)]
pub(crate) struct Chunks {
    alloc: Global,
    pub(crate) chunks: VecDeque<Chunk>,
    store: Vec<Chunk>,
    room: usize,
}

impl Model for Chunks {
    ghost use Rattle.std.specs.VecDeque.{deque_capacity};
    ghost use Rattle.fk_rows.specs.Chunks.{Chunked, IsSound};

    ghost Value = { Chunked };

    ghost view = { λ held. record { chunks = held.chunks.items; room = held.room } };

    ghost invariant = { λ held. IsSound held.chunks.items held.store.items held.room
        (deque_capacity held.chunks) };
}

impl Chunks {
    /// No rows. It takes no memory.
    pub(crate) fn new(alloc: Global) -> Chunks
        ensures { rows_of result.chunks ≡ [] }
    {
        Chunks {
            alloc,
            chunks: VecDeque::new(alloc),
            store: Vec::new(alloc),
            room: 0,
        }
    }

    /// Makes room for more rows.
    pub(crate) fn reserve(&mut self, more: usize) -> Result<(), AllocError>
        ensures ok { OnOk result (more ≤ self.new.room) }
        ensures kept { self.old.room ≤ self.new.room }
        ensures same { rows_of self.new.chunks ≡ rows_of self.old.chunks }
        ensures ready { more ≤ self.old.room → IsOk result }
    {
        'making: while self.room < more {
            self.begin()?;
            self.make_one()?;
        }
        Ok(())
    }

    // Has a chunk where there is none.
    fn begin(&mut self) -> Result<(), AllocError>
        ensures begun { OnOk result (0 < length self.new.chunks) }
        ensures kept { self.new.room ≡ self.old.room }
        ensures same { rows_of self.new.chunks ≡ rows_of self.old.chunks }
    {
        if self.chunks.is_empty() {
            self.chunks.reserve(self.store.len() + 1)?;
            self.chunks.push_back_reserved(Chunk::new(self.alloc)?);
        }
        Ok(())
    }

    // Makes a chunk to be held ready.
    fn make_one(&mut self) -> Result<(), AllocError>
        requires { 0 < length self.old.chunks }
        ensures more { OnOk result (self.old.room < self.new.room) }
        ensures kept { self.old.room ≤ self.new.room }
        ensures same { self.new.chunks ≡ self.old.chunks }
    {
        self.chunks.reserve(self.store.len() + 1)?;
        self.store.reserve(1)?;
        let chunk = Chunk::new(self.alloc)?;
        self.room = self.room.checked_add(HALF).ok_or(AllocError)?;
        self.store.push_reserved(chunk);
        Ok(())
    }

    /// Puts a row under a ticket to a spot.
    pub(crate) fn insert(&mut self, spot: Spot, ticket: u64, row: RowBox)
        requires room { 0 < self.old.room }
        requires chunk { spot.chunk ≤ length self.old.chunks - 1 }
        requires at { spot.at ≤ length (chunk_at self.old.chunks spot.chunk) }
        ensures items { rows_of self.new.chunks
            ≡ before self.old.chunks spot ++ (ticket, row) ∷ from self.old.chunks spot }
        ensures room { self.old.room ≤ self.new.room + 1 }
    {
        let opened = self.opened(spot);
        self.room = room_less(self.room, len_at(&self.chunks, opened.chunk));
        enter(&mut self.chunks, opened, ticket, row);
    }

    // The spot for what would stand at this one, in a chunk that isn't full. A full one is parted.
    fn opened(&mut self, spot: Spot) -> Spot
        requires room { 0 < self.old.room }
        requires chunk { spot.chunk ≤ length self.old.chunks - 1 }
        requires at { spot.at ≤ length (chunk_at self.old.chunks spot.chunk) }
        ensures chunk { result.chunk < length self.new.chunks }
        ensures at { result.at ≤ length (chunk_at self.new.chunks result.chunk) }
        ensures open { length (chunk_at self.new.chunks result.chunk) < full }
        ensures before { before self.new.chunks result ≡ before self.old.chunks spot }
        ensures from { from self.new.chunks result ≡ from self.old.chunks spot }
        ensures room { self.new.room ≡ self.old.room }
    {
        if len_at(&self.chunks, spot.chunk) < FULL {
            return spot;
        }
        let Some(second) = self.store.pop() else {
            unreachable!()
        };
        part(&mut self.chunks, spot.chunk, second);
        if spot.at <= HALF {
            return spot;
        }
        Spot {
            chunk: spot.chunk + 1,
            at: spot.at - HALF,
        }
    }

    /// Changes what a move tells of the row at a spot.
    pub(crate) fn change(
        &mut self,
        spot: Spot,
        enqueued: Option<u64>,
        failure: Option<Failure>,
        place: Place,
    )
        requires chunk { spot.chunk < length self.old.chunks }
        requires at { spot.at < length (chunk_at self.old.chunks spot.chunk) }
        ensures items { IfSome (slice_get (chunk_at self.old.chunks spot.chunk) spot.at)
            (λ filed. rows_of self.new.chunks ≡ before self.old.chunks spot
            ++ (ticket_of filed, put_row enqueued failure place (row_of filed))
            ∷ behind self.old.chunks spot) }
        ensures room { self.new.room ≡ self.old.room }
    {
        change(&mut self.chunks, spot, enqueued, failure, place);
    }

    /// Takes the row at a spot out. A chunk that it leaves empty is given back.
    pub(crate) fn remove(&mut self, spot: Spot) -> Option<RowBox>
        requires chunk { spot.chunk < length self.old.chunks }
        requires at { spot.at < length (chunk_at self.old.chunks spot.chunk) }
        ensures value { result ≡ option_map row_of
            (slice_get (chunk_at self.old.chunks spot.chunk) spot.at) }
        ensures items { rows_of self.new.chunks
            ≡ before self.old.chunks spot ++ behind self.old.chunks spot }
        ensures room { self.old.room ≤ self.new.room }
    {
        let row = leave(&mut self.chunks, spot);
        self.room = room_more(self.room, len_at(&self.chunks, spot.chunk));
        close(&mut self.chunks, spot.chunk);
        row
    }

    /// Gives one of the chunks that are held ready back, where more are than this room needs.
    pub(crate) fn give_back(&mut self, needed: usize)
        ensures kept { needed ≤ self.old.room → needed ≤ self.new.room }
        ensures same { self.new.chunks ≡ self.old.chunks }
    {
        if self.room.saturating_sub(needed) >= FULL {
            if let Some(_) = self.store.pop() {
                self.room -= HALF;
            }
        }
    }

    /// Takes all rows out, and gives their chunks back.
    pub(crate) fn clear(&mut self)
        ensures items { rows_of self.new.chunks ≡ [] }
        ensures room { self.old.room ≤ self.new.room }
    {
        if self.chunks.is_empty() {
            return;
        }
        empty(&mut self.chunks);
        self.room = self.room.max(self.store.len().saturating_mul(HALF));
    }
}
