ghost use Rattle.std.specs.Prelude.{◌≡◌, ◌+◌, ◌^◌, ◌<◌, ◌≤◌, [], length, option_map, slice_get, max, IsOk, IsSome, OnOk, None};
ghost use Rattle.std.specs.Option.{option_copied};
ghost use Rattle.fk_model.specs.Rows.{filed_at, row_at, row_of, with_row, with_changed, without_row, IsByTicket};
ghost use Rattle.fk_model.specs.Changes.{put_row};

use crate::chunks::Chunks;
use crate::row_box::RowBox;
use fk_job::Failure;
use fk_model::{Place, Row};
use std::alloc::{AllocError, Global};
use std::marker::Model;

/// One more than the most rows: as many as a deque may have.
const TOO_MANY: usize = 9_223_372_036_854_775_808;

/// Rows under their tickets, in order of ticket, and the number of those that may be put without
/// taking memory.
#[derive(Drop)]
pub struct Rows {
    alloc: Global,
    held: Chunks,
    count: usize,
    // Memory for rows to come.
    boxes: Vec<RowBox>,
}

impl Model for Rows {
    ghost use Rattle.std.specs.Prelude.{length};
    ghost use Rattle.fk_rows.specs.Room.{Room};
    ghost use Rattle.fk_rows.specs.Chunks.{rows_of};
    ghost use Rattle.fk_rows.specs.Table.{IsTable};

    ghost Value = { Room };

    ghost view = { λ rows. record {
      items = rows_of rows.held.chunks;
      spare = length rows.boxes.items;
    } };

    ghost invariant = { λ rows. IsTable rows.held rows.count (length rows.boxes.items) };
}

impl Rows {
    /// No rows. It takes no memory.
    pub fn new(alloc: Global) -> Rows
        ensures { result.items ≡ [] }
    {
        Rows {
            alloc,
            held: Chunks::new(alloc),
            count: 0,
            boxes: Vec::new(alloc),
        }
    }

    /// Makes room for more rows. The rows stay, and so does the room that was there.
    pub fn reserve(&mut self, more: usize) -> Result<(), AllocError>
        ensures ok { OnOk result (more ≤ self.new.spare) }
        ensures kept { self.old.spare ≤ self.new.spare }
        ensures same { self.new.items ≡ self.old.items }
        ensures ready { more ≤ self.old.spare → IsOk result }
    {
        if more <= self.boxes.len() {
            return Ok(());
        }
        if more >= TOO_MANY - self.count {
            return Err(AllocError);
        }
        self.held.reserve(more)?;
        make_until(&mut self.boxes, more, self.alloc)
    }

    /// Puts a row under a ticket that has none.
    pub fn put(&mut self, ticket: u64, row: Row)
        requires room { 0 < self.old.spare }
        requires absent { filed_at self.old.items ticket ≡ None }
        ensures items { self.new.items ≡ with_row self.old.items ticket row }
        ensures spare { self.new.spare + 1 ≡ self.old.spare }
    {
        match self.held.spot_of(ticket) {
            Ok(_) => (),
            Err(spot) => {
                if let Some(mut held) = self.boxes.pop() {
                    held.set(row);
                    self.held.insert(spot, ticket, held);
                    self.count += 1;
                }
            }
        }
    }

    /// The row of a ticket.
    pub fn get(&self, ticket: u64) -> Option<&Row>
        ensures { option_copied result ≡ row_at self.now.items ticket }
    {
        match self.held.spot_of(ticket) {
            Ok(spot) => row_in(self.held.filed_at(spot)),
            Err(_) => None,
        }
    }

    /// The ticket and the row at a place, counted from 0 in order of ticket, or `None` past the end.
    pub fn at(&self, place: usize) -> Option<(u64, &Row)>
        ensures { option_map (λ filed. (filed.0, filed.1.now)) result
            ≡ slice_get self.now.items place }
    {
        match self.held.filed_at(self.held.spot_at(place)) {
            Some(filed) => Some((filed.0, filed.1.row())),
            None => None,
        }
    }

    /// Puts the row of a ticket to a place, with what a move tells of it.
    pub fn change(
        &mut self,
        ticket: u64,
        enqueued: Option<u64>,
        failure: Option<Failure>,
        place: Place,
    )
        requires { IsSome (filed_at self.old.items ticket) }
        ensures items { self.new.items
            ≡ with_changed self.old.items ticket (put_row enqueued failure place) }
        ensures kept { self.new.spare ≡ self.old.spare }
    {
        match self.held.spot_of(ticket) {
            Ok(spot) => self.held.change(spot, enqueued, failure, place),
            Err(_) => (),
        }
    }

    /// Takes the row of a ticket out. Its memory is given back, and the room stays.
    pub fn take(&mut self, ticket: u64) -> Option<Row>
        ensures value { result ≡ row_at self.old.items ticket }
        ensures items { self.new.items ≡ without_row self.old.items ticket }
        ensures kept { self.old.spare ≤ self.new.spare }
    {
        match self.held.spot_of(ticket) {
            Ok(spot) => {
                let taken = self.held.remove(spot);
                self.count -= 1;
                self.held.give_back(self.boxes.len());
                unboxed(taken)
            }
            Err(_) => None,
        }
    }

    /// The number of rows.
    pub fn count(&self) -> usize
        ensures count { result ≡ length self.now.items }
        ensures small { result < 2 ^ 63 }
        ensures order { IsByTicket self.now.items }
    {
        self.count
    }

    /// Takes all rows out. Their memory is given back, and the room stays.
    pub fn clear(&mut self)
        ensures items { self.new.items ≡ [] }
        ensures kept { self.old.spare ≤ self.new.spare }
    {
        self.held.clear();
        self.count = 0;
    }
}

// Makes memory for rows until there is as much as this.
fn make_until(boxes: &mut Vec<RowBox>, count: usize, alloc: Global) -> Result<(), AllocError>
    ensures ok { OnOk result (length boxes.new.items ≡ max count (length boxes.old.items)) }
    ensures kept { length boxes.old.items ≤ length boxes.new.items }
    ensures within { length boxes.new.items ≤ max count (length boxes.old.items) }
{
    'making: while boxes.len() < count {
        boxes.push(RowBox::new(alloc)?)?;
    }
    Ok(())
}

// The row without its ticket.
fn row_in(filed: Option<&(u64, RowBox)>) -> Option<&Row>
    ensures { option_copied result ≡ option_map row_of (option_copied filed.entry) }
{
    match filed {
        Some(filed) => Some(filed.1.row()),
        None => None,
    }
}

// The row, taken out of its memory.
fn unboxed(taken: Option<RowBox>) -> Option<Row>
    ensures { result ≡ taken }
{
    match taken {
        Some(held) => Some(held.into_row()),
        None => None,
    }
}
