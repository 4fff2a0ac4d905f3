// Where a ticket stands among rows in chunks, by halves: first the chunk, then the place in it.
ghost use Rattle.std.specs.Prelude.{◌≡◌, ◌<◌, ◌+◌, ◌-◌, false, nat_lt, slice_get, IfErr, IfOk};
ghost use Rattle.std.specs.Option.{option_copied, option_map_or};
ghost use Rattle.fk_model.specs.Rows.{ticket_of};
ghost use Rattle.fk_rows.specs.Chunks.{chunk_at, rows_of, IsFilled};
ghost use Rattle.fk_rows.specs.Order.{AreRising};
ghost use Rattle.fk_rows.specs.Searches.{IsGapIn, IsPlaceIn};
ghost use Rattle.fk_rows.specs.Spots.{IsAt, IsBetween, IsGap, IsChunkOf};

use crate::chunk::Chunk;
use crate::chunks::Chunks;
use crate::editing::len_at;
use crate::row_box::RowBox;
use crate::spot::{Span, Spot};
use std::collections::VecDeque;

impl Chunks {
    /// Where a ticket stands, or where it would stand.
    pub(crate) fn spot_of(&self, ticket: u64) -> Result<Spot, Spot>
        requires { AreRising (rows_of self.now.chunks) }
        ensures found { IfOk result (IsAt self.now.chunks ticket) }
        ensures absent { IfErr result (IsGap self.now.chunks ticket) }
    {
        let chunk = chunk_of(&self.chunks, ticket);
        match place_in(&self.chunks, chunk, ticket) {
            Ok(at) => Ok(Spot { chunk, at }),
            Err(at) => Err(Spot { chunk, at }),
        }
    }

    /// The ticket and the row at a spot.
    pub(crate) fn filed_at(&self, spot: Spot) -> Option<&(u64, RowBox)>
        ensures { option_copied result ≡ slice_get (chunk_at self.now.chunks spot.chunk) spot.at }
    {
        match self.chunks.get(spot.chunk) {
            Some(chunk) => chunk.get(spot.at),
            None => None,
        }
    }

    /// The spot of the row at a place among all rows, or one where no row stands.
    pub(crate) fn spot_at(&self, place: usize) -> Spot
        ensures { slice_get (chunk_at self.now.chunks result.chunk) result.at
            ≡ slice_get (rows_of self.now.chunks) place }
    {
        walk(&self.chunks, place)
    }
}

// The chunk in which a ticket would stand.
#[tactic(auto, using(crate::proofs::Halving::between_all, crate::proofs::Halving::between_one))]
fn chunk_of(chunks: &VecDeque<Chunk>, ticket: u64) -> usize
    requires rising { AreRising (rows_of chunks.now.items) }
    requires filled { IsFilled chunks.now.items }
    ensures { IsChunkOf chunks.now.items ticket result }
{
    let mut span = Span {
        low: 0,
        high: chunks.len(),
    };
    'halving: while span.high - span.low > 1 {
        span = halved(chunks, ticket, span);
    }
    span.low
}

// Half of the chunks among which the one for a ticket is.
fn halved(chunks: &VecDeque<Chunk>, ticket: u64, span: Span) -> Span
    requires rising { AreRising (rows_of chunks.now.items) }
    requires filled { IsFilled chunks.now.items }
    requires between { IsBetween chunks.now.items ticket span }
    requires many { span.low + 1 < span.high }
    ensures between { IsBetween chunks.now.items ticket result }
    ensures less { result.high - result.low < span.high - span.low }
{
    let middle = span.low + (span.high - span.low) / 2;
    if begins_above(chunks, middle, ticket) {
        return Span {
            low: span.low,
            high: middle,
        };
    }
    Span {
        low: middle,
        high: span.high,
    }
}

// Where a ticket stands in a chunk, or where it would stand.
#[tactic(auto, using(crate::proofs::Halving::gap_in_none))]
fn place_in(chunks: &VecDeque<Chunk>, at: usize, ticket: u64) -> Result<usize, usize>
    requires { AreRising (chunk_at chunks.now.items at) }
    ensures found { IfOk result (IsPlaceIn (chunk_at chunks.now.items at) ticket) }
    ensures absent { IfErr result (IsGapIn (chunk_at chunks.now.items at) ticket) }
{
    match chunks.get(at) {
        Some(chunk) => chunk.place_of(ticket),
        None => Err(0),
    }
}

// Whether the first ticket of a chunk is above this one.
fn begins_above(chunks: &VecDeque<Chunk>, at: usize, ticket: u64) -> bool
    ensures { result ≡ option_map_or (λ filed. nat_lt ticket (ticket_of filed))
        (slice_get (chunk_at chunks.now.items at) 0) false }
{
    match chunks.get(at) {
        Some(chunk) => chunk.begins_above(ticket),
        None => false,
    }
}

// The spot of the row at a place among all rows: the chunks before it have fewer rows.
fn walk(chunks: &VecDeque<Chunk>, place: usize) -> Spot
    ensures { slice_get (chunk_at chunks.now.items result.chunk) result.at
        ≡ slice_get (rows_of chunks.now.items) place }
{
    let mut left = place;
    'walking: for chunk in 0..chunks.len() {
        let count = len_at(chunks, chunk);
        if left < count {
            return Spot { chunk, at: left };
        }
        left -= count;
    }
    Spot {
        chunk: chunks.len(),
        at: 0,
    }
}
