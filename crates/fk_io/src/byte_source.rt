ghost use Rattle.std.specs.Prelude.{◌≡◌, ◌≢◌, ◌≤◌, [], None, Some, Ok, length, take, drop, is_ok, not, IfOk, OnErr};
ghost use Rattle.fk_io.specs.Content.{Took, WasGiven, IsAtEnd};
ghost use Rattle.fk_io.specs.Faults.{HasCause, one_more};
ghost use Rattle.fk_io.specs.SourceState.{is_listed, piece_length, after_read};

use crate::{Failed, Source, raised};
use std::alloc::{AllocError, Global};
use std::marker::Model;

/// A source in memory. It gives its bytes in the pieces that the cuts say, and fails at the calls
/// that are listed.
#[derive(Drop)]
pub struct ByteSource {
    bytes: Vec<u8>,
    // where the last piece begins
    begun: usize,
    given: usize,
    cuts: Vec<usize>,
    cuts_used: usize,
    failing: Vec<u64>,
    calls: u64,
    faults: u64,
}

impl Model for ByteSource {
    ghost use Rattle.std.specs.Prelude.{take, drop};
    ghost use Rattle.fk_io.specs.SourceState.{SourceState};
    ghost use Rattle.fk_io.specs.Progress.{IsWithin};

    ghost Value = { SourceState };

    ghost view = { λ s. record {
      left = drop s.given s.bytes.items;
      last = drop s.begun (take s.given s.bytes.items);
      cuts = drop s.cuts_used s.cuts.items;
      failing = s.failing.items;
      calls = s.calls;
      faults = s.faults;
    } };

    ghost invariant = { λ s.
        IsWithin s.bytes.items s.begun s.given s.cuts.items s.cuts_used s.faults };
}

impl ByteSource {
    /// A source of these bytes. Each piece has at most as many bytes as the next cut, where a cut
    /// of 0 counts as 1, and behind the last cut as many as are asked for. The calls with the listed
    /// numbers, counted from 0, fail.
    pub fn new(
        alloc: Global,
        bytes: &[u8],
        cuts: &[usize],
        failing: &[u64],
    ) -> Result<ByteSource, AllocError>
        ensures { IfOk result (λ source. source ≡ record {
          left = bytes.now;
          last = [];
          cuts = cuts.now;
          failing = failing.now;
          calls = 0;
          faults = 0;
        }) }
    {
        Ok(ByteSource {
            bytes: Vec::from_slice(alloc, bytes)?,
            begun: 0,
            given: 0,
            cuts: Vec::from_slice(alloc, cuts)?,
            cuts_used: 0,
            failing: Vec::from_slice(alloc, failing)?,
            calls: 0,
            faults: 0,
        })
    }

    /// Whether the next call is one of those that fail.
    fn is_failing(&self) -> bool
        ensures { result ≡ is_listed self.now.failing self.now.calls }
    {
        let call = self.calls;
        self.failing.iter().any(|number| *number == call)
    }

    /// How many bytes the next piece has in a buffer of this length.
    fn piece_length(&self, asked: usize) -> usize
        ensures { result ≡ piece_length self.now asked }
    {
        let most = match self.cuts.get(self.cuts_used) {
            Some(cut) => asked.min((*cut).max(1)),
            None => asked,
        };
        most.min(self.bytes.len() - self.given)
    }

    /// The next piece for a buffer of this length.
    fn piece(&self, asked: usize) -> &[u8]
        ensures { result.now ≡ take (piece_length self.now asked) self.now.left }
    {
        let n = self.piece_length(asked);
        &self.bytes[self.given..self.given + n]
    }

    /// Goes past the next bytes, which uses up a cut and a call.
    fn go_past(&mut self, n: usize)
        requires { n ≤ length self.old.left }
        ensures { self.new ≡ record self.old {
          left = drop n self.old.left;
          last = take n self.old.left;
          cuts = drop 1 self.old.cuts;
          calls = one_more self.old.calls;
        } }
    {
        self.begun = self.given;
        self.given += n;
        self.cuts_used = (self.cuts_used + 1).min(self.cuts.as_slice().len());
        self.calls = raised(self.calls);
    }
}

impl Source for ByteSource {
    ghost supply = { λ s. record {
      left = Some s.left;
      last = Some s.last;
      faults = s.faults;
    } };

    /// A listed call fails. Any other gives the next piece.
    #[tactic(auto, using(crate::proofs::Pieces::front_then_rest))]
    fn take(&mut self, into: &mut [u8]) -> Result<usize, Failed>
        ensures count { IfOk result (λ n. n ≤ length into.new) }
        ensures taken { IfOk result (λ n.
            Took (Some self.old.left) (take n into.new) (Some self.new.left)) }
        ensures last { IfOk result (λ n.
            WasGiven (Some self.old.last) (take n into.new) (Some self.new.last)) }
        ensures rest { IfOk result (λ n. drop n into.new ≡ drop n into.old) }
        ensures end { result ≡ Ok 0 → into.old ≢ [] → IsAtEnd (Some self.old.left) }
        ensures same { OnErr result (Some self.new.left ≡ Some self.old.left) }
        ensures again { OnErr result (Some self.new.last ≡ Some self.old.last) }
        ensures cause { HasCause self.old.faults self.new.faults result }

        // Beyond what the trait says: which calls fail, how long a piece is, and what is used up.
        ensures listed { is_ok result ≡ not (is_listed self.old.failing self.old.calls) }
        ensures piece { IfOk result (λ n. n ≡ piece_length self.old (length into.old)) }
        ensures after { self.new ≡ after_read self.old (length into.old) }
    {
        if self.is_failing() {
            self.calls = raised(self.calls);
            self.faults = raised(self.faults);
            return Err(Failed);
        }
        let piece = self.piece(into.len());
        let n = piece.len();
        into[..n].copy_from_slice(piece);
        self.go_past(n);
        Ok(n)
    }
}
