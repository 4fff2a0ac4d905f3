ghost use Rattle.std.specs.Prelude.{◌≡◌, ◌≢◌, ◌≤◌, [], None, Some, length, take, IfOk, IsErr, IsTrue, OnErr, OnOk};
ghost use Rattle.fk_io.specs.Content.{Gained};
ghost use Rattle.fk_io.specs.Faults.{HasCause};
ghost use Rattle.fk_io.specs.SourceState.{is_listed};
ghost use Rattle.fk_io.specs.SinkState.{after_write, after_failure};

use crate::{Failed, Sink, raised};
use std::alloc::{AllocError, Global};
use std::marker::Model;

/// A sink in memory. It holds what was written, and fails at the calls that are listed.
#[derive(Drop)]
pub struct ByteSink {
    held: Vec<u8>,
    failing: Vec<u64>,
    calls: u64,
    faults: u64,
    starved: u64,
}

impl Model for ByteSink {
    ghost use Rattle.std.specs.Prelude.{◌≤◌};
    ghost use Rattle.fk_io.specs.Faults.{last_count};
    ghost use Rattle.fk_io.specs.SinkState.{SinkState};

    ghost Value = { SinkState };

    ghost view = { λ s. record {
      held = s.held.items;
      failing = s.failing.items;
      calls = s.calls;
      faults = s.faults;
      starved = s.starved;
    } };

    ghost invariant = { λ s. s.faults ≤ last_count };
}

impl ByteSink {
    /// A sink that holds nothing. The calls with the listed numbers, counted from 0, fail.
    pub fn new(alloc: Global, failing: &[u64]) -> Result<ByteSink, AllocError>
        ensures { IfOk result (λ sink. sink ≡ record {
          held = [];
          failing = failing.now;
          calls = 0;
          faults = 0;
          starved = 0;
        }) }
    {
        Ok(ByteSink {
            held: Vec::new(alloc),
            failing: Vec::from_slice(alloc, failing)?,
            calls: 0,
            faults: 0,
            starved: 0,
        })
    }

    /// What was written.
    pub fn bytes(&self) -> &[u8]
        ensures { result.now ≡ self.now.held }
    {
        &self.held
    }

    /// How many writes failed for want of memory, that is, without being listed.
    pub fn starved(&self) -> u64
        ensures { result ≡ self.now.starved }
    {
        self.starved
    }

    /// Whether the next call is one of those that fail.
    fn is_failing(&self) -> bool
        ensures { result ≡ is_listed self.now.failing self.now.calls }
    {
        let call = self.calls;
        self.failing.iter().any(|number| *number == call)
    }
}

impl Sink for ByteSink {
    ghost written = { λ s. record { held = Some s.held; faults = s.faults } };

    /// A listed call fails. Any other takes the whole piece, or fails for want of memory.
    fn put(&mut self, piece: &[u8]) -> Result<usize, Failed>
        ensures count { IfOk result (λ n. n ≤ length piece.now) }
        ensures some { piece.now ≢ [] → IfOk result (λ n. 1 ≤ n) }
        ensures gained { IfOk result (λ n.
            Gained (Some self.old.held) (take n piece.now) (Some self.new.held)) }
        ensures same { OnErr result (Some self.new.held ≡ Some self.old.held) }
        ensures cause { HasCause self.old.faults self.new.faults result }

        // Beyond what the trait says: which calls fail, that nothing is cut, and what is counted.
        ensures listed { IsTrue (is_listed self.old.failing self.old.calls) → IsErr result }
        ensures whole { IfOk result (λ n. n ≡ length piece.now) }
        ensures ok { OnOk result (self.new ≡ after_write self.old piece.now) }
        ensures err { OnErr result (self.new ≡ after_failure self.old) }
    {
        let fails = self.is_failing();
        self.calls = raised(self.calls);
        if fails {
            self.faults = raised(self.faults);
            return Err(Failed);
        }
        if self.held.extend_from_slice(piece).is_err() {
            self.starved = raised(self.starved);
            self.faults = raised(self.faults);
            return Err(Failed);
        }
        Ok(piece.len())
    }
}
