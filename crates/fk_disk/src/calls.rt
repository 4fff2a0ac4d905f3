ghost use Rattle.std.specs.Prelude.{◌≡◌, ◌≤◌, IfOk, is_ok, not, OnErr, OnOk};
ghost use Rattle.fk_io.specs.Faults.{HasCause, Rose, last_count, one_more};
ghost use Rattle.fk_disk.specs.DiskState.{after_call, after_failure, fails};

use fk_io::{Failed, raised};
use std::alloc::{AllocError, Global};
use std::marker::Model;

/// Which calls of a disk in memory fail, and how often one was made and failed.
#[derive(Drop)]
pub(crate) struct Calls {
    failing: Vec<u64>,
    made: u64,
    faults: u64,
    starved: u64,
}

impl Model for Calls {
    ghost use Rattle.std.specs.Prelude.{◌≤◌};
    ghost use Rattle.fk_io.specs.Faults.{last_count};
    ghost use Rattle.fk_disk.specs.DiskState.{CallState};

    ghost Value = { CallState };

    ghost view = { λ calls. record {
      failing = calls.failing.items;
      made = calls.made;
      faults = calls.faults;
      starved = calls.starved;
    } };

    ghost invariant = { λ calls. calls.faults ≤ last_count };
}

impl Calls {
    /// No call was made yet. Those with the listed numbers, counted from 0, fail.
    pub(crate) fn new(alloc: Global, failing: &[u64]) -> Result<Calls, AllocError>
        ensures { IfOk result (λ calls. calls ≡ record {
          failing = failing.now;
          made = 0;
          faults = 0;
          starved = 0;
        }) }
    {
        Ok(Calls {
            failing: Vec::from_slice(alloc, failing)?,
            made: 0,
            faults: 0,
            starved: 0,
        })
    }

    /// Whether the next call is one of those that fail.
    fn is_failing(&self) -> bool
        ensures { result ≡ fails self.now }
    {
        let number = self.made;
        self.failing.iter().any(|listed| *listed == number)
    }

    /// Counts a call, which fails where it is listed.
    pub(crate) fn make(&mut self) -> Result<(), Failed>
        ensures listed { is_ok result ≡ not (fails self.old) }
        ensures ok { OnOk result (self.new ≡ after_call self.old) }
        ensures err { OnErr result (self.new ≡ after_failure self.old) }
        ensures cause { HasCause self.old.faults self.new.faults result }
    {
        let fails = self.is_failing();
        self.made = raised(self.made);
        if fails {
            self.faults = raised(self.faults);
            return Err(Failed);
        }
        Ok(())
    }

    /// The call that was made found no memory.
    pub(crate) fn starve(&mut self) -> Failed
        ensures counts { self.new ≡ record self.old {
          faults = one_more self.old.faults;
          starved = one_more self.old.starved;
        } }
        ensures later { self.old.faults ≤ self.new.faults }
        ensures within { self.new.faults ≤ last_count }
        ensures rose { Rose self.old.faults self.new.faults }
    {
        self.faults = raised(self.faults);
        self.starved = raised(self.starved);
        Failed
    }

    /// How often a call has failed.
    pub(crate) fn faults(&self) -> u64
        ensures { result ≡ self.now.faults }
    {
        self.faults
    }

    /// How often one has failed for want of memory.
    pub(crate) fn starved(&self) -> u64
        ensures { result ≡ self.now.starved }
    {
        self.starved
    }
}
