ghost use Rattle.std.specs.Prelude.{◌≡◌, [], IfOk};
ghost use Rattle.fk_disk.specs.Since.{IsImage, after_sync};
ghost use Rattle.fk_disk.specs.DiskState.{chosen};

mod effects;
mod serving;

use crate::Choice;
use crate::calls::Calls;
use crate::held::Held;
use crate::past::Past;
use crate::torn::torn;
use fk_json::Text;
use std::alloc::{AllocError, Global};

/// A file in memory. It fails at the calls that are listed, and otherwise only for want of memory. It
/// tells of its bytes, and a crash may leave all that the model of a disk allows.
#[derive(Drop)]
pub struct MemoryDisk {
    held: Held,
    past: Past,
    calls: Calls,
    alloc: Global,
}

impl MemoryDisk {
    ghost use Rattle.fk_disk.specs.Memory.{state_of};

    /// A file with these bytes, all of them synced. The calls with the listed numbers, counted from 0,
    /// fail: a write of them has written the first half of its bytes, rounded down, or nothing where
    /// it finds no memory, and the others did nothing.
    pub fn new(alloc: Global, bytes: &[u8], failing: &[u64]) -> Result<MemoryDisk, AllocError>
        ensures { IfOk result (λ disk. state_of disk ≡ record {
          content = bytes.now;
          since = after_sync bytes.now;
          past = [];
          calls = record { failing = failing.now; made = 0; faults = 0; starved = 0 };
        }) }
    {
        Ok(MemoryDisk {
            held: Held::new(alloc, bytes)?,
            past: Past::new(),
            calls: Calls::new(alloc, failing)?,
            alloc,
        })
    }

    /// How many calls failed for want of memory, that is, without being listed.
    pub fn starved(&self) -> u64
        ensures { result ≡ (state_of self.now).calls.starved }
    {
        self.calls.starved()
    }

    /// What a crash may leave, by choice.
    #[tactic(auto, using(crate::proofs::Tearing::images))]
    pub fn image(&self, choice: Choice) -> Result<Text, AllocError>
        ensures value { IfOk result (λ text. text ≡ chosen (state_of self.now) choice) }
        ensures left { IfOk result (λ text. IsImage (state_of self.now).since text) }
    {
        self.held.is_held();
        match choice {
            Choice::Old => Text::copy(self.alloc, self.held.trace.old()),
            Choice::New => Text::copy(self.alloc, &self.held.bytes),
            Choice::Torn => torn(self.alloc, &self.held.bytes, self.held.trace.marks()),
        }
    }
}
