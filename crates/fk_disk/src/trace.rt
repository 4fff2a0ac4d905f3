ghost use Rattle.std.specs.Prelude.{◌≡◌, ◌+◌, ◌^◌, ◌<◌, length, IfOk};
ghost use Rattle.fk_disk.specs.Since.{after_cut, after_sync, after_write, marked};

use std::alloc::{AllocError, Global};
use std::marker::Model;

/// What was done to a file since its last good sync.
#[derive(Drop)]
pub(crate) struct Trace {
    synced: Vec<u8>,
    written: Vec<bool>,
    least: usize,
    greatest: usize,
}

impl Model for Trace {
    ghost use Rattle.fk_disk.specs.Since.{Since};

    ghost Value = { Since };

    ghost view = { λ trace. record {
      synced = trace.synced.items;
      written = trace.written.items;
      least = trace.least;
      greatest = trace.greatest;
    } };
}

impl Trace {
    /// A file with these bytes was synced.
    pub(crate) fn synced(alloc: Global, content: &[u8]) -> Result<Trace, AllocError>
        ensures { IfOk result (λ trace. trace ≡ after_sync content.now) }
    {
        Ok(Trace {
            synced: Vec::from_slice(alloc, content)?,
            written: vec![in alloc; false; content.len()]?,
            least: content.len(),
            greatest: content.len(),
        })
    }

    /// A write of so many bytes at a place was begun.
    pub(crate) fn write(&mut self, at: usize, count: usize)
        requires { at + count < 2 ^ 64 }
        ensures { self.new ≡ after_write self.old at count }
    {
        mark(&mut self.written, at, count);
        self.greatest = self.greatest.max(at + count);
    }

    /// A cut to a length was begun.
    pub(crate) fn cut(&mut self, len: usize)
        ensures { self.new ≡ after_cut self.old len }
    {
        self.least = self.least.min(len);
    }

    /// The bytes of the last good sync.
    pub(crate) fn old(&self) -> &[u8]
        ensures { result.now ≡ self.now.synced }
    {
        &self.synced
    }

    /// Which of them were written since.
    pub(crate) fn marks(&self) -> &[bool]
        ensures { result.now ≡ self.now.written }
    {
        &self.written
    }
}

/// Sets the marks of a range, as far as there are marks.
fn mark(marks: &mut [bool], at: usize, count: usize)
    requires { at + count < 2 ^ 64 }
    ensures { marks.new ≡ marked marks.old at count }
{
    let from = at.min(marks.len());
    let to = (at + count).min(marks.len());
    marks[from..to].fill(true);
}
