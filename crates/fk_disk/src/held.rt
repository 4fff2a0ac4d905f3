ghost use Rattle.std.specs.Prelude.{◌≡◌, ◌+◌, ◌^◌, ◌<◌, ◌≤◌, length, take, IfOk, IsOk, OnErr, OnOk};
ghost use Rattle.fk_disk.specs.Held.{IsHeld};
ghost use Rattle.fk_disk.specs.Since.{after_cut, after_sync, after_write};
ghost use Rattle.fk_disk.specs.Steps.{AreBytes, Overwrites, overwritten};

use crate::trace::Trace;
use std::alloc::{AllocError, Global};

/// A file in memory: what a read gives, and what was done to it since its last good sync.
#[derive(Drop)]
pub(crate) struct Held {
    pub(crate) bytes: Vec<u8>,
    pub(crate) trace: Trace,
    ghost held: { IsHeld bytes.items trace },
}

impl Held {
    /// A file with these bytes, that was synced.
    #[tactic(auto, using(crate::proofs::Synced::sync_holds))]
    pub(crate) fn new(alloc: Global, content: &[u8]) -> Result<Held, AllocError>
        ensures content { IfOk result (λ held. held.bytes.items ≡ content.now) }
        ensures trace { IfOk result (λ held. held.trace ≡ after_sync content.now) }
    {
        are_bytes(content);
        let bytes = Vec::from_slice(alloc, content)?;
        let trace = Trace::synced(alloc, content)?;
        Ok(Held { bytes, trace })
    }

    /// Writes a part of what is to be written, and counts the whole as written.
    pub(crate) fn write(&mut self, at: usize, part: &[u8], count: usize) -> Result<(), AllocError>
        requires within { at ≤ length self.old.bytes.items }
        requires part { length part.now ≤ count }
        requires range { at + count < 2 ^ 64 }
        ensures trace { self.new.trace ≡ after_write self.old.trace at count }
        ensures ok { OnOk result
            (self.new.bytes.items ≡ overwritten self.old.bytes.items at part.now) }
        ensures err { OnErr result (self.new.bytes.items ≡ self.old.bytes.items) }
        ensures inside { at + length part.now ≤ length self.old.bytes.items → IsOk result }
        ensures over { Overwrites at count self.old.bytes.items self.new.bytes.items }
        ensures held { IsHeld self.old.bytes.items self.old.trace }
    {
        let outcome = overwrite(&mut self.bytes, at, part, count);
        are_bytes(&self.bytes);
        self.trace.write(at, count);
        outcome
    }

    /// Cuts the file to a length.
    #[tactic(auto, using(crate::proofs::CutShort::cut_holds, crate::proofs::Cutting::cuts_whole))]
    pub(crate) fn cut(&mut self, len: usize)
        requires within { len ≤ length self.old.bytes.items }
        ensures content { self.new.bytes.items ≡ take len self.old.bytes.items }
        ensures trace { self.new.trace ≡ after_cut self.old.trace len }
        ensures held { IsHeld self.old.bytes.items self.old.trace }
    {
        self.bytes.truncate(len);
        are_bytes(&self.bytes);
        self.trace.cut(len);
    }

    /// Counts a cut as made that wasn't.
    #[tactic(auto, using(crate::proofs::CutShort::cut_holds, crate::proofs::Cutting::cuts_nothing))]
    pub(crate) fn fail_to_cut(&mut self, len: usize)
        ensures content { self.new.bytes.items ≡ self.old.bytes.items }
        ensures trace { self.new.trace ≡ after_cut self.old.trace len }
        ensures held { IsHeld self.old.bytes.items self.old.trace }
    {
        are_bytes(&self.bytes);
        self.trace.cut(len);
    }

    /// What holds of it.
    pub(crate) fn is_held(&self)
        ensures { IsHeld self.now.bytes.items self.now.trace }
    {
        let _ = self.bytes.len();
    }

    /// What will have been done after a good sync.
    pub(crate) fn synced(&self, alloc: Global) -> Result<Trace, AllocError>
        ensures { IfOk result (λ trace. trace ≡ after_sync self.now.bytes.items) }
    {
        Trace::synced(alloc, &self.bytes)
    }

    /// A good sync was made.
    #[tactic(auto, using(crate::proofs::Synced::sync_holds))]
    pub(crate) fn settle(&mut self, synced: Trace)
        requires { synced ≡ after_sync self.old.bytes.items }
        ensures content { self.new.bytes.items ≡ self.old.bytes.items }
        ensures trace { self.new.trace ≡ synced }
        ensures held { IsHeld self.old.bytes.items self.old.trace }
    {
        are_bytes(&self.bytes);
        self.trace = synced;
    }
}

/// Bytes are below 256.
fn are_bytes(bytes: &[u8])
    ensures { AreBytes bytes.now }
{
    let _ = bytes.len();
}

/// Puts bytes in the place of those from a place on, and past the end, or does nothing.
#[tactic(auto, using(crate::proofs::Overwriting::overwrites))]
fn overwrite(bytes: &mut Vec<u8>, at: usize, part: &[u8], count: usize) -> Result<(), AllocError>
    requires within { at ≤ length bytes.old.items }
    requires part { length part.now ≤ count }
    ensures ok { OnOk result (bytes.new.items ≡ overwritten bytes.old.items at part.now) }
    ensures err { OnErr result (bytes.new.items ≡ bytes.old.items) }
    ensures inside { at + length part.now ≤ length bytes.old.items → IsOk result }
    ensures over { Overwrites at count bytes.old.items bytes.new.items }
{
    let inside = part.len().min(bytes.len() - at);
    if inside < part.len() {
        bytes.extend_from_slice(&part[inside..])?;
    }
    bytes[at..at + inside].copy_from_slice(&part[..inside]);
    Ok(())
}
