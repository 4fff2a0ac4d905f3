//! What the calls of a disk in memory do, without their counts.
ghost use Rattle.std.specs.Prelude.{◌≡◌, ◌+◌, ◌^◌, ◌<◌, ◌≤◌, [], ◌∷◌, ◌++◌, length, take, IsOk, OnErr, OnOk};
ghost use Rattle.fk_disk.specs.Steps.{CutsBack, Overwrites, Stays, overwritten};
ghost use Rattle.fk_disk.specs.Moments.{Elapses, LeavesAll, LeavesOnly};
ghost use Rattle.fk_disk.specs.Since.{after_cut, after_sync, after_write};

use crate::MemoryDisk;
use std::alloc::AllocError;

impl MemoryDisk {
    ghost use Rattle.fk_disk.specs.Memory.{content_of, images_in, moment_of, state_of};

    /// Writes a part of what is to be written, and counts the whole as written.
    #[tactic(auto, using(crate::proofs::MadeCalls::write_leaves_all))]
    pub(super) fn put(&mut self, at: usize, part: &[u8], count: usize) -> Result<(), AllocError>
        requires within { at ≤ length (content_of self.old) }
        requires part { length part.now ≤ count }
        requires range { at + count < 2 ^ 64 }
        ensures calls { (state_of self.new).calls ≡ (state_of self.old).calls }
        ensures ok { OnOk result
            (content_of self.new ≡ overwritten (content_of self.old) at part.now) }
        ensures err { OnErr result (content_of self.new ≡ content_of self.old) }
        ensures inside { at + length part.now ≤ length (content_of self.old) → IsOk result }
        ensures over { Overwrites at count (content_of self.old) (content_of self.new) }
        ensures trace { (state_of self.new).since ≡ after_write (state_of self.old).since at count }
        ensures past { (state_of self.new).past
            ≡ (state_of self.old).past ++ (state_of self.old).since ∷ [] }
        ensures since { Elapses (Overwrites at count) (moment_of self.old) (moment_of self.new)
            (images_in self.old) (images_in self.new) }
        ensures all { LeavesAll (Overwrites at count)
            (images_in self.old (moment_of self.old)) (images_in self.new (moment_of self.new)) }
    {
        self.past.pass(&self.held.trace);
        self.held.write(at, part, count)
    }

    /// Cuts the file to a length.
    #[tactic(auto, using(crate::proofs::MadeCalls::cut_leaves_all))]
    pub(super) fn shorten(&mut self, len: usize)
        requires within { len ≤ length (content_of self.old) }
        ensures calls { (state_of self.new).calls ≡ (state_of self.old).calls }
        ensures content { content_of self.new ≡ take len (content_of self.old) }
        ensures trace { (state_of self.new).since ≡ after_cut (state_of self.old).since len }
        ensures past { (state_of self.new).past
            ≡ (state_of self.old).past ++ (state_of self.old).since ∷ [] }
        ensures since { Elapses (CutsBack len) (moment_of self.old) (moment_of self.new)
            (images_in self.old) (images_in self.new) }
        ensures all { LeavesAll (CutsBack len)
            (images_in self.old (moment_of self.old)) (images_in self.new (moment_of self.new)) }
    {
        self.past.pass(&self.held.trace);
        self.held.cut(len);
    }

    /// Counts a cut as made that wasn't.
    #[tactic(auto, using(crate::proofs::MadeCalls::cut_leaves_all))]
    pub(super) fn fail_to_shorten(&mut self, len: usize)
        ensures calls { (state_of self.new).calls ≡ (state_of self.old).calls }
        ensures content { content_of self.new ≡ content_of self.old }
        ensures trace { (state_of self.new).since ≡ after_cut (state_of self.old).since len }
        ensures past { (state_of self.new).past
            ≡ (state_of self.old).past ++ (state_of self.old).since ∷ [] }
        ensures since { Elapses (CutsBack len) (moment_of self.old) (moment_of self.new)
            (images_in self.old) (images_in self.new) }
        ensures all { LeavesAll (CutsBack len)
            (images_in self.old (moment_of self.old)) (images_in self.new (moment_of self.new)) }
    {
        self.past.pass(&self.held.trace);
        self.held.fail_to_cut(len);
    }

    /// Makes sure of all bytes, or does nothing.
    #[tactic(auto, using(crate::proofs::MadeCalls::syncs))]
    pub(super) fn make_sure(&mut self) -> Result<(), AllocError>
        ensures calls { (state_of self.new).calls ≡ (state_of self.old).calls }
        ensures content { content_of self.new ≡ content_of self.old }
        ensures trace { OnOk result ((state_of self.new).since ≡ after_sync (content_of self.old)) }
        ensures past { OnOk result ((state_of self.new).past
            ≡ (state_of self.old).past ++ (state_of self.old).since ∷ []) }
        ensures since { OnOk result (Elapses Stays (moment_of self.old) (moment_of self.new)
            (images_in self.old) (images_in self.new)) }
        ensures only { OnOk result (LeavesOnly (content_of self.old)
            (images_in self.new (moment_of self.new))) }
        ensures same { OnErr result ((state_of self.new).since ≡ (state_of self.old).since) }
        ensures still { OnErr result ((state_of self.new).past ≡ (state_of self.old).past) }
    {
        let synced = self.held.synced(self.alloc)?;
        self.past.pass(&self.held.trace);
        self.held.settle(synced);
        Ok(())
    }
}
