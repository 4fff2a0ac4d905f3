//! A disk in memory as a disk. Beyond what the trait says, each call says which number fails, and what is
//! kept of what was done.
ghost use Rattle.std.specs.Prelude.{◌≡◌, ◌⊎◌, ◌+◌, ◌/◌, ◌≤◌, [], ◌∷◌, ◌++◌, length, take, drop};
ghost use Rattle.std.specs.Prelude.{true, is_ok, not, refl, IfOk, IsErr, IsTrue, OnErr, OnOk};
ghost use Rattle.fk_io.specs.Faults.{HasCause};
ghost use Rattle.fk_disk.specs.Steps.{CutsBack, MayBeCut, Overwrites, Stays, overwritten};
ghost use Rattle.fk_disk.specs.Moments.{Elapses, LeavesAll, LeavesOnly};
ghost use Rattle.fk_disk.specs.Since.{after_cut, after_sync, after_write};
ghost use Rattle.fk_disk.specs.DiskState.{after_call, after_failure, fails};
ghost use Rattle.fk_disk.specs.Present.{bytes_of_image, image_at_present};

use crate::{Disk, MemoryDisk};
use fk_io::Failed;

impl Disk for MemoryDisk {
    ghost use Rattle.fk_disk.specs.Memory.{calls_of, content_of, images_in, moment_of, state_of};

    ghost told = { λ _. true };

    ghost content = { content_of };

    ghost moment = { moment_of };

    ghost images = { images_in };

    ghost fault_count = { λ disk. (calls_of disk).faults };

    ghost has_told = { λ disk at image is. refl };

    ghost has_bytes = { λ disk at image is. bytes_of_image _ image is };

    ghost has_content = { λ disk told.
        image_at_present disk.past disk.held.trace disk.held.bytes.items disk.held.held.read };

    #[tactic(auto, using(crate::proofs::Elapsing::nothing_done))]
    fn len(&mut self) -> Result<u64, Failed>
        ensures told { true ≡ true }
        ensures ok { IfOk result (λ n. n ≡ length (content_of self.old)) }
        ensures same { content_of self.new ≡ content_of self.old }
        ensures since { Elapses Stays
            (moment_of self.old) (moment_of self.new) (images_in self.old) (images_in self.new) }
        ensures all { LeavesAll Stays
            (images_in self.old (moment_of self.old)) (images_in self.new (moment_of self.new)) }
        ensures cause { HasCause (calls_of self.old).faults (calls_of self.new).faults result }
        ensures listed { is_ok result ≡ not (fails (calls_of self.old)) }
        ensures good { OnOk result (state_of self.new ≡
            record (state_of self.old) { calls = after_call (calls_of self.old) }) }
        ensures bad { OnErr result (state_of self.new ≡
            record (state_of self.old) { calls = after_failure (calls_of self.old) }) }
    {
        self.calls.make()?;
        Ok(self.held.bytes.len() as u64)
    }

    #[tactic(auto, using(crate::proofs::Elapsing::nothing_done))]
    fn read_at(&mut self, at: u64, into: &mut [u8]) -> Result<(), Failed>
        requires within { at + length into.old ≤ length (content_of self.old) }
        ensures told { true ≡ true }
        ensures ok { OnOk result
            (into.new ≡ take (length into.old) (drop at (content_of self.old))) }
        ensures same { content_of self.new ≡ content_of self.old }
        ensures since { Elapses Stays
            (moment_of self.old) (moment_of self.new) (images_in self.old) (images_in self.new) }
        ensures all { LeavesAll Stays
            (images_in self.old (moment_of self.old)) (images_in self.new (moment_of self.new)) }
        ensures cause { HasCause (calls_of self.old).faults (calls_of self.new).faults result }
        ensures listed { is_ok result ≡ not (fails (calls_of self.old)) }
        ensures good { OnOk result (state_of self.new ≡
            record (state_of self.old) { calls = after_call (calls_of self.old) }) }
        ensures bad { OnErr result (state_of self.new ≡
            record (state_of self.old) { calls = after_failure (calls_of self.old) }) }
    {
        self.calls.make()?;
        let at = at as usize;
        into.copy_from_slice(&self.held.bytes[at..at + into.len()]);
        Ok(())
    }

    fn write_at(&mut self, at: u64, bytes: &[u8]) -> Result<(), Failed>
        requires within { at ≤ length (content_of self.old) }
        ensures told { true ≡ true }
        ensures ok { OnOk result
            (content_of self.new ≡ overwritten (content_of self.old) at bytes.now) }
        ensures err { OnErr result
            (Overwrites at (length bytes.now) (content_of self.old) (content_of self.new)) }
        ensures since { Elapses (Overwrites at (length bytes.now))
            (moment_of self.old) (moment_of self.new) (images_in self.old) (images_in self.new) }
        ensures all { LeavesAll (Overwrites at (length bytes.now))
            (images_in self.old (moment_of self.old)) (images_in self.new (moment_of self.new)) }
        ensures cause { HasCause (calls_of self.old).faults (calls_of self.new).faults result }
        ensures listed { IsTrue (fails (calls_of self.old)) → IsErr result }
        ensures good { OnOk result (calls_of self.new ≡ after_call (calls_of self.old)) }
        ensures bad { OnErr result (calls_of self.new ≡ after_failure (calls_of self.old)) }
        ensures half { IsTrue (fails (calls_of self.old)) →
            at + length bytes.now / 2 ≤ length (content_of self.old) → content_of self.new
            ≡ overwritten (content_of self.old) at (take (length bytes.now / 2) bytes.now) }
        ensures noted { (state_of self.new).since
            ≡ after_write (state_of self.old).since at (length bytes.now) }
        ensures past { (state_of self.new).past
            ≡ (state_of self.old).past ++ (state_of self.old).since ∷ [] }
    {
        let at = at as usize;
        if let Err(failed) = self.calls.make() {
            let _ = self.put(at, &bytes[..bytes.len() / 2], bytes.len());
            return Err(failed);
        }
        if self.put(at, bytes, bytes.len()).is_err() {
            return Err(self.calls.starve());
        }
        Ok(())
    }

    fn cut(&mut self, len: u64) -> Result<(), Failed>
        requires within { len ≤ length (content_of self.old) }
        ensures told { true ≡ true }
        ensures ok { OnOk result
            (content_of self.new ≡ take len (content_of self.old)) }
        ensures err { OnErr result
            (MayBeCut len (content_of self.old) (content_of self.new)) }
        ensures since { Elapses (CutsBack len)
            (moment_of self.old) (moment_of self.new) (images_in self.old) (images_in self.new) }
        ensures all { LeavesAll (CutsBack len)
            (images_in self.old (moment_of self.old)) (images_in self.new (moment_of self.new)) }
        ensures cause { HasCause (calls_of self.old).faults (calls_of self.new).faults result }
        ensures listed { is_ok result ≡ not (fails (calls_of self.old)) }
        ensures good { OnOk result (calls_of self.new ≡ after_call (calls_of self.old)) }
        ensures bad { OnErr result (calls_of self.new ≡ after_failure (calls_of self.old)) }
        ensures still { OnErr result (content_of self.new ≡ content_of self.old) }
        ensures noted { (state_of self.new).since ≡ after_cut (state_of self.old).since len }
        ensures past { (state_of self.new).past
            ≡ (state_of self.old).past ++ (state_of self.old).since ∷ [] }
    {
        let len = len as usize;
        if let Err(failed) = self.calls.make() {
            self.fail_to_shorten(len);
            return Err(failed);
        }
        self.shorten(len);
        Ok(())
    }

    #[tactic(auto, using(crate::proofs::Elapsing::nothing_done))]
    fn sync(&mut self) -> Result<(), Failed>
        ensures told { true ≡ true }
        ensures ok { OnOk result
            (LeavesOnly (content_of self.new) (images_in self.new (moment_of self.new))) }
        ensures err { OnErr result (LeavesAll Stays
            (images_in self.old (moment_of self.old)) (images_in self.new (moment_of self.new))) }
        ensures same { content_of self.new ≡ content_of self.old }
        ensures since { Elapses Stays
            (moment_of self.old) (moment_of self.new) (images_in self.old) (images_in self.new) }
        ensures cause { HasCause (calls_of self.old).faults (calls_of self.new).faults result }
        ensures listed { IsTrue (fails (calls_of self.old)) → IsErr result }
        ensures good { OnOk result (calls_of self.new ≡ after_call (calls_of self.old)) }
        ensures bad { OnErr result (calls_of self.new ≡ after_failure (calls_of self.old)) }
        ensures noted { OnOk result
            ((state_of self.new).since ≡ after_sync (content_of self.old)) }
        ensures still { OnErr result ((state_of self.new).since ≡ (state_of self.old).since) }
    {
        self.calls.make()?;
        if self.make_sure().is_err() {
            return Err(self.calls.starve());
        }
        Ok(())
    }

    fn faults(&self) -> u64
        ensures { result ≡ (calls_of self.now).faults }
    {
        self.calls.faults()
    }
}
