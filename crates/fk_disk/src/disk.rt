ghost use Rattle.std.specs.Prelude.{◌≡◌, ◌+◌, ◌≤◌, ℕ, Bool, List, length, take, drop, IfOk, IsTrue, OnErr, OnOk};
ghost use Rattle.fk_io.specs.Faults.{HasCause};
ghost use Rattle.fk_disk.specs.Steps.{AreBytes, Overwrites, CutsBack, MayBeCut, Stays, overwritten};
ghost use Rattle.fk_disk.specs.Moments.{Elapses, LeavesAll, LeavesOnly};

use fk_io::Failed;

/// A file, and what a crash may leave of it. Lengths and places are in bytes. Each call answers
/// `Failed` only where the count of faults rose in it, or stands at its end.
pub trait Disk {
    /// Whether it tells of its bytes. A real file tells nothing: what the clauses say of its content
    /// has no meaning there, and it has no images.
    ghost told: { Self → Bool };

    /// What a read gives now.
    ghost content: { Self → List ℕ };

    /// Its own moment, a number that each call raises or keeps.
    ghost moment: { Self → ℕ };

    /// What a crash may leave at one of its moments, up to this one. Those of a moment never change.
    ghost images: { Self → ℕ → List ℕ → Type 0 };

    /// How often a call has failed.
    ghost fault_count: { Self → ℕ };

    /// The length in bytes.
    fn len(&mut self) -> Result<u64, Failed>
        ensures told { told self.new ≡ told self.old }
        ensures ok { IsTrue (told self.old) → IfOk result (λ n. n ≡ length (content self.old)) }
        ensures same { content self.new ≡ content self.old }
        ensures since { Elapses Stays
            (moment self.old) (moment self.new) (images self.old) (images self.new) }
        ensures all { LeavesAll Stays
            (images self.old (moment self.old)) (images self.new (moment self.new)) }
        ensures cause { HasCause (fault_count self.old) (fault_count self.new) result };

    /// Reads bytes from a place on, as many as `into` has. They lie within the length. After a failure
    /// nothing is said of the buffer.
    fn read_at(&mut self, at: u64, into: &mut [u8]) -> Result<(), Failed>
        requires within { IsTrue (told self.old) →
            at + length into.old ≤ length (content self.old) }
        ensures told { told self.new ≡ told self.old }
        ensures ok { IsTrue (told self.old) → OnOk result
            (into.new ≡ take (length into.old) (drop at (content self.old))) }
        ensures same { content self.new ≡ content self.old }
        ensures since { Elapses Stays
            (moment self.old) (moment self.new) (images self.old) (images self.new) }
        ensures all { LeavesAll Stays
            (images self.old (moment self.old)) (images self.new (moment self.new)) }
        ensures cause { HasCause (fault_count self.old) (fault_count self.new) result };

    /// Writes bytes from a place on, over those that are there and past the end. The place is at
    /// most the length. A write that failed may have written anything within its range.
    fn write_at(&mut self, at: u64, bytes: &[u8]) -> Result<(), Failed>
        requires within { IsTrue (told self.old) → at ≤ length (content self.old) }
        ensures told { told self.new ≡ told self.old }
        ensures ok { IsTrue (told self.old) → OnOk result
            (content self.new ≡ overwritten (content self.old) at bytes.now) }
        ensures err { IsTrue (told self.old) → OnErr result
            (Overwrites at (length bytes.now) (content self.old) (content self.new)) }
        ensures since { Elapses (Overwrites at (length bytes.now))
            (moment self.old) (moment self.new) (images self.old) (images self.new) }
        ensures all { LeavesAll (Overwrites at (length bytes.now))
            (images self.old (moment self.old)) (images self.new (moment self.new)) }
        ensures cause { HasCause (fault_count self.old) (fault_count self.new) result };

    /// Cuts the file to a length, at most its own. A cut that failed may have been made or not.
    fn cut(&mut self, len: u64) -> Result<(), Failed>
        requires within { IsTrue (told self.old) → len ≤ length (content self.old) }
        ensures told { told self.new ≡ told self.old }
        ensures ok { IsTrue (told self.old) → OnOk result
            (content self.new ≡ take len (content self.old)) }
        ensures err { IsTrue (told self.old) → OnErr result
            (MayBeCut len (content self.old) (content self.new)) }
        ensures since { Elapses (CutsBack len)
            (moment self.old) (moment self.new) (images self.old) (images self.new) }
        ensures all { LeavesAll (CutsBack len)
            (images self.old (moment self.old)) (images self.new (moment self.new)) }
        ensures cause { HasCause (fault_count self.old) (fault_count self.new) result };

    /// Makes sure of all bytes: after it a crash leaves what a read gives. A sync that failed makes
    /// sure of nothing.
    fn sync(&mut self) -> Result<(), Failed>
        ensures told { told self.new ≡ told self.old }
        ensures ok { OnOk result
            (LeavesOnly (content self.new) (images self.new (moment self.new))) }
        ensures err { OnErr result (LeavesAll Stays
            (images self.old (moment self.old)) (images self.new (moment self.new))) }
        ensures same { content self.new ≡ content self.old }
        ensures since { Elapses Stays
            (moment self.old) (moment self.new) (images self.old) (images self.new) }
        ensures cause { HasCause (fault_count self.old) (fault_count self.new) result };

    /// The count of faults. It calls nothing, so it can't fail and changes nothing.
    fn faults(&self) -> u64
        ensures { result ≡ fault_count self.now };

    /// Only a file that tells of its bytes has images.
    ghost has_told: { (disk : Self) (at : ℕ) (image : List ℕ) →
        images disk at image → IsTrue (told disk) };

    /// An image is made of bytes.
    ghost has_bytes: { (disk : Self) (at : ℕ) (image : List ℕ) →
        images disk at image → AreBytes image };

    /// What a read gives is one of the images.
    ghost has_content: { (disk : Self) →
        IsTrue (told disk) → images disk (moment disk) (content disk) };
}
