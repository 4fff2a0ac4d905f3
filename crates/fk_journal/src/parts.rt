ghost use Rattle.std.specs.Prelude.{◌≡◌, ◌+◌, ◌≤◌, length, IsTrue, OnErr, OnOk};
ghost use Rattle.fk_io.specs.Faults.{HasCause};
ghost use Rattle.fk_disk.specs.Steps.{Overwrites, overwritten};
ghost use Rattle.fk_disk.specs.Moments.{Elapses, LeavesOnly};

use fk_disk::Disk;
use fk_io::Failed;

/// Writes bytes over those from a place on, and makes sure of them.
#[tactic(auto, using(fk_disk::proofs::Overwriting::overwrites_whole))]
pub fn write_surely<D: Disk>(disk: &mut D, at: u64, bytes: &[u8]) -> Result<(), Failed>
    requires within { IsTrue (D.told disk.old) → at ≤ length (D.content disk.old) }
    ensures told { D.told disk.new ≡ D.told disk.old }
    ensures ok { IsTrue (D.told disk.old) → OnOk result
        (D.content disk.new ≡ overwritten (D.content disk.old) at bytes.now) }
    ensures sure { OnOk result (LeavesOnly (D.content disk.new) (D.images disk.new (D.moment disk.new))) }
    ensures since { Elapses (Overwrites at (length bytes.now)) (D.moment disk.old) (D.moment disk.new)
        (D.images disk.old) (D.images disk.new) }
    ensures over { IsTrue (D.told disk.old) →
        Overwrites at (length bytes.now) (D.content disk.old) (D.content disk.new) }
    ensures cause { HasCause (D.fault_count disk.old) (D.fault_count disk.new) result }
{
    disk.write_at(at, bytes)?;
    disk.sync()
}
