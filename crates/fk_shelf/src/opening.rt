// What is looked at before a file is replayed.
ghost use Rattle.std.specs.Prelude.{◌≡◌, ◌≢◌, ◌+◌, ◌≤◌, ◌<◌, ◌^◌, length, min, take, false, Err, IfErr, IfOk, IsErr, IsTrue, OnErr, OnOk};
ghost use Rattle.fk_io.specs.Faults.{HasCause};
ghost use Rattle.fk_disk.specs.Moments.{LeavesOnly};
ghost use Rattle.fk_journal.specs.Causes.{HasFaultCause};
ghost use Rattle.fk_journal.specs.Limits.{greatest_number};
ghost use Rattle.fk_journal.specs.Passing.{EachImage, Passes};
ghost use Rattle.fk_journal.specs.Reading.{OnlyReads};
ghost use Rattle.fk_journal.specs.declared.fault.Damage.{Damage as ADamage};
ghost use Rattle.fk_journal.specs.declared.fault.File.TheVariants as files;
ghost use Rattle.fk_journal.specs.declared.fault.OpenFault.TheVariants.{Damaged, DiskFault, NoMemory};
ghost use Rattle.fk_lives.specs.Causes.{HasDiskCause};
ghost use Rattle.fk_lives.specs.Files.{IsBlank, snapshot_at};
ghost use Rattle.fk_lives.specs.Ways.{disks};
ghost use Rattle.fk_shelf.specs.Opening.{IsFound, IsFoundDamagedAt, IsOpened, IsOpeningDamage, IsReady, KeepFiles, MayBecome, StandOn};

use crate::header::{SNAPSHOT_AT, header_in};
use crate::making::make_first;
use fk_disk::Disk;
use fk_io::Failed;
use fk_journal::{Damage, File, OPEN_GATE, OpenFault};
use fk_lives::Header;

/// Makes sure of both files, makes the first one where both are blank, and reads the header of A.
pub(crate) fn prepare<D: Disk>(a: &mut D, b: &mut D) -> Result<Header, OpenFault>
    ensures opened { IsTrue (D.told a.old) → IsTrue (D.told b.old) → OnOk result
        (IsBlank (D.content b.old) × IsOpened (D.content a.old) (D.content a.new)) }
    ensures same { D.content b.new ≡ D.content b.old }
    ensures ready { IsTrue (D.told a.old) → IfOk result (λ header. IsReady header
        (take (snapshot_at + header.length) (D.content a.new)) (D.content a.new)) }
    ensures base { IfOk result (λ header. header.base ≤ greatest_number) }
    ensures range { IfOk result (λ header. snapshot_at + header.length < 2 ^ 64) }
    ensures sure { OnOk result (LeavesOnly (D.content a.new) (D.images a.new (D.moment a.new))) }
    ensures blank { OnOk result (EachImage (D.images b.new (D.moment b.new)) IsBlank) }
    ensures refused { IsTrue (D.told a.old) → IsTrue (D.told b.old) → OnErr result
        (KeepFiles (D.content a.old) (D.content b.old) (D.content a.new) (D.content b.new)) }
    ensures memory { result ≢ Err NoMemory }
    ensures damaged { IsTrue (D.told a.old) → IsTrue (D.told b.old) → (damage : ADamage) →
        result ≡ Err (Damaged damage) → IsOpeningDamage (D.content a.old) (D.content b.old) damage
        × (D.content a.new ≡ D.content a.old) × (D.content b.new ≡ D.content b.old) }
    ensures crash { StandOn (disks (D.moment a.old) (D.images a.old) (D.moment b.old) (D.images b.old))
        (disks (D.moment a.new) (D.images a.new) (D.moment b.new) (D.images b.new)) }
    ensures told_a { D.told a.new ≡ D.told a.old }
    ensures told_b { D.told b.new ≡ D.told b.old }
    ensures cause { HasDiskCause (result ≡ Err DiskFault) (D.fault_count a.old) (D.fault_count a.new)
        (D.fault_count b.old) (D.fault_count b.new) }
{
    make_sure(a, b)?;
    if !is_blank(b)? {
        return Err(damage(File::B, 0));
    }
    make_if_blank(a)?;
    read_header(a)
}

/// Makes sure of both files.
#[tactic(auto, using(crate::proofs::Opened::stand_a))]
fn make_sure<D: Disk>(a: &mut D, b: &mut D) -> Result<(), Failed>
    ensures sure_a { OnOk result (LeavesOnly (D.content a.new) (D.images a.new (D.moment a.new))) }
    ensures sure_b { OnOk result (LeavesOnly (D.content b.new) (D.images b.new (D.moment b.new))) }
    ensures same_a { D.content a.new ≡ D.content a.old }
    ensures same_b { D.content b.new ≡ D.content b.old }
    ensures crash { StandOn (disks (D.moment a.old) (D.images a.old) (D.moment b.old) (D.images b.old))
        (disks (D.moment a.new) (D.images a.new) (D.moment b.new) (D.images b.new)) }
    ensures told_a { D.told a.new ≡ D.told a.old }
    ensures told_b { D.told b.new ≡ D.told b.old }
    ensures cause { HasDiskCause (IsErr result) (D.fault_count a.old) (D.fault_count a.new)
        (D.fault_count b.old) (D.fault_count b.new) }
{
    a.sync()?;
    b.sync()
}

/// Whether a file is blank: it has at most one byte, or its own gate isn't open.
fn is_blank<D: Disk>(disk: &mut D) -> Result<bool, Failed>
    ensures yes { IsTrue (D.told disk.old) → IfOk result (λ blank. IsTrue blank → IsBlank (D.content disk.old)) }
    ensures no { IsTrue (D.told disk.old) → IfOk result (λ blank. blank ≡ false → ¬ IsBlank (D.content disk.old)) }
    ensures reads { OnlyReads (D.told disk.old) (D.told disk.new) (D.content disk.old) (D.content disk.new)
        (D.moment disk.old) (D.moment disk.new) (D.images disk.old) (D.images disk.new) }
    ensures cause { HasCause (D.fault_count disk.old) (D.fault_count disk.new) result }
{
    if disk.len()? <= 1 {
        return Ok(true);
    }
    let mut gate = [0; 1];
    disk.read_at(0, &mut gate)?;
    Ok(gate[0] != OPEN_GATE)
}

/// Makes the first file in the place of a blank one.
fn make_if_blank<D: Disk>(disk: &mut D) -> Result<(), Failed>
    requires sure { LeavesOnly (D.content disk.old) (D.images disk.old (D.moment disk.old)) }
    ensures opened { IsTrue (D.told disk.old) → OnOk result
        (IsOpened (D.content disk.old) (D.content disk.new)) }
    ensures sure { OnOk result (LeavesOnly (D.content disk.new) (D.images disk.new (D.moment disk.new))) }
    ensures since { Passes (MayBecome (D.content disk.old)) (D.moment disk.old) (D.moment disk.new)
        (D.images disk.old) (D.images disk.new) }
    ensures told { D.told disk.new ≡ D.told disk.old }
    ensures cause { HasCause (D.fault_count disk.old) (D.fault_count disk.new) result }
{
    if is_blank(disk)? {
        make_first(disk)?;
    }
    Ok(())
}

/// The header of a file, or the damage of its header, or of a snapshot that is cut.
fn read_header<D: Disk>(disk: &mut D) -> Result<Header, OpenFault>
    ensures ok { IsTrue (D.told disk.old) → IfOk result (λ header.
        IsFound header (length (D.content disk.old)) (D.content disk.old)) }
    ensures base { IfOk result (λ header. header.base ≤ greatest_number) }
    ensures range { IfOk result (λ header. snapshot_at + header.length < 2 ^ 64) }
    ensures damaged { IsTrue (D.told disk.old) → (damage : ADamage) → result ≡ Err (Damaged damage) →
        (damage ≡ record { file = files.A; at = damage.at })
        × IsFoundDamagedAt damage.at (length (D.content disk.old)) (D.content disk.old) }
    ensures memory { result ≢ Err NoMemory }
    ensures reads { OnlyReads (D.told disk.old) (D.told disk.new) (D.content disk.old) (D.content disk.new)
        (D.moment disk.old) (D.moment disk.new) (D.images disk.old) (D.images disk.new) }
    ensures cause { HasFaultCause (result ≡ Err DiskFault) (D.fault_count disk.old) (D.fault_count disk.new) }
{
    let mut head = [0; SNAPSHOT_AT];
    let len = disk.len()?;
    let count = len.min(SNAPSHOT_AT as u64) as usize;
    let part = &mut head[..count];
    disk.read_at(0, part)?;
    found_in(part, len)
}

/// The header in the first 34 bytes of a file of this length, of which there may be fewer, or the damage of the
/// header, or of a snapshot that is cut.
fn found_in(head: &[u8], len: u64) -> Result<Header, OpenFault>
    requires head { length head.now ≤ len }
    ensures ok { IfOk result (λ header. IsFound header len head.now) }
    ensures damaged { (damage : ADamage) → result ≡ Err (Damaged damage) →
        (damage ≡ record { file = files.A; at = damage.at }) × IsFoundDamagedAt damage.at len head.now }
    ensures memory { result ≢ Err NoMemory }
    ensures fault { result ≢ Err DiskFault }
{
    match header_in(head) {
        Ok(header) if header.length <= len.saturating_sub(SNAPSHOT_AT as u64) => Ok(header),
        Ok(_) => Err(damage(File::A, SNAPSHOT_AT as u64)),
        Err(at) => Err(damage(File::A, at as u64)),
    }
}

fn damage(file: File, at: u64) -> OpenFault
    ensures { result ≡ Damaged (record { file = file; at = at }) }
{
    OpenFault::Damaged(Damage { file, at })
}
