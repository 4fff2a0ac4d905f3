// What is read of a file at a gate that is due.
ghost use Rattle.std.specs.Prelude.{◌≡◌, ◌+◌, ◌++◌, ◌^◌, ◌<◌, ◌≤◌, [], length, take, drop, IfOk, IsTrue, Err, OnOk};
ghost use Rattle.std.specs.Int.{w64, to_be_bytes};
ghost use Rattle.fk_io.specs.Faults.{HasCause};
ghost use Rattle.fk_journal.specs.Causes.{HasFaultCause};
ghost use Rattle.fk_journal.specs.Faults.{IsUndamaged};
ghost use Rattle.fk_journal.specs.Gates.{IsGate, IsHead, IsPlaced};
ghost use Rattle.fk_journal.specs.Reading.{OnlyReads};
ghost use Rattle.fk_journal.specs.declared.fault.OpenFault.TheVariants.{DiskFault};

use crate::fault::OpenFault;
use crate::framing::OPEN_GATE;
use fk_disk::Disk;
use fk_io::Failed;
use fk_json::Buffer;

/// The most bytes that are read at once.
const MOST_READ: usize = 4096;

/// What stands at a place where a gate is due.
#[derive(Clone, Copy)]
pub(crate) enum Gate {
    /// The file ends before it.
    Missing,
    /// Its byte isn't 1.
    Closed,
    /// Its byte is 1, and so many bytes stand behind it.
    Open(u64),
}

/// What stands behind the gate of a piece: its number, and the length of its moves in bytes.
#[derive(Clone, Copy)]
pub(crate) struct Head {
    pub(crate) number: u64,
    pub(crate) length: u64,
}

/// The gate at a place.
pub(crate) fn gate_at<D: Disk>(disk: &mut D, place: u64) -> Result<Gate, Failed>
    ensures ok { IsTrue (D.told disk.old) → IfOk result (IsGate place (D.content disk.old)) }
    ensures range { IfOk result (IsPlaced place) }
    ensures reads { OnlyReads (D.told disk.old) (D.told disk.new) (D.content disk.old) (D.content disk.new)
        (D.moment disk.old) (D.moment disk.new) (D.images disk.old) (D.images disk.new) }
    ensures cause { HasCause (D.fault_count disk.old) (D.fault_count disk.new) result }
{
    let len = disk.len()?;
    if len <= place {
        return Ok(Gate::Missing);
    }
    let mut gate = [0; 1];
    disk.read_at(place, &mut gate)?;
    if gate[0] != OPEN_GATE {
        return Ok(Gate::Closed);
    }
    Ok(Gate::Open(len - place - 1))
}

/// The number that is spelled in the eight bytes from a place on.
pub(crate) fn number_at<D: Disk>(disk: &mut D, at: u64) -> Result<u64, Failed>
    requires within { IsTrue (D.told disk.old) → at + 8 ≤ length (D.content disk.old) }
    ensures ok { IsTrue (D.told disk.old) → IfOk result (λ number.
        to_be_bytes w64 number ≡ take 8 (drop at (D.content disk.old))) }
    ensures reads { OnlyReads (D.told disk.old) (D.told disk.new) (D.content disk.old) (D.content disk.new)
        (D.moment disk.old) (D.moment disk.new) (D.images disk.old) (D.images disk.new) }
    ensures cause { HasCause (D.fault_count disk.old) (D.fault_count disk.new) result }
{
    let mut bytes = [0; 8];
    disk.read_at(at, &mut bytes)?;
    Ok(u64::from_be_bytes(bytes))
}

/// The number and the length that stand behind the gate of a piece, from a place on.
#[tactic(auto, using(crate::proofs::Readings::reads_then))]
pub(crate) fn head_at<D: Disk>(disk: &mut D, at: u64) -> Result<Head, Failed>
    requires range { at + 16 < 2 ^ 64 }
    requires within { IsTrue (D.told disk.old) → at + 16 ≤ length (D.content disk.old) }
    ensures ok { IsTrue (D.told disk.old) → IfOk result (IsHead at (D.content disk.old)) }
    ensures fits { IfOk result (λ head. head.number < 2 ^ 64) }
    ensures length { IfOk result (λ head. head.length < 2 ^ 64) }
    ensures reads { OnlyReads (D.told disk.old) (D.told disk.new) (D.content disk.old) (D.content disk.new)
        (D.moment disk.old) (D.moment disk.new) (D.images disk.old) (D.images disk.new) }
    ensures cause { HasCause (D.fault_count disk.old) (D.fault_count disk.new) result }
{
    let number = number_at(disk, at)?;
    let length = number_at(disk, at + 8)?;
    Ok(Head { number, length })
}

/// Puts bytes of the file behind those of a buffer, so many from a place on. They lie within the
/// length, and are read in pieces, once there is room for them all.
#[tactic(auto, using(crate::proofs::Taking::take_on, crate::proofs::Readings::reads_then))]
pub(crate) fn copy_into<D: Disk>(
    disk: &mut D,
    at: u64,
    count: usize,
    into: &mut Buffer,
) -> Result<(), OpenFault>
    requires empty { into.old.items ≡ [] }
    requires range { at + count < 2 ^ 64 }
    requires within { IsTrue (D.told disk.old) → at + count ≤ length (D.content disk.old) }
    ensures ok { IsTrue (D.told disk.old) → OnOk result
        (into.new.items ≡ take count (drop at (D.content disk.old))) }
    ensures count { OnOk result (length into.new.items ≡ count) }
    ensures reads { OnlyReads (D.told disk.old) (D.told disk.new) (D.content disk.old) (D.content disk.new)
        (D.moment disk.old) (D.moment disk.new) (D.images disk.old) (D.images disk.new) }
    ensures err { IsUndamaged result }
    ensures cause { HasFaultCause (result ≡ Err DiskFault)
        (D.fault_count disk.old) (D.fault_count disk.new) }
{
    into.reserve(count)?;
    let mut part = [0; MOST_READ];
    let mut copied = 0;
    while copied < count {
        let next = (count - copied).min(MOST_READ);
        copy_part(disk, at + copied as u64, &mut part[..next], into)?;
        copied += next;
    }
    Ok(())
}

/// Puts so many bytes behind those of a buffer as the part has, by which they are read.
fn copy_part<D: Disk>(
    disk: &mut D,
    at: u64,
    part: &mut [u8],
    into: &mut Buffer,
) -> Result<(), OpenFault>
    requires within { IsTrue (D.told disk.old) → at + length part.old ≤ length (D.content disk.old) }
    ensures ok { IsTrue (D.told disk.old) → OnOk result
        (into.new.items ≡ into.old.items ++ take (length part.old) (drop at (D.content disk.old))) }
    ensures count { OnOk result (length into.new.items ≡ length into.old.items + length part.old) }
    ensures reads { OnlyReads (D.told disk.old) (D.told disk.new) (D.content disk.old) (D.content disk.new)
        (D.moment disk.old) (D.moment disk.new) (D.images disk.old) (D.images disk.new) }
    ensures err { IsUndamaged result }
    ensures cause { HasFaultCause (result ≡ Err DiskFault)
        (D.fault_count disk.old) (D.fault_count disk.new) }
{
    disk.read_at(at, part)?;
    into.push_bytes(part)?;
    Ok(())
}
