// The first file, which is made by the steps of a snapshot. At each moment it is blank, or whole with its gate open.
ghost use Rattle.std.specs.Prelude.{◌≡◌, ◌<◌, ◌∷◌, [], length, true, false, Ok, IsTrue, OnOk};
ghost use Rattle.fk_io.specs.Faults.{HasCause};
ghost use Rattle.fk_disk.specs.Moments.{LeavesOnly};
ghost use Rattle.fk_journal.specs.Passing.{EachImage, Passes};
ghost use Rattle.fk_journal.specs.Pieces.{closed_gate};
ghost use Rattle.fk_lives.specs.Files.{IsBlank, new_file};
ghost use Rattle.fk_shelf.specs.Opening.{IsBlankOrNew};
ghost use Rattle.fk_shelf.specs.Making.{IsShort, shut_file};

use crate::header::SNAPSHOT_AT;
use fk_disk::Disk;
use fk_io::Failed;
use fk_journal::{CLOSED_GATE, OPEN_GATE, write_surely};

/// The header of a new file behind its gate: generation 1, no piece before it, and a snapshot of 25 bytes.
const NEW_HEADER: [u8; 33] = *b"FKJOURNL\x01\0\0\0\0\0\0\0\x01\0\0\0\0\0\0\0\0\0\0\0\0\0\0\0\x19";

/// Its snapshot, the one move that tells the numbers: 1 is the next, and nothing was done or failed.
const NEW_SNAPSHOT: [u8; 25] = *b"\x05\0\0\0\0\0\0\0\x01\0\0\0\0\0\0\0\0\0\0\0\0\0\0\0\0";

const HEADER_AT: u64 = 1;

/// The place of the closed gate behind the snapshot.
const GATE_AT: u64 = 59;

/// Makes the first file of a server in the place of a blank one.
pub(crate) fn make_first<D: Disk>(disk: &mut D) -> Result<(), Failed>
    requires blank { EachImage (D.images disk.old (D.moment disk.old)) IsBlank }
    ensures ok { IsTrue (D.told disk.old) → OnOk result (D.content disk.new ≡ new_file) }
    ensures sure { OnOk result (LeavesOnly (D.content disk.new) (D.images disk.new (D.moment disk.new))) }
    ensures since { Passes IsBlankOrNew (D.moment disk.old) (D.moment disk.new)
        (D.images disk.old) (D.images disk.new) }
    ensures told { D.told disk.new ≡ D.told disk.old }
    ensures cause { HasCause (D.fault_count disk.old) (D.fault_count disk.new) result }
{
    write_shut(disk)?;
    open_gate(disk)
}

/// Writes the new file, but with its own gate closed.
fn write_shut<D: Disk>(disk: &mut D) -> Result<(), Failed>
    requires blank { EachImage (D.images disk.old (D.moment disk.old)) IsBlank }
    ensures shut { OnOk result (LeavesOnly shut_file (D.images disk.new (D.moment disk.new))) }
    ensures since { Passes IsBlank (D.moment disk.old) (D.moment disk.new)
        (D.images disk.old) (D.images disk.new) }
    ensures told { D.told disk.new ≡ D.told disk.old }
    ensures cause { HasCause (D.fault_count disk.old) (D.fault_count disk.new) result }
{
    if is_long(disk)? {
        cut_to_gate(disk)?;
    }
    close_gate(disk)?;
    write_behind_gate(disk)
}

/// Makes sure of a blank file, and tells whether it has more than the byte of its gate.
fn is_long<D: Disk>(disk: &mut D) -> Result<bool, Failed>
    requires blank { EachImage (D.images disk.old (D.moment disk.old)) IsBlank }
    ensures short { result ≡ Ok false → EachImage (D.images disk.new (D.moment disk.new)) IsShort }
    ensures long { IsTrue (D.told disk.old) → result ≡ Ok true → 1 < length (D.content disk.new) }
    ensures since { Passes IsBlank (D.moment disk.old) (D.moment disk.new)
        (D.images disk.old) (D.images disk.new) }
    ensures told { D.told disk.new ≡ D.told disk.old }
    ensures cause { HasCause (D.fault_count disk.old) (D.fault_count disk.new) result }
{
    disk.sync()?;
    Ok(disk.len()? > 1)
}

/// Cuts a blank file to the byte of its gate, and makes sure of that.
fn cut_to_gate<D: Disk>(disk: &mut D) -> Result<(), Failed>
    requires blank { EachImage (D.images disk.old (D.moment disk.old)) IsBlank }
    requires long { IsTrue (D.told disk.old) → 1 < length (D.content disk.old) }
    ensures short { OnOk result (EachImage (D.images disk.new (D.moment disk.new)) IsShort) }
    ensures since { Passes IsBlank (D.moment disk.old) (D.moment disk.new)
        (D.images disk.old) (D.images disk.new) }
    ensures told { D.told disk.new ≡ D.told disk.old }
    ensures cause { HasCause (D.fault_count disk.old) (D.fault_count disk.new) result }
{
    disk.cut(1)?;
    disk.sync()
}

/// Leaves nothing but a closed gate in a file that has at most its byte.
fn close_gate<D: Disk>(disk: &mut D) -> Result<(), Failed>
    requires short { EachImage (D.images disk.old (D.moment disk.old)) IsShort }
    ensures closed { OnOk result (LeavesOnly (closed_gate ∷ []) (D.images disk.new (D.moment disk.new))) }
    ensures since { Passes IsBlank (D.moment disk.old) (D.moment disk.new)
        (D.images disk.old) (D.images disk.new) }
    ensures told { D.told disk.new ≡ D.told disk.old }
    ensures cause { HasCause (D.fault_count disk.old) (D.fault_count disk.new) result }
{
    write_surely(disk, 0, &[CLOSED_GATE])?;
    disk.cut(1)
}

/// Writes header, snapshot and a closed gate behind the file's own, which is closed, and makes sure of them.
fn write_behind_gate<D: Disk>(disk: &mut D) -> Result<(), Failed>
    requires closed { LeavesOnly (closed_gate ∷ []) (D.images disk.old (D.moment disk.old)) }
    ensures shut { OnOk result (LeavesOnly shut_file (D.images disk.new (D.moment disk.new))) }
    ensures since { Passes IsBlank (D.moment disk.old) (D.moment disk.new)
        (D.images disk.old) (D.images disk.new) }
    ensures told { D.told disk.new ≡ D.told disk.old }
    ensures cause { HasCause (D.fault_count disk.old) (D.fault_count disk.new) result }
{
    disk.write_at(HEADER_AT, &NEW_HEADER)?;
    disk.write_at(SNAPSHOT_AT as u64, &NEW_SNAPSHOT)?;
    write_surely(disk, GATE_AT, &[CLOSED_GATE])
}

/// Opens the gate of the file that was written with its gate closed, and makes sure of it.
fn open_gate<D: Disk>(disk: &mut D) -> Result<(), Failed>
    requires shut { LeavesOnly shut_file (D.images disk.old (D.moment disk.old)) }
    ensures ok { IsTrue (D.told disk.old) → OnOk result (D.content disk.new ≡ new_file) }
    ensures sure { OnOk result (LeavesOnly (D.content disk.new) (D.images disk.new (D.moment disk.new))) }
    ensures since { Passes IsBlankOrNew (D.moment disk.old) (D.moment disk.new)
        (D.images disk.old) (D.images disk.new) }
    ensures told { D.told disk.new ≡ D.told disk.old }
    ensures cause { HasCause (D.fault_count disk.old) (D.fault_count disk.new) result }
{
    write_surely(disk, 0, &[OPEN_GATE])
}
