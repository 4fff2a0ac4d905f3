ghost use Rattle.std.specs.Prelude.{◌≡◌, None, IfOk, IsTrue, OnOk};
ghost use Rattle.fk_journal.specs.Passing.{EachImage};
ghost use Rattle.fk_journal.specs.Pieces.{IsClosedAt};
ghost use Rattle.fk_journal.specs.Standing.{IsAtRest};

use crate::fault::Fault;
use crate::pieces::moves_of;
use crate::words::Size;
use fk_disk::Disk;
use fk_io::Failed;
use fk_journal::{File, Journal, frame};
use fk_json::Buffer;
use std::alloc::Global;

/// Appends so many pieces to a journal that begins with the disk's first byte, and hands the disk back.
pub(crate) fn append_all<D: Disk + Drop>(alloc: Global, disk: D, size: Size) -> Result<D, Fault> {
    let mut journal = begun(disk)?;
    let moves = moves_of(alloc, size.length)?;
    let mut piece = Buffer::new(alloc);
    'append: for _ in 0..size.count {
        append_next(&mut journal, &mut piece, &moves)?;
    }
    Ok(journal.finish())
}

/// A journal without pieces, on a disk that begins with it.
fn begun<D: Disk + Drop>(mut disk: D) -> Result<Journal<D>, Failed>
    ensures done { IfOk result (λ journal. IsTrue journal.done) }
    ensures free { IfOk result (λ journal. journal.owed ≡ None) }
    ensures stands { IfOk result (λ journal.
        EachImage (D.images journal.disk (D.moment journal.disk))
        (IsAtRest journal.front journal.owed)) }
{
    close_start(&mut disk)?;
    Ok(Journal::closed(disk, File::A, 0, 0))
}

/// Writes a closed gate over the first byte, and makes sure of it.
fn close_start<D: Disk>(disk: &mut D) -> Result<(), Failed>
    ensures { OnOk result (EachImage (D.images disk.new (D.moment disk.new)) (IsClosedAt 0)) }
{
    disk.write_at(0, &[0])?;
    disk.sync()
}

/// Appends one more piece, which is framed in the buffer first.
fn append_next<D: Disk>(
    journal: &mut Journal<D>,
    piece: &mut Buffer,
    moves: &[u8],
) -> Result<(), Fault>
    requires done { IsTrue journal.old.done }
    requires free { journal.old.owed ≡ None }
    requires stands { EachImage (D.images journal.old.disk (D.moment journal.old.disk))
        (IsAtRest journal.old.front journal.old.owed) }
    ensures done { OnOk result (IsTrue journal.new.done) }
    ensures free { OnOk result (journal.new.owed ≡ None) }
    ensures stands { OnOk result (EachImage (D.images journal.new.disk (D.moment journal.new.disk))
        (IsAtRest journal.new.front journal.new.owed)) }
{
    piece.clear();
    frame(piece, journal.number(), moves)?;
    journal.append(piece.bytes())?;
    Ok(())
}
