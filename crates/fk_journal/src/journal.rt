ghost use Rattle.std.specs.Prelude.{◌≡◌, ◌⊎◌, ◌+◌, ◌≤◌, ◌<◌, ◌^◌, length, take, true, false, not, is_some, IsErr, IsOk, IsSome, IsTrue, Err, Ok, None, Some, OnErr, OnOk};
ghost use Rattle.fk_journal.specs.Causes.{HasFaultCause};
ghost use Rattle.fk_journal.specs.JournalState.{IsFullFor};
ghost use Rattle.fk_journal.specs.Limits.{greatest_file, greatest_number};
ghost use Rattle.fk_journal.specs.Passing.{EachImage, Passes};
ghost use Rattle.fk_journal.specs.Pieces.{Begins, HasGained, IsClosedAfter, IsClosedAt, IsFramed};
ghost use Rattle.fk_journal.specs.Standing.{IsAtRest, IsPrepared, IsWith, IsWithOrWithout};
ghost use Rattle.fk_journal.specs.declared.fault.Refused.TheVariants.{DiskFault, Full};

use crate::fault::{File, Refused};
use fk_disk::Disk;
use fk_io::Failed;
use std::marker::Model;

/// The most bytes of a file, up to its last piece and the closed gate behind it.
pub const GREATEST_FILE: u64 = 1 << 40;

/// The greatest number of a piece.
pub const GREATEST_NUMBER: u64 = 1 << 62;

/// One file of pieces. Each is replayed once, and then more are appended. Places are in bytes.
#[derive(Drop)]
pub struct Journal<D: Disk> {
    pub(crate) disk: D,
    pub(crate) file: File,
    /// Where the gate is at which replay stands, or the closed one behind the last piece.
    pub(crate) place: u64,
    /// The number of the next piece.
    pub(crate) number: u64,
    /// Whether replay came to the closed gate.
    pub(crate) done: bool,
    /// The length of the piece that is owed, if one is.
    pub(crate) owed: Option<usize>,
}

impl<D: Disk> Model for Journal<D> {
    ghost use Rattle.std.specs.Prelude.{◌+◌, ◌≤◌, take};
    ghost use Rattle.fk_journal.specs.Limits.{greatest_number};
    ghost use Rattle.fk_journal.specs.JournalState.{JournalState, owed_piece};

    ghost Value = { JournalState D };

    ghost view = { λ journal. record {
      disk = journal.disk;
      file = journal.file;
      place = journal.place;
      number = journal.number;
      done = journal.done;
      front = take journal.place (D.content journal.disk);
      owed = owed_piece (D.content journal.disk) journal.place journal.owed;
    } };

    ghost invariant = { λ journal. journal.number ≤ greatest_number + 1 };
}

impl<D: Disk> Journal<D> {
    /// A journal whose replay begins with the piece at a place, which has the number that follows the
    /// base. It calls nothing and takes no memory.
    pub fn over(disk: D, file: File, place: u64, base: u64) -> Journal<D>
        requires base { base ≤ greatest_number }
        ensures disk { result.disk ≡ disk }
        ensures file { result.file ≡ file }
        ensures place { result.place ≡ place }
        ensures number { result.number ≡ base + 1 }
        ensures begun { result.done ≡ false }
        ensures front { result.front ≡ take place (D.content disk) }
        ensures free { result.owed ≡ None }
    {
        Journal {
            disk,
            file,
            place,
            number: base + 1,
            done: false,
            owed: None,
        }
    }

    /// A journal whose replay was done at the closed gate at a place. The next piece has the number that
    /// follows the base. It calls nothing and takes no memory.
    pub fn closed(disk: D, file: File, place: u64, base: u64) -> Journal<D>
        requires base { base ≤ greatest_number }
        requires closed { EachImage (D.images disk (D.moment disk)) (IsClosedAt place) }
        ensures disk { result.disk ≡ disk }
        ensures file { result.file ≡ file }
        ensures place { result.place ≡ place }
        ensures number { result.number ≡ base + 1 }
        ensures done { result.done ≡ true }
        ensures front { result.front ≡ take place (D.content disk) }
        ensures free { result.owed ≡ None }
        ensures stands { EachImage (D.images disk (D.moment disk)) (Begins place result.front) →
            EachImage (D.images disk (D.moment disk)) (IsAtRest result.front result.owed) }
    {
        Journal {
            disk,
            file,
            place,
            number: base + 1,
            done: true,
            owed: None,
        }
    }

    /// The place of the gate at which replay stands, or of the closed one behind the last piece.
    pub fn place(&self) -> u64
        ensures { result ≡ self.now.place }
    {
        self.place
    }

    /// The number of the next piece.
    pub fn number(&self) -> u64
        ensures { result ≡ self.now.number }
    {
        self.number
    }

    /// Whether a piece is owed: it may count after a crash, and its gate is to be closed.
    pub fn owed(&self) -> bool
        ensures { result ≡ is_some self.now.owed }
    {
        self.owed.is_some()
    }

    /// How often a call of the disk has failed.
    pub fn faults(&self) -> u64
        ensures { result ≡ D.fault_count self.now.disk }
    {
        self.disk.faults()
    }

    /// Hands the disk back.
    pub fn finish(self) -> D
        ensures { result ≡ self.disk }
    {
        self.disk
    }

    /// Appends a framed piece with the next number behind the closed gate: it is made sure of there, and
    /// then its gate is opened. It takes no memory. `Full` is told before any call of the disk. After
    /// `DiskFault` the piece is owed where the writing of its gate had begun.
    pub fn append(&mut self, piece: &[u8]) -> Result<(), Refused>
        requires done { IsTrue self.old.done }
        requires free { self.old.owed ≡ None }
        requires framed { IsFramed self.old.number piece.now }
        requires stands { EachImage (D.images self.old.disk (D.moment self.old.disk))
            (IsAtRest self.old.front self.old.owed) }
        ensures since { Passes (IsWithOrWithout self.old.front piece.now)
            (D.moment self.old.disk) (D.moment self.new.disk)
            (D.images self.old.disk) (D.images self.new.disk) }
        ensures stands { EachImage (D.images self.new.disk (D.moment self.new.disk))
            (IsAtRest self.new.front self.new.owed) }
        ensures ok { OnOk result (EachImage (D.images self.new.disk (D.moment self.new.disk))
            (IsWith self.old.front piece.now)) }
        ensures gained { IsTrue (D.told self.old.disk) → OnOk result
            (HasGained self.old.number piece.now self.old.front self.new.front) }
        ensures place { OnOk result (self.new.place ≡ self.old.place + length piece.now) }
        ensures number { OnOk result (self.new.number ≡ self.old.number + 1) }
        ensures paid { OnOk result (self.new.owed ≡ None) }
        ensures front { IsTrue (D.told self.old.disk) →
            OnErr result (self.new.front ≡ self.old.front) }
        ensures owed { IsTrue (D.told self.old.disk) → OnErr result
            ((self.new.owed ≡ None) ⊎ (self.new.owed ≡ Some piece.now)) }
        ensures place_stays { OnErr result (self.new.place ≡ self.old.place) }
        ensures number_stays { OnErr result (self.new.number ≡ self.old.number) }
        ensures file { self.new.file ≡ self.old.file }
        ensures done { self.new.done ≡ self.old.done }
        ensures told { D.told self.new.disk ≡ D.told self.old.disk }
        ensures full { result ≡ Err Full →
            IsFullFor self.old.place self.old.number (length piece.now) }
        ensures room { IsFullFor self.old.place self.old.number (length piece.now) →
            result ≡ Err Full }
        ensures same { result ≡ Err Full → self.new ≡ self.old }
        ensures cause { HasFaultCause (result ≡ Err DiskFault)
            (D.fault_count self.old.disk) (D.fault_count self.new.disk) }
    {
        if self.is_full_for(piece.len()) {
            return Err(Refused::Full);
        }
        self.prepare(piece)?;
        self.open_gate(piece)?;
        Ok(())
    }

    /// Closes the gate of a piece that is owed, so that the piece doesn't count. It takes no memory, and
    /// with nothing owed it calls nothing. Where it fails the piece is still owed.
    pub fn settle(&mut self) -> Result<(), Failed>
        requires done { IsTrue self.old.done }
        requires stands { EachImage (D.images self.old.disk (D.moment self.old.disk))
            (IsAtRest self.old.front self.old.owed) }
        ensures since { Passes (IsAtRest self.old.front self.old.owed)
            (D.moment self.old.disk) (D.moment self.new.disk)
            (D.images self.old.disk) (D.images self.new.disk) }
        ensures stands { EachImage (D.images self.new.disk (D.moment self.new.disk))
            (IsAtRest self.new.front self.new.owed) }
        ensures ok { OnOk result (EachImage (D.images self.new.disk (D.moment self.new.disk))
            (IsClosedAfter self.old.front)) }
        ensures paid { OnOk result (self.new.owed ≡ None) }
        ensures front { IsTrue (D.told self.old.disk) → self.new.front ≡ self.old.front }
        ensures owed { OnErr result (IsSome self.new.owed) }
        ensures doubt { IsTrue (D.told self.old.disk) →
            OnErr result (self.new.owed ≡ self.old.owed) }
        ensures idle { self.old.owed ≡ None → IsOk result }
        ensures same { self.old.owed ≡ None → self.new ≡ self.old }
        ensures file { self.new.file ≡ self.old.file }
        ensures place { self.new.place ≡ self.old.place }
        ensures number { self.new.number ≡ self.old.number }
        ensures done { self.new.done ≡ self.old.done }
        ensures told { D.told self.new.disk ≡ D.told self.old.disk }
        ensures cause { HasFaultCause (IsErr result)
            (D.fault_count self.old.disk) (D.fault_count self.new.disk) }
    {
        if self.owed.is_none() {
            return Ok(());
        }
        self.close_gate()
    }

    /// Whether there is no place in the file, or no number, for a framed piece of this length.
    fn is_full_for(&self, count: usize) -> bool
        ensures full { IsTrue result → IsFullFor self.now.place self.now.number count }
        ensures place { result ≡ false → self.now.place + count + 1 ≤ greatest_file }
        ensures number { result ≡ false → self.now.number ≤ greatest_number }
    {
        let left = GREATEST_FILE.saturating_sub(self.place);
        left <= count as u64 || self.number > GREATEST_NUMBER
    }
}
