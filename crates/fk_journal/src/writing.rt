// The two halves of an append: the piece is made sure of behind the closed gate, and then the gate is
// opened. And what closes a gate again.
ghost use Rattle.std.specs.Prelude.{◌≡◌, ◌+◌, ◌≤◌, length, IsTrue, None, Some, IsSome, OnErr, OnOk};
ghost use Rattle.fk_io.specs.Faults.{HasCause};
ghost use Rattle.fk_journal.specs.Limits.{greatest_file, greatest_number};
ghost use Rattle.fk_journal.specs.Passing.{EachImage, Passes};
ghost use Rattle.fk_journal.specs.Pieces.{HasGained, IsClosedAfter};
ghost use Rattle.fk_journal.specs.Standing.{IsAtRest, IsInDoubt, IsPrepared, IsWith, IsWithOrWithout};

use crate::framing::{CLOSED_GATE, OPEN_GATE};
use crate::journal::Journal;
use crate::parts::write_surely;
use fk_disk::Disk;
use fk_io::Failed;

impl<D: Disk> Journal<D> {
    /// Writes a framed piece behind the closed gate, and makes sure of it.
    pub(crate) fn prepare(&mut self, piece: &[u8]) -> Result<(), Failed>
        requires room { self.old.place + length piece.now + 1 ≤ greatest_file }
        requires free { self.old.owed ≡ None }
        requires closed { EachImage (D.images self.old.disk (D.moment self.old.disk))
            (IsClosedAfter self.old.front) }
        ensures since { Passes (IsClosedAfter self.old.front)
            (D.moment self.old.disk) (D.moment self.new.disk)
            (D.images self.old.disk) (D.images self.new.disk) }
        ensures ok { OnOk result (EachImage (D.images self.new.disk (D.moment self.new.disk))
            (IsPrepared self.old.front piece.now)) }
        ensures front { IsTrue (D.told self.old.disk) → self.new.front ≡ self.old.front }
        ensures free { self.new.owed ≡ None }
        ensures file { self.new.file ≡ self.old.file }
        ensures place { self.new.place ≡ self.old.place }
        ensures number { self.new.number ≡ self.old.number }
        ensures done { self.new.done ≡ self.old.done }
        ensures told { D.told self.new.disk ≡ D.told self.old.disk }
        ensures cause { HasCause (D.fault_count self.old.disk) (D.fault_count self.new.disk) result }
    {
        write_surely(&mut self.disk, self.place + 1, piece)
    }

    /// Opens the gate before a prepared piece, and makes sure of it. Where that fails the piece is owed.
    pub(crate) fn open_gate(&mut self, piece: &[u8]) -> Result<(), Failed>
        requires room { self.old.place + length piece.now + 1 ≤ greatest_file }
        requires number { self.old.number ≤ greatest_number }
        requires prepared { EachImage (D.images self.old.disk (D.moment self.old.disk))
            (IsPrepared self.old.front piece.now) }
        ensures since { Passes (IsInDoubt self.old.front piece.now)
            (D.moment self.old.disk) (D.moment self.new.disk)
            (D.images self.old.disk) (D.images self.new.disk) }
        ensures ok { OnOk result (EachImage (D.images self.new.disk (D.moment self.new.disk))
            (IsWith self.old.front piece.now)) }
        ensures gained { IsTrue (D.told self.old.disk) → OnOk result
            (HasGained self.old.number piece.now self.old.front self.new.front) }
        ensures front { IsTrue (D.told self.old.disk) →
            OnErr result (self.new.front ≡ self.old.front) }
        ensures paid { OnOk result (self.new.owed ≡ None) }
        ensures owed { OnErr result (IsSome self.new.owed) }
        ensures doubt { IsTrue (D.told self.old.disk) →
            OnErr result (self.new.owed ≡ Some piece.now) }
        ensures place { OnOk result (self.new.place ≡ self.old.place + length piece.now) }
        ensures place_stays { OnErr result (self.new.place ≡ self.old.place) }
        ensures raised { OnOk result (self.new.number ≡ self.old.number + 1) }
        ensures number_stays { OnErr result (self.new.number ≡ self.old.number) }
        ensures file { self.new.file ≡ self.old.file }
        ensures done { self.new.done ≡ self.old.done }
        ensures told { D.told self.new.disk ≡ D.told self.old.disk }
        ensures cause { HasCause (D.fault_count self.old.disk) (D.fault_count self.new.disk) result }
    {
        self.owed = Some(piece.len());
        write_surely(&mut self.disk, self.place, &[OPEN_GATE])?;
        self.owed = None;
        self.place += piece.len() as u64;
        self.number += 1;
        Ok(())
    }

    /// Closes the gate of the piece that is owed, and makes sure of it.
    pub(crate) fn close_gate(&mut self) -> Result<(), Failed>
        requires owed { IsSome self.old.owed }
        requires stands { EachImage (D.images self.old.disk (D.moment self.old.disk))
            (IsAtRest self.old.front self.old.owed) }
        ensures since { Passes (IsAtRest self.old.front self.old.owed)
            (D.moment self.old.disk) (D.moment self.new.disk)
            (D.images self.old.disk) (D.images self.new.disk) }
        ensures ok { OnOk result (EachImage (D.images self.new.disk (D.moment self.new.disk))
            (IsClosedAfter self.old.front)) }
        ensures front { IsTrue (D.told self.old.disk) → self.new.front ≡ self.old.front }
        ensures paid { OnOk result (self.new.owed ≡ None) }
        ensures owed { OnErr result (IsSome self.new.owed) }
        ensures doubt { IsTrue (D.told self.old.disk) →
            OnErr result (self.new.owed ≡ self.old.owed) }
        ensures file { self.new.file ≡ self.old.file }
        ensures place { self.new.place ≡ self.old.place }
        ensures number { self.new.number ≡ self.old.number }
        ensures done { self.new.done ≡ self.old.done }
        ensures told { D.told self.new.disk ≡ D.told self.old.disk }
        ensures cause { HasCause (D.fault_count self.old.disk) (D.fault_count self.new.disk) result }
    {
        write_surely(&mut self.disk, self.place, &[CLOSED_GATE])?;
        self.owed = None;
        Ok(())
    }
}
