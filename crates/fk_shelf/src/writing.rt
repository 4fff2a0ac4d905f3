// Appending to the live file, and settling what is owed.
ghost use Rattle.std.specs.Prelude.{◌≡◌, ◌⊎◌, ◌+◌, ◌<◌, length, IsErr, IsOk, IsSome, IsTrue, Err, None, Some, OnErr, OnOk};
ghost use Rattle.fk_journal.specs.Causes.{HasFaultCause};
ghost use Rattle.fk_journal.specs.JournalState.{IsFullFor};
ghost use Rattle.fk_journal.specs.Passing.{EachImage, Passes};
ghost use Rattle.fk_journal.specs.Pieces.{HasGained, IsClosedAfter, IsFramed};
ghost use Rattle.fk_journal.specs.Standing.{IsAtRest, IsWith, IsWithOrWithout};
ghost use Rattle.fk_journal.specs.declared.fault.Refused.TheVariants as refusals;

use crate::shelf::Shelf;
use fk_disk::Disk;
use fk_io::Failed;
use fk_journal::Refused;

impl<D: Disk> Shelf<D> {
    /// Appends a framed piece with the next number behind the closed gate of the live file: it is made sure of
    /// there, and then its gate is opened. It takes no memory. `Full` is told before any call of a disk. After
    /// `DiskFault` the piece is owed where the writing of its gate had begun.
    pub fn append(&mut self, piece: &[u8]) -> Result<(), Refused>
        requires done { IsTrue self.old.live.done }
        requires free { self.old.live.owed ≡ None }
        requires framed { IsFramed self.old.live.number piece.now }
        ensures since { Passes (IsWithOrWithout self.old.live.front piece.now)
            (D.moment self.old.live.disk) (D.moment self.new.live.disk)
            (D.images self.old.live.disk) (D.images self.new.live.disk) }
        ensures ok { OnOk result
            (EachImage (D.images self.new.live.disk (D.moment self.new.live.disk))
            (IsWith self.old.live.front piece.now)) }
        ensures gained { IsTrue (D.told self.old.live.disk) → OnOk result
            (HasGained self.old.live.number piece.now self.old.live.front self.new.live.front) }
        ensures place { OnOk result (self.new.live.place ≡ self.old.live.place + length piece.now) }
        ensures number { OnOk result (self.new.live.number ≡ self.old.live.number + 1) }
        ensures paid { OnOk result (self.new.live.owed ≡ None) }
        ensures front { IsTrue (D.told self.old.live.disk) →
            OnErr result (self.new.live.front ≡ self.old.live.front) }
        ensures owed { IsTrue (D.told self.old.live.disk) → OnErr result
            ((self.new.live.owed ≡ None) ⊎ (self.new.live.owed ≡ Some piece.now)) }
        ensures place_stays { OnErr result (self.new.live.place ≡ self.old.live.place) }
        ensures number_stays { OnErr result (self.new.live.number ≡ self.old.live.number) }
        ensures done { self.new.live.done ≡ self.old.live.done }
        ensures snapshot { self.new.snapshot ≡ self.old.snapshot }
        ensures at { self.new.at ≡ self.old.at }
        ensures file { self.new.live.file ≡ self.old.live.file }
        ensures generation { self.new.generation ≡ self.old.generation }
        ensures other { self.new.other ≡ self.old.other }
        ensures told { D.told self.new.live.disk ≡ D.told self.old.live.disk }
        ensures full { result ≡ Err refusals.Full →
            IsFullFor self.old.live.place self.old.live.number (length piece.now) }
        ensures room { IsFullFor self.old.live.place self.old.live.number (length piece.now) →
            result ≡ Err refusals.Full }
        ensures same { result ≡ Err refusals.Full → self.new ≡ self.old }
        ensures cause { HasFaultCause (result ≡ Err refusals.DiskFault)
            (D.fault_count self.old.live.disk) (D.fault_count self.new.live.disk) }
    {
        self.live.append(piece)
    }

    /// Closes the gate of a piece that is owed, so that the piece doesn't count. It takes no memory, and with
    /// nothing owed it calls nothing. Where it fails the piece is still owed.
    pub fn settle(&mut self) -> Result<(), Failed>
        requires done { IsTrue self.old.live.done }
        ensures since { Passes (IsAtRest self.old.live.front self.old.live.owed)
            (D.moment self.old.live.disk) (D.moment self.new.live.disk)
            (D.images self.old.live.disk) (D.images self.new.live.disk) }
        ensures ok { OnOk result
            (EachImage (D.images self.new.live.disk (D.moment self.new.live.disk))
            (IsClosedAfter self.old.live.front)) }
        ensures paid { OnOk result (self.new.live.owed ≡ None) }
        ensures front { IsTrue (D.told self.old.live.disk) → self.new.live.front ≡ self.old.live.front }
        ensures owed { OnErr result (IsSome self.new.live.owed) }
        ensures doubt { IsTrue (D.told self.old.live.disk) →
            OnErr result (self.new.live.owed ≡ self.old.live.owed) }
        ensures idle { self.old.live.owed ≡ None → IsOk result }
        ensures same { self.old.live.owed ≡ None → self.new ≡ self.old }
        ensures place { self.new.live.place ≡ self.old.live.place }
        ensures number { self.new.live.number ≡ self.old.live.number }
        ensures done { self.new.live.done ≡ self.old.live.done }
        ensures snapshot { self.new.snapshot ≡ self.old.snapshot }
        ensures at { self.new.at ≡ self.old.at }
        ensures file { self.new.live.file ≡ self.old.live.file }
        ensures generation { self.new.generation ≡ self.old.generation }
        ensures other { self.new.other ≡ self.old.other }
        ensures told { D.told self.new.live.disk ≡ D.told self.old.live.disk }
        ensures cause { HasFaultCause (IsErr result)
            (D.fault_count self.old.live.disk) (D.fault_count self.new.live.disk) }
    {
        self.live.settle()
    }
}
