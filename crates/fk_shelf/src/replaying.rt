// What the files tell, part by part.
ghost use Rattle.std.specs.Prelude.{◌≡◌, ◌≢◌, ℕ, ◌+◌, ◌++◌, ◌≤◌, ◌<◌, length, take, drop, false, IsTrue, Err, Ok, None, Some, IfOk, OnErr, OnOk};
ghost use Rattle.fk_journal.specs.Causes.{HasFaultCause};
ghost use Rattle.fk_journal.specs.Faults.{IsUndamaged};
ghost use Rattle.fk_journal.specs.Limits.{overhead};
ghost use Rattle.fk_journal.specs.Pieces.{BeginWith, IsClosedAfter, IsDamagedAt, opened};
ghost use Rattle.fk_journal.specs.Reading.{OnlyReads};
ghost use Rattle.fk_journal.specs.declared.fault.Damage.{Damage as ADamage};
ghost use Rattle.fk_journal.specs.declared.fault.File.TheVariants.{A};
ghost use Rattle.fk_journal.specs.declared.fault.OpenFault.TheVariants.{Damaged, DiskFault};
ghost use Rattle.fk_journal.specs.declared.fault.Replay.TheVariants.{Done, Moves};
ghost use Rattle.fk_lives.specs.Files.{snapshot_at};

use crate::header::SNAPSHOT_AT;
use crate::shelf::Shelf;
use fk_disk::Disk;
use fk_journal::{OpenFault, Replay};
use fk_json::Buffer;

impl<D: Disk> Shelf<D> {
    /// Puts into the buffer, in the place of what it had, the moves of the snapshot, and in each call behind that
    /// those of the next piece, or comes to the end, at the closed gate. What the bytes spell isn't looked at. A piece
    /// that is cut, has a wrong number or one above the greatest is a damage, told at its gate's place, and so is a
    /// file that ends before a gate. After a refusal the buffer may hold anything, and the shelf stands where it
    /// stood.
    pub fn replay(&mut self, into: &mut Buffer) -> Result<Replay, OpenFault>
        ensures snapshot { (n : ℕ) → self.old.snapshot ≡ Some n → result ≡ Ok Moves →
            (self.new.snapshot ≡ None) × (self.new.at ≡ snapshot_at) × (length into.new.items ≡ n)
            × (self.new.live.place ≡ self.old.live.place) × (self.new.live.number ≡ self.old.live.number)
            × (self.new.live.done ≡ self.old.live.done)
            × (IsTrue (D.told self.old.live.disk) →
            (snapshot_at + n ≤ length (D.content self.old.live.disk))
            × (into.new.items ≡ take n (drop snapshot_at (D.content self.old.live.disk)))
            × (self.new.live.front ≡ self.old.live.front)) }
        ensures piece { self.old.snapshot ≡ None → result ≡ Ok Moves →
            (self.new.snapshot ≡ None) × (self.new.at ≡ self.old.live.place)
            × (self.new.live.place ≡ self.old.live.place + overhead + length into.new.items)
            × (self.new.live.number ≡ self.old.live.number + 1)
            × (self.new.live.done ≡ self.old.live.done)
            × (IsTrue (D.told self.old.live.disk) →
            BeginWith self.old.live.number into.new.items
            (drop self.old.live.place (D.content self.old.live.disk))
            × (self.new.live.front ≡ self.old.live.front
            ++ opened self.old.live.number into.new.items)) }
        ensures done { result ≡ Ok Done →
            IsTrue self.new.live.done × (self.new.snapshot ≡ None) × (self.new.at ≡ self.old.at)
            × (self.new.live.place ≡ self.old.live.place) × (self.new.live.number ≡ self.old.live.number)
            × (IsTrue (D.told self.old.live.disk) → self.new.live.front ≡ self.old.live.front) }
        ensures end { IsTrue (D.told self.old.live.disk) → result ≡ Ok Done → self.old.live.done ≡ false →
            IsClosedAfter self.old.live.front (D.content self.old.live.disk) }
        ensures again { IsTrue self.old.live.done → self.old.snapshot ≡ None →
            (result ≡ Ok Done) × (self.new ≡ self.old) }
        ensures err { OnErr result ((self.new.snapshot ≡ self.old.snapshot) × (self.new.at ≡ self.old.at)
            × (self.new.live.place ≡ self.old.live.place) × (self.new.live.number ≡ self.old.live.number)
            × (self.new.live.done ≡ self.old.live.done)
            × (IsTrue (D.told self.old.live.disk) → self.new.live.front ≡ self.old.live.front)) }
        ensures whole { (n : ℕ) → self.old.snapshot ≡ Some n →
            (result ≢ Ok Done) × ((damage : ADamage) → result ≢ Err (Damaged damage)) }
        ensures damaged { IsTrue (D.told self.old.live.disk) → (damage : ADamage) →
            self.old.snapshot ≡ None → result ≡ Err (Damaged damage) →
            (damage ≡ record { file = self.old.live.file; at = self.old.live.place })
            × IsDamagedAt self.old.live.number self.old.live.place (D.content self.old.live.disk) }
        ensures file { self.new.live.file ≡ self.old.live.file }
        ensures free { self.old.live.owed ≡ None → self.new.live.owed ≡ None }
        ensures generation { self.new.generation ≡ self.old.generation }
        ensures other { self.new.other ≡ self.old.other }
        ensures reads { OnlyReads (D.told self.old.live.disk) (D.told self.new.live.disk)
            (D.content self.old.live.disk) (D.content self.new.live.disk)
            (D.moment self.old.live.disk) (D.moment self.new.live.disk)
            (D.images self.old.live.disk) (D.images self.new.live.disk) }
        ensures cause { HasFaultCause (result ≡ Err DiskFault)
            (D.fault_count self.old.live.disk) (D.fault_count self.new.live.disk) }
    {
        match self.snapshot {
            Some(length) => self.replay_snapshot(length, into),
            None => self.replay_piece(into),
        }
    }

    /// The moves of the snapshot, which has so many bytes.
    fn replay_snapshot(&mut self, count: u64, into: &mut Buffer) -> Result<Replay, OpenFault>
        requires due { self.old.snapshot ≡ Some count }
        ensures replay { IfOk result (λ replay. replay ≡ Moves) }
        ensures snapshot { OnOk result (self.new.snapshot ≡ None) }
        ensures at { OnOk result (self.new.at ≡ snapshot_at) }
        ensures count { OnOk result (length into.new.items ≡ count) }
        ensures whole { IsTrue (D.told self.old.live.disk) →
            snapshot_at + count ≤ length (D.content self.old.live.disk) }
        ensures items { IsTrue (D.told self.old.live.disk) → OnOk result
            (into.new.items ≡ take count (drop snapshot_at (D.content self.old.live.disk))) }
        ensures front { IsTrue (D.told self.old.live.disk) → self.new.live.front ≡ self.old.live.front }
        ensures place { self.new.live.place ≡ self.old.live.place }
        ensures number { self.new.live.number ≡ self.old.live.number }
        ensures done { self.new.live.done ≡ self.old.live.done }
        ensures begun { self.old.live.done ≡ false }
        ensures err { IsUndamaged result }
        ensures err_snapshot { OnErr result (self.new.snapshot ≡ self.old.snapshot) }
        ensures err_at { OnErr result (self.new.at ≡ self.old.at) }
        ensures file { self.new.live.file ≡ self.old.live.file }
        ensures free { self.old.live.owed ≡ None → self.new.live.owed ≡ None }
        ensures generation { self.new.generation ≡ self.old.generation }
        ensures other { self.new.other ≡ self.old.other }
        ensures reads { OnlyReads (D.told self.old.live.disk) (D.told self.new.live.disk)
            (D.content self.old.live.disk) (D.content self.new.live.disk)
            (D.moment self.old.live.disk) (D.moment self.new.live.disk)
            (D.images self.old.live.disk) (D.images self.new.live.disk) }
        ensures cause { HasFaultCause (result ≡ Err DiskFault)
            (D.fault_count self.old.live.disk) (D.fault_count self.new.live.disk) }
    {
        self.live.read(SNAPSHOT_AT as u64, count as usize, into)?;
        self.snapshot = None;
        self.at = SNAPSHOT_AT as u64;
        Ok(Replay::Moves)
    }

    /// The moves of the next piece, or the end.
    fn replay_piece(&mut self, into: &mut Buffer) -> Result<Replay, OpenFault>
        requires none { self.old.snapshot ≡ None }
        ensures snapshot { self.new.snapshot ≡ None }
        ensures at { result ≡ Ok Moves → self.new.at ≡ self.old.live.place }
        ensures at_stays { result ≡ Ok Done → self.new.at ≡ self.old.at }
        ensures moves { IsTrue (D.told self.old.live.disk) → result ≡ Ok Moves →
            BeginWith self.old.live.number into.new.items
            (drop self.old.live.place (D.content self.old.live.disk)) }
        ensures front { IsTrue (D.told self.old.live.disk) → result ≡ Ok Moves →
            self.new.live.front ≡ self.old.live.front ++ opened self.old.live.number into.new.items }
        ensures place { result ≡ Ok Moves →
            self.new.live.place ≡ self.old.live.place + overhead + length into.new.items }
        ensures number { result ≡ Ok Moves → self.new.live.number ≡ self.old.live.number + 1 }
        ensures goes_on { result ≡ Ok Moves → self.new.live.done ≡ self.old.live.done }
        ensures end { IsTrue (D.told self.old.live.disk) → result ≡ Ok Done → self.old.live.done ≡ false →
            IsClosedAfter self.old.live.front (D.content self.old.live.disk) }
        ensures done { result ≡ Ok Done → IsTrue self.new.live.done }
        ensures place_stays { result ≡ Ok Done → self.new.live.place ≡ self.old.live.place }
        ensures number_stays { result ≡ Ok Done → self.new.live.number ≡ self.old.live.number }
        ensures front_stays { IsTrue (D.told self.old.live.disk) → result ≡ Ok Done →
            self.new.live.front ≡ self.old.live.front }
        ensures again { IsTrue self.old.live.done → result ≡ Ok Done }
        ensures same { IsTrue self.old.live.done → self.new ≡ self.old }
        ensures err_at { OnErr result (self.new.at ≡ self.old.at) }
        ensures err_place { OnErr result (self.new.live.place ≡ self.old.live.place) }
        ensures err_front { IsTrue (D.told self.old.live.disk) →
            OnErr result (self.new.live.front ≡ self.old.live.front) }
        ensures err_number { OnErr result (self.new.live.number ≡ self.old.live.number) }
        ensures err_done { OnErr result (self.new.live.done ≡ self.old.live.done) }
        ensures file { self.new.live.file ≡ self.old.live.file }
        ensures free { self.old.live.owed ≡ None → self.new.live.owed ≡ None }
        ensures damaged { IsTrue (D.told self.old.live.disk) → (damage : ADamage) →
            result ≡ Err (Damaged damage) →
            IsDamagedAt self.old.live.number self.old.live.place (D.content self.old.live.disk) }
        ensures damaged_at { (damage : ADamage) → result ≡ Err (Damaged damage) →
            damage ≡ record { file = self.old.live.file; at = self.old.live.place } }
        ensures generation { self.new.generation ≡ self.old.generation }
        ensures other { self.new.other ≡ self.old.other }
        ensures reads { OnlyReads (D.told self.old.live.disk) (D.told self.new.live.disk)
            (D.content self.old.live.disk) (D.content self.new.live.disk)
            (D.moment self.old.live.disk) (D.moment self.new.live.disk)
            (D.images self.old.live.disk) (D.images self.new.live.disk) }
        ensures cause { HasFaultCause (result ≡ Err DiskFault)
            (D.fault_count self.old.live.disk) (D.fault_count self.new.live.disk) }
    {
        let place = self.live.place();
        let replay = self.live.replay_next(into)?;
        if replay == Replay::Moves {
            self.at = place;
        }
        Ok(replay)
    }
}
