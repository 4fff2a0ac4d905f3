ghost use Rattle.std.specs.Prelude.{◌≡◌, ◌+◌, ◌++◌, ◌^◌, ◌<◌, ◌≤◌, [], length, take, drop, true, false, IsTrue, Err, Ok, None, IfOk, OnErr, OnOk};
ghost use Rattle.fk_journal.specs.Causes.{HasFaultCause};
ghost use Rattle.fk_journal.specs.Faults.{IsUndamaged};
ghost use Rattle.fk_journal.specs.Gates.{IsGate, IsWrong};
ghost use Rattle.fk_journal.specs.Limits.{greatest_number, overhead};
ghost use Rattle.fk_journal.specs.Pieces.{BeginWith, IsClosedAfter, IsDamagedAt, opened};
ghost use Rattle.fk_journal.specs.Reading.{OnlyReads};
ghost use Rattle.fk_journal.specs.declared.fault.Damage.{Damage};
ghost use Rattle.fk_journal.specs.declared.fault.OpenFault.TheVariants.{Damaged, DiskFault};
ghost use Rattle.fk_journal.specs.declared.fault.Replay.TheVariants.{Done, Moves};
ghost use Rattle.fk_journal.specs.declared.reading.Gate.TheVariants.{Open};

use crate::fault::{Damage, OpenFault, Replay};
use crate::journal::{GREATEST_NUMBER, Journal};
use crate::reading::{Gate, Head, copy_into, gate_at, head_at};
use fk_disk::Disk;
use fk_json::Buffer;

/// The bytes of a number and a length.
const HEAD: u64 = 16;

impl<D: Disk> Journal<D> {
    /// Puts so many bytes from a place on into the buffer, in the place of what it had. They lie within the
    /// length. The journal stands where it stood. After a refusal the buffer may hold anything.
    pub fn read(&mut self, at: u64, count: usize, into: &mut Buffer) -> Result<(), OpenFault>
        requires range { at + count < 2 ^ 64 }
        requires within { IsTrue (D.told self.old.disk) →
            at + count ≤ length (D.content self.old.disk) }
        ensures ok { IsTrue (D.told self.old.disk) → OnOk result
            (into.new.items ≡ take count (drop at (D.content self.old.disk))) }
        ensures count { OnOk result (length into.new.items ≡ count) }
        ensures front { IsTrue (D.told self.old.disk) → self.new.front ≡ self.old.front }
        ensures place { self.new.place ≡ self.old.place }
        ensures number { self.new.number ≡ self.old.number }
        ensures done { self.new.done ≡ self.old.done }
        ensures file { self.new.file ≡ self.old.file }
        ensures free { self.old.owed ≡ None → self.new.owed ≡ None }
        ensures err { IsUndamaged result }
        ensures reads { OnlyReads (D.told self.old.disk) (D.told self.new.disk)
            (D.content self.old.disk) (D.content self.new.disk)
            (D.moment self.old.disk) (D.moment self.new.disk)
            (D.images self.old.disk) (D.images self.new.disk) }
        ensures cause { HasFaultCause (result ≡ Err DiskFault)
            (D.fault_count self.old.disk) (D.fault_count self.new.disk) }
    {
        into.clear();
        copy_into(&mut self.disk, at, count, into)
    }

    /// Puts the moves of the next piece into the buffer, in the place of what it had, or comes to the end:
    /// a gate byte that isn't 1, behind which nothing is read. A piece that is cut, has a wrong number or
    /// one above the greatest is a damage, told at its gate's place, and so is a file that ends before a
    /// gate. The file is read in pieces, and a length is looked at before memory for it is taken. After a
    /// refusal the buffer may hold anything.
    #[tactic(auto, using(crate::proofs::Readings::reads_then))]
    pub fn replay_next(&mut self, into: &mut Buffer) -> Result<Replay, OpenFault>
        ensures moves { IsTrue (D.told self.old.disk) → result ≡ Ok Moves →
            BeginWith self.old.number into.new.items
            (drop self.old.place (D.content self.old.disk)) }
        ensures front { IsTrue (D.told self.old.disk) → result ≡ Ok Moves →
            self.new.front ≡ self.old.front ++ opened self.old.number into.new.items }
        ensures place { result ≡ Ok Moves →
            self.new.place ≡ self.old.place + overhead + length into.new.items }
        ensures number { result ≡ Ok Moves → self.new.number ≡ self.old.number + 1 }
        ensures goes_on { result ≡ Ok Moves → self.new.done ≡ self.old.done }
        ensures end { IsTrue (D.told self.old.disk) → result ≡ Ok Done → self.old.done ≡ false →
            IsClosedAfter self.old.front (D.content self.old.disk) }
        ensures done { result ≡ Ok Done → IsTrue self.new.done }
        ensures place_stays { result ≡ Ok Done → self.new.place ≡ self.old.place }
        ensures number_stays { result ≡ Ok Done → self.new.number ≡ self.old.number }
        ensures front_stays { IsTrue (D.told self.old.disk) → result ≡ Ok Done →
            self.new.front ≡ self.old.front }
        ensures within { result ≡ Ok Done → self.old.done ≡ false → self.new.place + 1 < 2 ^ 64 }
        ensures again { IsTrue self.old.done → result ≡ Ok Done }
        ensures same { IsTrue self.old.done → self.new ≡ self.old }
        ensures err_place { OnErr result (self.new.place ≡ self.old.place) }
        ensures err_front { IsTrue (D.told self.old.disk) →
            OnErr result (self.new.front ≡ self.old.front) }
        ensures err_number { OnErr result (self.new.number ≡ self.old.number) }
        ensures err_done { OnErr result (self.new.done ≡ self.old.done) }
        ensures file { self.new.file ≡ self.old.file }
        ensures free { self.old.owed ≡ None → self.new.owed ≡ None }
        ensures damaged { IsTrue (D.told self.old.disk) → (damage : Damage) →
            result ≡ Err (Damaged damage) →
            IsDamagedAt self.old.number self.old.place (D.content self.old.disk) }
        ensures at { (damage : Damage) → result ≡ Err (Damaged damage) →
            damage ≡ record { file = self.old.file; at = self.old.place } }
        ensures reads { OnlyReads (D.told self.old.disk) (D.told self.new.disk)
            (D.content self.old.disk) (D.content self.new.disk)
            (D.moment self.old.disk) (D.moment self.new.disk)
            (D.images self.old.disk) (D.images self.new.disk) }
        ensures cause { HasFaultCause (result ≡ Err DiskFault)
            (D.fault_count self.old.disk) (D.fault_count self.new.disk) }
    {
        into.clear();
        if self.done {
            return Ok(Replay::Done);
        }
        match gate_at(&mut self.disk, self.place)? {
            Gate::Missing => Err(self.damage()),
            Gate::Closed => {
                self.done = true;
                Ok(Replay::Done)
            }
            Gate::Open(left) => self.replay_piece(left, into),
        }
    }

    /// The piece behind an open gate, behind which so many bytes are left.
    #[tactic(auto, using(crate::proofs::Readings::reads_then))]
    fn replay_piece(&mut self, left: u64, into: &mut Buffer) -> Result<Replay, OpenFault>
        requires begun { self.old.done ≡ false }
        requires empty { into.old.items ≡ [] }
        requires range { self.old.place + 1 + left < 2 ^ 64 }
        requires gate { IsTrue (D.told self.old.disk) →
            IsGate self.old.place (D.content self.old.disk) (Open left) }
        ensures moves { IsTrue (D.told self.old.disk) → OnOk result
            (BeginWith self.old.number into.new.items
            (drop self.old.place (D.content self.old.disk))) }
        ensures front { IsTrue (D.told self.old.disk) → OnOk result
            (self.new.front ≡ self.old.front ++ opened self.old.number into.new.items) }
        ensures front_stays { IsTrue (D.told self.old.disk) →
            OnErr result (self.new.front ≡ self.old.front) }
        ensures replay { IfOk result (λ replay. replay ≡ Moves) }
        ensures place { OnOk result
            (self.new.place ≡ self.old.place + overhead + length into.new.items) }
        ensures number { OnOk result (self.new.number ≡ self.old.number + 1) }
        ensures done { self.new.done ≡ false }
        ensures file { self.new.file ≡ self.old.file }
        ensures place_stays { OnErr result (self.new.place ≡ self.old.place) }
        ensures number_stays { OnErr result (self.new.number ≡ self.old.number) }
        ensures free { self.old.owed ≡ None → self.new.owed ≡ None }
        ensures damaged { IsTrue (D.told self.old.disk) → (damage : Damage) →
            result ≡ Err (Damaged damage) →
            IsDamagedAt self.old.number self.old.place (D.content self.old.disk) }
        ensures at { (damage : Damage) → result ≡ Err (Damaged damage) →
            damage ≡ record { file = self.old.file; at = self.old.place } }
        ensures reads { OnlyReads (D.told self.old.disk) (D.told self.new.disk)
            (D.content self.old.disk) (D.content self.new.disk)
            (D.moment self.old.disk) (D.moment self.new.disk)
            (D.images self.old.disk) (D.images self.new.disk) }
        ensures cause { HasFaultCause (result ≡ Err DiskFault)
            (D.fault_count self.old.disk) (D.fault_count self.new.disk) }
    {
        if left < HEAD {
            return Err(self.damage());
        }
        let head = head_at(&mut self.disk, self.place + 1)?;
        if self.is_wrong(&head, left) {
            return Err(self.damage());
        }
        let moves = self.place + 1 + HEAD;
        copy_into(&mut self.disk, moves, head.length as usize, into)?;
        self.place = moves + head.length;
        self.number += 1;
        Ok(Replay::Moves)
    }

    /// Whether this isn't the head of the next piece, where so many bytes are left behind the gate.
    fn is_wrong(&self, head: &Head, left: u64) -> bool
        requires left { 16 ≤ left }
        ensures wrong { IsTrue result → IsWrong self.now.number left head.now }
        ensures number { result ≡ false → head.now.number ≡ self.now.number }
        ensures within { result ≡ false → self.now.number ≤ greatest_number }
        ensures length { result ≡ false → 16 + head.now.length ≤ left }
    {
        head.number != self.number || head.number > GREATEST_NUMBER || head.length > left - HEAD
    }

    /// The file is damaged at the gate that is due.
    fn damage(&self) -> OpenFault
        ensures { result ≡ Damaged (record { file = self.now.file; at = self.now.place }) }
    {
        OpenFault::Damaged(Damage {
            file: self.file,
            at: self.place,
        })
    }
}
