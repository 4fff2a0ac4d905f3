ghost use Rattle.std.specs.Prelude.{◌≡◌, ◌≢◌, ◌+◌, ◌≤◌, ◌<◌, ◌^◌, length, take, is_some, IsTrue, Err, Ok, Some, MatchResult};
ghost use Rattle.fk_disk.specs.Moments.{LeavesOnly};
ghost use Rattle.fk_journal.specs.Limits.{greatest_number};
ghost use Rattle.fk_journal.specs.Passing.{EachImage};
ghost use Rattle.fk_journal.specs.Standing.{IsAtRest};
ghost use Rattle.fk_journal.specs.declared.fault.Damage.{Damage as ADamage};
ghost use Rattle.fk_journal.specs.declared.fault.File.TheVariants.{A};
ghost use Rattle.fk_journal.specs.declared.fault.OpenFault.TheVariants.{Damaged, DiskFault, NoMemory};
ghost use Rattle.fk_model.specs.State.{KeptState};
ghost use Rattle.fk_lives.specs.declared.header.Header.{Header as AHeader};
ghost use Rattle.fk_lives.specs.Files.{IsBlank, snapshot_at};
ghost use Rattle.fk_lives.specs.Ways.{disks, EachPair, GoOn};
ghost use Rattle.fk_lives.specs.Causes.{HasDiskCause};
ghost use Rattle.fk_shelf.specs.Opening.{Begins, IsOpened, IsOpeningDamage, IsReady, KeepFiles, StandsForOne};

use crate::header::SNAPSHOT_AT;
use crate::opening::prepare;
use fk_disk::Disk;
use fk_journal::{Damage, File, Journal, OpenFault};
use fk_lives::Header;
use std::marker::Model;

/// The two files of a server. The live one is replayed, and then appended to. File B stays blank as long as no
/// second file is written.
#[derive(Drop)]
pub struct Shelf<D: Disk> {
    pub(crate) live: Journal<D>,
    pub(crate) other: D,
    pub(crate) generation: u64,
    /// The length of the snapshot, as long as that is still to be replayed.
    pub(crate) snapshot: Option<u64>,
    /// The place of what was replayed last.
    pub(crate) at: u64,
}

/// Why files can't be opened, and their disks.
#[derive(Drop)]
pub struct ShelfRefused<D> {
    pub cause: OpenFault,
    pub a: D,
    pub b: D,
}

impl<D: Disk> Model for Shelf<D> {
    ghost use Rattle.fk_shelf.specs.Held.{IsHeld};
    ghost use Rattle.fk_shelf.specs.ShelfState.{ShelfState};

    ghost Value = { ShelfState D };

    ghost view = { λ shelf. record {
      live = shelf.live;
      other = shelf.other;
      generation = shelf.generation;
      snapshot = shelf.snapshot;
      at = shelf.at;
    } };

    ghost invariant = { λ shelf. IsHeld shelf.live shelf.snapshot (D.told shelf.live.disk)
        (D.content shelf.live.disk) (D.images shelf.live.disk (D.moment shelf.live.disk))
        (D.images shelf.other (D.moment shelf.other)) };
}

impl<D: Disk> Shelf<D> {
    /// Makes sure of both files and opens them: where both are blank, the first file is made in A. It takes no
    /// memory. Damages of the header, and a snapshot that is cut, are told here, with both files left as they were.
    /// Whatever it answers, each pair of images stands at each moment for what each pair stood for at the start.
    pub fn open(a: D, b: D) -> Result<Shelf<D>, ShelfRefused<D>>
        ensures opened { IsTrue (D.told a) → IsTrue (D.told b) → MatchResult result
            (λ shelf. IsBlank (D.content b) × (D.content shelf.other ≡ D.content b)
            × IsOpened (D.content a) (D.content shelf.live.disk)) (λ refused. Unit {0}) }
        ensures begins { MatchResult result (λ shelf. (header : AHeader) × Begins header shelf
            × (IsTrue (D.told a) → IsReady header shelf.live.front (D.content shelf.live.disk)))
            (λ refused. Unit {0}) }
        ensures refused { IsTrue (D.told a) → IsTrue (D.told b) → MatchResult result (λ shelf. Unit {0})
            (λ refused. KeepFiles (D.content a) (D.content b) (D.content refused.a) (D.content refused.b)) }
        ensures memory { MatchResult result (λ shelf. Unit {0}) (λ refused. refused.cause ≢ NoMemory) }
        ensures damaged { IsTrue (D.told a) → IsTrue (D.told b) → (damage : ADamage) → MatchResult result
            (λ shelf. Unit {0}) (λ refused. refused.cause ≡ Damaged damage
            → IsOpeningDamage (D.content a) (D.content b) damage
            × (D.content refused.a ≡ D.content a) × (D.content refused.b ≡ D.content b)) }
        ensures crash { (kept other : KeptState)
            → EachPair (StandsForOne kept other) (D.images a (D.moment a)) (D.images b (D.moment b))
            → MatchResult result
            (λ shelf. GoOn (StandsForOne kept other)
            (disks (D.moment a) (D.images a) (D.moment b) (D.images b))
            (disks (D.moment shelf.live.disk) (D.images shelf.live.disk)
            (D.moment shelf.other) (D.images shelf.other)))
            (λ refused. GoOn (StandsForOne kept other)
            (disks (D.moment a) (D.images a) (D.moment b) (D.images b))
            (disks (D.moment refused.a) (D.images refused.a) (D.moment refused.b) (D.images refused.b))) }
        ensures told { MatchResult result
            (λ shelf. (D.told shelf.live.disk ≡ D.told a) × (D.told shelf.other ≡ D.told b))
            (λ refused. (D.told refused.a ≡ D.told a) × (D.told refused.b ≡ D.told b)) }
        ensures cause { MatchResult result
            (λ shelf. HasDiskCause ⊥ (D.fault_count a) (D.fault_count shelf.live.disk)
            (D.fault_count b) (D.fault_count shelf.other))
            (λ refused. HasDiskCause (refused.cause ≡ DiskFault) (D.fault_count a) (D.fault_count refused.a)
            (D.fault_count b) (D.fault_count refused.b)) }
    {
        let mut a = a;
        let mut b = b;
        match prepare(&mut a, &mut b) {
            Ok(header) => Ok(Shelf::over(a, b, header)),
            Err(cause) => Err(ShelfRefused { cause, a, b }),
        }
    }

    /// The shelf of two files that are synced: B is blank, and A has this header, and its snapshot whole.
    fn over(a: D, b: D, header: Header) -> Shelf<D>
        requires base { header.base ≤ greatest_number }
        requires range { snapshot_at + header.length < 2 ^ 64 }
        requires whole { IsTrue (D.told a) → snapshot_at + header.length ≤ length (D.content a) }
        requires sure { LeavesOnly (D.content a) (D.images a (D.moment a)) }
        requires blank { EachImage (D.images b (D.moment b)) IsBlank }
        ensures a { result.live.disk ≡ a }
        ensures b { result.other ≡ b }
        ensures begins { Begins header result }
        ensures front { result.live.front ≡ take (snapshot_at + header.length) (D.content a) }
    {
        let place = SNAPSHOT_AT as u64 + header.length;
        Shelf {
            live: Journal::over(a, File::A, place, header.base),
            other: b,
            generation: header.generation,
            snapshot: Some(header.length),
            at: SNAPSHOT_AT as u64,
        }
    }

    /// The place of what was replayed last: that of the snapshot, or the gate of a piece.
    pub fn place(&self) -> Damage
        ensures { result ≡ record { file = self.now.live.file; at = self.now.at } }
    {
        Damage {
            file: File::A,
            at: self.at,
        }
    }

    /// What holds of the files: it calls nothing. B is blank in each image. Once the closed gate was reached, A is
    /// in each image as an append leaves it.
    pub fn stands(&self)
        ensures rest { IsTrue self.now.live.done →
            EachImage (D.images self.now.live.disk (D.moment self.now.live.disk))
            (IsAtRest self.now.live.front self.now.live.owed) }
        ensures blank { EachImage (D.images self.now.other (D.moment self.now.other)) IsBlank }
    {
        let _ = &self.live;
    }

    /// The number of the next piece, once the closed gate was reached.
    pub fn number(&self) -> u64
        requires { IsTrue self.now.live.done }
        ensures { result ≡ self.now.live.number }
    {
        self.live.number()
    }

    /// The place behind the closed gate of the live file, in bytes, once that was reached.
    pub fn size(&self) -> u64
        requires { IsTrue self.now.live.done }
        ensures { result ≡ self.now.live.place + 1 }
    {
        self.live.place() + 1
    }

    /// The generation of the live file.
    pub fn generation(&self) -> u64
        ensures { result ≡ self.now.generation }
    {
        self.generation
    }

    /// Whether a piece is owed: it may count after a crash, and its gate is to be closed.
    pub fn owed(&self) -> bool
        ensures { result ≡ is_some self.now.live.owed }
    {
        self.live.owed()
    }

    /// How often a call of the two disks has failed, of both together.
    pub fn faults(&self) -> u128
        ensures { result ≡ D.fault_count self.now.live.disk + D.fault_count self.now.other }
    {
        u128::from(self.live.faults()) + u128::from(self.other.faults())
    }

    /// Hands both disks back, A first.
    pub fn close(self) -> (D, D)
        ensures a { result.0 ≡ self.live.disk }
        ensures b { result.1 ≡ self.other }
    {
        let Shelf {
            live,
            other,
            generation: _,
            snapshot: _,
            at: _,
        } = self;
        (live.finish(), other)
    }
}
