ghost use Rattle.std.specs.Prelude.{◌≡◌, ℕ, [], IsTrue, None, MatchResult};
ghost use Rattle.fk_journal.specs.declared.fault.Damage.{Damage as ADamage};
ghost use Rattle.fk_journal.specs.declared.fault.OpenFault.TheVariants.{Damaged, DiskFault};
ghost use Rattle.fk_model.specs.declared.told.Compaction.TheVariants.{NotDue};
ghost use Rattle.fk_model.specs.State.{KeptState};
ghost use Rattle.fk_lives.specs.Damages.{IsFirstDamage};
ghost use Rattle.fk_lives.specs.Standing.{HaveNumbers, Stands};
ghost use Rattle.fk_lives.specs.Ways.{disks, EachPair, GoOn};
ghost use Rattle.fk_lives.specs.Causes.{HasDiskCause};
ghost use Rattle.fk_lives.specs.Doubt.{IsSound};
ghost use Rattle.fk_shelf.specs.Opening.{IsOpened, KeepFiles, StandsForOne};

use crate::replaying::replay_all;
use crate::store::{Room, Store};
use fk_core::Tables;
use fk_disk::Disk;
use fk_io::{Clock, Dice};
use fk_journal::OpenFault;
use fk_model::{Compaction, Told};
use fk_shelf::{Shelf, ShelfRefused};
use fk_workers::Workers;
use std::alloc::Global;

/// Why a store can't be opened, and its disks.
#[derive(Drop)]
pub struct OpenRefused<D> {
    pub cause: OpenFault,
    pub a: D,
    pub b: D,
}

impl<D: Disk, C: Clock + Drop, J: Dice + Drop> Store<D, C, J> {
    /// Opens a store on what two disks have: blank ones stand for the empty state, and the first file is made. It calls
    /// neither the clock nor the dice. `Damaged` tells the first damage of the files, which stay as they are. Whatever
    /// it answers, each pair of images stands at each moment for what each pair stood for at the start.
    pub fn open(
        alloc: Global,
        a: D,
        b: D,
        clock: C,
        dice: J,
    ) -> Result<Store<D, C, J>, OpenRefused<D>>
        ensures stands { IsTrue (D.told a) → IsTrue (D.told b) → MatchResult result
            (λ store. Stands (D.content a) (D.content b) store.server.state.kept
            × HaveNumbers (D.content a) (D.content b) store.server.number store.server.size)
            (λ refused. Unit {0}) }
        ensures begins { MatchResult result
            (λ store. (store.server.state.workers ≡ []) × (store.doubt ≡ None)
            × (store.moments ≡ C.moments clock) × (store.words ≡ J.words dice)
            × (store.last ≡ record { moment = 0; word = 0; before = 0; after = 0; compaction = NotDue }))
            (λ refused. Unit {0}) }
        ensures opened { IsTrue (D.told a) → IsTrue (D.told b) → MatchResult result
            (λ store. IsOpened (D.content a) (D.content store.shelf.live.disk)
            × (D.content store.shelf.other ≡ D.content b)) (λ refused. Unit {0}) }
        ensures sound { MatchResult result (λ store. IsSound store.server.state.kept None
            (D.images store.shelf.live.disk (D.moment store.shelf.live.disk))
            (D.images store.shelf.other (D.moment store.shelf.other))) (λ refused. Unit {0}) }
        ensures refused { IsTrue (D.told a) → IsTrue (D.told b) → MatchResult result (λ store. Unit {0})
            (λ refused. KeepFiles (D.content a) (D.content b) (D.content refused.a) (D.content refused.b)) }
        ensures damaged { IsTrue (D.told a) → IsTrue (D.told b) → (damage : ADamage) → MatchResult result
            (λ store. Unit {0}) (λ refused. refused.cause ≡ Damaged damage
            → IsFirstDamage (D.content a) (D.content b) damage
            × (D.content refused.a ≡ D.content a) × (D.content refused.b ≡ D.content b)) }
        ensures crash { (kept other : KeptState)
            → EachPair (StandsForOne kept other) (D.images a (D.moment a)) (D.images b (D.moment b))
            → MatchResult result
            (λ store. GoOn (StandsForOne kept other)
            (disks (D.moment a) (D.images a) (D.moment b) (D.images b))
            (disks (D.moment store.shelf.live.disk) (D.images store.shelf.live.disk)
            (D.moment store.shelf.other) (D.images store.shelf.other)))
            (λ refused. GoOn (StandsForOne kept other)
            (disks (D.moment a) (D.images a) (D.moment b) (D.images b))
            (disks (D.moment refused.a) (D.images refused.a) (D.moment refused.b) (D.images refused.b))) }
        ensures told { MatchResult result
            (λ store. (D.told store.shelf.live.disk ≡ D.told a) × (D.told store.shelf.other ≡ D.told b))
            (λ refused. (D.told refused.a ≡ D.told a) × (D.told refused.b ≡ D.told b)) }
        ensures cause { MatchResult result
            (λ store. HasDiskCause ⊥ (D.fault_count a) (D.fault_count store.shelf.live.disk)
            (D.fault_count b) (D.fault_count store.shelf.other))
            (λ refused. HasDiskCause (refused.cause ≡ DiskFault) (D.fault_count a) (D.fault_count refused.a)
            (D.fault_count b) (D.fault_count refused.b)) }
    {
        let Ok(room) = Room::new(alloc) else {
            return Err(OpenRefused {
                cause: OpenFault::NoMemory,
                a,
                b,
            });
        };
        let mut shelf = match Shelf::open(a, b) {
            Ok(shelf) => shelf,
            Err(ShelfRefused { cause, a, b }) => return Err(OpenRefused { cause, a, b }),
        };
        let mut tables = Tables::new(alloc);
        match replay_all(alloc, &mut shelf, &mut tables) {
            Ok(()) => {
                shelf.stands();
                Ok(Store {
                    shelf,
                    tables,
                    workers: Workers::new(alloc),
                    clock,
                    dice,
                    room,
                    told: nothing_told(),
                    doubt: None,
                })
            }
            Err(cause) => {
                let (a, b) = shelf.close();
                Err(OpenRefused { cause, a, b })
            }
        }
    }
}

/// What is told before the first turn.
fn nothing_told() -> Told
    ensures { result ≡ record { moment = 0; word = 0; before = 0; after = 0; compaction = NotDue } }
{
    Told {
        moment: 0,
        word: 0,
        before: 0,
        after: 0,
        compaction: Compaction::NotDue,
    }
}
