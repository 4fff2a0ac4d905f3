// What the files tell, made in tables piece by piece.
ghost use Rattle.std.specs.Prelude.{◌≡◌, ◌<◌, ◌≤◌, true, false, IsTrue, Err, None, Ok, OnOk};
ghost use Rattle.fk_journal.specs.Causes.{HasFaultCause};
ghost use Rattle.fk_journal.specs.Pieces.{IsClosedAfter};
ghost use Rattle.fk_journal.specs.Reading.{OnlyReads};
ghost use Rattle.fk_journal.specs.declared.fault.Damage.{Damage as ADamage};
ghost use Rattle.fk_journal.specs.declared.fault.OpenFault.TheVariants.{Damaged, DiskFault};
ghost use Rattle.fk_store.specs.Replaying.{HasCome, IsDamageOf, left_of};

use crate::making::make_list;
use fk_core::Tables;
use fk_disk::Disk;
use fk_journal::{OpenFault, Replay};
use fk_json::Buffer;
use fk_shelf::Shelf;
use std::alloc::Global;

/// Replays all that a shelf tells into tables that have no row and no number.
pub(crate) fn replay_all<D: Disk>(
    alloc: Global,
    shelf: &mut Shelf<D>,
    tables: &mut Tables,
) -> Result<(), OpenFault>
    requires begun { shelf.old.live.done ≡ false }
    requires come { HasCome (IsTrue (D.told shelf.old.live.disk)) (D.content shelf.old.live.disk)
        tables.old.kept shelf.old }
    ensures come { OnOk result (HasCome (IsTrue (D.told shelf.new.live.disk)) (D.content shelf.new.live.disk)
        tables.new.kept shelf.new) }
    ensures done { OnOk result (IsTrue shelf.new.live.done) }
    ensures behind { OnOk result (shelf.new.snapshot ≡ None) }
    ensures end { IsTrue (D.told shelf.new.live.disk) → OnOk result
        (IsClosedAfter shelf.new.live.front (D.content shelf.new.live.disk)) }
    ensures damaged { IsTrue (D.told shelf.old.live.disk) → (damage : ADamage) →
        result ≡ Err (Damaged damage) → IsDamageOf (D.content shelf.old.live.disk) damage }
    ensures other { shelf.new.other ≡ shelf.old.other }
    ensures reads { OnlyReads (D.told shelf.old.live.disk) (D.told shelf.new.live.disk)
        (D.content shelf.old.live.disk) (D.content shelf.new.live.disk)
        (D.moment shelf.old.live.disk) (D.moment shelf.new.live.disk)
        (D.images shelf.old.live.disk) (D.images shelf.new.live.disk) }
    ensures cause { HasFaultCause (result ≡ Err DiskFault)
        (D.fault_count shelf.old.live.disk) (D.fault_count shelf.new.live.disk) }
{
    let mut buffer = Buffer::new(alloc);
    'replaying: loop {
        if !replay_one(alloc, shelf, tables, &mut buffer)? {
            return Ok(());
        }
    }
}

/// Replays the snapshot, or the next piece if there is one, and tells whether there was.
fn replay_one<D: Disk>(
    alloc: Global,
    shelf: &mut Shelf<D>,
    tables: &mut Tables,
    buffer: &mut Buffer,
) -> Result<bool, OpenFault>
    requires begun { shelf.old.live.done ≡ false }
    requires come { HasCome (IsTrue (D.told shelf.old.live.disk)) (D.content shelf.old.live.disk)
        tables.old.kept shelf.old }
    ensures come { OnOk result (HasCome (IsTrue (D.told shelf.new.live.disk)) (D.content shelf.new.live.disk)
        tables.new.kept shelf.new) }
    ensures more { result ≡ Ok true → left_of shelf.new < left_of shelf.old }
    ensures begun { result ≡ Ok true → shelf.new.live.done ≡ false }
    ensures done { result ≡ Ok false → IsTrue shelf.new.live.done }
    ensures behind { result ≡ Ok false → shelf.new.snapshot ≡ None }
    ensures end { IsTrue (D.told shelf.new.live.disk) → result ≡ Ok false →
        IsClosedAfter shelf.new.live.front (D.content shelf.new.live.disk) }
    ensures damaged { IsTrue (D.told shelf.old.live.disk) → (damage : ADamage) →
        result ≡ Err (Damaged damage) → IsDamageOf (D.content shelf.old.live.disk) damage }
    ensures other { shelf.new.other ≡ shelf.old.other }
    ensures reads { OnlyReads (D.told shelf.old.live.disk) (D.told shelf.new.live.disk)
        (D.content shelf.old.live.disk) (D.content shelf.new.live.disk)
        (D.moment shelf.old.live.disk) (D.moment shelf.new.live.disk)
        (D.images shelf.old.live.disk) (D.images shelf.new.live.disk) }
    ensures cause { HasFaultCause (result ≡ Err DiskFault)
        (D.fault_count shelf.old.live.disk) (D.fault_count shelf.new.live.disk) }
{
    match shelf.replay(buffer)? {
        Replay::Done => Ok(false),
        Replay::Moves => {
            make_list(alloc, tables, buffer.bytes(), shelf.place())?;
            Ok(true)
        }
    }
}
