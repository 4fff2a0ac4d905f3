// What a turn does to the files: what is owed is settled, and then its piece is appended.
ghost use Rattle.std.specs.Prelude.{◌≡◌, ◌⊎◌, ◌+◌, length, is_some, option_map, IsErr, IsTrue, None, Some, OnErr, OnOk};
ghost use Rattle.fk_journal.specs.Causes.{HasFaultCause};
ghost use Rattle.fk_journal.specs.JournalState.{IsFullFor};
ghost use Rattle.fk_journal.specs.Pieces.{framed};
ghost use Rattle.fk_model.specs.Changes.{after_moves};
ghost use Rattle.fk_model.specs.State.{KeptState};
ghost use Rattle.fk_moves.specs.Spelling.{moves_bytes};
ghost use Rattle.fk_lives.specs.Doubt.{StandsWithDoubt};
ghost use Rattle.fk_lives.specs.Ways.{GoOn};
ghost use Rattle.fk_desk.specs.Keeping.{StandsWithOrWithout, TurnGoesOn};
ghost use Rattle.fk_store.specs.StoreState.{MayFollow};
ghost use Rattle.fk_store.specs.Turning.{TellsKept, disks_of};

use fk_disk::Disk;
use fk_io::Failed;
use fk_model::Moves;
use fk_shelf::Shelf;
use std::snapshot::Snapshot;

/// Settles what is owed, and then appends the piece of these moves: behind it what is kept is what they make of it.
/// Where a disk fails, what is kept is as before, and what is in doubt is as before, nothing, or these moves.
pub(crate) fn keep<D: Disk>(
    shelf: &mut Shelf<D>,
    doubt: &mut Option<Snapshot<Moves>>,
    moves: &Moves,
    piece: &[u8],
) -> Result<(), Failed>
    requires done { IsTrue shelf.old.live.done }
    requires piece { piece.now ≡ framed shelf.old.live.number (moves_bytes moves.now.items) }
    requires room { ¬ IsFullFor shelf.old.live.place shelf.old.live.number (length piece.now) }
    ensures ok { (kept : KeptState)
        → TellsKept (D.told shelf.old.live.disk) shelf.old kept (option_map (λ held. held.value.items) doubt.old)
        → MayFollow kept shelf.old.live.number moves.now.items
        → OnOk result (TellsKept (D.told shelf.new.live.disk) shelf.new (after_moves kept moves.now.items)
        (option_map (λ held. held.value.items) doubt.new)) }
    ensures err { (kept : KeptState)
        → TellsKept (D.told shelf.old.live.disk) shelf.old kept (option_map (λ held. held.value.items) doubt.old)
        → MayFollow kept shelf.old.live.number moves.now.items
        → OnErr result (TellsKept (D.told shelf.new.live.disk) shelf.new kept
        (option_map (λ held. held.value.items) doubt.new)) }
    ensures crash { (kept : KeptState)
        → TellsKept (D.told shelf.old.live.disk) shelf.old kept (option_map (λ held. held.value.items) doubt.old)
        → MayFollow kept shelf.old.live.number moves.now.items
        → TurnGoesOn kept (option_map (λ held. held.value.items) doubt.old) moves.now.items
        (disks_of D.moment D.images shelf.old) (disks_of D.moment D.images shelf.new) }
    ensures none { OnOk result (doubt.new ≡ None) }
    ensures doubt { OnErr result ((doubt.new ≡ doubt.old) ⊎ (doubt.new ≡ None)
        ⊎ (option_map (λ held. held.value.items) doubt.new ≡ Some moves.now.items)) }
    ensures number { OnOk result (shelf.new.live.number ≡ shelf.old.live.number + 1) }
    ensures place { OnOk result (shelf.new.live.place ≡ shelf.old.live.place + length piece.now) }
    ensures number_stays { OnErr result (shelf.new.live.number ≡ shelf.old.live.number) }
    ensures place_stays { OnErr result (shelf.new.live.place ≡ shelf.old.live.place) }
    ensures other { shelf.new.other ≡ shelf.old.other }
    ensures cause { HasFaultCause (IsErr result)
        (D.fault_count shelf.old.live.disk) (D.fault_count shelf.new.live.disk) }
{
    settle(shelf, doubt)?;
    append(shelf, doubt, moves, piece)
}

/// Settles what is owed: then nothing is in doubt.
fn settle<D: Disk>(shelf: &mut Shelf<D>, doubt: &mut Option<Snapshot<Moves>>) -> Result<(), Failed>
    requires done { IsTrue shelf.old.live.done }
    ensures ok { (kept : KeptState)
        → TellsKept (D.told shelf.old.live.disk) shelf.old kept (option_map (λ held. held.value.items) doubt.old)
        → OnOk result (TellsKept (D.told shelf.new.live.disk) shelf.new kept None) }
    ensures err { (kept : KeptState)
        → TellsKept (D.told shelf.old.live.disk) shelf.old kept (option_map (λ held. held.value.items) doubt.old)
        → OnErr result (TellsKept (D.told shelf.new.live.disk) shelf.new kept
        (option_map (λ held. held.value.items) doubt.old)) }
    ensures crash { (kept : KeptState)
        → TellsKept (D.told shelf.old.live.disk) shelf.old kept (option_map (λ held. held.value.items) doubt.old)
        → GoOn (StandsWithDoubt kept (option_map (λ held. held.value.items) doubt.old))
        (disks_of D.moment D.images shelf.old) (disks_of D.moment D.images shelf.new) }
    ensures none { OnOk result (doubt.new ≡ None) }
    ensures free { OnOk result (shelf.new.live.owed ≡ None) }
    ensures stays { OnErr result (doubt.new ≡ doubt.old) }
    ensures number { shelf.new.live.number ≡ shelf.old.live.number }
    ensures place { shelf.new.live.place ≡ shelf.old.live.place }
    ensures done { shelf.new.live.done ≡ shelf.old.live.done }
    ensures other { shelf.new.other ≡ shelf.old.other }
    ensures cause { HasFaultCause (IsErr result)
        (D.fault_count shelf.old.live.disk) (D.fault_count shelf.new.live.disk) }
{
    shelf.stands();
    shelf.settle()?;
    *doubt = None;
    Ok(())
}

/// Appends the piece of these moves, where nothing is owed and nothing is in doubt. Where that fails they are in doubt
/// if the piece is owed.
fn append<D: Disk>(
    shelf: &mut Shelf<D>,
    doubt: &mut Option<Snapshot<Moves>>,
    moves: &Moves,
    piece: &[u8],
) -> Result<(), Failed>
    requires done { IsTrue shelf.old.live.done }
    requires free { shelf.old.live.owed ≡ None }
    requires none { doubt.old ≡ None }
    requires piece { piece.now ≡ framed shelf.old.live.number (moves_bytes moves.now.items) }
    requires room { ¬ IsFullFor shelf.old.live.place shelf.old.live.number (length piece.now) }
    ensures ok { (kept : KeptState) → TellsKept (D.told shelf.old.live.disk) shelf.old kept None
        → MayFollow kept shelf.old.live.number moves.now.items
        → OnOk result (TellsKept (D.told shelf.new.live.disk) shelf.new (after_moves kept moves.now.items)
        (option_map (λ held. held.value.items) doubt.new)) }
    ensures err { (kept : KeptState) → TellsKept (D.told shelf.old.live.disk) shelf.old kept None
        → MayFollow kept shelf.old.live.number moves.now.items
        → OnErr result (TellsKept (D.told shelf.new.live.disk) shelf.new kept
        (option_map (λ held. held.value.items) doubt.new)) }
    ensures crash { (kept : KeptState) → TellsKept (D.told shelf.old.live.disk) shelf.old kept None
        → MayFollow kept shelf.old.live.number moves.now.items
        → GoOn (StandsWithOrWithout kept moves.now.items)
        (disks_of D.moment D.images shelf.old) (disks_of D.moment D.images shelf.new) }
    ensures none { OnOk result (doubt.new ≡ None) }
    ensures doubt { OnErr result ((doubt.new ≡ None)
        ⊎ (option_map (λ held. held.value.items) doubt.new ≡ Some moves.now.items)) }
    ensures number { OnOk result (shelf.new.live.number ≡ shelf.old.live.number + 1) }
    ensures place { OnOk result (shelf.new.live.place ≡ shelf.old.live.place + length piece.now) }
    ensures number_stays { OnErr result (shelf.new.live.number ≡ shelf.old.live.number) }
    ensures place_stays { OnErr result (shelf.new.live.place ≡ shelf.old.live.place) }
    ensures other { shelf.new.other ≡ shelf.old.other }
    ensures cause { HasFaultCause (IsErr result)
        (D.fault_count shelf.old.live.disk) (D.fault_count shelf.new.live.disk) }
{
    shelf.stands();
    match shelf.append(piece) {
        Ok(()) => Ok(()),
        Err(_) => {
            *doubt = in_doubt(shelf.owed(), moves);
            Err(Failed)
        }
    }
}

/// What is in doubt where a piece of these moves is owed, or isn't.
fn in_doubt(owed: bool, moves: &Moves) -> Option<Snapshot<Moves>>
    ensures both { is_some result ≡ owed }
    ensures these { (result ≡ None) ⊎ (option_map (λ held. held.value.items) result ≡ Some moves.now.items) }
{
    if owed {
        Some(Snapshot::of(moves))
    } else {
        None
    }
}
