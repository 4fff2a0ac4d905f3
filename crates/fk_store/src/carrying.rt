// The moves of a turn are carried out: on the disk, and then in the tables.
ghost use Rattle.std.specs.Prelude.{◌≡◌, ◌≢◌, ◌+◌, ◌⊎◌, ◌↔◌, [], length, option_map, IsTrue};
ghost use Rattle.fk_journal.specs.Pieces.{framed};
ghost use Rattle.fk_model.specs.Changes.{EndsWithTotals, FitInTurn};
ghost use Rattle.fk_moves.specs.Spelling.{moves_bytes};
ghost use Rattle.fk_core.specs.Reserved.{Reserved};
ghost use Rattle.fk_store.specs.RoomForTurns.{HasRoom};
ghost use Rattle.fk_store.specs.StoreState.{MayFollow};
ghost use Rattle.fk_store.specs.Turning.{disks_of, AreCarriedOut, AreOver, AreSound, EndBeyond, IsFull, TellsKept};

use crate::keeping::keep;
use crate::limits::{end_beyond, is_full};
use crate::spelling::prepare;
use crate::store::Room;
use fk_core::Tables;
use fk_disk::Disk;
use fk_frame::Reply;
use fk_model::{Answer, Moves};
use fk_moves::moves_length;
use fk_shelf::Shelf;
use std::snapshot::Snapshot;

/// Carries out the moves in the room, where `reply` is to be said: they are on the disk before they are made in the
/// tables. What they need is looked at, and all memory taken, before a disk is called.
pub(crate) fn carry_out<D: Disk>(
    shelf: &mut Shelf<D>,
    doubt: &mut Option<Snapshot<Moves>>,
    tables: &mut Tables,
    room: &mut Room,
    reply: Reply,
) -> Answer
    requires told { TellsKept (D.told shelf.old.live.disk) shelf.old tables.old.kept
        (option_map (λ held. held.value.items) doubt.old) }
    requires sound { AreSound (disks_of D.moment D.images shelf.old) tables.old.kept
        (option_map (λ held. held.value.items) doubt.old) }
    requires fit { (¬ EndBeyond room.old.moves.items) → FitInTurn tables.old.kept room.old.moves.items }
    requires list { room.old.moves.items ≢ [] → EndsWithTotals room.old.moves.items }
    requires room { HasRoom room.old }
    ensures carried { AreCarriedOut D.told D.fault_count D.moment D.images result reply room.old.moves.items
        shelf.old shelf.new tables.old.kept tables.new.kept
        (option_map (λ held. held.value.items) doubt.old) (option_map (λ held. held.value.items) doubt.new) }
    ensures room { HasRoom room.new }
{
    if room.moves.is_empty() {
        return Answer::Said(reply);
    }
    if is_over(shelf, &room.moves) {
        return Answer::Full;
    }
    match prepare(tables, room, shelf.number()) {
        Ok(()) => write_down(shelf, doubt, tables, room, reply),
        Err(_) => Answer::NoMemory,
    }
}

/// Whether moves, of which there are some, are over a limit.
fn is_over<D: Disk>(shelf: &Shelf<D>, moves: &Moves) -> bool
    requires done { IsTrue shelf.now.live.done }
    requires some { moves.now.items ≢ [] }
    ensures { IsTrue result ↔ AreOver shelf.now.live moves.now.items }
{
    end_beyond(moves) || is_full(shelf.number(), shelf.size(), moves_length(moves))
}

/// Writes the piece of moves that were prepared, and then makes these in the tables.
fn write_down<D: Disk>(
    shelf: &mut Shelf<D>,
    doubt: &mut Option<Snapshot<Moves>>,
    tables: &mut Tables,
    room: &mut Room,
    reply: Reply,
) -> Answer
    requires told { TellsKept (D.told shelf.old.live.disk) shelf.old tables.old.kept
        (option_map (λ held. held.value.items) doubt.old) }
    requires over { ¬ AreOver shelf.old.live room.old.moves.items }
    requires some { room.old.moves.items ≢ [] }
    requires fit { (¬ EndBeyond room.old.moves.items) → FitInTurn tables.old.kept room.old.moves.items }
    requires list { room.old.moves.items ≢ [] → EndsWithTotals room.old.moves.items }
    requires reserved { Reserved tables.old room.old.moves.items }
    requires piece { room.old.piece.items ≡ framed shelf.old.live.number (moves_bytes room.old.moves.items) }
    requires room { HasRoom room.old }
    ensures carried { AreCarriedOut D.told D.fault_count D.moment D.images result reply room.old.moves.items
        shelf.old shelf.new tables.old.kept tables.new.kept
        (option_map (λ held. held.value.items) doubt.old) (option_map (λ held. held.value.items) doubt.new) }
    ensures room { HasRoom room.new }
{
    match keep(shelf, doubt, &room.moves, room.piece.bytes()) {
        Ok(()) => {
            tables.apply(&mut room.moves);
            Answer::Said(reply)
        }
        Err(_) => Answer::DiskFault,
    }
}
