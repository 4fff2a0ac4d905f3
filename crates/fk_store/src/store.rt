ghost use Rattle.std.specs.Prelude.{◌≡◌, ℕ, List, Option};

use fk_core::Tables;
use fk_disk::Disk;
use fk_io::{Clock, Dice};
use fk_json::ListWithRoom;
use fk_model::{Moves, Told};
use fk_shelf::Shelf;
use fk_workers::Workers;
use std::marker::Model;
use std::snapshot::Snapshot;

/// The state of a server over two disks, with a clock and dice.
#[derive(Drop)]
pub struct Store<D: Disk, C: Clock, J: Dice> {
    pub(crate) shelf: Shelf<D>,
    pub(crate) tables: Tables,
    pub(crate) workers: Workers,
    pub(crate) clock: C,
    pub(crate) dice: J,
    pub(crate) room: Room,
    pub(crate) told: Told,
    /// The moves that are in doubt. Only clauses read it, and it takes no memory.
    pub(crate) doubt: Option<Snapshot<Moves>>,
}

/// What a turn writes into: it is kept from one turn to the next, and has always room for an acknowledgement.
#[derive(Drop)]
pub(crate) struct Room {
    /// The moves of the turn.
    pub(crate) moves: Moves,
    /// The piece that is made of them.
    pub(crate) piece: ListWithRoom<u8>,
}

impl<D: Disk, C: Clock, J: Dice> Model for Store<D, C, J> {
    ghost use Rattle.std.specs.Prelude.{◌≡◌, ◌≤◌, ◌+◌, length, IsTrue, IsSome, is_some, option_map};
    ghost use Rattle.fk_model.specs.State.{with_workers};
    ghost use Rattle.fk_model.specs.Between.{IsBetweenTurns};
    ghost use Rattle.fk_store.specs.StoreState.{IsOwedFor, IsWritten, StoreState, server_of};

    ghost Value = { StoreState D C J };

    ghost view = { λ store. record {
      server = server_of (with_workers store.tables.kept store.workers.workers) store.shelf.live;
      moments = C.moments store.clock;
      words = J.words store.dice;
      doubt = option_map (λ held. held.value.items) store.doubt;
      last = store.told;
      shelf = store.shelf;
    } };

    // The closed gate was reached, what the file tells up to there is what is kept, and a piece is owed exactly where
    // moves are in doubt: it is theirs.
    ghost invariant = { λ store. IsTrue store.shelf.live.done
        × IsBetweenTurns (with_workers store.tables.kept store.workers.workers)
        × (is_some store.doubt ≡ is_some store.shelf.live.owed)
        × (IsTrue (D.told store.shelf.live.disk) →
        IsWritten store.shelf.live.front store.tables.kept store.shelf.live.number store.shelf.live.place
        × IsOwedFor store.tables.kept store.shelf.live.number store.shelf.live.owed
        (option_map (λ held. held.value.items) store.doubt))
        × (2 ≤ length store.room.moves.items + store.room.moves.spare)
        × (51 ≤ length store.room.piece.items + store.room.piece.spare) };
}

impl<D: Disk, C: Clock, J: Dice> Store<D, C, J> {
    /// What is kept, to be looked at.
    pub fn tables(&self) -> &Tables
        ensures { result.now.kept ≡ self.now.server.state.kept }
    {
        &self.tables
    }
}
