// The turns of a store.
ghost use Rattle.std.specs.Prelude.{◌≡◌, ◌<◌, option_map};
ghost use Rattle.fk_time.specs.Moments.{greatest};
ghost use Rattle.fk_model.specs.Between.{IsBetweenTurns};
ghost use Rattle.fk_model.specs.Range.{IsInRange};
ghost use Rattle.fk_model.specs.State.{with_workers};
ghost use Rattle.fk_workers.specs.Roll.{IsReady};
ghost use Rattle.fk_store.specs.RoomForTurns.{HasRoom};
ghost use Rattle.fk_store.specs.Turning.{disks_of, workers_behind, AreSound, IsTurn, TellsKept};

use crate::carrying::carry_out;
use crate::store::{Room, Store};
use fk_core::Tables;
use fk_desk::Kept;
use fk_disk::Disk;
use fk_io::{Clock, Dice};
use fk_model::{Answer, Ask, Compaction, Moves, Told};
use fk_plan::plan;
use fk_shelf::Shelf;
use fk_workers::Workers;
use std::alloc::Global;
use std::snapshot::Snapshot;

impl<D: Disk, C: Clock, J: Dice> Kept for Store<D, C, J> {
    ghost use Rattle.std.specs.Prelude.{◌≡◌};

    ghost server = { λ store. store.server };

    ghost doubt = { λ store. store.doubt };

    ghost moments = { λ store. store.moments };

    ghost words = { λ store. store.words };

    ghost faults_a = { λ store. D.fault_count store.shelf.live.disk };

    ghost faults_b = { λ store. D.fault_count store.shelf.other };

    ghost last = { λ store. store.last };

    ghost moment_a = { λ store. D.moment store.shelf.live.disk };

    ghost images_a = { λ store. D.images store.shelf.live.disk };

    ghost moment_b = { λ store. D.moment store.shelf.other };

    ghost images_b = { λ store. D.images store.shelf.other };

    fn turn(&mut self, alloc: Global, _seat: u64, ask: Ask) -> Answer {
        let moment = self.clock.now();
        let word = self.dice.roll();
        let before = self.shelf.faults();
        self.shelf.stands();
        let answer = turn_at(
            alloc,
            &mut self.shelf,
            &mut self.doubt,
            &mut self.tables,
            &mut self.workers,
            &mut self.room,
            ask,
            moment,
            word,
        );
        self.told = Told {
            moment,
            word,
            before,
            after: self.shelf.faults(),
            compaction: Compaction::NotDue,
        };
        self.shelf.stands();
        answer
    }

    fn told(&self) -> Told {
        self.told
    }

    fn stands(&self) {
        self.shelf.stands();
    }
}

/// The turn of a moment and a word, over the parts of a store. The workers' memory is taken first, and they act last.
fn turn_at<D: Disk>(
    alloc: Global,
    shelf: &mut Shelf<D>,
    doubt: &mut Option<Snapshot<Moves>>,
    tables: &mut Tables,
    workers: &mut Workers,
    room: &mut Room,
    ask: Ask,
    moment: u64,
    word: u64,
) -> Answer
    requires moment { moment < greatest }
    requires range { IsInRange ask }
    requires between { IsBetweenTurns (with_workers tables.old.kept workers.old.workers) }
    requires told { TellsKept (D.told shelf.old.live.disk) shelf.old tables.old.kept
        (option_map (λ held. held.value.items) doubt.old) }
    requires sound { AreSound (disks_of D.moment D.images shelf.old) tables.old.kept
        (option_map (λ held. held.value.items) doubt.old) }
    requires room { HasRoom room.old }
    ensures turn { IsTurn D.told D.fault_count D.moment D.images ask moment word result shelf.old shelf.new
        (with_workers tables.old.kept workers.old.workers) (with_workers tables.new.kept workers.new.workers)
        (option_map (λ held. held.value.items) doubt.old) (option_map (λ held. held.value.items) doubt.new) }
    ensures room { HasRoom room.new }
{
    match workers.ready(&ask) {
        Ok(()) => turn_ready(
            alloc, shelf, doubt, tables, workers, room, ask, moment, word,
        ),
        Err(_) => Answer::NoMemory,
    }
}

/// The turn, where the memory was taken that the workers need.
fn turn_ready<D: Disk>(
    alloc: Global,
    shelf: &mut Shelf<D>,
    doubt: &mut Option<Snapshot<Moves>>,
    tables: &mut Tables,
    workers: &mut Workers,
    room: &mut Room,
    mut ask: Ask,
    moment: u64,
    word: u64,
) -> Answer
    requires moment { moment < greatest }
    requires range { IsInRange ask }
    requires ready { IsReady ask workers.old }
    requires between { IsBetweenTurns (with_workers tables.old.kept workers.old.workers) }
    requires told { TellsKept (D.told shelf.old.live.disk) shelf.old tables.old.kept
        (option_map (λ held. held.value.items) doubt.old) }
    requires sound { AreSound (disks_of D.moment D.images shelf.old) tables.old.kept
        (option_map (λ held. held.value.items) doubt.old) }
    requires room { HasRoom room.old }
    ensures turn { IsTurn D.told D.fault_count D.moment D.images ask moment word result shelf.old shelf.new
        (with_workers tables.old.kept workers.old.workers) (with_workers tables.new.kept workers.new.workers)
        (option_map (λ held. held.value.items) doubt.old) (option_map (λ held. held.value.items) doubt.new) }
    ensures room { HasRoom room.new }
{
    // The next number is within its limit.
    let _ = tables.next();
    room.moves.clear();
    let Ok(reply) = plan(
        alloc,
        tables,
        workers,
        &mut ask,
        moment,
        word,
        &mut room.moves,
    ) else {
        return Answer::NoMemory;
    };
    let count = room.moves.len();
    let answer = carry_out(shelf, doubt, tables, room, reply);
    room.empty(alloc, count);
    acted(workers, &ask, moment, answer)
}

/// The workers act where the turn was made. Its answer is handed back.
fn acted(workers: &mut Workers, ask: &Ask, moment: u64, answer: Answer) -> Answer
    requires { IsReady ask.now workers.old }
    ensures workers { workers.new.workers ≡ workers_behind answer ask.now moment workers.old.workers }
    ensures same { result ≡ answer }
{
    if let Answer::Said(_) = &answer {
        workers.turn(ask, moment);
    }
    answer
}
