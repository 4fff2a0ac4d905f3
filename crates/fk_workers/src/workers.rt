ghost use Rattle.std.specs.Prelude.{◌≡◌, [], false, Contains, IsOk, OnErr, OnOk};
ghost use Rattle.fk_model.specs.Requests.{is_held_back};
ghost use Rattle.fk_model.specs.Workers.{after_turn, seen_again, fresh, introduced, holds_back, is_fresh as keeps, signalled, state_of, AreApart};
ghost use Rattle.fk_workers.specs.Entries.{AreSince};
ghost use Rattle.fk_workers.specs.Roll.{is_hello, IsReady};

use crate::heard::{FORGET_AFTER, Heard, greater, is_fresh};
use crate::wid::Wid;
use fk_json::Text;
use fk_model::{Ask, WorkState};
use indexmap::IndexMap;
use std::alloc::{AllocError, Global};
use std::marker::Model;

/// The workers that a server has heard of, in the order in which they came: each has a wid, a state
/// and the moment when it was last seen. One that is silent for [`FORGET_AFTER`] milliseconds is
/// forgotten.
#[derive(Drop)]
pub struct Workers {
    held: IndexMap<Wid, Heard>,
    // The wid for which the memory of a HELLO was taken.
    ready: Option<Wid>,
    // Nobody was seen before this moment, so the list is only gone through where some may have to go.
    oldest: u64,
}

impl Model for Workers {
    ghost use Rattle.std.specs.Option.{option_to_list};
    ghost use Rattle.indexmap.specs.IndexMap.{spare};
    ghost use Rattle.fk_workers.specs.Roll.{Roll};
    ghost use Rattle.fk_workers.specs.Entries.{workers_of, IsSound};

    ghost Value = { Roll };

    ghost view = { λ held. record {
      workers = workers_of held.held.entries;
      wids = option_to_list held.ready;
    } };

    ghost invariant = { λ held.
        IsSound held.held.entries (spare held.held) held.ready held.oldest };
}

impl Workers {
    /// No workers. It takes no memory.
    pub fn new(alloc: Global) -> Workers
        ensures { result.workers ≡ [] }
    {
        Workers {
            held: IndexMap::new(alloc),
            ready: None,
            oldest: u64::MAX,
        }
    }

    /// Takes the memory that a turn of the ask needs: only one that says a name needs any. The
    /// workers stay. Of the wids that were made ready, the last one alone is.
    pub fn ready(&mut self, ask: &Ask) -> Result<(), AllocError>
        ensures ok { OnOk result (IsReady ask.now self.new) }
        ensures err { OnErr result (self.new ≡ self.old) }
        ensures same { self.new.workers ≡ self.old.workers }
        ensures bare { is_hello ask.now ≡ false → IsOk result }
    {
        if let Ask::Hello { wid } = ask {
            self.held.reserve(1)?;
            self.ready = Some(Wid {
                text: wid.copied()?,
            });
        }
        Ok(())
    }

    /// The state of the worker of a wid, or `None` where it isn't listed or is to be forgotten at
    /// this moment. It is looked up, and nobody is gone through.
    #[tactic(auto, using(crate::proofs::Telling::told_none, crate::proofs::Telling::apart_workers))]
    pub fn state(&self, wid: &Text, moment: u64) -> Option<WorkState>
        ensures state { result ≡ state_of wid.now (fresh moment self.now.workers) }
        ensures held { is_held_back (fresh moment self.now.workers) wid.now ≡ holds_back result }
        ensures apart { AreApart self.now.workers }
    {
        match self.held.get(wid.bytes()) {
            Some(heard) => heard.state_at(moment),
            None => None,
        }
    }

    /// Forgets those that have been silent, and then does what the ask says. It takes no memory.
    pub fn turn(&mut self, ask: &Ask, moment: u64)
        requires { IsReady ask.now self.old }
        ensures workers { self.new.workers ≡ after_turn ask.now moment self.old.workers }
        ensures apart { AreApart self.new.workers }
    {
        self.forget(moment);
        match ask {
            Ask::Hello { wid } => self.greet(wid, moment),
            Ask::Beat { wid } => self.beat(wid, moment),
            Ask::Signal { wid, state } => self.signal(wid, *state),
            _ => {}
        }
    }

    /// Forgets those that have been silent. Where nobody was, it goes through nobody.
    #[tactic(auto, using(crate::proofs::Telling::apart_workers))]
    fn forget(&mut self, moment: u64)
        ensures workers { self.new.workers ≡ fresh moment self.old.workers }
        ensures wids { self.new.wids ≡ self.old.wids }
        ensures apart { AreApart self.new.workers }
    {
        if is_fresh(moment, self.oldest) {
            return;
        }
        self.held.retain(
            |_wid: &Wid, heard: &mut Heard| -> bool
                ensures { (result ≡ keeps moment heard.old.seen) × (heard.new ≡ heard.old) }
            { is_fresh(moment, heard.seen) },
        );
        self.oldest = oldest_of(&self.held);
    }

    /// A worker says its name, for which the memory was taken.
    #[tactic(auto, using(crate::proofs::Telling::apart_workers))]
    fn greet(&mut self, wid: &Text, moment: u64)
        requires { Contains self.old.wids wid.now }
        ensures workers { self.new.workers ≡ introduced wid.now moment self.old.workers }
        ensures apart { AreApart self.new.workers }
    {
        let Some(ready) = self.ready.take() else {
            return;
        };
        self.oldest = self.oldest.min(moment);
        let _ = self.held.insert(
            ready,
            Heard {
                state: WorkState::Running,
                seen: moment,
            },
        );
    }

    /// A worker is seen.
    #[tactic(auto, using(crate::proofs::Telling::apart_workers))]
    fn beat(&mut self, wid: &Text, moment: u64)
        ensures workers { self.new.workers ≡ seen_again wid.now moment self.old.workers }
        ensures apart { AreApart self.new.workers }
    {
        let Some(heard) = self.held.get_mut(wid.bytes()) else {
            return;
        };
        heard.seen = moment;
        self.oldest = self.oldest.min(moment);
    }

    /// A worker gets a state, unless it has a greater one.
    #[tactic(auto, using(crate::proofs::Telling::apart_workers))]
    fn signal(&mut self, wid: &Text, state: WorkState)
        ensures workers { self.new.workers ≡ signalled wid.now state self.old.workers }
        ensures apart { AreApart self.new.workers }
    {
        let Some(heard) = self.held.get_mut(wid.bytes()) else {
            return;
        };
        heard.state = greater(heard.state, state);
    }
}

// The least moment at which one of these was seen, or the last of all moments.
#[tactic(auto, using(crate::proofs::Silence::since_least))]
fn oldest_of(held: &IndexMap<Wid, Heard>) -> u64
    ensures { AreSince result held.now.entries }
{
    let mut oldest = u64::MAX;
    'looking: for heard in held.values() {
        oldest = oldest.min(heard.seen);
    }
    oldest
}
