ghost use Rattle.std.specs.Prelude.{◌≡◌, [], ◌++◌, ◌+◌, ◌<◌, ◌≤◌, ◌↔◌, max, length, slice_get, Contains, IsOk, IsTrue, OnErr, OnOk};
ghost use Rattle.fk_json.specs.PairOrder.{with_pair};
ghost use Rattle.fk_tree.specs.Order.{up_to, without_pair, AreOthers, IsRising};
ghost use Rattle.fk_tree.specs.Depth.{AreFew};

use crate::counter::{Counter, Unread};
use crate::key::Key;
use crate::side::Side;
use crate::spare::Spare;
use crate::steps::Steps;
use fk_json::Pairs;
use std::alloc::{AllocError, Global};
use std::marker::{Brand, Model};
use std::sync::ledger::{Blank, Ledger};

/// A set of pairs of a moment and a ticket, seen as the list of its pairs in order, and the number
/// of pairs that may be put without taking memory.
#[derive(Drop)]
pub struct Tree {
    root: Side,
    count: usize,
    spare: Spare,
}

impl Model for Tree {
    ghost use Rattle.fk_tree.specs.Room.{Room};

    ghost Value = { Room };

    ghost view = { λ tree. record { items = tree.root.pairs; spare = tree.spare } };

    ghost use Rattle.fk_tree.specs.Sound.{IsSound};

    ghost invariant = { λ tree. IsSound tree.root tree.count tree.spare };
}

impl Tree {
    /// No pairs. It takes no memory.
    pub fn new(alloc: Global) -> Tree
        ensures items { result.items ≡ [] }
        ensures spare { result.spare ≡ 0 }
    {
        Tree {
            root: Side::empty(),
            count: 0,
            spare: Spare::new(alloc),
        }
    }

    /// Makes room for more pairs. The pairs stay, and so does the room that was there: it is raised
    /// to what is asked for, and never beyond.
    pub fn reserve(&mut self, more: usize) -> Result<(), AllocError>
        ensures ok { OnOk result (more ≤ self.new.spare) }
        ensures kept { self.old.spare ≤ self.new.spare }
        ensures bound { self.new.spare ≤ max self.old.spare more }
        ensures same { self.new.items ≡ self.old.items }
        ensures ready { more ≤ self.old.spare → IsOk result }
    {
        if more > usize::MAX - self.count {
            return Err(AllocError);
        }
        self.spare.make(more)
    }

    /// Puts a pair that isn't there.
    pub fn put(&mut self, moment: u64, ticket: u64)
        requires room { 0 < self.old.spare }
        requires absent { AreOthers (moment, ticket) self.old.items }
        ensures items { self.new.items ≡ with_pair (moment, ticket) self.old.items }
        ensures spare { self.new.spare + 1 ≡ self.old.spare }
    {
        self.put_alone::<Brand>(Blank::new(1), moment, ticket);
    }

    // Puts a pair with a counter of its own.
    fn put_alone<L: Ledger>(&mut self, blank: Blank, moment: u64, ticket: u64)
        requires name { blank.name ≡ L.name }
        requires parts { blank.parts ≡ L.parts }
        requires some { 0 < blank.parts }
        requires room { 0 < self.old.spare }
        requires absent { AreOthers (moment, ticket) self.old.items }
        ensures items { self.new.items ≡ with_pair (moment, ticket) self.old.items }
        ensures spare { self.new.spare + 1 ≡ self.old.spare }
    {
        self.put_by(moment, ticket, &mut Unread::<L>::new(blank));
    }

    /// Puts a pair that isn't there, and counts the comparisons.
    pub fn put_counted<L: Ledger>(&mut self, moment: u64, ticket: u64, steps: &mut Steps<L>)
        requires room { 0 < self.old.spare }
        requires absent { AreOthers (moment, ticket) self.old.items }
        ensures items { self.new.items ≡ with_pair (moment, ticket) self.old.items }
        ensures spare { self.new.spare + 1 ≡ self.old.spare }
        ensures steps { AreFew (length self.old.items) steps.old steps.new }
    {
        self.put_by(moment, ticket, steps);
    }

    // Puts a pair, and counts by what counts.
    fn put_by<C: Counter>(&mut self, moment: u64, ticket: u64, counter: &mut C)
        requires room { 0 < self.old.spare }
        requires absent { AreOthers (moment, ticket) self.old.items }
        ensures items { self.new.items ≡ with_pair (moment, ticket) self.old.items }
        ensures spare { self.new.spare + 1 ≡ self.old.spare }
        ensures steps { AreFew (length self.old.items) (C.counted counter.old)
            (C.counted counter.new) }
    {
        let node = self.spare.node(moment, ticket);
        self.root.put(node, counter);
        self.count += 1;
    }

    /// Takes a pair out, and tells whether it was there. The room stays.
    pub fn take(&mut self, moment: u64, ticket: u64) -> bool
        ensures found { IsTrue result ↔ Contains self.old.items (moment, ticket) }
        ensures items { self.new.items ≡ without_pair (moment, ticket) self.old.items }
        ensures spare { self.new.spare ≡ self.old.spare }
    {
        self.take_alone::<Brand>(Blank::new(1), moment, ticket)
    }

    // Takes a pair out with a counter of its own.
    fn take_alone<L: Ledger>(&mut self, blank: Blank, moment: u64, ticket: u64) -> bool
        requires name { blank.name ≡ L.name }
        requires parts { blank.parts ≡ L.parts }
        requires some { 0 < blank.parts }
        ensures found { IsTrue result ↔ Contains self.old.items (moment, ticket) }
        ensures items { self.new.items ≡ without_pair (moment, ticket) self.old.items }
        ensures spare { self.new.spare ≡ self.old.spare }
    {
        self.take_by(moment, ticket, &mut Unread::<L>::new(blank))
    }

    /// Takes a pair out, tells whether it was there, and counts the comparisons. The room stays.
    pub fn take_counted<L: Ledger>(
        &mut self,
        moment: u64,
        ticket: u64,
        steps: &mut Steps<L>,
    ) -> bool
        ensures found { IsTrue result ↔ Contains self.old.items (moment, ticket) }
        ensures items { self.new.items ≡ without_pair (moment, ticket) self.old.items }
        ensures spare { self.new.spare ≡ self.old.spare }
        ensures steps { AreFew (length self.old.items) steps.old steps.new }
    {
        self.take_by(moment, ticket, steps)
    }

    // Takes a pair out, and counts by what counts.
    fn take_by<C: Counter>(&mut self, moment: u64, ticket: u64, counter: &mut C) -> bool
        ensures found { IsTrue result ↔ Contains self.old.items (moment, ticket) }
        ensures items { self.new.items ≡ without_pair (moment, ticket) self.old.items }
        ensures spare { self.new.spare ≡ self.old.spare }
        ensures steps { AreFew (length self.old.items) (C.counted counter.old)
            (C.counted counter.new) }
    {
        let mut taken = None;
        self.root
            .remove(Key { moment, ticket }, &mut taken, counter);
        let Some(node) = taken else {
            return false;
        };
        self.count -= 1;
        self.spare.keep(node);
        true
    }

    /// The first pair.
    pub fn first(&self) -> Option<(u64, u64)>
        ensures pair { result ≡ slice_get self.now.items 0 }
        ensures order { IsRising self.now.items }
    {
        self.root.first()
    }

    /// Adds the pairs whose moment is at most this one at the end, in order, or leaves `out` as it
    /// is.
    pub fn until(&self, moment: u64, out: &mut Pairs) -> Result<(), AllocError>
        ensures ok { OnOk result (out.new.items ≡ out.old.items ++ up_to moment self.now.items) }
        ensures err { OnErr result (out.new.items ≡ out.old.items) }
        ensures kept { OnOk result
            (out.old.spare ≤ out.new.spare + length (up_to moment self.now.items)) }
        ensures ready { length (up_to moment self.now.items) ≤ out.old.spare → IsOk result }
        ensures order { IsRising self.now.items }
    {
        out.reserve(self.root.count_up_to(moment))?;
        self.root.list_up_to(moment, out)
    }

    /// The number of pairs.
    pub fn count(&self) -> usize
        ensures { result ≡ length self.now.items }
    {
        self.count
    }

    /// Takes all pairs out. The room stays.
    pub fn clear(&mut self)
        ensures items { self.new.items ≡ [] }
        ensures spare { self.new.spare ≡ self.old.spare }
    {
        self.root = Side::empty();
        self.count = 0;
    }
}
