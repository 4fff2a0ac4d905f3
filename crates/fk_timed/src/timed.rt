ghost use Rattle.std.specs.Prelude.{◌≡◌, ◌++◌, ◌+◌, ◌<◌, ◌≤◌, ◌↔◌, max, [], length, slice_get, Contains, IsOk, IsTrue, OnErr, OnOk};
ghost use Rattle.fk_json.specs.PairOrder.{with_pair};
ghost use Rattle.fk_tree.specs.Order.{up_to, without_pair, IsRising};
ghost use Rattle.fk_tree.specs.Depth.{AreFew};
ghost use Rattle.fk_timed.specs.Timed.{IsAbsent};

use fk_json::Pairs;
use fk_tree::{Steps, Tree};
use std::alloc::{AllocError, Global};
use std::marker::Model;
use std::sync::ledger::Ledger;

/// A set by moment: pairs of a moment, in milliseconds since 1970-01-01T00:00:00Z, and the ticket of
/// a row, in order; and the number of pairs that may be put without taking memory.
#[derive(Drop)]
pub struct Timed {
    tree: Tree,
}

impl Model for Timed {
    ghost use Rattle.fk_tree.specs.Room.{Room};

    ghost Value = { Room };

    ghost view = { λ timed. timed.tree };
}

impl Timed {
    /// No pair. It takes no memory.
    pub fn new(alloc: Global) -> Timed
        ensures items { result.items ≡ [] }
        ensures spare { result.spare ≡ 0 }
    {
        Timed {
            tree: Tree::new(alloc),
        }
    }

    /// Makes room for more pairs. The pairs stay, and so does the room that was there: it is raised
    /// to what is asked for, and never beyond.
    pub fn reserve(&mut self, more: usize) -> Result<(), AllocError>
        ensures ok { OnOk result (more ≤ self.new.spare) }
        ensures kept { self.old.spare ≤ self.new.spare }
        ensures bound { self.new.spare ≤ max self.old.spare more }
        ensures same { self.new.items ≡ self.old.items }
        ensures ready { more ≤ self.old.spare → IsOk result }
    {
        self.tree.reserve(more)
    }

    /// Puts a pair of a ticket that has none.
    #[tactic(auto, using(crate::proofs::Tickets::others))]
    pub fn put(&mut self, moment: u64, ticket: u64)
        requires room { 0 < self.old.spare }
        requires absent { IsAbsent ticket self.old.items }
        ensures items { self.new.items ≡ with_pair (moment, ticket) self.old.items }
        ensures spare { self.new.spare + 1 ≡ self.old.spare }
    {
        self.tree.put(moment, ticket);
    }

    /// Puts a pair of a ticket that has none, and counts the comparisons: at most two for each time
    /// that one more than the number of pairs can be halved, and one more.
    #[tactic(auto, using(crate::proofs::Tickets::others))]
    pub fn put_counted<L: Ledger>(&mut self, moment: u64, ticket: u64, steps: &mut Steps<L>)
        requires room { 0 < self.old.spare }
        requires absent { IsAbsent ticket self.old.items }
        ensures items { self.new.items ≡ with_pair (moment, ticket) self.old.items }
        ensures spare { self.new.spare + 1 ≡ self.old.spare }
        ensures steps { AreFew (length self.old.items) steps.old steps.new }
    {
        self.tree.put_counted(moment, ticket, steps);
    }

    /// Takes a pair out, and tells whether it was there. The room stays.
    pub fn take(&mut self, moment: u64, ticket: u64) -> bool
        ensures found { IsTrue result ↔ Contains self.old.items (moment, ticket) }
        ensures items { self.new.items ≡ without_pair (moment, ticket) self.old.items }
        ensures spare { self.new.spare ≡ self.old.spare }
    {
        self.tree.take(moment, ticket)
    }

    /// Takes a pair out, tells whether it was there, and counts the comparisons: at most two for each
    /// time that one more than the number of pairs can be halved, and one more. The room stays.
    pub fn take_counted<L: Ledger>(
        &mut self,
        moment: u64,
        ticket: u64,
        steps: &mut Steps<L>,
    ) -> bool
        ensures found { IsTrue result ↔ Contains self.old.items (moment, ticket) }
        ensures items { self.new.items ≡ without_pair (moment, ticket) self.old.items }
        ensures spare { self.new.spare ≡ self.old.spare }
        ensures steps { AreFew (length self.old.items) steps.old steps.new }
    {
        self.tree.take_counted(moment, ticket, steps)
    }

    /// The first pair.
    pub fn first(&self) -> Option<(u64, u64)>
        ensures pair { result ≡ slice_get self.now.items 0 }
        ensures order { IsRising self.now.items }
    {
        self.tree.first()
    }

    /// Adds the pairs whose moment is at most this one at the end, in order, or leaves `out` as it
    /// is.
    pub fn until(&self, moment: u64, out: &mut Pairs) -> Result<(), AllocError>
        ensures ok { OnOk result (out.new.items ≡ out.old.items ++ up_to moment self.now.items) }
        ensures err { OnErr result (out.new.items ≡ out.old.items) }
        ensures kept { OnOk result
            (out.old.spare ≤ out.new.spare + length (up_to moment self.now.items)) }
        ensures ready { length (up_to moment self.now.items) ≤ out.old.spare → IsOk result }
        ensures order { IsRising self.now.items }
    {
        self.tree.until(moment, out)
    }

    /// The number of pairs.
    pub fn count(&self) -> usize
        ensures { result ≡ length self.now.items }
    {
        self.tree.count()
    }

    /// Takes all pairs out. The room stays.
    pub fn clear(&mut self)
        ensures items { self.new.items ≡ [] }
        ensures spare { self.new.spare ≡ self.old.spare }
    {
        self.tree.clear();
    }
}
