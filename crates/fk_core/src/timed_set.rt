ghost use Rattle.std.specs.Prelude.{◌≡◌, ◌↔◌, ◌++◌, ◌+◌, ◌<◌, ◌≤◌, [], length, IsOk, IsTrue, OnErr, OnOk};
ghost use Rattle.fk_json.specs.PairOrder.{with_pair};
ghost use Rattle.fk_tree.specs.Order.{up_to, without_pair};
ghost use Rattle.fk_timed.specs.Timed.{IsAbsent};
ghost use Rattle.fk_core.specs.Lookups.{AreLater};

use fk_json::Pairs;
use fk_timed::Timed;
use std::alloc::{AllocError, Global};
use std::marker::Model;

/// A set by moment, and how much of its room is marked.
#[derive(Drop)]
pub(crate) struct TimedSet {
    timed: Timed,
    marks: usize,
    // At least the room that there is: more marks than fit into it can be counted still.
    most: usize,
}

impl Model for TimedSet {
    ghost use Rattle.std.specs.Prelude.{◌≤◌};
    ghost use Rattle.fk_core.specs.Sets.{TimedSet};

    ghost Value = { TimedSet };

    ghost view = { λ set. record {
      items = set.timed.items;
      spare = set.timed.spare;
      marks = set.marks;
    } };

    ghost invariant = { λ set. set.timed.spare ≤ set.most };
}

impl TimedSet {
    /// No pair. It takes no memory.
    pub(crate) fn new(alloc: Global) -> TimedSet
        ensures { result.items ≡ [] }
    {
        TimedSet {
            timed: Timed::new(alloc),
            marks: 0,
            most: 0,
        }
    }

    /// Puts a pair of a ticket that has none.
    pub(crate) fn put(&mut self, moment: u64, ticket: u64)
        requires room { 0 < self.old.spare }
        requires absent { IsAbsent ticket self.old.items }
        ensures items { self.new.items ≡ with_pair (moment, ticket) self.old.items }
        ensures spare { self.new.spare + 1 ≡ self.old.spare }
    {
        self.timed.put(moment, ticket);
    }

    /// Takes a pair out. The room stays.
    pub(crate) fn take(&mut self, moment: u64, ticket: u64)
        ensures items { self.new.items ≡ without_pair (moment, ticket) self.old.items }
        ensures spare { self.new.spare ≡ self.old.spare }
    {
        let _ = self.timed.take(moment, ticket);
    }

    /// Marks one more, within the room.
    pub(crate) fn mark(&mut self) -> Result<(), AllocError>
        ensures ok { OnOk result (self.new.marks ≡ 1 + self.old.marks) }
        ensures within { OnOk result (self.new.marks ≤ self.new.spare) }
        ensures kept { self.old.spare ≤ self.new.spare }
        ensures same { self.new.items ≡ self.old.items }
        ensures ready { self.old.marks < self.old.spare → IsOk result }
    {
        let Some(marks) = self.marks.checked_add(1) else {
            return Err(AllocError);
        };
        self.most = self.most.max(marks);
        self.timed.reserve(marks)?;
        self.marks = marks;
        Ok(())
    }

    /// Takes all marks away.
    pub(crate) fn unmark(&mut self)
        ensures { self.new ≡ record self.old { marks = 0 } }
    {
        self.marks = 0;
    }

    /// Takes all pairs out. The room stays.
    pub(crate) fn clear(&mut self)
        ensures items { self.new.items ≡ [] }
        ensures spare { self.new.spare ≡ self.old.spare }
    {
        self.timed.clear();
    }

    /// The number of pairs.
    pub(crate) fn count(&self) -> usize
        ensures { result ≡ length self.now.items }
    {
        self.timed.count()
    }

    /// Adds the pairs whose moment is at most this one at the end, in order, or leaves `out` as it
    /// is.
    pub(crate) fn until(&self, moment: u64, out: &mut Pairs) -> Result<(), AllocError>
        ensures ok { OnOk result (out.new.items ≡ out.old.items ++ up_to moment self.now.items) }
        ensures err { OnErr result (out.new.items ≡ out.old.items) }
    {
        self.timed.until(moment, out)
    }

    /// Whether each pair's moment is beyond this one.
    pub(crate) fn is_later(&self, moment: u64) -> bool
        ensures { IsTrue result ↔ AreLater moment self.now.items }
    {
        match self.timed.first() {
            Some((first, _)) => moment < first,
            None => true,
        }
    }
}
