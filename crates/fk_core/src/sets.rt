ghost use Rattle.std.specs.Prelude.{◌≡◌, ◌↔◌, ◌+◌, ◌<◌, ◌≤◌, [], IfSome, IsOk, IsTrue, OnOk};
ghost use Rattle.std.specs.Option.{option_map_or};
ghost use Rattle.fk_model.specs.declared.mutation.Target.{Target};
ghost use Rattle.fk_json.specs.PairOrder.{with_pair};
ghost use Rattle.fk_tree.specs.Order.{without_pair};
ghost use Rattle.fk_timed.specs.Timed.{IsAbsent};
ghost use Rattle.fk_core.specs.Index.{count_of};
ghost use Rattle.fk_core.specs.Lookups.{AreLater};
ghost use Rattle.fk_core.specs.Marks.{by_set, HasOneFree, NoneLeft, OneMore};
ghost use Rattle.fk_core.specs.Sets.{count_in, pairs_in, stands_at, timed_pair};

use crate::timed_set::TimedSet;
use fk_model::{Place, Target};
use std::alloc::{AllocError, Global};
use std::marker::Model;

/// The sets by moment: the rows that leave their place by time alone, but for those that workers
/// have.
#[derive(Drop)]
pub(crate) struct Sets {
    scheduled: TimedSet,
    retries: TimedSet,
    dead: TimedSet,
}

impl Model for Sets {
    ghost use Rattle.fk_core.specs.Sets.{Sets};

    ghost Value = { Sets };

    ghost view = { λ sets. record {
      items = record {
        scheduled = sets.scheduled.items;
        retries = sets.retries.items;
        dead = sets.dead.items;
      };
      spares = record {
        scheduled = sets.scheduled.spare;
        retries = sets.retries.spare;
        dead = sets.dead.spare;
      };
      marks = record {
        scheduled = sets.scheduled.marks;
        retries = sets.retries.marks;
        dead = sets.dead.marks;
      };
    } };
}

impl Sets {
    /// No row. It takes no memory.
    #[tactic(auto, unfolding(crate::specs::Sets::pairs_in, crate::specs::Sets::count_in))]
    pub(crate) fn new(alloc: Global) -> Sets
        ensures { (target : Target) → pairs_in target result.items ≡ [] }
    {
        Sets {
            scheduled: TimedSet::new(alloc),
            retries: TimedSet::new(alloc),
            dead: TimedSet::new(alloc),
        }
    }

    /// The set of a target.
    #[tactic(auto, unfolding(crate::specs::Sets::pairs_in, crate::specs::Sets::count_in))]
    pub(crate) fn get(&self, target: Target) -> &TimedSet
        ensures { result.now.items ≡ pairs_in target self.now.items }
    {
        match target {
            Target::Scheduled => &self.scheduled,
            Target::Retries => &self.retries,
            Target::Dead => &self.dead,
        }
    }

    /// A row enters the set of its place, if that is one.
    #[tactic(auto, unfolding(crate::specs::Sets::pairs_in, crate::specs::Sets::count_in))]
    pub(crate) fn enter(&mut self, ticket: u64, place: &Place)
        requires room { (target : Target) → IfSome (timed_pair target ticket place.now)
            (λ pair. 0 < count_in target self.old.spares) }
        requires absent { (target : Target) → IsAbsent ticket (pairs_in target self.old.items) }
        ensures items { (target : Target) → pairs_in target self.new.items
            ≡ option_map_or (λ pair. with_pair pair (pairs_in target self.old.items))
            (timed_pair target ticket place.now) (pairs_in target self.old.items) }
        ensures spare { (target : Target) → count_in target self.new.spares
            + count_of (timed_pair target ticket place.now) ≡ count_in target self.old.spares }
    {
        match place {
            Place::Scheduled { at } => self.scheduled.put(*at, ticket),
            Place::Retry { at } => self.retries.put(*at, ticket),
            Place::Dead { until } => self.dead.put(*until, ticket),
            Place::Queued { .. } | Place::Working { .. } => (),
        }
    }

    /// A row leaves the set of its place, if that is one.
    #[tactic(auto, unfolding(crate::specs::Sets::pairs_in, crate::specs::Sets::count_in))]
    pub(crate) fn leave(&mut self, ticket: u64, place: &Place)
        ensures items { (target : Target) → pairs_in target self.new.items
            ≡ option_map_or (λ pair. without_pair pair (pairs_in target self.old.items))
            (timed_pair target ticket place.now) (pairs_in target self.old.items) }
        ensures spare { (target : Target) →
            count_in target self.new.spares ≡ count_in target self.old.spares }
    {
        match place {
            Place::Scheduled { at } => self.scheduled.take(*at, ticket),
            Place::Retry { at } => self.retries.take(*at, ticket),
            Place::Dead { until } => self.dead.take(*until, ticket),
            Place::Queued { .. } | Place::Working { .. } => (),
        }
    }

    /// Marks one more in the set of a place, if it is in one.
    #[tactic(auto, unfolding(crate::specs::Sets::pairs_in, crate::specs::Sets::count_in))]
    pub(crate) fn mark(&mut self, place: &Place) -> Result<(), AllocError>
        ensures ok { OnOk result (OneMore Target (λ target. stands_at target place.now)
            (by_set self.old) (by_set self.new)) }
        ensures kept { (target : Target) →
            count_in target self.old.spares ≤ count_in target self.new.spares }
        ensures same { self.new.items ≡ self.old.items }
        ensures ready { HasOneFree Target (λ target. stands_at target place.now) (by_set self.old)
            → IsOk result }
    {
        match place {
            Place::Scheduled { .. } => self.scheduled.mark(),
            Place::Retry { .. } => self.retries.mark(),
            Place::Dead { .. } => self.dead.mark(),
            Place::Queued { .. } | Place::Working { .. } => Ok(()),
        }
    }

    /// Takes all marks away in the set of a place, if it is in one.
    #[tactic(auto, unfolding(crate::specs::Sets::pairs_in, crate::specs::Sets::count_in))]
    pub(crate) fn unmark(&mut self, place: &Place)
        ensures marks { NoneLeft Target (λ target. stands_at target place.now)
            (by_set self.old) (by_set self.new) }
        ensures same { self.new.items ≡ self.old.items }
    {
        match place {
            Place::Scheduled { .. } => self.scheduled.unmark(),
            Place::Retry { .. } => self.retries.unmark(),
            Place::Dead { .. } => self.dead.unmark(),
            Place::Queued { .. } | Place::Working { .. } => (),
        }
    }

    /// All rows leave. The rooms stay.
    #[tactic(auto, unfolding(crate::specs::Sets::pairs_in, crate::specs::Sets::count_in))]
    pub(crate) fn clear(&mut self)
        ensures items { (target : Target) → pairs_in target self.new.items ≡ [] }
        ensures spares { self.new.spares ≡ self.old.spares }
    {
        self.scheduled.clear();
        self.retries.clear();
        self.dead.clear();
    }

    /// Whether the moment of each row is beyond this one.
    pub(crate) fn is_later(&self, moment: u64) -> bool
        ensures { IsTrue result
            ↔ ((target : Target) → AreLater moment (pairs_in target self.now.items)) }
    {
        self.scheduled.is_later(moment)
            && self.retries.is_later(moment)
            && self.dead.is_later(moment)
    }
}
