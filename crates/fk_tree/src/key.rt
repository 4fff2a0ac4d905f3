ghost use Rattle.std.specs.Prelude.{◌≡◌, ◌+◌, IsTrue};
ghost use Rattle.fk_json.specs.PairOrder.{comes_before};
ghost use Rattle.fk_tree.specs.Side.{pair_of};

use crate::counter::Counter;
use std::cmp::Ordering;

/// The pair of a node.
#[derive(Clone, Copy, Debug)]
pub(crate) struct Key {
    pub(crate) moment: u64,
    pub(crate) ticket: u64,
}

impl Key {
    /// How a pair stands to this one: by the moments, and for equal moments by the tickets. It is
    /// the one call by which the counted calls compare, and adds one step.
    pub(crate) fn order<C: Counter>(&self, moment: u64, ticket: u64, steps: &mut C) -> Ordering
        ensures before { result ≡ Ordering.Less
            → IsTrue (comes_before (moment, ticket) (pair_of self.now)) }
        ensures behind { result ≡ Ordering.Greater
            → IsTrue (comes_before (pair_of self.now) (moment, ticket)) }
        ensures same { result ≡ Ordering.Equal → (moment, ticket) ≡ pair_of self.now }
        ensures step { C.counted steps.new ≡ C.counted steps.old + 1 }
    {
        steps.add();
        if moment < self.moment {
            return Ordering::Less;
        }
        if self.moment < moment {
            return Ordering::Greater;
        }
        if ticket < self.ticket {
            return Ordering::Less;
        }
        if self.ticket < ticket {
            return Ordering::Greater;
        }
        Ordering::Equal
    }
}
