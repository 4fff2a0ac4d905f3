ghost use Rattle.std.specs.Prelude.{◌≡◌, ◌+◌, ◌^◌, ◌<◌, ◌≤◌, length, false};
ghost use Rattle.fk_json.specs.PairOrder.{with_pair};
ghost use Rattle.fk_tree.specs.Order.{AreOthers};
ghost use Rattle.fk_tree.specs.Shape.{IsFull};
ghost use Rattle.fk_tree.specs.Side.{pair_of};

use crate::counter::Counter;
use crate::levels::settle;
use crate::side::{Node, Side};
use std::cmp::Ordering;

impl Side {
    /// Puts a node at the place of its pair, which isn't there, and tells whether the side rose by a
    /// level. A node is touched above the new one only as far as heights change.
    #[tactic(auto, using(crate::proofs::Tops::shorter_left, crate::proofs::Tops::shorter_right, crate::proofs::Puts::others_left, crate::proofs::Puts::others_right))]
    pub(crate) fn put<C: Counter>(&mut self, new: Box<Node>, steps: &mut C) -> bool
        requires few { length self.old.pairs + 1 < 2 ^ 64 }
        requires absent { AreOthers (pair_of new.value.key) self.old.pairs }
        ensures pairs { self.new.pairs ≡ with_pair (pair_of new.value.key) self.old.pairs }
        ensures not_lower { self.old.height ≤ self.new.height }
        ensures not_higher { self.new.height ≤ self.old.height + 1 }
        ensures told { result ≡ false → self.new.height ≡ self.old.height }
        ensures full { IsFull self.new }
        ensures steps { C.counted steps.new ≤ C.counted steps.old + self.old.height }
    {
        let Some(node) = &mut self.top else {
            *self = Side::over(new, Side::empty(), Side::empty());
            return true;
        };
        match node.key.order(new.key.moment, new.key.ticket, steps) {
            Ordering::Less => {
                let rose = node.left.put(new, steps);
                let before = node.height;
                return settle(&mut self.top, before, rose);
            }
            Ordering::Greater => {
                let rose = node.right.put(new, steps);
                let before = node.height;
                return settle(&mut self.top, before, rose);
            }
            Ordering::Equal => unreachable!(),
        }
    }
}
