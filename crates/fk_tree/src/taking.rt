ghost use Rattle.std.specs.Prelude.{◌≡◌, ◌∷◌, ◌++◌, ◌+◌, ◌-◌, ◌^◌, ◌<◌, ◌≤◌, ◌↔◌, false, length, max, IfSome, IfNone, IsNone, IsSome, Contains};
ghost use Rattle.fk_tree.specs.Order.{without_pair};
ghost use Rattle.fk_tree.specs.Shape.{height_over, AreSides, IsBare, IsFull};
ghost use Rattle.fk_tree.specs.Side.{pair_of, pairs_of, height_of, sides_of, IsBalanced};

use crate::counter::Counter;
use crate::key::Key;
use crate::levels::settle;
use crate::side::{Node, Side};
use std::cmp::Ordering;
use std::mem;

impl Side {
    /// Takes the node of a pair out into `taken`, if it is there, and tells whether the side fell by a
    /// level. A node is touched above it only as far as heights change.
    #[tactic(auto, using(crate::proofs::Tops::shorter_left, crate::proofs::Tops::shorter_right))]
    pub(crate) fn remove<C: Counter>(
        &mut self,
        key: Key,
        taken: &mut Option<Box<Node>>,
        steps: &mut C,
    ) -> bool
        requires few { length self.old.pairs < 2 ^ 64 }
        requires none { IsNone taken.old }
        ensures found { IsSome taken.new ↔ Contains self.old.pairs (pair_of key) }
        ensures pairs { self.new.pairs ≡ without_pair (pair_of key) self.old.pairs }
        ensures not_lower { self.old.height ≤ self.new.height + 1 }
        ensures not_higher { self.new.height ≤ self.old.height }
        ensures told { result ≡ false → self.new.height ≡ self.old.height }
        ensures full { IsFull self.new }
        ensures steps { C.counted steps.new ≤ C.counted steps.old + self.old.height }
    {
        let Some(node) = &mut self.top else {
            return false;
        };
        match node.key.order(key.moment, key.ticket, steps) {
            Ordering::Less => {
                let fell = node.left.remove(key, taken, steps);
                let before = node.height;
                return settle(&mut self.top, before, fell);
            }
            Ordering::Greater => {
                let fell = node.right.remove(key, taken, steps);
                let before = node.height;
                return settle(&mut self.top, before, fell);
            }
            Ordering::Equal => return remove_top(&mut self.top, taken, steps),
        }
    }

    // Takes the first node of a side whose pairs come behind a pair that is taken out into `first`,
    // and tells whether the side fell by a level. Each node on the way to it is compared once with
    // that pair.
    #[tactic(auto, using(crate::proofs::Tops::shorter_left))]
    fn remove_first<C: Counter>(
        &mut self,
        key: Key,
        first: &mut Option<Box<Node>>,
        steps: &mut C,
    ) -> bool
        requires few { length self.old.pairs < 2 ^ 64 }
        requires none { IsNone first.old }
        ensures empty { IfNone first.new (IsBare self.old) }
        ensures none { IfNone first.new (self.new ≡ self.old) }
        ensures first { IfSome first.new (λ node.
            self.old.pairs ≡ pair_of node.value.key ∷ self.new.pairs) }
        ensures not_lower { self.old.height ≤ self.new.height + 1 }
        ensures not_higher { self.new.height ≤ self.old.height }
        ensures told { result ≡ false → self.new.height ≡ self.old.height }
        ensures full { IsFull self.new }
        ensures steps { C.counted steps.new ≤ C.counted steps.old + self.old.height }
    {
        let Some(node) = &mut self.top else {
            return false;
        };
        let _ = node.key.order(key.moment, key.ticket, steps);
        let fell = node.left.remove_first(key, first, steps);
        if first.is_some() {
            let before = node.height;
            return settle(&mut self.top, before, fell);
        }
        let right = node.take_right();
        *first = mem::replace(&mut self.top, right.into_top());
        true
    }
}

// Takes what stands there out into `taken`. Its sides stay, as one side.
fn remove_top<C: Counter>(
    top: &mut Option<Box<Node>>,
    taken: &mut Option<Box<Node>>,
    steps: &mut C,
) -> bool
    requires few { length (sides_of top.old) < 2 ^ 64 }
    requires balanced { IsBalanced top.old }
    ensures taken { IsSome taken.new ↔ IsSome top.old }
    ensures pairs { pairs_of top.new ≡ sides_of top.old }
    ensures balanced { IsBalanced top.new }
    ensures not_lower { height_of top.old ≤ height_of top.new + 1 }
    ensures not_higher { height_of top.new ≤ height_of top.old }
    ensures told { result ≡ false → height_of top.new ≡ height_of top.old }
    ensures steps { C.counted steps.new ≤ C.counted steps.old + (height_of top.old - 1) }
{
    let Some(node) = top else {
        *taken = None;
        return false;
    };
    let before = node.height;
    let left = node.left.take();
    let right = node.right.take();
    let rest = joined(left, right, node.key, steps);
    let fell = rest.height() != before;
    *taken = mem::replace(top, rest.into_top());
    fell
}

// The two sides of a taken node as one side: the next pair behind the taken one comes to the top.
fn joined<C: Counter>(left: Side, mut right: Side, key: Key, steps: &mut C) -> Side
    requires few { length (left.pairs ++ right.pairs) < 2 ^ 64 }
    requires sides { AreSides 1 left (pair_of key) right }
    ensures pairs { result.pairs ≡ left.pairs ++ right.pairs }
    ensures not_lower { max left.height right.height ≤ result.height }
    ensures not_higher { result.height ≤ height_over left right }
    ensures full { IsFull result }
    ensures steps { C.counted steps.new ≤ C.counted steps.old + right.height }
{
    let mut first = None;
    right.remove_first(key, &mut first, steps);
    match first {
        None => left,
        Some(node) => Side::balanced(node, left, right),
    }
}
