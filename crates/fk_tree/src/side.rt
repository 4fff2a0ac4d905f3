ghost use Rattle.std.specs.Prelude.{◌≡◌, ◌<◌, max, IfNone, IfSome};
ghost use Rattle.fk_tree.specs.Shape.{AreSides, IsBare, IsOver};
ghost use Rattle.fk_tree.specs.Side.{pair_of, pairs_of, height_of, IsBalanced};

use crate::key::Key;
use std::marker::Model;
use std::mem;

/// A side of a node: a tree of its own.
#[cycle(tree)]
#[derive(Drop)]
pub(crate) struct Side {
    pub(crate) top: Option<Box<Node>>,
}

/// A pair, with what comes before it on its left side and what comes behind it on its right side. Its
/// height is the number of nodes on the longest way down from it, itself among them.
#[cycle(tree)]
#[derive(Drop)]
pub(crate) struct Node {
    pub(crate) height: u8,
    pub(crate) left: Side,
    pub(crate) key: Key,
    pub(crate) right: Side,
}

impl Model for Side {
    ghost use Rattle.fk_tree.specs.Shape.{Shape};

    ghost Value = { Shape };

    ghost use Rattle.std.specs.Prelude.{length};
    ghost use Rattle.fk_tree.specs.Side.{height_of, pairs_of, IsBalanced};

    ghost view = { λ side. record { pairs = pairs_of side.top; height = height_of side.top } };

    ghost invariant = { λ side. IsBalanced side.top };

    ghost size = { λ shape. length shape.pairs };

    ghost use Rattle.std.proofs.Common.{arith, length-append};

    ghost size_decreases = { λ a h. Prim.grind (arith, length-append) };
}

/// A node, and its two sides taken out of it.
#[derive(Drop)]
pub(crate) struct Parts {
    pub(crate) node: Box<Node>,
    pub(crate) left: Side,
    pub(crate) right: Side,
}

impl Side {
    /// A side without a node.
    pub(crate) fn empty() -> Side
        ensures { IsBare result }
    {
        Side { top: None }
    }

    /// The side that a node stands at the top of, with two sides in the place of its own.
    pub(crate) fn over(mut node: Box<Node>, left: Side, right: Side) -> Side
        requires sides { AreSides 1 left (pair_of node.value.key) right }
        requires low { max left.height right.height < 255 }
        ensures { IsOver result left (pair_of node.value.key) right }
    {
        let height = left.height().max(right.height()) + 1;
        let key = node.key;
        *node = Node {
            height,
            left,
            key,
            right,
        };
        Side { top: Some(node) }
    }

    /// The number of nodes on its longest way down.
    pub(crate) fn height(&self) -> u8
        ensures { result ≡ self.now.height }
    {
        match &self.top {
            None => 0,
            Some(node) => node.height,
        }
    }

    /// What stands there, with the side left empty.
    pub(crate) fn take(&mut self) -> Side
        ensures value { result ≡ self.old }
        ensures bare { IsBare self.new }
    {
        mem::replace(self, Side::empty())
    }

    /// The node at the top.
    pub(crate) fn into_top(self) -> Option<Box<Node>>
        ensures pairs { pairs_of result ≡ self.pairs }
        ensures height { height_of result ≡ self.height }
        ensures balanced { IsBalanced result }
    {
        self.top
    }

    /// The node at the top, and its two sides.
    pub(crate) fn into_parts(self) -> Option<Parts>
        ensures some { IfSome result (λ parts.
            IsOver self parts.left (pair_of parts.node.value.key) parts.right) }
        ensures none { IfNone result (IsBare self) }
    {
        let mut node = self.top?;
        let left = node.left.take();
        let right = node.right.take();
        Some(Parts { node, left, right })
    }
}

impl Node {
    /// A node without sides.
    pub(crate) fn single(moment: u64, ticket: u64) -> Node
        ensures { pair_of result.key ≡ (moment, ticket) }
    {
        Node {
            height: 1,
            left: Side::empty(),
            key: Key { moment, ticket },
            right: Side::empty(),
        }
    }

    /// What stands on its right side, which is left empty.
    pub(crate) fn take_right(&mut self) -> Side
        ensures right { result ≡ self.old.right }
        ensures key { self.new.key ≡ self.old.key }
    {
        self.right.take()
    }
}
