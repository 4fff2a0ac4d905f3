ghost use Rattle.std.specs.Prelude.{◌≡◌, ◌+◌, ◌<◌, ◌≤◌, max};
ghost use Rattle.fk_tree.specs.Shape.{height_over, pairs_over, AreSides, DifferByAtMost, IsFull};
ghost use Rattle.fk_tree.specs.Side.{pair_of};

use crate::side::{Node, Parts, Side};

impl Side {
    /// The side that a node stands in, with two sides in the place of its own whose heights differ by
    /// at most two. Where they differ by two, boxes are moved, and no memory is taken.
    pub(crate) fn balanced(node: Box<Node>, left: Side, right: Side) -> Side
        requires sides { AreSides 2 left (pair_of node.value.key) right }
        requires low { max left.height right.height < 255 }
        ensures pairs { result.pairs ≡ pairs_over left (pair_of node.value.key) right }
        ensures not_lower { max left.height right.height ≤ result.height }
        ensures not_higher { result.height ≤ height_over left right }
        ensures even { DifferByAtMost 1 left right → result.height ≡ height_over left right }
        ensures full { IsFull result }
    {
        if left.height() > right.height() + 1 {
            turned_right(node, left, right)
        } else if right.height() > left.height() + 1 {
            turned_left(node, left, right)
        } else {
            Side::over(node, left, right)
        }
    }
}

// Turns a node whose left side is two levels higher: what stands there comes to the top.
fn turned_right(node: Box<Node>, left: Side, right: Side) -> Side
    requires sides { AreSides 2 left (pair_of node.value.key) right }
    requires left_high { left.height ≡ right.height + 2 }
    requires low { left.height < 255 }
    ensures pairs { result.pairs ≡ pairs_over left (pair_of node.value.key) right }
    ensures not_lower { left.height ≤ result.height }
    ensures not_higher { result.height ≤ left.height + 1 }
    ensures full { IsFull result }
{
    let Some(
        Parts {
            node: top,
            left: outer,
            right: inner,
        },
    ) = left.into_parts()
    else {
        unreachable!()
    };
    if outer.height() >= inner.height() {
        let right = Side::over(node, inner, right);
        return Side::over(top, outer, right);
    }
    let Some(
        Parts {
            node: middle,
            left: near,
            right: far,
        },
    ) = inner.into_parts()
    else {
        unreachable!()
    };
    let left = Side::over(top, outer, near);
    let right = Side::over(node, far, right);
    Side::over(middle, left, right)
}

// Turns a node whose right side is two levels higher: what stands there comes to the top.
fn turned_left(node: Box<Node>, left: Side, right: Side) -> Side
    requires sides { AreSides 2 left (pair_of node.value.key) right }
    requires right_high { right.height ≡ left.height + 2 }
    requires low { right.height < 255 }
    ensures pairs { result.pairs ≡ pairs_over left (pair_of node.value.key) right }
    ensures not_lower { right.height ≤ result.height }
    ensures not_higher { result.height ≤ right.height + 1 }
    ensures full { IsFull result }
{
    let Some(
        Parts {
            node: top,
            left: inner,
            right: outer,
        },
    ) = right.into_parts()
    else {
        unreachable!()
    };
    if outer.height() >= inner.height() {
        let left = Side::over(node, left, inner);
        return Side::over(top, left, outer);
    }
    let Some(
        Parts {
            node: middle,
            left: near,
            right: far,
        },
    ) = inner.into_parts()
    else {
        unreachable!()
    };
    let left = Side::over(node, left, near);
    let right = Side::over(top, far, outer);
    Side::over(middle, left, right)
}
