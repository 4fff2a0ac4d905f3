ghost use Rattle.std.specs.Prelude.{◌≡◌, false};
ghost use Rattle.fk_tree.specs.Side.{height_of, pairs_of, IsAllowed, IsBalanced, IsNear};

use crate::side::{Node, Side};

/// Sets the height of a node right where one of its sides moved by a level, and tells whether it is
/// another than before. Where the heights of its sides came to differ by two, nodes are turned.
#[inline]
pub(crate) fn settle(top: &mut Option<Box<Node>>, before: u8, moved: bool) -> bool
    requires before { before ≡ height_of top.old }
    requires near { IsNear top.old }
    requires still { moved ≡ false → IsBalanced top.old }
    ensures pairs { pairs_of top.new ≡ pairs_of top.old }
    ensures balanced { IsBalanced top.new }
    ensures allowed { IsAllowed top.old (height_of top.new) }
    ensures told { result ≡ false → height_of top.new ≡ height_of top.old }
{
    if !moved {
        return false;
    }
    level(top);
    height(top) != before
}

// The number of nodes on the longest way down.
fn height(top: &Option<Box<Node>>) -> u8
    ensures { result ≡ height_of top.now }
{
    match top {
        None => 0,
        Some(node) => node.height,
    }
}

// Sets the height of what stands there, or turns it.
fn level(top: &mut Option<Box<Node>>)
    requires near { IsNear top.old }
    ensures pairs { pairs_of top.new ≡ pairs_of top.old }
    ensures balanced { IsBalanced top.new }
    ensures allowed { IsAllowed top.old (height_of top.new) }
{
    let Some(node) = top else {
        return;
    };
    let left = node.left.height();
    let right = node.right.height();
    if left > right + 1 || right > left + 1 {
        return turn(top);
    }
    node.height = left.max(right) + 1;
}

// Takes what stands there apart, and builds it anew with sides whose heights differ by at most one.
fn turn(top: &mut Option<Box<Node>>)
    requires near { IsNear top.old }
    ensures pairs { pairs_of top.new ≡ pairs_of top.old }
    ensures balanced { IsBalanced top.new }
    ensures allowed { IsAllowed top.old (height_of top.new) }
{
    let Some(mut node) = top.take() else {
        return;
    };
    let left = node.left.take();
    let right = node.right.take();
    *top = Side::balanced(node, left, right).into_top();
}
