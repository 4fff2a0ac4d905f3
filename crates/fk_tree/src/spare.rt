ghost use Rattle.std.specs.Prelude.{◌≡◌, ◌+◌, ◌<◌, ◌≤◌, max, IsOk, OnOk};
ghost use Rattle.fk_tree.specs.Side.{pair_of};

use crate::key::Key;
use crate::side::{Node, Side};
use std::alloc::{AllocError, Global};
use std::marker::Model;

/// Nodes for pairs to come, seen as their number. A node of a pair that was taken out is kept beside
/// them, so that a pair that is put next needs no other memory.
#[derive(Drop)]
pub(crate) struct Spare {
    alloc: Global,
    nodes: Vec<Box<Node>>,
    last: Option<Box<Node>>,
}

impl Model for Spare {
    ghost use Rattle.std.specs.Prelude.{ℕ, vec_len};

    ghost Value = { ℕ };

    ghost view = { λ spare. vec_len spare.nodes };
}

impl Spare {
    /// No nodes. It takes no memory.
    pub(crate) fn new(alloc: Global) -> Spare
        ensures { result ≡ 0 }
    {
        Spare {
            alloc,
            nodes: Vec::new(alloc),
            last: None,
        }
    }

    /// The number of nodes.
    pub(crate) fn len(&self) -> usize
        ensures { result ≡ self.now }
    {
        self.nodes.len()
    }

    /// Makes nodes until there are so many.
    pub(crate) fn make(&mut self, count: usize) -> Result<(), AllocError>
        ensures ok { OnOk result (count ≤ self.new) }
        ensures kept { self.old ≤ self.new }
        ensures bound { self.new ≤ max self.old count }
        ensures ready { count ≤ self.old → IsOk result }
    {
        'nodes: while self.nodes.len() < count {
            let node = made(self.alloc, self.last.take())?;
            self.nodes.push(node)?;
        }
        Ok(())
    }

    /// Keeps a node that isn't needed any more.
    pub(crate) fn keep(&mut self, node: Box<Node>)
        ensures { self.new ≡ self.old }
    {
        self.last = Some(node);
    }

    /// Takes a node out, with a pair in it.
    pub(crate) fn node(&mut self, moment: u64, ticket: u64) -> Box<Node>
        requires { 0 < self.old }
        ensures spare { self.new + 1 ≡ self.old }
        ensures key { pair_of result.value.key ≡ (moment, ticket) }
    {
        let Some(mut node) = self.nodes.pop() else {
            unreachable!()
        };
        node.key = Key { moment, ticket };
        node
    }
}

// This node, or a new one.
fn made(alloc: Global, node: Option<Box<Node>>) -> Result<Box<Node>, AllocError> {
    if let Some(node) = node {
        return Ok(node);
    }
    Ok(Box::new(alloc, Node::single(0, 0))?)
}
