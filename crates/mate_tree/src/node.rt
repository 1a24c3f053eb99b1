//! The nodes of a tree.
ghost use Rattle.std.specs.Prelude.{true, false};
ghost use Rattle.mate_tree.specs.Shapes as Shapes;

use crate::numbers::best_child;
use rules_model::Move;
use std::alloc::Global;

/// A position that is not settled. It is not kept: the moves from the root lead to it.
#[derive(Drop)]
pub struct Node {
    /// The move that leads to it.
    pub chosen: Move,
    /// How many positions, as far as is known or guessed, have to be won so that this one is.
    pub proof: u32,
    /// And how many have to be refuted so that this one is.
    pub disproof: u32,
    /// Whether its moves were looked at.
    pub opened: bool,
    /// Of an opened node: a child for each of its moves that is not settled.
    pub children: Vec<Node>,
}

/// A node that is not opened, with these numbers.
pub(crate) fn leaf(alloc: Global, chosen: Move, proof: u32, disproof: u32) -> Node
    ensures { Shapes.IsLeafOf chosen proof disproof result }
{
    Node {
        chosen,
        proof,
        disproof,
        opened: false,
        children: Vec::new(alloc),
    }
}

/// Opens a node.
pub(crate) fn open_with(node: &mut Node, attacking: bool, children: Vec<Node>)
    ensures { Shapes.IsOpenedWith attacking node.old children.items node.new }
{
    node.opened = true;
    node.children = children;
    renumber(node, attacking);
}

/// Works out the numbers of a node from those of its children.
pub(crate) fn renumber(node: &mut Node, attacking: bool)
    ensures { Shapes.IsRenumbered attacking node.old node.new }
{
    let best = best_child(attacking, node.children.as_slice());
    if attacking {
        node.proof = best.own;
        node.disproof = best.others;
    } else {
        node.proof = best.others;
        node.disproof = best.own;
    }
}
