//! Strategies as values.
ghost use Rattle.std.specs.Prelude.{◌≡◌, ◌-◌, ◌++◌, ◌∷◌, [], length, slice_get, OnOk, OnErr};
ghost use Rattle.std.specs.Option.{option_copied};
ghost use Rattle.strategy.specs.Reading as Reading;

use foundation::Memory;
use rules_model::{Kind, Move, Position, Side, Square};
use smallvec::SmallVec;
use std::marker::Model;

/// A move from a node to the node of the position after it.
#[derive(Clone, Copy, PartialEq, Eq)]
pub struct Edge {
    pub chosen: Move,
    /// The place of that node in its strategy.
    pub to: u64,
}

impl Default for Edge {
    /// What fills the room for edges that are not there: a drop of the first kind on the first square, to node 0.
    fn default() -> Edge {
        Edge {
            chosen: Move::Drop {
                kind: Kind(0),
                to: Square(0),
            },
            to: 0,
        }
    }
}

/// The edges of a node: the one move of the attacker, or the replies of the other side.
#[derive(Drop)]
pub struct Edges {
    pub items: SmallVec<Edge, 1>,
}

impl Model for Edges {
    ghost use Rattle.std.specs.Prelude.{List};
    ghost use Rattle.strategy.specs.declared.nodes.Edge.{Edge};

    ghost Value = { List Edge };

    ghost view = { λ e. e.items.items };
}

impl Edges {
    /// Appends an edge.
    pub fn push(&mut self, edge: Edge) -> Result<(), Memory>
        ensures ok { OnOk result (self.new ≡ self.old ++ edge ∷ []) }
        ensures err { OnErr result (self.new ≡ self.old) }
    {
        self.items.push(edge)?;
        Ok(())
    }
}

/// A position of a strategy.
#[derive(Drop)]
pub struct Node {
    /// Its counter is the greatest for which the node speaks, and its number is 1.
    pub position: Position,
    /// The most moves that the attacker still makes.
    pub rank: u16,
    pub edges: Edges,
}

impl Node {
    fn push_edge(&mut self, edge: Edge) -> Result<(), Memory>
        ensures ok { OnOk result (self.new ≡ Reading.more_edges self.old edge) }
        ensures err { OnErr result (self.new ≡ self.old) }
    {
        let edges = &mut self.edges;
        edges.push(edge)
    }
}

/// A list of nodes.
#[derive(Drop)]
pub struct Nodes {
    pub items: Vec<Node>,
}

impl Model for Nodes {
    ghost use Rattle.std.specs.Prelude.{List};
    ghost use Rattle.strategy.specs.declared.nodes.Node.{Node};

    ghost Value = { List Node };

    ghost view = { λ n. n.items.items };
}

impl Nodes {
    pub(crate) fn len(&self) -> usize
        ensures { result ≡ length self.now }
    {
        self.items.len()
    }

    pub(crate) fn last(&self) -> Option<&Node>
        ensures { option_copied result ≡ slice_get self.now (length self.now - 1) }
    {
        self.items.as_slice().last()
    }

    pub(crate) fn push(&mut self, node: Node) -> Result<(), Memory>
        ensures ok { OnOk result (self.new ≡ self.old ++ node ∷ []) }
        ensures err { OnErr result (self.new ≡ self.old) }
    {
        self.items.push(node)?;
        Ok(())
    }

    /// Appends an edge to the last node, where there is one.
    pub(crate) fn push_last_edge(&mut self, edge: Edge) -> Result<(), Memory>
        ensures ok { OnOk result (self.new ≡ Reading.with_last_edge self.old edge) }
        ensures err { OnErr result (self.new ≡ self.old) }
    {
        push_last_edge(&mut self.items, edge)
    }
}

/// How a side mates by force: node 0 is the root.
#[derive(Drop)]
pub struct Strategy {
    pub attacker: Side,
    pub nodes: Nodes,
}

/// Counters of one position.
#[derive(Drop)]
pub struct Counters {
    pub items: Vec<u16>,
}

impl Model for Counters {
    ghost use Rattle.std.specs.Prelude.{List, ℕ};

    ghost Value = { List ℕ };

    ghost view = { λ c. c.items.items };
}

#[tactic(auto, unfolding(crate::specs::Reading::with_last_edge))]
fn push_last_edge(nodes: &mut Vec<Node>, edge: Edge) -> Result<(), Memory>
    ensures ok { OnOk result (nodes.new.items ≡ Reading.with_last_edge nodes.old.items edge) }
    ensures err { OnErr result (nodes.new.items ≡ nodes.old.items) }
{
    if nodes.is_empty() {
        return Ok(());
    }
    let last = nodes.len() - 1;
    let node = &mut nodes[last];
    node.push_edge(edge)
}
