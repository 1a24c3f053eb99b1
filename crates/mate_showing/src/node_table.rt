//! The nodes of a strategy in the making.
ghost use Rattle.std.specs.Prelude.{◌≡◌, ◌-◌, ◌≤◌, ◌<◌, ◌++◌, ◌∷◌, [], ℕ, true, false, None, Some};
ghost use Rattle.std.specs.Prelude.{IfOk, OnOk, OnErr, IfSome, length, slice_get, slice_set, min};
ghost use Rattle.mate_showing.specs.Tables as Tables;
ghost use Rattle.mate_showing.specs.Tabled as Tabled;
ghost use Rattle.mate_showing.specs.Keyed.{keys_of};
ghost use Rattle.mate_settle.specs.Lines.{plies, seen_in};
ghost use Rattle.position_key.specs.Key.{key_of};
ghost use Rattle.rules_model.specs.Next.{with_counts};
ghost use Rattle.rules_model.specs.Repeats as Repeats;
ghost use Rattle.strategy.specs.declared.nodes.Node.{Node};

use crate::plan::{StrategyPlan, plies_of};
use key_index::KeyIndex;
use mate_core::Frame;
use playing::Board;
use rules_model::{Memory, Position, repeats};
use smallvec::SmallVec;
use std::alloc::Global;
use std::marker::Model;
use strategy::{Edges, Node};

/// The rank of a node that is not made yet.
const UNMADE: u16 = 65535;

/// No counter rises above it.
const HIGHEST: u32 = 9999;

/// Nodes that lead to one another, each of a position that is won, and the root's first. Contracts see the frame, the
/// plan and the nodes.
///
/// A node is sought among those that have the key of its repeat.
#[derive(Drop)]
pub(crate) struct NodeTable<'f> {
    frame: &'f Frame,
    plan: StrategyPlan,
    nodes: Vec<Node>,
    keys: KeyIndex,
}

impl<'f> Model for NodeTable<'f> {
    ghost use Rattle.mate_showing.specs.Keyed.{IsKeyed};
    ghost use Rattle.mate_showing.specs.Tabled.{Tabled};

    ghost Value = { Tabled };

    ghost view = { λ t. record { frame = t.frame.now; plan = t.plan; nodes = t.nodes.items } };

    ghost invariant = { λ t. IsKeyed t.frame.now t.plan t.nodes.items t.keys };
}

// Whether the node is the one for the position.
fn is_for(node: &Node, exact: bool, p: &Position) -> bool
    ensures { result ≡ Tables.is_key exact p.now node.now }
{
    repeats(&node.position, p) && (!exact || node.position.counter == p.counter)
}

// The place of the node for the position, or else the one after all nodes. The position has this key, and nodes of
// other keys are not looked at.
fn place(nodes: &[Node], keys: &KeyIndex, key: u64, exact: bool, p: &Position) -> usize
    requires keys { keys.now ≡ keys_of nodes.now }
    requires key { key ≡ key_of (Repeats.repeat_of p.now) }
    ensures within { result ≤ length nodes.now }
    ensures here { (v : Node) → slice_get nodes.now result ≡ Some v → Tables.is_key exact p.now v ≡ true }
    ensures before { (j : ℕ) (v : Node) → j < result → slice_get nodes.now j ≡ Some v →
        Tables.is_key exact p.now v ≡ false }
{
    let mut found = nodes.len();
    let mut at = keys.last(key);
    while let Some(i) = at {
        if is_for(&nodes[i], exact, p) {
            found = i;
        }
        at = keys.before(i);
    }
    found
}

// Whether there is a node at the place, of rank at most n.
fn is_made(nodes: &[Node], at: usize, n: u16) -> bool
    ensures made { result ≡ true → (v : Node) × (slice_get nodes.now at ≡ Some v) × (v.rank ≤ n) }
    ensures not_made { result ≡ false → (v : Node) → slice_get nodes.now at ≡ Some v → n < v.rank }
{
    if at < nodes.len() {
        nodes[at].rank <= n
    } else {
        false
    }
}

// Puts a node of this key at its place, in place of an earlier one of the same key, or after all.
fn put(
    nodes: &mut Vec<Node>,
    keys: &mut KeyIndex,
    at: usize,
    node: Node,
    key: u64,
) -> Result<(), Memory>
    requires { at ≤ length nodes.old.items }
    ensures after { OnOk result (length nodes.old.items ≡ at → nodes.new.items ≡ nodes.old.items ++ node ∷ []) }
    ensures over { OnOk result (at < length nodes.old.items → nodes.new.items ≡ slice_set nodes.old.items at node) }
    ensures key_after { OnOk result (length nodes.old.items ≡ at → keys.new ≡ keys.old ++ key ∷ []) }
    ensures key_over { OnOk result (at < length nodes.old.items → keys.new ≡ keys.old) }
    ensures err { OnErr result (nodes.new.items ≡ nodes.old.items) }
    ensures keys_err { OnErr result (keys.new ≡ keys.old) }
{
    if at < nodes.len() {
        nodes[at] = node;
        return Ok(());
    }
    nodes.reserve(1)?;
    keys.push(key)?;
    nodes.push_reserved(node);
    Ok(())
}

// The counter of the node of a position at a rank.
fn counter_at(frame: &Frame, plan: &StrategyPlan, p: &Position, n: u16) -> u16
    requires { plan.now.exact ≡ false → plies (seen_in frame.now) n p.now ≤ plan.now.room }
    ensures exact { plan.now.exact ≡ true → result ≡ p.now.counter }
    ensures falling { plan.now.exact ≡ false →
        result ≡ min Tables.highest (plan.now.room - plies (seen_in frame.now) n p.now) }
{
    if plan.exact {
        p.counter
    } else {
        (plan.room - plies_of(frame, p, n)).min(HIGHEST) as u16
    }
}

// The position as a strategy has it: with the number 1.
fn written(p: &Position, counter: u16) -> Position
    ensures { result ≡ with_counts (Repeats.repeat_of p.now) counter 1 }
{
    Position {
        counter,
        number: 1,
        ..*p
    }
}

/// No edges.
pub(crate) fn no_edges(alloc: Global) -> Edges
    ensures { result ≡ [] }
{
    Edges {
        items: SmallVec::new(alloc),
    }
}

impl<'f> NodeTable<'f> {
    /// The table with the root's node alone, which is not made yet.
    pub fn new(
        alloc: Global,
        frame: &'f Frame,
        board: &Board,
        plan: StrategyPlan,
    ) -> Result<NodeTable<'f>, Memory>
        requires rules { board.now.rules ≡ frame.now.rules }
        requires root { plan.root ≡ board.now.position }
        ensures frame { IfOk result (λ t. t.frame ≡ frame.now) }
        ensures plan { IfOk result (λ t. t.plan ≡ plan) }
    {
        board.prove_ready();
        let mut nodes = Vec::new(alloc);
        nodes.push(Node {
            position: written(&plan.root, plan.root.counter),
            rank: UNMADE,
            edges: no_edges(alloc),
        })?;
        let mut keys = KeyIndex::new(alloc)?;
        keys.push(board.key())?;
        Ok(NodeTable {
            frame,
            plan,
            nodes,
            keys,
        })
    }

    /// The place of the node for the position, if there is one of rank at most n.
    pub fn find(&self, board: &Board, n: u16) -> Option<u64>
        ensures { IfSome result (Tabled.StandsIn self.now board.now.position n) }
    {
        let nodes = self.nodes.as_slice();
        let key = board.key();
        let at = place(nodes, &self.keys, key, self.plan.exact, board.position());
        if is_made(nodes, at, n) {
            Some(at as u64)
        } else {
            None
        }
    }

    /// Brings in the node of the position, unless there is one of rank at most n, and answers its place.
    pub fn finish(&mut self, board: &Board, n: u16, edges: Edges) -> Result<u64, Memory>
        requires rules { board.now.rules ≡ self.old.frame.rules }
        requires small { n ≤ Tables.most }
        requires next { Tabled.IsNextIn self.old n board.now.position }
        requires edges { Tabled.AreEdgesIn self.old board.now.position n edges }
        ensures grows { OnOk result (Tabled.GrowsTo self.old self.new) }
        ensures stands { IfOk result (Tabled.StandsIn self.new board.now.position n) }
    {
        board.prove_ready();
        let p = board.position();
        let key = board.key();
        let nodes = self.nodes.as_slice();
        let at = place(nodes, &self.keys, key, self.plan.exact, p);
        if is_made(nodes, at, n) {
            return Ok(at as u64);
        }
        let counter = counter_at(self.frame, &self.plan, p, n);
        let node = Node {
            position: written(p, counter),
            rank: n,
            edges,
        };
        put(&mut self.nodes, &mut self.keys, at, node, key)?;
        Ok(at as u64)
    }

    /// The nodes.
    pub fn into_nodes(self) -> Vec<Node>
        ensures nodes { result.items ≡ self.entry.nodes }
        ensures kept { Tabled.IsKept self.entry.frame self.entry.plan result.items }
    {
        self.nodes
    }
}
