//! What becomes of a leaf that is expanded.
ghost use Rattle.std.specs.Prelude.{◌≡◌, ◌+◌, ◌<◌, ◌≤◌, ◌++◌, ◌^◌, ℕ, true, Some, None, IfOk, OnOk, OnErr, length, map, replicate, slice_get, slice_set};
ghost use Rattle.legality.specs.Stance.{legal_in};
ghost use Rattle.rules_model.specs.Ready.{IsReady};
ghost use Rattle.mate_fact.specs.InFrame as In;
ghost use Rattle.pn_search.specs.declared.node.Node.{Node};
ghost use Rattle.pn_search.specs.declared.node.State.TheVariants.{Inner};
ghost use Rattle.pn_search.specs.Kept as Kept;
ghost use Rattle.pn_search.specs.Numbers as Numbers;
ghost use Rattle.pn_search.specs.Shapes as Shapes;
ghost use Rattle.pn_search.specs.Trees as Trees;

use crate::descending::Leaf;
use crate::node::{Node, State};
use crate::numbers::{OPEN, Pair};
use attack_tables::Tables;
use end_rules::is_run_out;
use legality::{MoveGen, own_end};
use mate_core::Frame;
use mate_fact::{end_of, won_by};
use rules_model::{Memory, Move, Position};
use std::alloc::Global;

/// More nodes than these have no numbers of 32 bits.
const MOST_NODES: usize = u32::MAX as usize;

/// How the position is ended as the root of a tree, whose repeat is not looked up: whether the attacker has won; None
/// where it is ongoing.
#[tactic(auto, unfolding(crate::specs::Trees::end_at, forced_wins::specs::Wins::near_end))]
pub fn root_end(frame: &Frame, tables: &Tables, p: &Position) -> Option<bool>
    requires { IsReady frame.now.rules tables.now p.now }
    ensures { result ≡ Trees.end_at frame.now 0 p.now }
{
    let won = won_by(frame.attacker, own_end(tables, p));
    if won.is_some() {
        return won;
    }
    if is_run_out(&frame.rules, p.counter) {
        Some(false)
    } else {
        None
    }
}

// How the leaf's position is ended. The root's is ongoing, and its repeat is not looked up.
fn end_at(frame: &Frame, leaf: &Leaf, known: &MoveGen) -> Option<bool>
    requires rules { leaf.now.board.rules ≡ frame.now.rules }
    requires known { known.now ≡ leaf.now.board }
    requires root { leaf.now.place ≡ 0 → Trees.end_at frame.now 0 leaf.now.board.position ≡ None }
    ensures { result ≡ Trees.end_at frame.now leaf.now.place leaf.now.board.position }
{
    match leaf.place {
        0 => None,
        _ => end_of(frame, leaf.board.position(), known.own_end()),
    }
}

// What the node becomes where it gets no children.
fn state_by(end: Option<bool>, node: &Node) -> Option<State>
    ensures { result ≡ Trees.state_by end node.now.attacking node.now.left }
{
    match end {
        Some(true) => Some(State::Won),
        Some(false) => Some(State::Lost),
        None if node.attacking && node.left == 0 => Some(State::Lost),
        None => None,
    }
}

fn left_after(node: &Node) -> u8
    requires { node.now.attacking ≡ true → 0 < node.now.left }
    ensures { result ≡ In.left_after node.now.attacking node.now.left }
{
    if node.attacking {
        node.left - 1
    } else {
        node.left
    }
}

// Appends a child for each of the moves, and its pair. Without memory both are as before.
fn push_children(
    parent: u32,
    node: Node,
    moves: &[Move],
    nodes: &mut Vec<Node>,
    pairs: &mut Vec<Pair>,
) -> Result<(), Memory>
    requires { node.attacking ≡ true → 0 < node.left }
    ensures nodes { OnOk result (nodes.new.items ≡ nodes.old.items ++ map (Kept.written_child parent node) moves.now) }
    ensures pairs { OnOk result
        (pairs.new.items ≡ pairs.old.items ++ replicate (length moves.now) Numbers.open_pair) }
    ensures same_nodes { OnErr result (nodes.new.items ≡ nodes.old.items) }
    ensures same_pairs { OnErr result (pairs.new.items ≡ pairs.old.items) }
{
    let left = left_after(&node);
    nodes.reserve(moves.len())?;
    pairs.reserve(moves.len())?;
    for m in moves {
        nodes.push_reserved(Node {
            parent,
            state: State::Open,
            chosen: Some(*m),
            left,
            attacking: !node.attacking,
        });
        pairs.push_reserved(OPEN);
    }
    Ok(())
}

// The legal moves in the order of the list.
fn legal_list(alloc: Global, known: &MoveGen) -> Result<Vec<Move>, Memory>
    ensures { IfOk result (λ ms. ms.items ≡ legal_in known.now) }
{
    let moves = known.legal_moves(alloc)?;
    Ok(moves.items)
}

// Makes the children of the leaf. Without memory the nodes and the pairs are as before.
fn open(
    leaf: &Leaf,
    known: &MoveGen,
    nodes: &mut Vec<Node>,
    pairs: &mut Vec<Pair>,
) -> Result<(), Memory>
    requires known { known.now ≡ leaf.now.board }
    requires within { leaf.now.place < length nodes.old.items }
    requires len { length pairs.old.items ≡ length nodes.old.items }
    requires few { length nodes.old.items < 2 ^ 32 }
    requires more { (v : Node) → slice_get nodes.old.items leaf.now.place ≡ Some v → v.attacking ≡ true → 0 < v.left }
    ensures nodes { OnOk result ((v : Node) → slice_get nodes.old.items leaf.now.place ≡ Some v →
        nodes.new.items ≡ slice_set nodes.old.items leaf.now.place
        (record v { state = Inner (length nodes.old.items) (length (legal_in leaf.now.board)) })
        ++ map (Kept.written_child leaf.now.place v) (legal_in leaf.now.board)) }
    ensures pairs { OnOk result
        (pairs.new.items ≡ pairs.old.items ++ replicate (length (legal_in leaf.now.board)) Numbers.open_pair) }
    ensures few { OnOk result (length nodes.new.items < 2 ^ 32) }
    ensures same_nodes { OnErr result (nodes.new.items ≡ nodes.old.items) }
    ensures same_pairs { OnErr result (pairs.new.items ≡ pairs.old.items) }
{
    let moves = legal_list(*nodes.allocator(), known)?;
    let first = nodes.len();
    let count = moves.len();
    if count > MOST_NODES - first {
        return Err(Memory);
    }
    let node = nodes[leaf.place];
    let parent = leaf.place as u32;
    push_children(parent, node, moves.as_slice(), nodes, pairs)?;
    nodes[leaf.place].state = State::Inner {
        first: first as u32,
        count: count as u32,
    };
    Ok(())
}

/// Expands the leaf. The pairs of all other nodes are those that are worked out.
///
/// # Errors
///
/// `Memory` where there is none, or where a node would have no number of 32 bits. The nodes and the pairs are as
/// before.
pub(crate) fn expand(
    frame: &Frame,
    leaf: &Leaf,
    nodes: &mut Vec<Node>,
    pairs: &mut Vec<Pair>,
) -> Result<(), Memory>
    requires rules { leaf.now.board.rules ≡ frame.now.rules }
    requires leaf { Kept.IsExpandable frame.now nodes.old.items leaf.now.place leaf.now.board.position }
    requires placed { Shapes.AreInPlace nodes.old.items }
    requires pairs { pairs.old.items ≡ Numbers.pairs_of nodes.old.items }
    requires few { length nodes.old.items < 2 ^ 32 }
    ensures nodes { OnOk result (nodes.new.items
        ≡ Trees.nodes_after frame.now nodes.old.items (Trees.spot_at leaf.now.place leaf.now.board.position)) }
    ensures len { OnOk result (length pairs.new.items ≡ length nodes.new.items) }
    ensures longer { OnOk result (length nodes.old.items ≤ length nodes.new.items) }
    ensures others { OnOk result
        ((i : ℕ) → (i ≡ leaf.now.place → ⊥) → Shapes.IsNumbered nodes.new.items pairs.new.items i) }
    ensures few { OnOk result (length nodes.new.items < 2 ^ 32) }
    ensures same_nodes { OnErr result (nodes.new.items ≡ nodes.old.items) }
    ensures same_pairs { OnErr result (pairs.new.items ≡ pairs.old.items) }
{
    let node = nodes[leaf.place];
    let known = leaf.board.known();
    if let Some(state) = state_by(end_at(frame, leaf, &known), &node) {
        nodes[leaf.place].state = state;
        return Ok(());
    }
    open(leaf, &known, nodes, pairs)?;
    Ok(())
}
