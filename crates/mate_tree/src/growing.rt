//! How a tree grows.
ghost use Rattle.std.specs.Prelude.{◌≡◌, ◌≤◌, true, IfOk, IfSome, OnOk, IsErrOf};
ghost use Rattle.mate_fact.specs.InFrame as In;
ghost use Rattle.mate_settle.specs.Tellings.{IsTold};
ghost use Rattle.rules_model.specs.Sides.{same_side};
ghost use Rattle.mate_tree.specs.Shapes as Shapes;
ghost use Rattle.mate_tree.specs.Weights as Weights;
ghost use Rattle.watching.specs.declared.halt.Halt.{Halt};

use crate::node::{Node, renumber};
use crate::numbers::best_child;
use crate::opening::open;
use mate_settle::{FactTable, Told, decide, keep_now, settle};
use playing::Board;
use rules_model::Move;
use std::alloc::Global;
use watching::{Halt, Watch};

/// A move of a position, and what is told of the position after it.
#[derive(Clone, Copy)]
pub struct Step {
    pub chosen: Move,
    pub told: Told,
}

/// How many moves the attacker has left after a move.
fn left_after(attacking: bool, n: u16) -> u16
    ensures { result ≡ In.left_after attacking n }
{
    if attacking { n.saturating_sub(1) } else { n }
}

/// What is told of a position of which one move is known to lead where the side to move wants.
fn by_step(facts: &mut FactTable, board: &Board, attacking: bool, n: u16, step: &Step) -> Told
    requires rules { board.now.rules ≡ facts.old.rules }
    requires turn { same_side board.now.position.side facts.old.attacker ≡ attacking }
    requires small { n ≤ 1000 }
    requires step { Shapes.IsStep facts.old board.now n step.now }
    requires wins { step.now.told.wins ≡ attacking }
    ensures frame { facts.new ≡ facts.old }
    ensures told { IsTold facts.old board.now.position n result }
{
    if let Some(told) = keep_now(facts, board, n, true) {
        return told;
    }
    decide(facts, board, attacking, n, step.chosen, step.told)
}

/// Grows a tree by one leaf. The attacker has n moves left in the position, n up to 1,000, and the children are nodes
/// for moves of it, as `leaves_of` makes them. The child on the path to the most-proving leaf is looked at: where its
/// position is settled it is taken out, and its move is answered with what is told of it. A child whose move is not
/// legal is taken out without an answer. The nodes that are made are taken from the room, down to 0. No clause says
/// which leaf grows, or what is taken from the room.
///
/// # Errors
///
/// What ends the watch; or `Memory`.
#[cycle(grow)]
pub fn grow_child<W: Watch>(
    alloc: Global,
    board: &Board,
    n: u16,
    children: &mut Vec<Node>,
    room: &mut u64,
    facts: &mut FactTable,
    watch: &mut W,
) -> Result<Option<Step>, Halt>
    requires rules { board.now.rules ≡ facts.old.rules }
    requires small { n ≤ 1000 }
    ensures frame { facts.new ≡ facts.old }
    ensures step { IfOk result (λ o. IfSome o (Shapes.IsStep facts.old board.now n)) }
    ensures gone { OnOk result (Weights.Leaves (W.gone watch.old watch.new)
        (Weights.forest facts.old n board.now.position children.old.items)
        (Weights.forest facts.old n board.now.position children.new.items)) }
    ensures ended { (why : Halt) → IsErrOf result why → W.ended watch.old watch.new
        (Weights.forest facts.old n board.now.position children.old.items) why }
{
    let attacking = board.position().side.is(facts.frame().attacker);
    let at = best_child(attacking, children.as_slice()).place;
    if at >= children.len() {
        return Ok(None);
    }
    let chosen = children[at].chosen;
    if !board.is_legal(&chosen) {
        let _other = children.remove(at);
        return Ok(None);
    }
    let next = board.after(&chosen);
    let left = left_after(attacking, n);
    match grow(alloc, &next, left, &mut children[at], room, facts, watch)? {
        Some(told) => {
            let _settled = children.remove(at);
            Ok(Some(Step { chosen, told }))
        }
        None => Ok(None),
    }
}

/// Grows the tree below a node by one leaf. Where that settles the node's position, which the board is: whether the
/// attacker wins from it within n moves.
///
/// # Errors
///
/// What ends the watch; or `Memory`.
#[cycle(grow)]
fn grow<W: Watch>(
    alloc: Global,
    board: &Board,
    n: u16,
    node: &mut Node,
    room: &mut u64,
    facts: &mut FactTable,
    watch: &mut W,
) -> Result<Option<Told>, Halt>
    requires rules { board.now.rules ≡ facts.old.rules }
    requires small { n ≤ 1000 }
    ensures frame { facts.new ≡ facts.old }
    ensures chosen { OnOk result (Shapes.chosen_at node.new ≡ Shapes.chosen_at node.old) }
    ensures told { IfOk result (λ o. IfSome o (IsTold facts.old board.now.position n)) }
    ensures gone { IfOk result (Weights.Spends (W.gone watch.old watch.new)
        (Weights.lines_at facts.old n board.now.position node.old)
        (Weights.lines_at facts.old n board.now.position node.new)) }
    ensures ended { (why : Halt) → IsErrOf result why → W.ended watch.old watch.new
        (Weights.lines_at facts.old n board.now.position node.old) why }
{
    if !node.opened {
        return open(alloc, board, n, node, room, facts, watch);
    }
    let attacking = board.position().side.is(facts.frame().attacker);
    if let Some(step) = grow_child(alloc, board, n, &mut node.children, room, facts, watch)? {
        if step.told.wins == attacking {
            return Ok(Some(by_step(facts, board, attacking, n, &step)));
        }
    }
    if node.children.is_empty() {
        let told = settle(alloc, board, n, facts, watch)?;
        return Ok(Some(told));
    }
    renumber(node, attacking);
    Ok(None)
}
