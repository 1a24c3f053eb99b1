//! Leaves of a tree, and what becomes of one that is opened.
ghost use Rattle.std.specs.Prelude.{◌≡◌, ◌≤◌, false, IfOk, IfSome, OnOk, IsErrOf};
ghost use Rattle.mate_settle.specs.Tellings.{IsTold};
ghost use Rattle.mate_tree.specs.Shapes as Shapes;
ghost use Rattle.mate_tree.specs.Weights as Weights;
ghost use Rattle.watching.specs.declared.halt.Halt.{Halt};

use crate::node::{Node, leaf, open_with};
use mate_settle::{FactTable, Told, keep_now, settle, weighed_moves};
use playing::Board;
use rules_model::Memory;
use std::alloc::Global;
use watching::{Halt, Watch};

/// A leaf for each legal move of the position, in which the attacker has n moves left, in the order in which moves are
/// tried. As much is to prove after a move of the attacker as it is guessed to leave replies, and to disprove after a
/// move of the other side; the other number is 1.
///
/// # Errors
///
/// `Memory`.
pub fn leaves_of(
    alloc: Global,
    board: &Board,
    n: u16,
    facts: &FactTable,
) -> Result<Vec<Node>, Memory>
    ensures { IfOk result (λ vs. Shapes.AreLeavesOf board.now vs.items) }
{
    let attacking = board.position().side.is(facts.frame().attacker);
    let moves = weighed_moves(alloc, board, n, facts)?;
    let mut leaves = Vec::with_capacity(alloc, moves.len())?;
    for i in 0..moves.len() {
        let one = moves[i];
        let (proof, disproof) = if attacking {
            (one.replies, 1)
        } else {
            (1, one.replies)
        };
        leaves.push(leaf(alloc, one.chosen, proof, disproof))?;
    }
    Ok(leaves)
}

// Whether such a position is settled at once and not opened: the attacker has at most two moves left where he is to
// move, else at most one.
fn is_last(attacking: bool, n: u16) -> bool
    ensures { result ≡ Shapes.is_last attacking n }
{
    n < 2 || (attacking && n == 2)
}

/// Looks at a node for the first time. What is told of it, where that settles it: by the last moves, by what is known
/// of its position, or by its end. Else it has a leaf for each legal move, and they are taken from the room.
///
/// # Errors
///
/// What ends the watch; or `Memory`.
pub(crate) fn open<W: Watch>(
    alloc: Global,
    board: &Board,
    n: u16,
    node: &mut Node,
    room: &mut u64,
    facts: &mut FactTable,
    watch: &mut W,
) -> Result<Option<Told>, Halt>
    requires rules { board.now.rules ≡ facts.old.rules }
    requires small { n ≤ 1000 }
    requires closed { Shapes.is_opened node.old ≡ false }
    ensures frame { facts.new ≡ facts.old }
    ensures chosen { OnOk result (Shapes.chosen_at node.new ≡ Shapes.chosen_at node.old) }
    ensures told { IfOk result (λ o. IfSome o (IsTold facts.old board.now.position n)) }
    ensures gone { IfOk result (Weights.Spends (W.gone watch.old watch.new)
        (Weights.lines_at facts.old n board.now.position node.old)
        (Weights.lines_at facts.old n board.now.position node.new)) }
    ensures ended { (why : Halt) → IsErrOf result why → W.ended watch.old watch.new
        (Weights.lines_at facts.old n board.now.position node.old) why }
{
    let attacking = board.position().side.is(facts.frame().attacker);
    if is_last(attacking, n) {
        let told = settle(alloc, board, n, facts, watch)?;
        return Ok(Some(told));
    }
    watch.enter()?;
    if let Some(told) = facts.told(board, n) {
        return Ok(Some(told));
    }
    let children = leaves_of(alloc, board, n, facts)?;
    if let Some(told) = keep_now(facts, board, n, !children.is_empty()) {
        return Ok(Some(told));
    }
    *room = room.saturating_sub(children.len() as u64);
    open_with(node, attacking, children);
    Ok(None)
}
