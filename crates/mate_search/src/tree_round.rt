//! The proof-number tree that is grown before a search that is depth first.
ghost use Rattle.std.specs.Prelude.{◌≡◌, ◌<◌, ◌≤◌, OnOk, IsErrOf};
ghost use Rattle.mate_shards.specs.Views.{ArePassesOf};
ghost use Rattle.mate_search.specs.Handed.{AreHandedBack};
ghost use Rattle.mate_search.specs.Races.{tree_lines};
ghost use Rattle.mate_tree.specs.Shapes.{IsStep};
ghost use Rattle.mate_tree.specs.Weights.{Leaves, forest};
ghost use Rattle.watching.specs.declared.halt.Halt.{Halt};

use crate::shared_root::claim_on;
use mate_settle::FactTable;
use mate_shards::{Passes, Shards};
use mate_tree::{Node, Step, grow_child, leaves_of};
use playing::Board;
use rules_model::Move;
use std::alloc::Global;
use std::sync::Wait;
use watching::{Halt, Watch};

/// A tree is grown for `LEAST_NODES` nodes, or for as many as the last solve entered, if these are more.
const LEAST_NODES: u64 = 1000;

/// A tree that has made `ROOM` nodes grows no more. Its last step may have made some beyond them.
const ROOM: u64 = 1 << 19;

/// Where fewer moves are asked for there is nothing above the last moves.
const LEAST_MOVES: u16 = 3;

/// Publishes what is known of the position after a move.
fn publish_step<R: Wait>(
    rt: &R,
    shards: &Shards,
    passes: &mut Passes,
    board: &Board,
    n: u16,
    step: &Step,
)
    requires rules { board.now.rules ≡ shards.now.frame.rules }
    requires step { IsStep shards.now.frame board.now n step.now }
    requires passes { ArePassesOf shards.now passes.old }
    ensures { AreHandedBack shards.now passes.old passes.new }
{
    let next = board.after(&step.chosen);
    let p = next.position();
    let claim = claim_on(shards.frame(), p, step.told);
    shards.publish_by_key(rt, passes, p, next.board_key(), claim);
}

// The move of a step that wins.
fn winning(step: &Step) -> Option<Move> {
    if step.told.wins {
        Some(step.chosen)
    } else {
        None
    }
}

/// Grows the tree by one leaf. Where that settles one of the position's moves, it is published; a move that wins is
/// answered.
///
/// # Errors
///
/// What ends the watch; or `Memory`.
fn grow_once<R: Wait, W: Watch>(
    rt: &R,
    alloc: Global,
    shards: &Shards,
    board: &Board,
    n: u16,
    roots: &mut Vec<Node>,
    room: &mut u64,
    passes: &mut Passes,
    facts: &mut FactTable,
    watch: &mut W,
) -> Result<Option<Move>, Halt>
    requires rules { board.now.rules ≡ shards.now.frame.rules }
    requires facts { facts.old ≡ shards.now.frame }
    requires passes { ArePassesOf shards.now passes.old }
    requires small { n ≤ 100 }
    ensures facts { facts.new ≡ facts.old }
    ensures handed { AreHandedBack shards.now passes.old passes.new }
    ensures gone { OnOk result (Leaves (W.gone watch.old watch.new)
        (forest facts.old n board.now.position roots.old.items)
        (forest facts.old n board.now.position roots.new.items)) }
    ensures ended { (why : Halt) → IsErrOf result why → W.ended watch.old watch.new
        (forest facts.old n board.now.position roots.old.items) why }
{
    match grow_child(alloc, board, n, roots, room, facts, watch)? {
        Some(step) => {
            publish_step(rt, shards, passes, board, n, &step);
            Ok(winning(&step))
        }
        None => Ok(None),
    }
}

/// Grows a tree from the position until its moves are settled, or one of them wins, or it has entered about as many
/// nodes as are said (at least 1,000), or has made about half a million. No tree is grown where the defender is to move
/// or fewer than three moves are asked for. What it settles of the position's moves is published, and the facts that it
/// finds are kept. The move that wins is answered.
///
/// # Errors
///
/// What ends the watch; or `Memory`.
pub(crate) fn grow_tree<R: Wait, W: Watch>(
    rt: &R,
    alloc: Global,
    shards: &Shards,
    board: &Board,
    n: u16,
    nodes: u64,
    passes: &mut Passes,
    facts: &mut FactTable,
    watch: &mut W,
) -> Result<Option<Move>, Halt>
    requires rules { board.now.rules ≡ shards.now.frame.rules }
    requires facts { facts.old ≡ shards.now.frame }
    requires passes { ArePassesOf shards.now passes.old }
    requires some { 0 < n }
    requires small { n ≤ 100 }
    ensures facts { facts.new ≡ facts.old }
    ensures handed { AreHandedBack shards.now passes.old passes.new }
    ensures gone { OnOk result
        (W.gone watch.old watch.new (tree_lines shards.now.frame n board.now.position)) }
    ensures ended { (why : Halt) → IsErrOf result why →
        W.ended watch.old watch.new (tree_lines shards.now.frame n board.now.position) why }
{
    if n < LEAST_MOVES || !board.position().side.is(shards.frame().attacker) {
        return Ok(None);
    }
    let most = nodes.max(LEAST_NODES);
    let last = watch.nodes().saturating_add(most);
    let mut room = ROOM;
    let mut roots = leaves_of(alloc, board, n, facts)?;
    // One step enters many nodes, another none, where it only takes a child out: so steps and nodes are both bounded.
    for _step in 0..most {
        if roots.is_empty() || room == 0 || last <= watch.nodes() {
            return Ok(None);
        }
        let grown = grow_once(
            rt, alloc, shards, board, n, &mut roots, &mut room, passes, facts, watch,
        )?;
        if grown.is_some() {
            return Ok(grown);
        }
    }
    Ok(None)
}
