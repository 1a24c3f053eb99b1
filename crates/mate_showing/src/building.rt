//! How the table of a win is made: by a second walk, in which the facts that are known answer most questions.
ghost use Rattle.std.specs.Prelude.{◌≡◌, ◌+◌, ◌-◌, ◌*◌, ◌≤◌, true, false, None, IfOk, OnOk, IsErrOf};
ghost use Rattle.foundation.specs.Member.{Member};
ghost use Rattle.legality.specs.Stance.{legal_in};
ghost use Rattle.mate_settle.specs.Lines.{lines_within, seen_in};
ghost use Rattle.mate_showing.specs.Tables as Tables;
ghost use Rattle.mate_showing.specs.Tabled as Tabled;
ghost use Rattle.rules_model.specs.Next.{next};
ghost use Rattle.watching.specs.declared.halt.Halt.{Halt};

use crate::node_table::{NodeTable, no_edges};
use crate::ordering::{best_of_win, moves_from};
use mate_fact::won_by;
use mate_settle::{FactTable, choose};
use playing::Board;
use rules_model::Move;
use std::alloc::Global;
use strategy::{Edge, Edges};
use watching::{Halt, Watch};

/// Brings in the node of a position that is won within n moves, with all that it needs, and answers its place.
#[cycle(build)]
pub(crate) fn build<W: Watch>(
    alloc: Global,
    board: &Board,
    n: u16,
    table: &mut NodeTable,
    facts: &mut FactTable,
    watch: &mut W,
) -> Result<u64, Halt>
    requires rules { board.now.rules ≡ facts.old.rules }
    requires frame { table.old.frame ≡ facts.old }
    requires small { n ≤ Tables.most }
    requires next { Tabled.IsNextIn table.old n board.now.position }
    ensures frame { facts.new ≡ facts.old }
    ensures grows { OnOk result (Tabled.GrowsTo table.old table.new) }
    ensures stands { IfOk result (Tabled.StandsIn table.new board.now.position n) }
    ensures gone { OnOk result (W.gone watch.old watch.new
        ((n + 1) * lines_within (seen_in facts.old) n board.now.position)) }
    ensures ended { (why : Halt) → IsErrOf result why →
        W.ended watch.old watch.new ((n + 1) * lines_within (seen_in facts.old) n board.now.position) why }
{
    watch.enter()?;
    if let Some(at) = table.find(board, n) {
        return Ok(at);
    }
    let attacker = facts.frame().attacker;
    if won_by(attacker, board.own_end()).is_some() {
        return Ok(table.finish(board, n, no_edges(alloc))?);
    }
    if board.position().side.is(attacker) {
        let edges = attack_edges(alloc, board, n, table, facts, watch)?;
        return Ok(table.finish(board, n, edges)?);
    }
    let edges = defence_edges(alloc, board, n, table, facts, watch)?;
    Ok(table.finish(board, n, edges)?)
}

/// The edges of a position in which the attacker is to move: a move that wins, and no other.
#[cycle(build)]
fn attack_edges<W: Watch>(
    alloc: Global,
    board: &Board,
    n: u16,
    table: &mut NodeTable,
    facts: &mut FactTable,
    watch: &mut W,
) -> Result<Edges, Halt>
    requires rules { board.now.rules ≡ facts.old.rules }
    requires frame { table.old.frame ≡ facts.old }
    requires small { n ≤ Tables.most }
    requires next { Tabled.IsNextIn table.old n board.now.position }
    requires goes_on { (seen_in facts.old).own board.now.position ≡ None }
    requires turn { (seen_in facts.old).attacking board.now.position ≡ true }
    ensures frame { facts.new ≡ facts.old }
    ensures grows { OnOk result (Tabled.GrowsTo table.old table.new) }
    ensures edges { IfOk result (Tabled.AreEdgesIn table.new board.now.position n) }
    ensures gone { OnOk result (W.gone watch.old watch.new
        ((n + 1) * lines_within (seen_in facts.old) n board.now.position - 1)) }
    ensures ended { (why : Halt) → IsErrOf result why →
        W.ended watch.old watch.new ((n + 1) * lines_within (seen_in facts.old) n board.now.position - 1) why }
{
    let known = best_of_win(facts.look(board, n));
    let order = moves_from(alloc, board, n, facts, known)?;
    match choose(alloc, board, &order, n, facts, watch)? {
        Some(choice) => {
            let edge = edge_to(
                alloc,
                board,
                choice.chosen,
                choice.moves,
                table,
                facts,
                watch,
            )?;
            let mut edges = no_edges(alloc);
            edges.push(edge)?;
            Ok(edges)
        }
        None => unreachable!(),
    }
}

/// The edges of a position in which the defender is to move: each legal move, in their order.
#[cycle(build)]
fn defence_edges<W: Watch>(
    alloc: Global,
    board: &Board,
    n: u16,
    table: &mut NodeTable,
    facts: &mut FactTable,
    watch: &mut W,
) -> Result<Edges, Halt>
    requires rules { board.now.rules ≡ facts.old.rules }
    requires frame { table.old.frame ≡ facts.old }
    requires small { n ≤ Tables.most }
    requires next { Tabled.IsNextIn table.old n board.now.position }
    requires goes_on { (seen_in facts.old).own board.now.position ≡ None }
    requires turn { (seen_in facts.old).attacking board.now.position ≡ false }
    ensures frame { facts.new ≡ facts.old }
    ensures grows { OnOk result (Tabled.GrowsTo table.old table.new) }
    ensures edges { IfOk result (Tabled.AreEdgesIn table.new board.now.position n) }
    ensures gone { OnOk result (W.gone watch.old watch.new
        ((n + 1) * lines_within (seen_in facts.old) n board.now.position - 1)) }
    ensures ended { (why : Halt) → IsErrOf result why →
        W.ended watch.old watch.new ((n + 1) * lines_within (seen_in facts.old) n board.now.position - 1) why }
{
    let mut edges = no_edges(alloc);
    let moves = board.legal_items(alloc)?;
    for i in 0..moves.len() {
        let edge = edge_to(alloc, board, moves[i], n, table, facts, watch)?;
        edges.push(edge)?;
    }
    Ok(edges)
}

/// Brings in the node of the position after a legal move, and answers the edge that leads to it.
#[cycle(build)]
fn edge_to<W: Watch>(
    alloc: Global,
    board: &Board,
    chosen: Move,
    n: u16,
    table: &mut NodeTable,
    facts: &mut FactTable,
    watch: &mut W,
) -> Result<Edge, Halt>
    requires rules { board.now.rules ≡ facts.old.rules }
    requires frame { table.old.frame ≡ facts.old }
    requires small { n ≤ Tables.most }
    requires legal { Member chosen (legal_in board.now) }
    requires next { Tabled.IsNextIn table.old n (next facts.old.rules board.now.position chosen) }
    ensures frame { facts.new ≡ facts.old }
    ensures grows { OnOk result (Tabled.GrowsTo table.old table.new) }
    ensures chosen { IfOk result (λ e. e.chosen ≡ chosen) }
    ensures stands { IfOk result (λ e.
        Tabled.StandsIn table.new (next facts.old.rules board.now.position chosen) n e.to) }
    ensures gone { OnOk result (W.gone watch.old watch.new
        ((n + 1) * lines_within (seen_in facts.old) n (next facts.old.rules board.now.position chosen))) }
    ensures ended { (why : Halt) → IsErrOf result why → W.ended watch.old watch.new
        ((n + 1) * lines_within (seen_in facts.old) n (next facts.old.rules board.now.position chosen)) why }
{
    let next = board.after(&chosen);
    let to = build(alloc, &next, n, table, facts, watch)?;
    Ok(Edge { chosen, to })
}
