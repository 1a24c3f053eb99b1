//! Whether the attacker wins a position within n of his moves, exactly.
ghost use Rattle.std.specs.Prelude.{◌≡◌, ◌≤◌, ◌<◌, true, not, None, Some, IfOk, OnOk, IfSome, IsErrOf};
ghost use Rattle.foundation.specs.Member.{Member, Lists};
ghost use Rattle.forced_wins.specs.Facts as Facts;
ghost use Rattle.mate_core.specs.Runs.{IsTrueIn};
ghost use Rattle.mate_fact.specs.InFrame as In;
ghost use Rattle.mate_settle.specs.Choices.{lines_of_turn};
ghost use Rattle.mate_settle.specs.Known.{Answers};
ghost use Rattle.mate_settle.specs.Lines.{lines_within, seen_in};
ghost use Rattle.mate_settle.specs.Steps as Steps;
ghost use Rattle.mate_settle.specs.Tellings.{IsTold};
ghost use Rattle.legality.specs.Stance.{after, legal_in, repeat_in};
ghost use Rattle.rules_model.specs.Legal.{is_stuck};
ghost use Rattle.rules_model.specs.Sides.{same_side};
ghost use Rattle.watching.specs.declared.halt.Halt.{Halt};

use crate::fact_table::FactTable;
use crate::last_moves::only_movers_win;
use crate::last_replies::known_before;
use crate::ordering::{comer, in_order};
use crate::told::Told;
use mate_core::{Fact, Frame};
use mate_fact::{
    by_all_within, by_move_within, end_of, refuted_by_all_within, refuted_by_move_within,
    refuted_where, won_where,
};
use playing::Board;
use rules_model::{Memory, Move, Position};
use std::alloc::Global;
use watching::{Halt, Watch};

/// The legal moves, each once, in the order in which they are tried where the attacker has n moves left: those first
/// that are likely to decide. For his last move they are not ordered.
///
/// # Errors
///
/// `Memory`.
pub fn moves_to_try(
    alloc: Global,
    board: &Board,
    n: u16,
    facts: &FactTable,
) -> Result<Vec<Move>, Memory>
    ensures { IfOk result (λ ms. Lists (λ m. Member m (legal_in board.now)) ms.items) }
{
    let attacking = board.position().side.is(facts.frame().attacker);
    let moves = board.list_legal(alloc)?;
    if attacking && n < 2 {
        return Ok(moves.items);
    }
    let ordered = in_order(alloc, board, moves.items.as_slice(), n, facts)?;
    Ok(ordered)
}

/// The fact that needs no other: the position is ended, or the attacker, who is to move, has no move left. `any` says
/// whether some move is legal.
fn known_now(frame: &Frame, board: &Board, n: u16, any: bool) -> Option<Fact>
    requires rules { board.now.rules ≡ frame.now.rules }
    requires any { any ≡ not (is_stuck board.now.rules (repeat_in board.now)) }
    ensures serves { IfSome result (Answers board.now n) }
    ensures truth { IfSome result (IsTrueIn frame.now) }
    ensures ongoing { result ≡ None → In.end_in frame.now board.now.position ≡ None }
    ensures more { result ≡ None → same_side board.now.position.side frame.now.attacker ≡ true → 0 < n }
{
    board.prove_ready();
    let p = board.position();
    let end = end_of(frame, p, board.end_where(any));
    match end {
        Some(true) => won_where(frame, p, end),
        Some(false) => refuted_where(frame, p, end),
        None => {
            if n > 0 {
                return None;
            }
            refuted_where(frame, p, end)
        }
    }
}

fn moves_left(attacking: bool, n: u16) -> u16
    requires { attacking ≡ true → 0 < n }
    ensures is { result ≡ In.left_after attacking n }
    ensures some { attacking ≡ true → 0 < n }
{
    if attacking { n - 1 } else { n }
}

fn none_yet(attacking: bool) -> u16
    ensures { result ≡ Steps.far_at_first attacking }
{
    if attacking { u16::MAX } else { 0 }
}

fn farther(attacking: bool, far: u16, moves: u16) -> u16
    ensures { result ≡ Steps.farther_of attacking far moves }
{
    if attacking {
        far.min(moves)
    } else {
        far.max(moves)
    }
}

/// What a single move decides.
fn by_one(frame: &Frame, p: &Position, m: &Move, attacking: bool, moves: u16) -> Fact
    requires decides { Steps.Decides frame.now p.now attacking moves m.now }
    requires short { attacking ≡ true → moves < 65535 }
    ensures { IsTrueIn frame.now result }
{
    if attacking {
        by_move_within(frame, p, m, moves)
    } else {
        refuted_by_move_within(frame, p, m, moves)
    }
}

/// Keeps the move that decides a position, by which the moves of others are put in order.
fn learn(facts: &mut FactTable, board: &Board, attacking: bool, n: u16, chosen: Move)
    ensures { facts.new ≡ facts.old }
{
    if attacking {
        facts.keep_killer(n, chosen);
        return;
    }
    if n < 2 {
        facts.keep_refuter(chosen);
        return;
    }
    if let Some((kind, to)) = comer(board, &chosen) {
        facts.count_refuter(n, kind, to);
    }
}

/// Keeps what one move decides, unless it is that a reply refutes the attacker's last move: that is found again as
/// fast, and would push out facts that are not.
#[inline(never)]
fn keep_one(
    facts: &mut FactTable,
    board: &Board,
    attacking: bool,
    n: u16,
    chosen: &Move,
    moves: u16,
)
    requires decides { Steps.Decides facts.old board.now.position attacking moves chosen.now }
    requires short { attacking ≡ true → moves < 65535 }
    ensures { facts.new ≡ facts.old }
{
    if n == 1 && only_movers_win(&facts.frame().rules) {
        return;
    }
    let fact = by_one(facts.frame(), board.position(), chosen, attacking, moves);
    facts.keep(board, fact);
}

fn moves_by_one(attacking: bool, moves: u16) -> u16
    requires { attacking ≡ true → moves < 65535 }
    ensures { result ≡ Steps.after_one attacking moves }
{
    if attacking { moves + 1 } else { moves }
}

/// What is told of a position by one move that decides it: `known`, of the position after it, is as the side to move
/// wants. The move is kept for ordering; the fact is kept too, unless it is found again as fast.
#[inline]
pub fn decide(
    facts: &mut FactTable,
    board: &Board,
    attacking: bool,
    n: u16,
    chosen: Move,
    known: Told,
) -> Told
    requires rules { board.now.rules ≡ facts.old.rules }
    requires ongoing { In.end_in facts.old board.now.position ≡ None }
    requires turn { same_side board.now.position.side facts.old.attacker ≡ attacking }
    requires legal { Member chosen (legal_in board.now) }
    requires some { attacking ≡ true → 0 < n }
    requires small { n ≤ 1000 }
    requires told { IsTold facts.old (after board.now chosen).position (In.left_after attacking n) known }
    requires wins { known.wins ≡ attacking }
    ensures frame { facts.new ≡ facts.old }
    ensures told { IsTold facts.old board.now.position n result }
{
    learn(facts, board, attacking, n, chosen);
    keep_one(facts, board, attacking, n, &chosen, known.moves);
    Told {
        wins: attacking,
        moves: moves_by_one(attacking, known.moves),
    }
}

/// What all moves together decide.
fn by_each(frame: &Frame, p: &Position, attacking: bool, far: u16) -> Fact
    requires ongoing { In.end_in frame.now p.now ≡ None }
    requires turn { same_side p.now.side frame.now.attacker ≡ attacking }
    requires none { Steps.NoneDecides frame.now p.now attacking far (In.legal_in frame.now p.now) }
    ensures is { result ≡ Facts.fact_of p.now frame.now.attacker (Steps.after_all attacking far) None (not attacking) }
    ensures truth { IsTrueIn frame.now result }
{
    if attacking {
        refuted_by_all_within(frame, p, far)
    } else {
        by_all_within(frame, p, far)
    }
}

/// Keeps what all moves together decide, and tells it.
#[inline(never)]
fn keep_each(facts: &mut FactTable, board: &Board, attacking: bool, n: u16, far: u16) -> Told
    requires ongoing { In.end_in facts.old board.now.position ≡ None }
    requires turn { same_side board.now.position.side facts.old.attacker ≡ attacking }
    requires none { Steps.NoneDecides facts.old board.now.position attacking far
        (In.legal_in facts.old board.now.position) }
    requires far { Steps.IsFar attacking (In.left_after attacking n) far }
    requires small { n ≤ 1000 }
    ensures frame { facts.new ≡ facts.old }
    ensures told { IsTold facts.old board.now.position n result }
{
    let found = by_each(facts.frame(), board.position(), attacking, far);
    let told = Told::of(&found);
    facts.keep(board, found);
    told
}

/// What is told where the position has ended, or the attacker is to move and has no move left, and keeps that fact; else
/// None. `any` says whether some move is legal.
#[inline(never)]
pub fn keep_now(facts: &mut FactTable, board: &Board, n: u16, any: bool) -> Option<Told>
    requires rules { board.now.rules ≡ facts.old.rules }
    requires any { any ≡ not (is_stuck board.now.rules (repeat_in board.now)) }
    ensures frame { facts.new ≡ facts.old }
    ensures told { IfSome result (IsTold facts.old board.now.position n) }
    ensures ongoing { result ≡ None → In.end_in facts.old board.now.position ≡ None }
    ensures more { result ≡ None → same_side board.now.position.side facts.old.attacker ≡ true → 0 < n }
{
    match known_now(facts.frame(), board, n, any) {
        Some(fact) => {
            let told = Told::of(&fact);
            facts.keep(board, fact);
            Some(told)
        }
        None => None,
    }
}

/// Whether the attacker wins from the position within n of his moves, n up to 1,000, the position being looked at without
/// its history.
///
/// # Errors
///
/// What ends the watch; or `Memory`.
#[cycle(settle)]
pub fn settle<W: Watch>(
    alloc: Global,
    board: &Board,
    n: u16,
    facts: &mut FactTable,
    watch: &mut W,
) -> Result<Told, Halt>
    requires rules { board.now.rules ≡ facts.old.rules }
    requires small { n ≤ 1000 }
    ensures frame { facts.new ≡ facts.old }
    ensures told { IfOk result (IsTold facts.old board.now.position n) }
    ensures gone { OnOk result (W.gone watch.old watch.new (lines_within (seen_in facts.old) n board.now.position)) }
    ensures ended { (why : Halt) → IsErrOf result why →
        W.ended watch.old watch.new (lines_within (seen_in facts.old) n board.now.position) why }
{
    watch.enter()?;
    if let Some(told) = known_before(alloc, board, n, facts)? {
        return Ok(told);
    }
    let moves = moves_to_try(alloc, board, n, facts)?;
    if let Some(told) = keep_now(facts, board, n, !moves.is_empty()) {
        return Ok(told);
    }
    by_moves(alloc, board, n, moves.as_slice(), facts, watch)
}

/// The same by the legal moves, each once, of a position that goes on.
#[cycle(settle)]
fn by_moves<W: Watch>(
    alloc: Global,
    board: &Board,
    n: u16,
    moves: &[Move],
    facts: &mut FactTable,
    watch: &mut W,
) -> Result<Told, Halt>
    requires rules { board.now.rules ≡ facts.old.rules }
    requires small { n ≤ 1000 }
    requires ongoing { In.end_in facts.old board.now.position ≡ None }
    requires more { same_side board.now.position.side facts.old.attacker ≡ true → 0 < n }
    requires listed { Lists (λ m. Member m (legal_in board.now)) moves.now }
    ensures frame { facts.new ≡ facts.old }
    ensures told { IfOk result (IsTold facts.old board.now.position n) }
    ensures gone { OnOk result (W.gone watch.old watch.new (lines_of_turn facts.old n board.now.position)) }
    ensures ended { (why : Halt) → IsErrOf result why →
        W.ended watch.old watch.new (lines_of_turn facts.old n board.now.position) why }
{
    let attacking = board.position().side.is(facts.frame().attacker);
    let left = moves_left(attacking, n);
    let mut far = none_yet(attacking);
    for i in 0..moves.len() {
        let chosen = moves[i];
        let next = board.after(&chosen);
        let told = settle(alloc, &next, left, facts, watch)?;
        if told.wins == attacking {
            return Ok(decide(facts, board, attacking, n, chosen, told));
        }
        far = farther(attacking, far, told.moves);
    }
    Ok(keep_each(facts, board, attacking, n, far))
}
