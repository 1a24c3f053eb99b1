//! The order in which moves are tried: those first that are likely to decide.
ghost use Rattle.std.specs.Prelude.{◌≡◌, ◌<◌, IfOk, map};
ghost use Rattle.std.specs.List.Sorted.{IsPermutation};
ghost use Rattle.foundation.specs.Member.{Member};
ghost use Rattle.check_moves.specs.Checks.{AreChecksIn};
ghost use Rattle.mate_settle.specs.Known.{chosen_of};
ghost use Rattle.legality.specs.Stance.{legal_in};
ghost use Rattle.rules_model.specs.declared.moves.Move.{Move};

use crate::fact_table::FactTable;
use crate::last_moves::only_movers_win;
use attack_tables::{Mode, cell_on};
use check_moves::{Checks, checks_of, gives_check};
use playing::Board;
use rules_model::passing::is_stays;
use rules_model::{Kind, Memory, Move, Side, Square, cell_at};
use square_set::{EMPTY, Set};
use std::alloc::Global;

/// Where checks are counted, a check comes before this rank; and another move of the attacker after it.
const QUIET: u32 = 1000;

/// The rank of a check whose replies are not counted, and of one that captures.
const CHECK: u32 = 100;

const CAPTURING_CHECK: u32 = 80;

/// So much is taken from the attacker by a reply that checks him, and at most by another.
pub(crate) const CHECKED: u32 = 1000;

/// So many squares are guessed to be reached by a pawn.
const PAWN_FREEDOM: u32 = 2;

/// A move, and its rank: one of a lower rank is tried sooner.
#[derive(Clone, Copy)]
pub(crate) struct Ranked {
    pub rank: u32,
    pub chosen: Move,
}

/// What a position's moves are ranked by.
#[derive(Clone, Copy)]
pub(crate) struct Order<'a, 'f> {
    facts: &'a FactTable<'f>,
    /// The attacker is to move.
    pub attacking: bool,
    /// How many moves he has left.
    moves: u16,
    /// The attacker's move that won last where he had as many moves left.
    killer: Option<Move>,
    /// The best move of the fact that is kept for a position of this key.
    best: Option<Move>,
    /// The rank of the replies that refuted the attacker's last move lately.
    refuter: u32,
    /// The checks that the side to move may give.
    pub checks: Checks,
    /// The squares that the other side's kings reach.
    ring: Set,
}

/// How many legal moves there are, or the number below `QUIET` where there are more.
fn count_moves(board: &Board) -> u32 {
    board.count_legal().min(999) as u32
}

/// The kind of the piece that comes to a square by the move, and the square. Castles are left out.
pub(crate) fn comer(board: &Board, m: &Move) -> Option<(Kind, Square)> {
    match *m {
        Move::Go { from, to, .. } => match cell_at(&board.position().cells, from) {
            Some(piece) => Some((piece.kind, to)),
            None => None,
        },
        Move::Castle { .. } => None,
        Move::Drop { kind, to } => Some((kind, to)),
    }
}

/// The squares on which a piece of the kind and the side may take from the square.
pub(crate) fn reached(board: &Board, side: Side, kind: Kind, from: u8) -> Set {
    if kind.0 >= 26 || from >= 120 {
        return EMPTY;
    }
    let occupied = board.sets().occupied();
    board
        .tables()
        .reach_set(side, kind, Square(from), Mode::Take, occupied)
}

/// How many squares the other side's man on the square reaches, by a guess for a pawn.
pub(crate) fn freedom_of(board: &Board, from: u8) -> u32 {
    let p = board.position();
    let sets = board.sets();
    if from >= 120 {
        return 0;
    }
    if sets.pawns.has(from) {
        return PAWN_FREEDOM;
    }
    match cell_on(&p.cells, from) {
        Some(piece) => reached(board, piece.side, piece.kind, from)
            .minus(sets.enemies)
            .count(),
        None => 0,
    }
}

/// The squares that the other side's kings reach.
fn ring(board: &Board) -> Set {
    let p = board.position();
    let mut ring = EMPTY;
    let mut kings = board.sets().enemy_kings;
    while let Some(at) = kings.take_first() {
        if let Some(king) = cell_at(&p.cells, Square(at)) {
            ring = ring.or(reached(board, king.side, king.kind, at));
        }
    }
    ring
}

/// How many squares the man reaches that the move takes.
pub(crate) fn freedom_taken(board: &Board, m: &Move) -> u32 {
    match *m {
        Move::Go { to, .. } => {
            let enemies = board.sets().enemies;
            if to.0 < 120 && enemies.has(to.0) {
                freedom_of(board, to.0)
            } else {
                0
            }
        }
        Move::Castle { .. } => 0,
        Move::Drop { .. } => 0,
    }
}

/// How much of what the attacker may do the reply is guessed to take from him, up to `CHECKED`.
pub(crate) fn taken(board: &Board, m: &Move, order: &Order) -> u32
    requires legal { Member m.now (legal_in board.now) }
    requires checks { AreChecksIn board.now order.now.checks }
{
    if gives_check(board, &order.checks, m) {
        return CHECKED;
    }
    freedom_taken(board, m).min(CHECKED - 1)
}

/// How often such a reply refuted, in steps of four: up to 63.
fn refutations(board: &Board, m: &Move, order: &Order) -> u32 {
    match comer(board, m) {
        Some((kind, to)) => u32::from(order.facts.refuted(order.moves, kind, to) / 4),
        None => 0,
    }
}

/// Those first that are guessed to leave the attacker the fewest moves, and of these those that refuted most: a reply
/// that refuted elsewhere and does not here would be searched at length. The move is guessed to take so much from him.
pub(crate) fn early_reply_rank_by(board: &Board, m: &Move, order: &Order, taken: u32) -> u32 {
    let left = CHECKED.saturating_sub(taken);
    (left.saturating_add(1).saturating_mul(64)).saturating_sub(refutations(board, m, order))
}

fn early_reply_rank(board: &Board, m: &Move, order: &Order) -> u32
    requires legal { Member m.now (legal_in board.now) }
    requires checks { AreChecksIn board.now order.now.checks }
{
    let taken = taken(board, m, order);
    early_reply_rank_by(board, m, order, taken)
}

/// Before the attacker's last move the replies that refuted lately come first, but last where they were tried already.
/// Of the others captures come first.
fn last_reply_rank(board: &Board, m: &Move, order: &Order) -> u32
    requires { Member m.now (legal_in board.now) }
{
    if order.facts.is_refuter(m) {
        order.refuter
    } else if board.captures(m) {
        1
    } else {
        2
    }
}

/// The replies to a check are counted, but before the last move but one, where captures come first.
pub(crate) fn check_rank(board: &Board, m: &Move, order: &Order) -> u32
    requires { Member m.now (legal_in board.now) }
{
    if order.moves > 2 {
        let next = board.asked_after(m);
        count_moves(&next)
    } else if board.captures(m) {
        CAPTURING_CHECK
    } else {
        CHECK
    }
}

fn promotes(m: &Move) -> bool {
    match *m {
        Move::Go { promo, .. } => !is_stays(promo),
        Move::Castle { .. } => false,
        Move::Drop { .. } => false,
    }
}

/// What the move takes, promotes to, and attacks next to a king.
fn gain(board: &Board, m: &Move, order: &Order) -> u32
    requires { Member m.now (legal_in board.now) }
{
    let captured = if board.captures(m) { 50u32 } else { 0 };
    let promoted = if promotes(m) { 60 } else { 0 };
    let near = match comer(board, m) {
        Some((kind, to)) => reached(board, board.position().side, kind, to.0)
            .and(order.ring)
            .count(),
        None => 0,
    };
    captured
        .saturating_add(promoted)
        .saturating_add(near.saturating_mul(10))
}

impl Order<'_, '_> {
    /// Whether the attacker's move won last, or is best by a fact.
    pub fn is_first(&self, m: &Move) -> bool {
        self.killer == Some(*m) || self.best == Some(*m)
    }
}

/// Of the moves that give no check those come first that gain most.
pub(crate) fn quiet_rank(board: &Board, m: &Move, order: &Order) -> u32
    requires { Member m.now (legal_in board.now) }
{
    (2 * QUIET).saturating_sub(gain(board, m, order))
}

/// The move that won last, and the one that is best by a fact, come first, then checks, and then the others.
fn attack_rank(board: &Board, m: &Move, order: &Order) -> u32
    requires legal { Member m.now (legal_in board.now) }
    requires checks { AreChecksIn board.now order.now.checks }
{
    if order.is_first(m) {
        return 0;
    }
    if gives_check(board, &order.checks, m) {
        return check_rank(board, m, order);
    }
    quiet_rank(board, m, order)
}

fn rank(board: &Board, m: &Move, order: &Order) -> u32
    requires legal { Member m.now (legal_in board.now) }
    requires checks { AreChecksIn board.now order.now.checks }
{
    if order.attacking {
        attack_rank(board, m, order)
    } else if order.moves > 1 {
        early_reply_rank(board, m, order)
    } else {
        last_reply_rank(board, m, order)
    }
}

/// What the moves are ranked by where the attacker has n left.
pub(crate) fn order_for<'a, 'f>(board: &Board, n: u16, facts: &'a FactTable<'f>) -> Order<'a, 'f>
    ensures { AreChecksIn board.now result.checks }
{
    let frame = facts.frame();
    let attacking = board.position().side.is(frame.attacker);
    let tried = only_movers_win(&frame.rules);
    let checks = checks_of(board);
    Order {
        facts,
        attacking,
        moves: n,
        killer: if attacking { facts.killer(n) } else { None },
        best: if attacking {
            facts.best_on(board)
        } else {
            None
        },
        refuter: if tried { 3 } else { 0 },
        checks,
        ring: if attacking { ring(board) } else { EMPTY },
    }
}

/// The moves with their ranks.
fn ranked_moves(
    alloc: Global,
    board: &Board,
    moves: &[Move],
    order: &Order,
) -> Result<Vec<Ranked>, Memory>
    requires moves { (m : Move) → Member m moves.now → Member m (legal_in board.now) }
    requires checks { AreChecksIn board.now order.now.checks }
    ensures { IfOk result (λ rs. map chosen_of rs.items ≡ moves.now) }
{
    let mut ranked = Vec::with_capacity(alloc, moves.len())?;
    for i in 0..moves.len() {
        let chosen = moves[i];
        let rank = rank(board, &chosen, order);
        ranked.push(Ranked { rank, chosen })?;
    }
    Ok(ranked)
}

/// The moves without their ranks.
fn unranked(alloc: Global, ranked: &[Ranked]) -> Result<Vec<Move>, Memory>
    ensures { IfOk result (λ ms. ms.items ≡ map chosen_of ranked.now) }
{
    let mut moves = Vec::with_capacity(alloc, ranked.len())?;
    for i in 0..ranked.len() {
        let one = ranked[i];
        moves.push(one.chosen)?;
    }
    Ok(moves)
}

/// The moves in the order in which they are tried where the attacker has n left.
pub(crate) fn in_order(
    alloc: Global,
    board: &Board,
    moves: &[Move],
    n: u16,
    facts: &FactTable,
) -> Result<Vec<Move>, Memory>
    requires { (m : Move) → Member m moves.now → Member m (legal_in board.now) }
    ensures { IfOk result (λ ms. IsPermutation moves.now ms.items) }
{
    let order = order_for(board, n, facts);
    let mut ranked = ranked_moves(alloc, board, moves, &order)?;
    ranked.sort_by_key(|one| one.rank)?;
    let ordered = unranked(alloc, ranked.as_slice())?;
    Ok(ordered)
}
