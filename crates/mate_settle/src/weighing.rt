//! The moves of a position with the replies that each is guessed to leave, by which a tree grows.
ghost use Rattle.std.specs.Prelude.{◌≡◌, IfOk, map};
ghost use Rattle.foundation.specs.Member.{Lists, Member};
ghost use Rattle.check_moves.specs.Checks.{AreChecksIn};
ghost use Rattle.legality.specs.Stance.{legal_in};
ghost use Rattle.mate_settle.specs.Known.{weighed_of};
ghost use Rattle.rules_model.specs.declared.moves.Move.{Move};

use crate::fact_table::FactTable;
use crate::ordering::{
    CHECKED, Order, check_rank, early_reply_rank_by, freedom_of, freedom_taken, order_for,
    quiet_rank, taken,
};
use check_moves::gives_check;
use playing::Board;
use rules_model::{Memory, Move, Side};
use std::alloc::Global;

/// So many moves are guessed to be left to the attacker who is in check.
const REPLIES_TO_CHECK: u32 = 4;

/// A move, its rank, and how many moves it leaves to the other side. After a check of the attacker who has three moves
/// or more left they are counted; else they are guessed, one at the least.
#[derive(Clone, Copy)]
pub struct WeighedMove {
    pub rank: u32,
    pub replies: u32,
    pub chosen: Move,
}

// How many squares the board has on which nothing stands, times the kinds that the other side has in hand.
fn drops(board: &Board) -> u32 {
    let p = board.position();
    let rules = board.tables().rules();
    if !rules.drops {
        return 0;
    }
    let hand = match p.side {
        Side::White => &p.hands[1],
        Side::Black => &p.hands[0],
    };
    let kinds = hand.iter().filter(|count| **count > 0).count() as u32;
    let squares = u32::from(rules.files) * u32::from(rules.ranks);
    kinds.saturating_mul(squares.saturating_sub(board.sets().occupied().count()))
}

// How many moves the other side is guessed to have: the squares that its men reach, and those on which it may drop.
fn freedom(board: &Board) -> u32 {
    let mut men = board.sets().enemies;
    let mut all = drops(board);
    while let Some(at) = men.take_first() {
        all = all.saturating_add(freedom_of(board, at));
    }
    all
}

// What is left of it after a move that gives no check.
fn freedom_left(board: &Board, m: &Move, freedom: u32) -> u32 {
    freedom.saturating_sub(freedom_taken(board, m)).max(1)
}

fn weigh_attack(board: &Board, m: &Move, order: &Order, freedom: u32) -> WeighedMove
    requires legal { Member m.now (legal_in board.now) }
    requires checks { AreChecksIn board.now order.now.checks }
    ensures { weighed_of result ≡ m.now }
{
    let checks = gives_check(board, &order.checks, m);
    let rank = if checks {
        check_rank(board, m, order)
    } else {
        quiet_rank(board, m, order)
    };
    WeighedMove {
        rank: if order.is_first(m) { 0 } else { rank },
        replies: if checks {
            rank
        } else {
            freedom_left(board, m, freedom)
        },
        chosen: *m,
    }
}

fn weigh_reply(board: &Board, m: &Move, order: &Order, freedom: u32) -> WeighedMove
    requires legal { Member m.now (legal_in board.now) }
    requires checks { AreChecksIn board.now order.now.checks }
    ensures { weighed_of result ≡ m.now }
{
    let taken = taken(board, m, order);
    WeighedMove {
        rank: early_reply_rank_by(board, m, order, taken),
        replies: if taken == CHECKED {
            REPLIES_TO_CHECK
        } else {
            freedom_left(board, m, freedom)
        },
        chosen: *m,
    }
}

fn weigh(board: &Board, m: &Move, order: &Order, freedom: u32) -> WeighedMove
    requires legal { Member m.now (legal_in board.now) }
    requires checks { AreChecksIn board.now order.now.checks }
    ensures { weighed_of result ≡ m.now }
{
    if order.attacking {
        weigh_attack(board, m, order, freedom)
    } else {
        weigh_reply(board, m, order, freedom)
    }
}

// The moves, weighed.
fn weigh_all(
    alloc: Global,
    board: &Board,
    moves: &[Move],
    order: &Order,
) -> Result<Vec<WeighedMove>, Memory>
    requires moves { (m : Move) → Member m moves.now → Member m (legal_in board.now) }
    requires checks { AreChecksIn board.now order.now.checks }
    ensures { IfOk result (λ ws. map weighed_of ws.items ≡ moves.now) }
{
    let freedom = freedom(board);
    let mut weighed = Vec::with_capacity(alloc, moves.len())?;
    for i in 0..moves.len() {
        let chosen = moves[i];
        let one = weigh(board, &chosen, order, freedom);
        weighed.push(one)?;
    }
    Ok(weighed)
}

/// The legal moves, each once, with what they are guessed to leave, in the order in which they are tried where the
/// attacker has n moves left.
///
/// # Errors
///
/// `Memory`.
pub fn weighed_moves(
    alloc: Global,
    board: &Board,
    n: u16,
    facts: &FactTable,
) -> Result<Vec<WeighedMove>, Memory>
    ensures { IfOk result (λ ws. Lists (λ m. Member m (legal_in board.now)) (map weighed_of ws.items)) }
{
    let moves = board.list_legal(alloc)?;
    let order = order_for(board, n, facts);
    let mut weighed = weigh_all(alloc, board, moves.items.as_slice(), &order)?;
    weighed.sort_by_key(|one| one.rank)?;
    Ok(weighed)
}
