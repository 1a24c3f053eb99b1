//! Tests of `mate_fact`.
ghost use Rattle.std.specs.Prelude.{◌≡◌, [], ◌∷◌, None};
ghost use Rattle.foundation.specs.Member.{Member};
ghost use Rattle.legality.specs.Stance.{legal_in};
ghost use Rattle.mate_fact.specs.InFrame.{ServesMoveIn, end_in};

use crate::expect::expect_eq;
use crate::helpers::frame_of;
use attack_tables::Tables;
use legality::legal_moves;
use mate_core::{Fact, Frame, serves};
use mate_fact::{
    by_all, by_move, end_of, refuted_by_all, refuted_by_move, refuted_now, won_by, won_now,
};
use playing::Board;
use rules_model::{Cause, Move, Outcome, Position, Promo, Side, Square, repeat_of, sound};
use sample_rules::position;
use std::alloc::Global;
use std::process::Abort;

/// The position with this side to move, at this counter.
fn placed(pieces: &str, side: Side, counter: u16) -> Position {
    Position {
        side,
        counter,
        ..position(pieces)
    }
}

/// The number of moves of a fact, and its counter.
type Told = Option<(u16, u16)>;

/// Asserts what White, who attacks, has won by the end of the position, and what is refuted by it.
fn expect(rt: &impl Abort, alloc: Global, p: &Position, won: Told, refuted: Told) {
    let again = placed("Kh1 kh3 Ra1", Side::White, 0);
    let frame = frame_of(vec![in alloc; repeat_of(&again)].expect(rt, "no fault"));
    let tables = Tables::new(alloc, &frame.rules).expect(rt, "no fault");
    assert!(rt; sound(&frame.rules, p));
    let found = won_now(&frame, &tables, p).map(|fact| (fact.moves, fact.counter));
    expect_eq(rt, found, won);
    let found = refuted_now(&frame, &tables, p).map(|fact| (fact.moves, fact.counter));
    expect_eq(rt, found, refuted);
}

// A mated side, a stalemate, and a position that is not ended; the count of moves, and a position that is barred.
#[test]
fn ends_of_positions(rt: HostRuntime) {
    let (alloc, white, black) = (rt.alloc(), Side::White, Side::Black);
    let ended = Some((65535, 7));
    let mated = placed("Kg6 Ra8 kh8", black, 7);
    expect(&rt, alloc, &mated, Some((0, 9999)), None);
    expect(&rt, alloc, &placed("Kh1 qg2 kg3", white, 7), None, ended);
    expect(&rt, alloc, &placed("Kh1 qg3 kf2", white, 7), None, ended);
    let open = Some((0, 7));
    expect(&rt, alloc, &placed("Kg6 Ra1 kh8", white, 7), None, open);
    expect(&rt, alloc, &placed("Kg6 Ra1 kh8", black, 7), None, None);
    let late = placed("Kg6 Ra1 kh8", black, 100);
    expect(&rt, alloc, &late, None, Some((65535, 100)));
    expect(&rt, alloc, &placed("Kh1 kh3 Ra1", white, 7), None, ended);
}

/// Asserts whether White, who attacks, has won by the end, if it is one.
fn expect_won(rt: &impl Abort, end: Outcome, wanted: Option<bool>) {
    expect_eq(rt, won_by(Side::White, end), wanted);
}

// A repetition by which the attacker wins is no win of his.
#[test]
fn ends_are_won_by_a_side(rt: HostRuntime) {
    let (white, black) = (Side::White, Side::Black);
    expect_won(&rt, Outcome::Ongoing, None);
    expect_won(&rt, Outcome::Won(white, Cause::Checkmate), Some(true));
    expect_won(&rt, Outcome::Won(black, Cause::Checkmate), Some(false));
    expect_won(&rt, Outcome::Won(white, Cause::Repetition), Some(false));
    expect_won(&rt, Outcome::Drawn(Cause::Stalemate), Some(false));
}

/// A fact on the position after the legal move, with this number of moves.
fn fact_after(
    rt: &impl Abort,
    frame: &Frame,
    board: &Board,
    m: &Move,
    moves: u16,
    wins: bool,
) -> Fact
    requires rules { board.now.rules ≡ frame.now.rules }
    requires legal { Member m.now (legal_in board.now) }
    ensures serves { ServesMoveIn frame.now board.now.position m.now wins result }
    ensures moves { result.moves ≡ moves }
{
    let next = board.after(m);
    let known = Fact {
        repeat: repeat_of(next.position()),
        attacker: frame.attacker,
        moves,
        counter: next.position().counter,
        best: None,
        wins,
    };
    assert!(rt; serves(&known, &known.repeat, known.counter, moves));
    known
}

/// The fact on the position that follows from one on the position after the move, which has this number of moves: a win
/// where White is to move, who attacks, and else a refutation.
fn by_one_move(rt: &impl Abort, alloc: Global, p: &Position, m: &Move, moves: u16) -> Fact {
    assert!(rt; moves < 65535);
    let frame = frame_of(Vec::new(alloc));
    let tables = Tables::new(alloc, &frame.rules).expect(rt, "no fault");
    assert!(rt; sound(&frame.rules, p));
    let board = Board::new(&tables, p);
    assert!(rt; board.is_legal(m));
    let None = end_of(&frame, p, board.own_end()) else {
        panic!(rt; "it is ended");
    };
    let attacking = p.side.is(frame.attacker);
    let known = fact_after(rt, &frame, &board, m, moves, attacking);
    if attacking {
        by_move(&frame, &tables, p, m, &known)
    } else {
        refuted_by_move(&frame, &tables, p, m, &known)
    }
}

/// Asserts what a fact by one move says: for how many moves, at which counter, by that move, and whether it is a win.
fn expect_by_one(
    rt: &impl Abort,
    alloc: Global,
    p: &Position,
    m: &Move,
    moves: u16,
    wanted: (u16, u16, bool),
) {
    let fact = by_one_move(rt, alloc, p, m, moves);
    expect_eq(rt, (fact.moves, fact.counter, fact.wins), wanted);
    expect_eq(rt, fact.best, Some(*m));
}

fn go(from: Square, to: Square) -> Move {
    Move::Go {
        from,
        to,
        promo: Promo::Stays,
        gate: None,
    }
}

// A win by one move is one move longer; a refutation by one reply is as long.
#[test]
fn facts_follow_by_one_move(rt: HostRuntime) {
    let alloc = rt.alloc();
    let rook = go(Square::at(0, 0), Square::at(1, 0));
    let white = placed("Kg6 Ra1 kh8", Side::White, 7);
    expect_by_one(&rt, alloc, &white, &rook, 2, (3, 7, true));
    let king = go(Square::at(7, 7), Square::at(6, 7));
    let black = placed("Kg6 Ra1 kh8", Side::Black, 7);
    expect_by_one(&rt, alloc, &black, &king, 2, (2, 7, false));
}

/// The fact on the position that follows from one on the position after its only legal move, which has this number of
/// moves: a refutation where White is to move, who attacks, and else a win.
fn by_the_only_move(
    rt: &impl Abort,
    frame: &Frame,
    tables: &Tables,
    board: &Board,
    m: &Move,
    moves: u16,
) -> Fact
    requires rules { board.now.rules ≡ frame.now.rules }
    requires ongoing { end_in frame.now board.now.position ≡ None }
    requires only { legal_in board.now ≡ m.now ∷ [] }
{
    let p = board.position();
    let attacking = p.side.is(frame.attacker);
    let known = [fact_after(rt, frame, board, m, moves, !attacking)];
    if attacking {
        refuted_by_all(frame, tables, p, &known)
    } else {
        by_all(frame, tables, p, &known)
    }
}

/// The same, where the position has one legal move.
fn by_all_moves(rt: &impl Abort, alloc: Global, p: &Position, moves: u16) -> Fact {
    let frame = frame_of(Vec::new(alloc));
    let tables = Tables::new(alloc, &frame.rules).expect(rt, "no fault");
    assert!(rt; sound(&frame.rules, p));
    let board = Board::new(&tables, p);
    let None = end_of(&frame, p, board.own_end()) else {
        panic!(rt; "it is ended");
    };
    let legal = legal_moves(alloc, &frame.rules, &tables, p).expect(rt, "no fault");
    let [m] = legal.items.as_slice() else {
        panic!(rt; "it has not one move");
    };
    by_the_only_move(rt, &frame, &tables, &board, m, moves)
}

/// Asserts what a fact by all moves says: for how many moves, at which counter, and whether it is a win.
fn expect_by_all(
    rt: &impl Abort,
    alloc: Global,
    p: &Position,
    moves: u16,
    wanted: (u16, u16, bool),
) {
    let fact = by_all_moves(rt, alloc, p, moves);
    expect_eq(rt, (fact.moves, fact.counter, fact.wins), wanted);
    expect_eq(rt, fact.best, None);
}

// A refutation by all moves is one move longer, but for 65,535; a win after all replies is as long.
#[test]
fn facts_follow_by_all_moves(rt: HostRuntime) {
    let alloc = rt.alloc();
    let white = placed("Ka1 rc2 kh8", Side::White, 7);
    expect_by_all(&rt, alloc, &white, 2, (3, 7, false));
    expect_by_all(&rt, alloc, &white, 65535, (65535, 7, false));
    let black = placed("Kg6 Ra1 kh8", Side::Black, 7);
    expect_by_all(&rt, alloc, &black, 2, (2, 7, true));
}
