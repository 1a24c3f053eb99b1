//! Tests of `check_moves`.
ghost use Rattle.foundation.specs.Member.{Member};
ghost use Rattle.rules_model.specs.Fit.{IsFit};
ghost use Rattle.legality.specs.Stance as Stance;
ghost use Rattle.check_moves.specs.Checks.{AreChecksIn};
ghost use Rattle.check_moves.specs.Flights.{AreFlights};

use crate::expect::expect_eq;
use attack_tables::Tables;
use check_moves::{Checks, KnownFlights, checks_of, gives_check, may_check};
use playing::Board;
use rules_model::{Move, Position, Rules, sound};
use sample_rules::{chess, hand_of, position, shouse, square, xiangqi};
use std::alloc::Global;
use std::process::Abort;

/// Xiangqi with kings that do not fly.
fn walking() -> Rules
    ensures { IsFit result }
{
    let mut rules = xiangqi();
    rules.flying = false;
    rules
}

/// Whether the legal move has to be asked.
fn is_asked(board: &Board, checks: &Checks, m: &Move) -> bool
    requires legal { Member m.now (Stance.legal_in board.now) }
    requires checks { AreChecksIn board.now checks.now }
{
    may_check(board, checks, m)
}

/// Asserts that of White's moves this many have to be asked, and of each that it is told whether it checks as the board
/// tells it.
fn expect(rt: &impl Abort, alloc: Global, rules: &Rules, p: &Position, wanted: u32)
    requires { IsFit rules.now }
{
    let tables = Tables::new(alloc, rules).expect(rt, "no fault");
    assert!(rt; sound(tables.rules(), p));
    let board = Board::new(&tables, p);
    let checks = checks_of(&board);
    let moves = board.legal_moves(alloc).expect(rt, "no fault");
    let mut asked = 0u32;
    for m in &moves.items {
        assert!(rt; board.is_legal(m));
        if is_asked(&board, &checks, m) {
            asked = asked.saturating_add(1);
        }
        let gives = gives_check(&board, &checks, m);
        assert!(rt; gives == board.gives_check(m));
    }
    expect_eq(rt, asked, wanted);
}

/// The same in chess.
fn expect_chess(rt: &impl Abort, alloc: Global, p: &Position, wanted: u32) {
    expect(rt, alloc, &chess(), p, wanted);
}

// A rook's, a knight's, what uncovers and a pawn that stays in the way, a king that uncovers; of two pieces in the way
// neither does. A promotion is asked by what the pawn becomes: queen and rook.
#[test]
fn few_moves_of_chess_are_asked(rt: HostRuntime) {
    let alloc = rt.alloc();
    expect_chess(&rt, alloc, &position("Ke1 Ra1 ke8"), 1);
    expect_chess(&rt, alloc, &position("Ke1 Nd5 kg8"), 2);
    expect_chess(&rt, alloc, &position("Ke1 Re2 Ne4 ke8"), 8);
    expect_chess(&rt, alloc, &position("Ke1 Re2 Pe4 ke8"), 1);
    expect_chess(&rt, alloc, &position("Ke4 Re1 ke8"), 8);
    expect_chess(&rt, alloc, &position("Ke1 Ra8 Nb8 nd8 kh8"), 0);
    expect_chess(&rt, alloc, &position("Ke1 Pa7 kh8"), 2);
}

// The castling rook checks. En passant takes two pieces out of the way.
#[test]
fn castles_and_passing_captures_are_asked(rt: HostRuntime) {
    let castling = Position {
        rights: [[true, false], [false; 2]],
        ..position("Ke1 Rh1 kf8")
    };
    expect_chess(&rt, rt.alloc(), &castling, 3);
    let passing = Position {
        ep: Some(square("d6")),
        ..position("Ka1 Ra5 Pe5 kh5 pd5")
    };
    expect_chess(&rt, rt.alloc(), &passing, 1);
}

// A knight is dropped; pieces that gate are asked.
#[test]
fn drops_and_gates_are_asked(rt: HostRuntime) {
    let rules = shouse();
    let dropping = Position {
        hands: [hand_of(b"n"), [0; 26]],
        ..position("Ke1 ke8")
    };
    expect(&rt, rt.alloc(), &rules, &dropping, 4);
    expect(&rt, rt.alloc(), &rules, &rules.start, 12);
}

/// The same in xiangqi with kings that do not fly.
fn expect_walking(rt: &impl Abort, alloc: Global, p: &Position, wanted: u32) {
    expect(rt, alloc, &walking(), p, wanted);
}

// Of a cannon's two screens each uncovers it; without one any piece may be its screen. A piece that holds a horse back.
#[test]
fn cannons_and_horses_are_uncovered(rt: HostRuntime) {
    let alloc = rt.alloc();
    expect_walking(&rt, alloc, &position("Kd1 Ce3 Ne5 pe7 ke10"), 8);
    expect_walking(&rt, alloc, &position("Kd1 Ce3 Rd5 ke10"), 34);
    expect_walking(&rt, alloc, &position("Kd1 Nd8 Rd9 ke10"), 9);
}

// Where kings fly every move is asked.
#[test]
fn every_move_beside_flying_kings_is_asked(rt: HostRuntime) {
    let rules = xiangqi();
    expect(&rt, rt.alloc(), &rules, &rules.start, 44);
}

/// Whether a step of the other side's king is known to meet the legal move.
fn is_met(board: &Board, flights: &mut KnownFlights, m: &Move) -> bool
    requires legal { Member m.now (Stance.legal_in board.now) }
    requires flights { AreFlights board.now flights.old }
    ensures { AreFlights board.now flights.new }
{
    flights.meets(board, m)
}

/// Asserts that of White's moves this many are not known to be met by a step of the king, and that after each of the
/// others there is a legal move.
fn expect_unmet(rt: &impl Abort, alloc: Global, rules: &Rules, p: &Position, wanted: u32)
    requires { IsFit rules.now }
{
    let tables = Tables::new(alloc, rules).expect(rt, "no fault");
    assert!(rt; sound(tables.rules(), p));
    let board = Board::new(&tables, p);
    let mut flights = KnownFlights::of(&board);
    let moves = board.legal_moves(alloc).expect(rt, "no fault");
    let mut unmet = 0u32;
    for m in &moves.items {
        assert!(rt; board.is_legal(m));
        if is_met(&board, &mut flights, m) {
            assert!(rt; board.after(m).any_legal());
        } else {
            unmet = unmet.saturating_add(1);
        }
    }
    expect_eq(rt, unmet, wanted);
}

/// The same in chess.
fn expect_chess_unmet(rt: &impl Abort, alloc: Global, p: &Position, wanted: u32) {
    expect_unmet(rt, alloc, &chess(), p, wanted);
}

// A check along the rank leaves steps off it, and every other move leaves some; where another king takes those away,
// one move mates. A lone step is closed along its rank, and along its file without a check. A pawn promotes far from
// it.
#[test]
fn checks_that_leave_a_step_are_met(rt: HostRuntime) {
    let alloc = rt.alloc();
    expect_chess_unmet(&rt, alloc, &position("Ke1 Ra1 ke8"), 0);
    expect_chess_unmet(&rt, alloc, &position("Kg6 Ra1 kg8"), 1);
    expect_chess_unmet(&rt, alloc, &position("Kh6 Rf1 kh8"), 2);
    expect_chess_unmet(&rt, alloc, &position("Ke1 Pa7 kh8"), 0);
}

// What is dropped leaves steps too. Where kings fly none is known.
#[test]
fn drops_leave_steps_and_flying_kings_have_none(rt: HostRuntime) {
    let rules = shouse();
    let dropping = Position {
        hands: [hand_of(b"n"), [0; 26]],
        ..position("Ke1 ke8")
    };
    expect_unmet(&rt, rt.alloc(), &rules, &dropping, 0);
    let flying = xiangqi();
    expect_unmet(&rt, rt.alloc(), &flying, &flying.start, 44);
}
