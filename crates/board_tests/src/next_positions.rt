//! Tests of `next_position`.
ghost use Rattle.std.specs.Prelude.{◌<◌};
ghost use Rattle.rules_model.specs.Fit.{IsFit};
ghost use Rattle.rules_model.specs.Moves.{IsFitMove};

use crate::expect::{expect, expect_eq};
use crate::helpers::{go, quiet, set_of};
use next_position::{
    count_check, make_but_checks, make_move, move_pieces, sound_positions_take_moves,
};
use rules_model::{Kind, Move, Placed, Position, Promo, Rules, Side, sound};
use sample_rules::{generals, hand_of, kind, position, square};
use std::process::Abort;

/// The variant where a piece that is taken goes to no hand.
fn without_prisoners() -> Rules
    ensures { IsFit result }
{
    let mut rules = generals();
    rules.to_hand = false;
    rules
}

/// White's castle, with a silver placed on a square that it leaves.
fn castle(to: &str, rook: &str, gate: &str) -> Move
    ensures { IsFitMove result }
{
    Move::Castle {
        from: square("e1"),
        to: square(to),
        rook: square(rook),
        gate: Some(Placed {
            kind: kind(b's'),
            at: square(gate),
        }),
    }
}

/// A drop.
fn drop(kind: Kind, to: &str) -> Move
    requires { kind.0 < 26 }
    ensures { IsFitMove result }
{
    Move::Drop {
        kind,
        to: square(to),
    }
}

/// The position with these pieces in place of its own.
fn set(p: Position, pieces: &str) -> Position {
    let cells = position(pieces).cells;
    Position { cells, ..p }
}

/// Has the piece on the square be of another kind before it was promoted.
fn promote(p: &mut Position, at: &str, before: u8) {
    if let Some(cell) = &mut p.cells[square(at).0 as usize] {
        cell.origin = Some(kind(before));
    }
}

/// Asserts what the position after a move is.
fn leads_to<R: Abort>(rt: &R, rules: &Rules, p: &Position, m: &Move, next: &Position)
    requires fit { IsFit rules.now }
    requires move_fits { IsFitMove m.now }
{
    assert!(rt; sound(rules, p));
    sound_positions_take_moves();
    let mut cells = p.cells;
    move_pieces(rules, p, m, &mut cells);
    expect(rt, cells == next.cells);
    let mut made = *p;
    make_move(rules, &mut made, m);
    expect(rt, made == *next);
}

/// The checks that White has left after it gave one, or not.
fn checks_after(p: &Position, left: u8, gives: bool) -> u8 {
    let mut p = *p;
    p.checks[0] = left;
    count_check(&mut p, Side::White, gives);
    p.checks[0]
}

#[test]
fn checks_are_counted_last(rt: HostRuntime) {
    let rules = generals();
    let mut p = rules.start;
    assert!(rt; sound(&rules, &p));
    sound_positions_take_moves();
    let touched = make_but_checks(&rules, &mut p, &quiet("a1", "a8"));
    expect_eq(&rt, (p.side, p.checks), (Side::Black, [3, 3]));
    expect_eq(&rt, touched.squares, set_of("a1 a8"));
    let left = [
        checks_after(&p, 3, false),
        checks_after(&p, 3, true),
        checks_after(&p, 0, true),
    ];
    expect_eq(&rt, left, [3, 2, 0]);
}

// The gates of the king are those of the file e, and of the rooks those of the files a and h, or b and g.
const A: u16 = 1;

const B: u16 = 2;

const E: u16 = 16;

const G: u16 = 64;

const H: u16 = 128;

/// The start of generals after a move of White that counts, with these pieces.
fn risen(pieces: &str) -> Position {
    let p = Position {
        side: Side::Black,
        counter: 1,
        ..generals().start
    };
    set(p, pieces)
}

/// The same after a move by which the count begins anew.
fn reset(pieces: &str) -> Position {
    Position {
        counter: 0,
        ..risen(pieces)
    }
}

/// Asserts what the position after a move from the start is.
fn starts<R: Abort>(rt: &R, m: &Move, next: &Position)
    requires { IsFitMove m.now }
{
    let rules = generals();
    leads_to(rt, &rules, &rules.start, m, next);
}

#[test]
fn steps_from_the_start(rt: HostRuntime) {
    let next = risen("Ra1 Ke1 Rh1 Pe2 Sb4 pd4 ra8 ke8 rh8");
    starts(&rt, &quiet("b3", "b4"), &next);
    let mut next = risen("Ra1 Ke1 Rh1 Pe2 Gb4 pd4 ra8 ke8 rh8");
    promote(&mut next, "b4", b's');
    starts(&rt, &go("b3", "b4", Promo::Plus, None), &next);
    let next = reset("Ra1 Ke1 Rh1 Pe3 Sb3 pd4 ra8 ke8 rh8");
    starts(&rt, &quiet("e2", "e3"), &next);
    let mut next = reset("Ra1 Ke1 Rh1 Pe4 Sb3 pd4 ra8 ke8 rh8");
    next.ep = Some(square("e3"));
    starts(&rt, &quiet("e2", "e4"), &next);
}

// A rook takes a rook, with check; and the king goes.
#[test]
fn rights_and_gates_are_lost(rt: HostRuntime) {
    let next = Position {
        hands: [hand_of(b"rs"), hand_of(b"")],
        rights: [[true, false], [true, false]],
        gates: [E | H, E | H],
        checks: [2, 3],
        ..reset("Ra8 Ke1 Rh1 Pe2 Sb3 pd4 ke8 rh8")
    };
    starts(&rt, &quiet("a1", "a8"), &next);
    let next = Position {
        rights: [[false, false], [true, true]],
        gates: [A | H, A | E | H],
        ..risen("Ra1 Kd1 Rh1 Pe2 Sb3 pd4 ra8 ke8 rh8")
    };
    starts(&rt, &quiet("e1", "d1"), &next);
}

/// What White's rights and gates are after its silver came in, and its pieces.
fn placed(rights: [bool; 2], gates: u16, pieces: &str) -> Position {
    Position {
        hands: [[0; 26]; 2],
        rights: [rights, [true, true]],
        gates: [gates, A | E | H],
        ..risen(pieces)
    }
}

// A silver comes in by a gate of a move, of both castles, and by a drop.
#[test]
fn a_silver_comes_in(rt: HostRuntime) {
    let gated = go("h1", "h2", Promo::Stays, Some(kind(b's')));
    let pieces = "Ra1 Ke1 Rh2 Sh1 Pe2 Sb3 pd4 ra8 ke8 rh8";
    starts(&rt, &gated, &placed([false, true], A | E, pieces));
    let pieces = "Ra1 Se1 Rf1 Kg1 Pe2 Sb3 pd4 ra8 ke8 rh8";
    let none = [false, false];
    starts(&rt, &castle("g1", "h1", "e1"), &placed(none, A, pieces));
    let pieces = "Sa1 Kc1 Rd1 Rh1 Pe2 Sb3 pd4 ra8 ke8 rh8";
    starts(&rt, &castle("c1", "a1", "a1"), &placed(none, H, pieces));
    let pieces = "Ra1 Ke1 Rh1 Pe2 Sb3 Sc3 pd4 ra8 ke8 rh8";
    let next = placed([true, true], A | E | H, pieces);
    starts(&rt, &drop(kind(b's'), "c3"), &next);
}

/// The start of generals with other pieces.
fn before(pieces: &str) -> Position {
    set(generals().start, pieces)
}

// No pawn is there to take en passant; and one is.
#[test]
fn pawns_pass(rt: HostRuntime) {
    let rules = generals();
    let p = before("Ra1 Ke1 Rh1 Pe2 Sb3 ra8 ke8 rh8");
    let next = reset("Ra1 Ke1 Rh1 Pe4 Sb3 ra8 ke8 rh8");
    leads_to(&rt, &rules, &p, &quiet("e2", "e4"), &next);
    let mut p = reset("Ra1 Ke1 Rh1 Pe4 Sb3 pd4 ra8 ke8 rh8");
    p.ep = Some(square("e3"));
    let next = Position {
        hands: [hand_of(b"s"), hand_of(b"p")],
        number: 2,
        ..before("Ra1 Ke1 Rh1 Sb3 pe3 ra8 ke8 rh8")
    };
    leads_to(&rt, &rules, &p, &quiet("d4", "e3"), &next);
}

// A rook that was a pawn goes to the hand as a pawn.
#[test]
fn a_promoted_piece_is_taken(rt: HostRuntime) {
    let rules = generals();
    let mut p = rules.start;
    promote(&mut p, "a8", b'p');
    let next = Position {
        hands: [hand_of(b"ps"), hand_of(b"")],
        rights: [[true, false], [true, false]],
        gates: [E | H, E | H],
        checks: [2, 3],
        ..reset("Ra8 Ke1 Rh1 Pe2 Sb3 pd4 ke8 rh8")
    };
    leads_to(&rt, &rules, &p, &quiet("a1", "a8"), &next);
}

// A pawn becomes a rook, and a pawn goes on: each gives check.
#[test]
fn pawns_give_check(rt: HostRuntime) {
    let rules = generals();
    let p = before("Ra1 Ke1 Rh1 Pe2 Pb7 Sb3 pd4 ra8 ke8 rh8");
    let mut next = reset("Ra1 Ke1 Rh1 Pe2 Rb8 Sb3 pd4 ra8 ke8 rh8");
    promote(&mut next, "b8", b'p');
    next.checks = [2, 3];
    let rook = Promo::Pawn(kind(b'r'));
    leads_to(&rt, &rules, &p, &go("b7", "b8", rook, None), &next);
    let p = before("Ra1 Ke1 Rh1 Pe2 Pd6 Sb3 pd4 ra8 ke8 rh8");
    let mut next = reset("Ra1 Ke1 Rh1 Pe2 Pd7 Sb3 pd4 ra8 ke8 rh8");
    next.checks = [2, 3];
    leads_to(&rt, &rules, &p, &quiet("d6", "d7"), &next);
}

#[test]
fn both_counts_stay_at_the_greatest(rt: HostRuntime) {
    let rules = generals();
    let p = Position {
        side: Side::Black,
        counter: 9999,
        number: 9999,
        ..rules.start
    };
    let next = Position {
        side: Side::White,
        rights: [[true, true], [false, false]],
        gates: [A | E | H, A | H],
        ..set(p, "Ra1 Ke1 Rh1 Pe2 Sb3 pd4 ra8 kd8 rh8")
    };
    leads_to(&rt, &rules, &p, &quiet("e8", "d8"), &next);
}

#[test]
fn nothing_goes_to_hands(rt: HostRuntime) {
    let p = before("Ra1 Ke1 Rh1 Pe2 Pb7 Sb3 pd4 ra8 ke8 rh8");
    let next = Position {
        rights: [[true, true], [true, false]],
        gates: [A | E | H, E | H],
        checks: [2, 3],
        ..reset("Ra1 Ke1 Rh1 Pe2 Ra8 Sb3 pd4 ke8 rh8")
    };
    let taking = go("b7", "a8", Promo::Pawn(kind(b'r')), None);
    leads_to(&rt, &without_prisoners(), &p, &taking, &next);
}

/// The start of generals where White's rooks stand on b1 and g1, and it has another in hand.
fn inner_rooks() -> Position {
    Position {
        hands: [hand_of(b"r"), hand_of(b"")],
        gates: [B | E | G, A | E | H],
        ..before("Rb1 Ke1 Rg1 Sc2 ra8 ke8 rh8")
    }
}

// A silver moves onto the rank, between the rooks.
#[test]
fn a_piece_between_inner_rooks_leaves_rights(rt: HostRuntime) {
    let p = inner_rooks();
    let next = Position {
        side: Side::Black,
        counter: 1,
        ..set(p, "Rb1 Ke1 Rg1 Sd1 ra8 ke8 rh8")
    };
    leads_to(&rt, &generals(), &p, &quiet("c2", "d1"), &next);
}

/// Asserts that White's rook comes in on the square, and what rights it has then.
fn comes_in<R: Abort>(rt: &R, to: &str, pieces: &str, rights: [bool; 2]) {
    let p = inner_rooks();
    let next = Position {
        side: Side::Black,
        counter: 1,
        hands: [[0; 26]; 2],
        rights: [rights, [true, true]],
        ..set(p, pieces)
    };
    leads_to(rt, &generals(), &p, &drop(kind(b'r'), to), &next);
}

// A rook comes in further out, at either end of the rank, and one square above it; and further in, where no right is of
// the rook.
#[test]
fn rights_are_of_outer_rooks(rt: HostRuntime) {
    comes_in(&rt, "a1", "Ra1 Rb1 Ke1 Rg1 Sc2 ra8 ke8 rh8", [true, false]);
    comes_in(&rt, "h1", "Rb1 Ke1 Rg1 Rh1 Sc2 ra8 ke8 rh8", [false, true]);
    comes_in(&rt, "a2", "Rb1 Ke1 Rg1 Ra2 Sc2 ra8 ke8 rh8", [true, true]);
    comes_in(&rt, "c1", "Rb1 Rc1 Ke1 Rg1 Sc2 ra8 ke8 rh8", [true, true]);
}

#[test]
fn no_right_held(rt: HostRuntime) {
    let rules = generals();
    let p = Position {
        rights: [[false, false], [true, true]],
        ..rules.start
    };
    let moved = Position {
        side: Side::Black,
        counter: 1,
        ..p
    };
    let mut next = set(moved, "Ra1 Kd1 Rh1 Pe2 Sb3 pd4 ra8 ke8 rh8");
    next.gates[0] = A | H;
    leads_to(&rt, &rules, &p, &quiet("e1", "d1"), &next);
    next = set(moved, "Ra1 Ke1 Rh1 Pe2 Sb4 pd4 ra8 ke8 rh8");
    leads_to(&rt, &rules, &p, &quiet("b3", "b4"), &next);
}
