//! Tests of `board_sets`.
ghost use Rattle.std.specs.Prelude.{◌≤◌, ◌<◌};
ghost use Rattle.rules_model.specs.Fit.{IsFit};
ghost use Rattle.rules_model.specs.Moves.{IsFitMove};

use crate::expect::{expect_eq, expect_of};
use crate::helpers::{castle, go, quiet, set_of};
use board_sets::{BoardSets, sets_of};
use next_position::{move_pieces, one_put, touched};
use rules_model::{Move, Position, Promo, Rules, Side};
use sample_rules::{chess, kind, position, shouse, square};
use square_set::{EMPTY, Set};
use std::process::Abort;

fn drop_of(letter: u8, to: &str) -> Move
    requires low { 97 ≤ letter }
    requires high { letter < 123 }
    ensures { IsFitMove result }
{
    Move::Drop {
        kind: kind(letter),
        to: square(to),
    }
}

/// The sets after the move, by the side that made it.
fn sets_after(rules: &Rules, p: &Position, m: &Move) -> BoardSets
    requires fit { IsFit rules.now }
    requires move_fits { IsFitMove m.now }
{
    let mut next = p.cells;
    move_pieces(rules, p, m, &mut next);
    sets_of(rules, &p.cells, p.side).after(rules, p.side, &next, touched(rules, p, m).squares)
}

/// White's pieces, Black's and White's kings are these after the move, where d6 is the en passant square. Black's king
/// is on d8.
fn leads_to<R: Abort>(rt: &R, pieces: &str, m: &Move, own: &str, enemies: &str, kings: &str)
    requires { IsFitMove m.now }
{
    let rules = shouse();
    let p = Position {
        ep: Some(square("d6")),
        ..position(pieces)
    };
    let sets = sets_after(&rules, &p, m);
    if let Some(put) = one_put(&rules, &p, m) {
        let kept = sets_of(&rules, &p.cells, p.side).put(&rules, p.side, put);
        expect_of(rt, &pieces, kept == sets);
    }
    let found = [sets.own, sets.enemies, sets.kings, sets.enemy_kings];
    let wanted = [set_of(own), set_of(enemies), set_of(kings), set_of("d8")];
    expect_of(rt, &pieces, found == wanted);
}

/// Whether the move of White puts one piece, where d6 is the en passant square.
fn puts_one(m: &Move) -> bool
    requires { IsFitMove m.now }
{
    let p = Position {
        ep: Some(square("d6")),
        ..position("Ke1 Rh1 Pe5 kg8 pd5")
    };
    one_put(&shouse(), &p, m).is_some()
}

// Not a gate, a capture in passing or a castle.
#[test]
fn plain_moves_and_drops_put_one_piece(rt: HostRuntime) {
    let found = [
        puts_one(&quiet("h1", "h4")),
        puts_one(&drop_of(b'h', "h4")),
        puts_one(&go("e1", "e2", Promo::Stays, Some(kind(b'h')))),
        puts_one(&go("e5", "d6", Promo::Stays, None)),
        puts_one(&castle()),
    ];
    expect_eq(&rt, found, [true, true, false, false, false]);
}

#[test]
fn sets_are_those_of_the_board(rt: HostRuntime) {
    let rules = chess();
    let p = position("Ke1 Pe4 Ke5 kd8 pd5 qh5");
    let white = sets_of(&rules, &p.cells, Side::White);
    let rows: [(Set, &str); 8] = [
        (white.own, "e1 e4 e5"),
        (white.enemies, "d8 d5 h5"),
        (white.kings, "e1 e5"),
        (white.enemy_kings, "d8"),
        (white.pawns, "e4 d5"),
        (white.own_pawns(), "e4"),
        (white.own_pieces(), "e1 e5"),
        (white.occupied(), "e1 e4 e5 d8 d5 h5"),
    ];
    for (row, (set, squares)) in rows.iter().enumerate() {
        assert!(rt; *set == set_of(squares), "row {row}");
    }
}

#[test]
fn sets_are_turned_and_follow_a_board(rt: HostRuntime) {
    let rules = chess();
    let p = position("Ke1 Pe4 Ke5 kd8 pd5 qh5");
    let white = sets_of(&rules, &p.cells, Side::White);
    expect_eq(&rt, white.turned(), sets_of(&rules, &p.cells, Side::Black));
    let mut next = p.cells;
    next[square("d8").0 as usize] = None;
    let empty = white.after(&rules, Side::White, &next, set_of("d8 a1"));
    let found = [empty.enemies, empty.enemy_kings];
    expect_eq(&rt, found, [set_of("d5 h5"), EMPTY]);
    expect_eq(&rt, white.after(&rules, Side::White, &next, EMPTY), white);
}

#[test]
fn sets_follow_a_move(rt: HostRuntime) {
    let pawns = "Ke1 Pe5 kd8 pd5";
    leads_to(
        &rt,
        "Ke1 Pe4 kd8 pd5",
        &quiet("e4", "d5"),
        "e1 d5",
        "d8",
        "e1",
    );
    // en passant, and a pawn that goes straight forward
    leads_to(&rt, pawns, &quiet("e5", "d6"), "e1 d6", "d8", "e1");
    leads_to(&rt, pawns, &quiet("e5", "e6"), "e1 e6", "d8 d5", "e1");
    leads_to(&rt, "Ke1 kd8 pd2", &quiet("e1", "d2"), "d2", "d8", "d2");
}

/// The pawns of both sides are on these squares after the move, where d6 is the en passant square.
fn leaves_pawns<R: Abort>(rt: &R, pieces: &str, m: &Move, pawns: &str)
    requires { IsFitMove m.now }
{
    let rules = shouse();
    let p = Position {
        ep: Some(square("d6")),
        ..position(pieces)
    };
    let sets = sets_after(&rules, &p, m);
    expect_of(rt, &pieces, sets.pawns == set_of(pawns));
}

// A pawn that is taken in passing is gone, one that promotes is none, and one that is dropped is there.
#[test]
fn pawns_follow_a_move(rt: HostRuntime) {
    leaves_pawns(&rt, "Ke1 Pe5 kd8 pd5", &quiet("e5", "d6"), "d6");
    let king = go("a7", "a8", Promo::Pawn(kind(b'k')), None);
    leaves_pawns(&rt, "Ke1 Pa7 Ph2 kd8", &king, "h2");
    leaves_pawns(&rt, "Ke1 kd8 pd5", &drop_of(b'p', "h4"), "d5 h4");
}

// A pawn becomes a king; a hand piece comes in at the king's gate, and at the rook's as it castles; a pawn is dropped.
#[test]
fn sets_follow_a_placing(rt: HostRuntime) {
    let king = go("a7", "a8", Promo::Pawn(kind(b'k')), None);
    leads_to(&rt, "Ke1 Pa7 kd8", &king, "e1 a8", "d8", "e1 a8");
    let gated = go("e1", "e2", Promo::Stays, Some(kind(b'h')));
    leads_to(&rt, "Ke1 kd8", &gated, "e1 e2", "d8", "e2");
    leads_to(&rt, "Ke1 Rh1 kd8", &castle(), "f1 g1 h1", "d8", "g1");
    leads_to(&rt, "Ke1 kd8", &drop_of(b'p', "h4"), "e1 h4", "d8", "e1");
}
