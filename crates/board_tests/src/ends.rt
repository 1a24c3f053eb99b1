//! Tests of `end_rules`.
use crate::expect::expect_eq;
use end_rules::{early_end, no_move};
use rules_model::{Cause, Outcome, Position, Region, Rules, Side, Value};
use sample_rules::{chess, kind, position, square};

fn only(text: &str) -> Region {
    let mut squares = [false; 120];
    squares[square(text).0 as usize] = true;
    Region { squares }
}

fn end_of(rules: &Rules, p: &Position, side: Side) -> Outcome {
    early_end(rules, &Position { side, ..*p })
}

#[test]
fn a_flag_ends_the_game_for_the_side_that_moved(rt: HostRuntime) {
    let mut rules = chess();
    let p = position("Ke4 ke8");
    expect_eq(&rt, end_of(&rules, &p, Side::Black), Outcome::Ongoing);
    rules.flag_kind = Some(kind(b'k'));
    rules.flag_region = [only("e4"), only("e5")];
    let won = Outcome::Won(Side::White, Cause::Flag);
    expect_eq(&rt, end_of(&rules, &p, Side::Black), won);
    expect_eq(&rt, end_of(&rules, &p, Side::White), Outcome::Ongoing);
    rules.flag_kind = Some(kind(b'q'));
    expect_eq(&rt, end_of(&rules, &p, Side::Black), Outcome::Ongoing);
}

#[test]
fn the_last_check_ends_the_game(rt: HostRuntime) {
    let mut rules = chess();
    let p = Position {
        checks: [3, 0],
        ..position("Ke1 ke8")
    };
    expect_eq(&rt, end_of(&rules, &p, Side::White), Outcome::Ongoing);
    rules.check_counting = true;
    let won = Outcome::Won(Side::Black, Cause::Checks);
    expect_eq(&rt, end_of(&rules, &p, Side::White), won);
    expect_eq(&rt, end_of(&rules, &p, Side::Black), won);
}

/// Chess where a side loses that has none of its queens any more, or wins so.
fn queens_are_wanted(value: Value) -> Rules {
    let mut rules = chess();
    rules.extinction = Some(value);
    rules.extinct_kinds[kind(b'q').0 as usize] = true;
    rules
}

#[test]
fn a_side_dies_out(rt: HostRuntime) {
    let mut rules = queens_are_wanted(Value::Loss);
    let p = position("Ke1 Qd1 ke8");
    let won = Outcome::Won(Side::White, Cause::Extinction);
    let ends = [
        end_of(&rules, &p, Side::White),
        end_of(&rules, &p, Side::Black),
    ];
    expect_eq(&rt, ends, [won, won]);
    // the other side has too few queens
    rules.extinct_least = 2;
    expect_eq(&rt, end_of(&rules, &p, Side::White), Outcome::Ongoing);
}

// Black's one queen is in its hand.
#[test]
fn a_piece_in_the_hand_has_not_died_out(rt: HostRuntime) {
    let mut rules = queens_are_wanted(Value::Loss);
    let mut p = position("Ke1 Qd1 Qd2 ke8");
    p.hands[1][kind(b'q').0 as usize] = 1;
    expect_eq(&rt, end_of(&rules, &p, Side::White), Outcome::Ongoing);
    rules.extinct_most = 1;
    let won = Outcome::Won(Side::White, Cause::Extinction);
    expect_eq(&rt, end_of(&rules, &p, Side::White), won);
}

// All kinds together: Black has one piece and White two.
#[test]
fn a_side_has_few_pieces(rt: HostRuntime) {
    let mut rules = queens_are_wanted(Value::Win);
    let p = position("Ke1 Qd1 ke8");
    rules.extinct_least = 2;
    rules.extinct_all = true;
    expect_eq(&rt, end_of(&rules, &p, Side::White), Outcome::Ongoing);
    rules.extinct_most = 1;
    let won = Outcome::Won(Side::Black, Cause::Extinction);
    expect_eq(&rt, end_of(&rules, &p, Side::White), won);
}

#[test]
fn no_move_is_checkmate_or_stalemate(rt: HostRuntime) {
    let rules = chess();
    let mated = Outcome::Won(Side::Black, Cause::Checkmate);
    expect_eq(&rt, no_move(&rules, Side::White, true), mated);
    let stuck = Outcome::Drawn(Cause::Stalemate);
    expect_eq(&rt, no_move(&rules, Side::White, false), stuck);
}
