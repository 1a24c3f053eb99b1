//! Tests of `piece_moves`.
ghost use Rattle.std.specs.Prelude.{◌≡◌};
ghost use Rattle.rules_model.specs.Fit.{IsFit};

use crate::expect::{expect, expect_eq, expect_eq_at, expect_of};
use crate::helpers::{go, halves};
use attack_tables::Tables;
use board_sets::sets_of;
use piece_moves::{mover_on, push_mover, push_moves};
use rules_model::{Kind, Move, MoveList, Position, Promo, Rules};
use sample_rules::{chess, position, square, xiangqi};
use std::alloc::Global;
use std::process::Abort;

/// The move of a text as `e2e4`, without promotion.
fn move_of(text: &str) -> Move {
    let (from, to) = text.split_at_checked(2).unwrap_or(("", ""));
    go(from, to, Promo::Stays)
}

fn is_candidate(rules: &Rules, tables: &Tables, p: &Position, m: &Move) -> bool
    requires fit { IsFit rules.now }
    requires tables { tables.now ≡ rules.now }
{
    let sets = sets_of(rules, &p.cells, p.side);
    piece_moves::is_candidate(rules, tables, p, &sets, m)
}

/// The moves of the pieces are those of the texts as `e2e4`, each once, and no others.
fn expect_moves(rt: &impl Abort, alloc: Global, rules: &Rules, pieces: &str, moves: &str)
    requires { IsFit rules.now }
{
    let tables = Tables::new(alloc, rules).expect(rt, "no fault");
    let p = position(pieces);
    let mut found = MoveList {
        items: Vec::new(alloc),
    };
    let sets = sets_of(rules, &p.cells, p.side);
    push_moves(rules, &tables, &p, &sets, &mut found).expect(rt, "no fault");
    let mut wanted: usize = 0;
    for text in moves.split(' ') {
        let m = move_of(text);
        let is_given = found.items.contains(&m) && is_candidate(rules, &tables, &p, &m);
        expect_of(rt, &text, is_given);
        wanted = wanted.saturating_add(1);
    }
    expect_eq_at(rt, pieces, found.items.len(), wanted);
}

// The moves of pawns are none of these.
#[test]
fn each_move_of_chess_once(rt: HostRuntime) {
    let moves = "a2a3 a2a4 a2a5 a2a6 b1a3 b1c3 b1d2";
    expect_moves(&rt, rt.alloc(), &chess(), "Ka1 Nb1 Ra2 Pb2 na6 ka8", moves);
}

#[test]
fn each_move_of_xiangqi_once(rt: HostRuntime) {
    // in order: the elephant stays on its side of the river; the king blocks no step of the horse, which goes over the
    // empty squares beside it; the cannon takes over the soldier, which goes forward alone before the river
    let rows = "\
        Bc5 Ke1 kd10|c5a3 c5e3 e1d1 e1e2 e1f1\n\
        Ne2 Ke1 ke10|e1d1 e1f1 e2c1 e2c3 e2d4 e2f4 e2g1 e2g3\n\
        Ca1 Pa4 na7 Ke1 kd10|a1a2 a1a3 a1a7 a1b1 a1c1 a1d1 a4a5 e1d1 e1e2 e1f1\n\
        Pe6 Ke1 kd10|e1d1 e1e2 e1f1 e6d6 e6e7 e6f6";
    for row in rows.split('\n') {
        let (pieces, moves) = halves(row);
        expect_moves(&rt, rt.alloc(), &xiangqi(), pieces, moves);
    }
}

// An own piece's moves alone, each with what it places; an enemy and an empty square have none.
#[test]
fn moves_of_one_square_place_the_gate(rt: HostRuntime) {
    let rules = chess();
    let tables = Tables::new(rt.alloc(), &rules).expect(&rt, "no fault");
    let p = position("Ka1 Nb1 Ra2 Pb2 na6 ka8");
    let hawk = Some(Kind(7));
    let mut found = MoveList {
        items: Vec::new(rt.alloc()),
    };
    let sets = sets_of(&rules, &p.cells, p.side);
    for from in ["b1", "b2", "a6", "h4"] {
        if let Some(mover) = mover_on(&tables, &p, &sets, square(from)) {
            push_mover(&rules, &p, mover, hawk, &mut found).expect(&rt, "no fault");
        }
    }
    for to in ["a3", "c3", "d2"] {
        let m = Move::Go {
            from: square("b1"),
            to: square(to),
            promo: Promo::Stays,
            gate: hawk,
        };
        expect_of(&rt, &to, found.items.contains(&m));
    }
    expect_eq(&rt, found.items.len(), 3);
}

#[test]
fn near_misses(rt: HostRuntime) {
    let rules = xiangqi();
    let tables = Tables::new(rt.alloc(), &rules).expect(&rt, "no fault");
    let p = position("Ca1 Pa4 na7 Ke1 kd10");
    // no own piece, an own piece on the target, a hop without taking, a take without hopping, sideways before the
    // river, out of the palace; and no piece of xiangqi is promoted
    for text in "b2b3 a7b5 a1a4 a1a5 a1a8 a4b4 e1e3".split(' ') {
        expect_of(
            &rt,
            &text,
            !is_candidate(&rules, &tables, &p, &move_of(text)),
        );
    }
    let promotion = go("a1", "a2", Promo::Plus);
    expect(&rt, !is_candidate(&rules, &tables, &p, &promotion));
}
