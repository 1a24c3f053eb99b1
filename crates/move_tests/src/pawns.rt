//! Tests of the pawns' moves of `special_moves`.
ghost use Rattle.rules_model.specs.Fit.{IsFit};

use crate::expect::{expect, expect_eq_at, expect_of};
use crate::helpers::{go, halves};
use attack_tables::Tables;
use board_sets::sets_of;
use foundation::Memory;
use rules_model::{Move, MoveList, Position, Promo, Rules, Side};
use sample_rules::{
    capablanca, chess, kind, leapers, position, shouse, square, wide_chess, xiangqi,
};
use special_moves::{is_pawn_candidate, push_pawn_moves};
use std::alloc::Global;
use std::process::Abort;

/// The pieces of the text, with the side to move and an en passant square, or none where its text is empty.
fn position_of(pieces: &str, side: Side, ep: &str) -> Position {
    let ep = if ep.is_empty() {
        None
    } else {
        Some(square(ep))
    };
    Position {
        side,
        ep,
        ..position(pieces)
    }
}

/// What a pawn becomes: a piece of the letter, or nothing else where it is a dash.
fn promo_of(letter: u8) -> Promo {
    if letter == b'-' {
        Promo::Stays
    } else {
        Promo::Pawn(kind(letter))
    }
}

/// The pawns' moves, as they are generated.
fn moves_of(alloc: Global, rules: &Rules, p: &Position) -> Result<MoveList, Memory>
    requires fit { IsFit rules.now }
{
    let mut found = MoveList {
        items: Vec::new(alloc),
    };
    let tables = Tables::new(alloc, rules)?;
    let sets = sets_of(rules, &p.cells, p.side);
    push_pawn_moves(&tables, p, &sets, &mut found)?;
    Ok(found)
}

/// The move that a text as "a7-b8-q" tells, or "a7-a8" where the pawn becomes nothing else.
fn move_of(text: &str) -> Move {
    let mut parts = text.split('-');
    let from = parts.next().unwrap_or("");
    let to = parts.next().unwrap_or("");
    let letter = parts.next().unwrap_or("-");
    let promo = match letter.as_bytes().first() {
        None => Promo::Stays,
        Some(letter) => promo_of(*letter),
    };
    go(from, to, promo)
}

/// The pawns' moves are these, each once, and no others.
fn expect_all(rt: &impl Abort, alloc: Global, rules: &Rules, p: &Position, moves: &str)
    requires fit { IsFit rules.now }
{
    let found = moves_of(alloc, rules, p).expect(rt, "no fault");
    let mut wanted: usize = 0;
    for text in moves.split(' ') {
        if !text.is_empty() {
            let m = move_of(text);
            let is_given = found.items.contains(&m) && is_pawn_candidate(rules, p, &m);
            expect_of(rt, &text, is_given);
            wanted = wanted.saturating_add(1);
        }
    }
    expect_eq_at(rt, moves, found.items.len(), wanted);
}

/// Asserts what `expect_all` does of each row: pieces, the en passant square and the moves of this side, which bars
/// separate.
fn expect_rows(rt: &impl Abort, alloc: Global, rules: &Rules, side: Side, rows: &str)
    requires fit { IsFit rules.now }
{
    for row in rows.split('\n') {
        let (pieces, rest) = halves(row);
        let (ep, moves) = halves(rest);
        let p = position_of(pieces, side, ep);
        expect_all(rt, alloc, rules, &p, moves);
    }
}

#[test]
fn each_move_of_a_pawn_once(rt: HostRuntime) {
    // after two that take or not: over no piece, and onto none straight forward; one step from another rank, to the
    // edge of the board and no further
    let white = "\
        Pe2 nd3||e2-e3 e2-e4 e2-d3\n\
        Pe2 Nd3||e2-e3 e2-e4\n\
        Pe2 ne4||e2-e3\n\
        Pe2 ne3||\n\
        Pe3||e3-e4\n\
        Ph4 ni5||h4-h5\n\
        Pe8 nd9||";
    expect_rows(&rt, rt.alloc(), &chess(), Side::White, white);
    let black = "\
        pe7 Nf6||e7-e6 e7-e5 e7-f6\n\
        pe6 Nf7||e6-e5";
    expect_rows(&rt, rt.alloc(), &chess(), Side::Black, black);
}

// En passant, also where an enemy is on the square; promotions, which a pawn may not decline; and a pawn that passes
// another stays one, whatever it may become by going there.
#[test]
fn pawns_pass_and_promote(rt: HostRuntime) {
    let white = "\
        Pe5 pd5|d6|e5-e6 e5-d6\n\
        Pe5 nd6|d6|e5-e6 e5-d6\n\
        Pa5 pd5|d6|a5-a6\n\
        Pe7 nd8||e7-e8-n e7-e8-b e7-e8-r e7-e8-q e7-d8-n e7-d8-b e7-d8-r e7-d8-q\n\
        Pe7 nd8|d8|e7-e8-n e7-e8-b e7-e8-r e7-e8-q e7-d8 e7-d8-n e7-d8-b e7-d8-r e7-d8-q";
    expect_rows(&rt, rt.alloc(), &chess(), Side::White, white);
    let black = "\
        pd4 Pe4|e3|d4-d3 d4-e3\n\
        pa2 Nb1||a2-a1-n a2-a1-b a2-a1-r a2-a1-q a2-b1-n a2-b1-b a2-b1-r a2-b1-q";
    expect_rows(&rt, rt.alloc(), &chess(), Side::Black, black);
}

// On the edge files, with pieces where a shift from there would lead beyond the edge; where the second square of a
// double step is not free, or the first; takes to both sides, and onto no own piece; en passant from both sides, beside
// pawns that do not pass; a pawn that promotes, and those before.
#[test]
fn moves_of_many_pawns(rt: HostRuntime) {
    let white = "\
        Pa2 Ph2 nl2 ni3||a2-a3 a2-a4 h2-h3 h2-h4\n\
        Pd2 Pe2 nd4 ne3||d2-d3 d2-e3\n\
        Pc4 Pe4 nd5 Nf5||c4-c5 c4-d5 e4-e5 e4-d5\n\
        Pa2 Pd5 Pf5 pe5|e6|a2-a3 a2-a4 d5-d6 d5-e6 f5-f6 f5-e6\n\
        Pa7 Pb6 Pc5||a7-a8-n a7-a8-b a7-a8-r a7-a8-q b6-b7 c5-c6";
    expect_rows(&rt, rt.alloc(), &chess(), Side::White, white);
    let black = "\
        pa7 ph7 Nl5 Ni6||a7-a6 a7-a5 h7-h6 h7-h5\n\
        pd7 pe7 Nd5 Ne6||d7-d6 d7-e6\n\
        pc5 pe5 Nd4 nb4||c5-c4 c5-d4 e5-e4 e5-d4\n\
        ph7 pd4 pf4 Pe4|e3|h7-h6 h7-h5 d4-d3 d4-e3 f4-f3 f4-e3\n\
        pa2 pb3 pc4||a2-a1-n a2-a1-b a2-a1-r a2-a1-q b3-b2 c4-c3";
    expect_rows(&rt, rt.alloc(), &chess(), Side::Black, black);
}

// With pieces, and a square behind a double step, to which a shift from the edge would lead on.
#[test]
fn no_move_around_the_edge(rt: HostRuntime) {
    let white = "\
        Pa6 Pl3 na5 nl6||a6-a7 l3-l4\n\
        Pb5 Pl4 pa5|a6|b5-b6 b5-a6 l4-l5";
    expect_rows(&rt, rt.alloc(), &wide_chess(), Side::White, white);
    let black = "pa7 pl4 Nl5 Na4||a7-a6 a7-a5 l4-l3";
    expect_rows(&rt, rt.alloc(), &wide_chess(), Side::Black, black);
}

// Other kinds to become.
#[test]
fn moves_in_other_variants(rt: HostRuntime) {
    let alloc = rt.alloc();
    let step = "Pj2 ni3||j2-j3 j2-j4 j2-i3";
    expect_rows(&rt, alloc, &capablanca(), Side::White, step);
    let last = "pj2||j2-j1-a j2-j1-c j2-j1-n j2-j1-b j2-j1-r j2-j1-q";
    expect_rows(&rt, alloc, &capablanca(), Side::Black, last);
    let promotions = "Pd7||d7-d8-e d7-d8-h d7-d8-n d7-d8-b d7-d8-r d7-d8-q";
    expect_rows(&rt, alloc, &shouse(), Side::White, promotions);
}

// The soldier is no chess pawn.
#[test]
fn variants_without_pawns(rt: HostRuntime) {
    expect_rows(&rt, rt.alloc(), &xiangqi(), Side::White, "Pa4||");
    expect_rows(&rt, rt.alloc(), &leapers(), Side::White, "Pa4||");
}

// In order: an empty diagonal, a third step, backward, sideways, another's pawn, no pawn; a promotion that is missing,
// before its rank, to the pawn, the king, and by en passant.
#[test]
fn near_misses(rt: HostRuntime) {
    let rules = chess();
    let p = position_of("Pe2 Pb7 Pg5 pc3 nd3", Side::White, "h6");
    let moves = "e2-f3 e2-e5 e2-e1 e2-d2 c3-c2 a1-a2 b7-b8 e2-e3-n b7-b8-p b7-b8-k g5-h6-n";
    for text in moves.split(' ') {
        expect_of(&rt, &text, !is_pawn_candidate(&rules, &p, &move_of(text)));
    }
    let others = [
        go("b7", "b8", Promo::Plus),
        Move::Go {
            from: square("e2"),
            to: square("e3"),
            promo: Promo::Stays,
            gate: Some(kind(b'n')),
        },
        Move::Castle {
            from: square("e1"),
            to: square("g1"),
            rook: square("h1"),
            gate: None,
        },
        Move::Drop {
            kind: kind(b'p'),
            to: square("e4"),
        },
    ];
    for m in others {
        expect(&rt, !is_pawn_candidate(&rules, &p, &m));
    }
}
