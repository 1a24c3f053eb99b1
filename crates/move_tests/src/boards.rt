//! Tests of `playing`.
use crate::expect::{expect, expect_eq, expect_of};
use attack_tables::Tables;
use playing::Board;
use rules_model::{Cause, MoveList, Outcome, Position, Side, sound};
use sample_rules::{chess, hand_of, position, shouse, square};
use std::alloc::Global;
use std::process::Abort;

/// After each legal move all that is kept is what a board that is made anew of the position keeps.
fn keeps<R: Abort>(rt: &R, alloc: Global, tables: &Tables, p: &Position) {
    assert!(rt; sound(tables.rules(), p));
    let board = Board::new(tables, p);
    let moves = board.legal_moves(alloc).expect(rt, "no fault");
    assert!(rt; moves.items.len() > 0);
    for m in &moves.items {
        assert!(rt; board.is_legal(m));
        let next = board.after(m);
        next.prove_ready();
        let anew = Board::new(tables, next.position());
        let found = [
            *next.sets() == *anew.sets(),
            next.key() == anew.key(),
            next.in_check() == board.gives_check(m),
            next.repeats(anew.position(), anew.key()),
            next.repeats(p, board.key()),
        ];
        expect(rt, found == [true, true, true, true, false]);
    }
}

// Castles, gates, drops, captures into the hand, en passant and promotions.
#[test]
fn boards_are_kept_through_moves(rt: HostRuntime) {
    let rules = shouse();
    let tables = Tables::new(rt.alloc(), &rules).expect(&rt, "no fault");
    keeps(&rt, rt.alloc(), &tables, &rules.start);
    let mut castling = position("Ke1 Rh1 Ra1 ke8 qe7 pe2");
    castling.rights[0] = [true, true];
    castling.gates[0] = 0x91;
    castling.hands[0] = hand_of(b"eh");
    keeps(&rt, rt.alloc(), &tables, &castling);
    let mut pawns = position("Ke1 Pe5 Pa7 kg8 nb8 pd5");
    pawns.ep = Some(square("d6"));
    keeps(&rt, rt.alloc(), &tables, &pawns);
}

#[test]
fn ends_of_positions(rt: HostRuntime) {
    let rules = chess();
    let tables = Tables::new(rt.alloc(), &rules).expect(&rt, "no fault");
    let mate = Outcome::Won(Side::Black, Cause::Checkmate);
    for (pieces, checked, end) in [
        ("Kh1 qg2 kg3", true, mate),
        ("Kh1 qg3 kf2", false, Outcome::Drawn(Cause::Stalemate)),
        ("Kh1 qg3 ka8 Pa2", false, Outcome::Ongoing),
    ] {
        let p = position(pieces);
        assert!(rt; sound(&rules, &p), "{pieces}");
        let board = Board::new(&tables, &p);
        let ends = [
            board.early_end(),
            board.own_end(),
            board.end_where(board.any_legal()),
        ];
        expect_of(&rt, &pieces, board.in_check() == checked);
        expect_of(&rt, &pieces, ends == [Outcome::Ongoing, end, end]);
    }
}

/// Asserts that the captures are those of the legal moves that capture, and so many, and the others the rest.
fn has_captures<R: Abort>(rt: &R, alloc: Global, tables: &Tables, p: &Position, count: usize) {
    assert!(rt; sound(tables.rules(), p));
    let board = Board::new(tables, p);
    let legal = board.known().legal_moves(alloc).expect(rt, "no fault");
    let mut taking = MoveList {
        items: Vec::new(alloc),
    };
    board.push_captures(&mut taking).expect(rt, "no fault");
    expect_eq(rt, taking.items.len(), count);
    let mut others = MoveList {
        items: Vec::new(alloc),
    };
    board.push_quiets(&mut others).expect(rt, "no fault");
    let listed = others.items.len().saturating_add(count);
    expect_eq(rt, listed, legal.items.len());
    for m in &legal.items {
        let captures = board.is_legal(m) && board.captures(m);
        let listed = [
            taking.items.iter().any(|taken| *taken == *m),
            others.items.iter().any(|other| *other == *m),
        ];
        expect(rt, listed == [captures, !captures]);
    }
}

// En passant and a promotion on a capture; a king and a rook that may castle, drop or leave a piece behind, and take.
#[test]
fn captures_of_positions(rt: HostRuntime) {
    let chess = Tables::new(rt.alloc(), &chess()).expect(&rt, "no fault");
    let mut pawns = position("Ke1 Pe5 Pa7 kg8 nb8 pd5");
    pawns.ep = Some(square("d6"));
    has_captures(&rt, rt.alloc(), &chess, &pawns, 5);
    let shouse = Tables::new(rt.alloc(), &shouse()).expect(&rt, "no fault");
    let mut castling = position("Ke1 Rh1 Ra1 ke8 pa5 pe2");
    castling.rights[0] = [true, true];
    castling.gates[0] = 0x91;
    castling.hands[0] = hand_of(b"eh");
    has_captures(&rt, rt.alloc(), &shouse, &castling, 6);
}

#[test]
fn moves_of_positions(rt: HostRuntime) {
    let rules = chess();
    let tables = Tables::new(rt.alloc(), &rules).expect(&rt, "no fault");
    let p = position("Ke1 Rd1 ke8 pd5 pe4");
    assert!(rt; sound(&rules, &p));
    let board = Board::new(&tables, &p);
    let mut moves = MoveList {
        items: Vec::new(rt.alloc()),
    };
    board.push_legal(&mut moves).expect(&rt, "no fault");
    let mut captures = 0u32;
    for m in &moves.items {
        if board.is_legal(m) && board.captures(m) {
            captures = captures.saturating_add(1);
        }
    }
    expect_eq(&rt, (moves.items.len(), captures), (11, 1));
    expect_eq(&rt, board.count_legal(), 11);
}
