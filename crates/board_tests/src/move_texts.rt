//! Tests of `move_text`.
use crate::expect::{expect, expect_eq};
use move_text::{move_key, write_move};
use rules_model::{Kind, Move, Placed, Promo, Square};
use std::alloc::{AllocError, Global};
use std::process::Abort;

fn go(from: u8, to: u8, promo: Promo, gate: Option<Kind>) -> Move {
    Move::Go {
        from: Square(from),
        to: Square(to),
        promo,
        gate,
    }
}

fn plain(from: u8, to: u8) -> Move {
    go(from, to, Promo::Stays, None)
}

fn castle(gate: Option<Placed>) -> Move {
    Move::Castle {
        from: Square(4),
        to: Square(6),
        rook: Square(7),
        gate,
    }
}

fn hawk_at(square: u8) -> Option<Placed> {
    Some(Placed {
        kind: Kind(7),
        at: Square(square),
    })
}

const PAWN: Kind = Kind(15);

const QUEEN: Kind = Kind(16);

fn drop_of(kind: Kind, to: u8) -> Move {
    Move::Drop {
        kind,
        to: Square(to),
    }
}

/// The texts of the moves, each with a blank after it.
fn texts_of(alloc: Global, moves: &[Move]) -> Result<Vec<u8>, AllocError> {
    let mut told = Vec::new(alloc);
    for m in moves {
        told.extend_from_slice(write_move(m).items.as_slice())?;
        told.push(b' ')?;
    }
    Ok(told)
}

// Squares are 12 * rank + file, both counted from 0: e2 is 16.
#[test]
fn texts_of_moves(rt: HostRuntime) {
    let moves = [
        plain(16, 40),
        plain(108, 119),
        plain(108, 96),
        go(72, 84, Promo::Pawn(QUEEN), None),
        go(72, 84, Promo::Plus, None),
        go(1, 26, Promo::Stays, Some(Kind(4))),
        go(1, 26, Promo::Plus, Some(Kind(4))),
        go(255, 254, Promo::Pawn(Kind(255)), Some(Kind(26))),
    ];
    let told = texts_of(rt.alloc(), &moves).expect(&rt, "no fault");
    let wanted = b"e2e4 a10l10 a10a9 a7a8q a7a8+ b1c3e b1c3+e d22c22va ";
    expect(&rt, told.as_slice() == wanted.as_slice());
}

#[test]
fn texts_of_castles_and_drops(rt: HostRuntime) {
    let moves = [
        castle(None),
        castle(hawk_at(4)),
        castle(hawk_at(7)),
        drop_of(PAWN, 40),
        drop_of(QUEEN, 108),
    ];
    let told = texts_of(rt.alloc(), &moves).expect(&rt, "no fault");
    expect(
        &rt,
        told.as_slice() == b"e1g1 e1g1h h1e1h P@e4 Q@a10 ".as_slice(),
    );
}

/// Asserts that the key of each move is greater than those before it.
fn rise<R: Abort>(rt: &R, moves: &[Move]) {
    let mut before = 0;
    for m in moves {
        let key = move_key(m);
        expect(rt, before < key);
        before = key;
    }
}

#[test]
fn keys_are_in_the_order_of_texts(rt: HostRuntime) {
    // Q@a1, a10a9, a1a1+, a1a10, a1a1q, a1a2, a1b1, a1b2
    let front = [
        drop_of(QUEEN, 0),
        plain(108, 96),
        go(0, 0, Promo::Plus, None),
        plain(0, 108),
        go(0, 0, Promo::Pawn(QUEEN), None),
        plain(0, 12),
        plain(0, 1),
        plain(0, 13),
    ];
    rise(&rt, &front);
    // a7a8, a7a8+, a7a8q, b1a1, e1g1, e1g1h, h1e1h
    let back = [
        plain(72, 84),
        go(72, 84, Promo::Plus, None),
        go(72, 84, Promo::Pawn(QUEEN), None),
        plain(1, 0),
        castle(None),
        castle(hawk_at(4)),
        castle(hawk_at(7)),
    ];
    rise(&rt, &back);
    // e2e4, and moves of one text
    expect_eq(&rt, move_key(&plain(16, 40)), 0x6532_6534_0000_0000);
    expect_eq(&rt, move_key(&plain(4, 6)), move_key(&castle(None)));
}
