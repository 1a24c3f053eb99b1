//! Tests of `sample_rules`, and of `rules_model` by its variants.
ghost use Rattle.rules_model.specs.Fit.{IsFit};

use crate::expect::{expect, expect_eq, expect_eq_at, expect_of};
use rules_model::attacks::{flies_to, pawn_could_take};
use rules_model::castling::{
    CastleSquares, castle_of, castling_on, castling_square, has_gate, holds_right, rook_file,
};
use rules_model::kinds::{board_of, has_kind, in_hand, in_region, masks, names};
use rules_model::movement::{in_mobility, is_held_back, kind_takes, rank_for};
use rules_model::sizes::prove_position_sizes;
use rules_model::{
    Cell, Position, Rules, Side, Square, Wing, attacks_plain, is_attacked, king_attacked,
    reaches_plain, repeat_of, sound,
};
use sample_rules::{
    capablanca, chess, generals, hand_of, kind, leapers, position, shouse, square, xiangqi,
};
use std::process::Abort;

// A text that names no square is of the first.
#[test]
fn squares_are_named(rt: HostRuntime) {
    let found = [
        square("a1"),
        square("e4"),
        square("h8"),
        square("l1"),
        square("i10"),
    ];
    expect_eq(
        &rt,
        found,
        [Square(0), Square(40), Square(91), Square(11), Square(116)],
    );
    for text in "m1 a11 a0  e".split(' ') {
        expect_eq_at(&rt, text, square(text).0, 0);
    }
}

/// Whether the position has exactly these pieces, by square.
fn has_pieces(p: &Position, pieces: &[(Side, u8, u8)]) -> bool {
    let stands = |(side, letter, at): &(Side, u8, u8)| {
        let piece = Cell {
            side: *side,
            kind: kind(*letter),
            origin: None,
        };
        p.cells.get(*at as usize).copied() == Some(Some(piece))
    };
    pieces.iter().all(stands) && p.cells.iter().flatten().count() == pieces.len()
}

#[test]
fn positions_are_placed(rt: HostRuntime) {
    let king = (Side::White, b'k', 4);
    let black = [king, (Side::Black, b'k', 91), (Side::Black, b'c', 109)];
    let rows: [(&str, &[(Side, u8, u8)]); 4] = [
        ("", &[]),
        ("Ke1", &[king]),
        ("Ke1 kh8 cb10", &black),
        ("Ke1 1a2 Q", &[king]),
    ];
    for (text, pieces) in rows {
        expect_of(&rt, &text, has_pieces(&position(text), pieces));
    }
}

/// The start is sound, and has so many pieces.
fn expect_start(rt: &impl Abort, rules: &Rules, pieces: usize)
    requires { IsFit rules.now }
{
    assert!(rt; sound(rules, &rules.start));
    expect_eq(rt, rules.start.cells.iter().flatten().count(), pieces);
}

#[test]
fn starts_are_sound(rt: HostRuntime) {
    expect_start(&rt, &leapers(), 6);
    expect_start(&rt, &chess(), 32);
    expect_start(&rt, &capablanca(), 40);
    expect_start(&rt, &shouse(), 32);
    expect_start(&rt, &generals(), 9);
    expect_start(&rt, &xiangqi(), 32);
    expect(&rt, leapers().start == position("Kd1 Cf1 Ng1 nb8 cc8 ke8"));
}

/// White: king e1, rooks a1 and h1 with both rights, pawn e4. Black: king e8, pawn d5.
fn castling_side() -> Position {
    Position {
        rights: [[true, true], [false, false]],
        ..position("Ke1 Ra1 Rh1 Pe4 ke8 pd5")
    }
}

/// Whether the side attacks the square, by both calls.
fn attacks(rules: &Rules, p: &Position, by: Side, to: &str) -> [bool; 2]
    requires { IsFit rules.now }
{
    let to = square(to);
    [
        attacks_plain(rules, p, by, to),
        is_attacked(rules, &p.cells, by, to),
    ]
}

/// Asserts of each of the squares that the side attacks it, or not.
fn expect_attacks(rt: &impl Abort, by: Side, squares: &str, attacked: bool) {
    let rules = chess();
    let p = castling_side();
    for to in squares.split(' ') {
        expect_of(rt, &to, attacks(&rules, &p, by, to) == [attacked; 2]);
    }
}

#[test]
fn sides_attack(rt: HostRuntime) {
    expect_attacks(&rt, Side::White, "d5 f5 e1 a8 d2", true);
    expect_attacks(&rt, Side::White, "e5 e8 e3", false);
    expect_attacks(&rt, Side::Black, "c4 e4 f7", true);
    expect_attacks(&rt, Side::Black, "d4 e6", false);
}

// A pawn takes on its diagonals, a piece of any side there or none.
#[test]
fn pawns_attack(rt: HostRuntime) {
    let rules = chess();
    let (safe, checked) = (position("Ke1 Pe7 ke8"), position("Ke1 Pd7 ke8"));
    let found = [
        king_attacked(&rules, &safe.cells, Side::Black),
        king_attacked(&rules, &checked.cells, Side::Black),
        pawn_could_take(&rules, &safe.cells, Side::White, square("e8")),
        pawn_could_take(&rules, &safe.cells, Side::White, square("d8")),
    ];
    expect_eq(&rt, found, [false, true, false, true]);
}

/// The position is sound by the rules of chess, or not.
fn expect_sound(rt: &impl Abort, p: &Position, is_sound: bool, name: &str) {
    expect_eq_at(rt, name, sound(&chess(), p), is_sound);
}

#[test]
fn positions_are_sound(rt: HostRuntime) {
    let rows = [
        ("Ke1 Ra1 Rh1 Pe4 ke8 pd5", true),
        // a king too many, a king that could be taken, and a piece beyond the edge
        ("Ke1 Ke2 ke8", false),
        ("Ke1 Pd7 ke8", false),
        ("Ke1 Ri1 ke8", false),
    ];
    for (pieces, is_sound) in rows {
        expect_sound(&rt, &position(pieces), is_sound, pieces);
    }
    let mut to_answer = position("Ke1 Pd7 ke8");
    to_answer.side = Side::Black;
    expect_sound(&rt, &to_answer, true, "Black answers the check");
}

#[test]
fn rights_and_marks_are_sound(rt: HostRuntime) {
    expect_sound(&rt, &castling_side(), true, "both rights");
    let mut right = position("Ke1 Ra1 ke8");
    right.rights[0][0] = true;
    expect_sound(&rt, &right, false, "a right without its rook");
    let mut passed = castling_side();
    passed.ep = Some(square("d6"));
    expect_sound(&rt, &passed, false, "en passant where no pawn has passed");
    let mut promoted = castling_side();
    if let Some(rook) = &mut promoted.cells[0] {
        rook.origin = Some(kind(b'p'));
    }
    expect_sound(&rt, &promoted, false, "a mark where none is kept");
}

/// Asserts that the position is not sound, and whether its repeat is that of the start.
fn expect_fault(rt: &impl Abort, p: &Position, is_repeat: bool) {
    expect_sound(rt, p, false, "a fault");
    expect_eq(rt, repeat_of(p) == repeat_of(&castling_side()), is_repeat);
}

#[test]
fn counts_and_hands_are_sound(rt: HostRuntime) {
    let start = castling_side();
    let counter = 10000;
    expect_fault(&rt, &Position { counter, ..start }, true);
    expect_fault(&rt, &Position { number: 0, ..start }, true);
    let gates = [1, 0];
    expect_fault(&rt, &Position { gates, ..start }, false);
    let hands = [hand_of(b"r"), [0; 26]];
    expect_fault(&rt, &Position { hands, ..start }, false);
}

#[test]
fn castling_is_read(rt: HostRuntime) {
    let rules = chess();
    let p = castling_side();
    let files = [
        rook_file(&rules, &p.cells, Side::White, Wing::Kingside),
        rook_file(&rules, &p.cells, Side::White, Wing::Queenside),
        rook_file(&rules, &p.cells, Side::Black, Wing::Kingside),
    ];
    expect_eq(&rt, files, [Some(7), Some(0), None]);
    expect_eq(&rt, castling_square(&rules, Side::Black, 2), square("c8"));
    if castling_on(&rules) {
        let castle = castle_of(&rules, &p.cells, Side::White, Wing::Queenside);
        let squares = CastleSquares {
            king: square("e1"),
            king_to: square("c1"),
            rook: square("a1"),
            rook_to: square("d1"),
        };
        expect_eq(&rt, castle, Some(squares));
    }
}

#[test]
fn rules_are_read(rt: HostRuntime) {
    let rules = chess();
    let (king, pawn, rook) = (kind(b'k'), kind(b'p'), kind(b'r'));
    let (white, black, a8) = (Side::White, Side::Black, square("a8").0);
    let found = [
        castling_on(&rules),
        has_kind(&rules, pawn),
        names(rules.king, king),
        masks(&rules.castle_rooks, rook),
        in_region(&rules.promotion, white, a8),
    ];
    expect_eq(&rt, found, [true; 5]);
    let found = [
        has_kind(&rules, kind(b'a')),
        names(rules.flag_kind, king),
        masks(&rules.castle_rooks, pawn),
        in_region(&rules.promotion, black, a8),
    ];
    expect_eq(&rt, found, [false; 4]);
}

#[test]
fn rights_and_gates_are_read(rt: HostRuntime) {
    let p = castling_side();
    let found = [
        holds_right(&p.rights, Side::White, Wing::Queenside),
        holds_right(&p.rights, Side::Black, Wing::Queenside),
        has_gate(&[5, 0], Side::White, 2),
        has_gate(&[5, 0], Side::White, 1),
    ];
    expect_eq(&rt, found, [true, false, true, false]);
}

#[test]
fn sizes_and_hands_are_read(rt: HostRuntime) {
    let rules = chess();
    let (p, e4) = (castling_side(), square("e4"));
    prove_position_sizes(&p);
    let found = [
        e4.file(),
        e4.rank(),
        rank_for(&rules, Side::White, e4),
        rank_for(&rules, Side::Black, e4),
        in_hand(&p.hands, Side::White, kind(b'r')),
        in_hand(&shouse().start.hands, Side::Black, kind(b'h')),
    ];
    expect_eq(&rt, found, [4, 3, 4, 5, 0, 1]);
}

#[test]
fn movement_is_read(rt: HostRuntime) {
    let rules = chess();
    let cells = castling_side().cells;
    let (white, rook, a1, e4) = (Side::White, kind(b'r'), square("a1"), square("e4"));
    let found = [
        in_mobility(&rules, white, rook, e4),
        in_mobility(&rules, white, rook, square("i4")),
        is_held_back(&rules, white, rook, e4),
        kind_takes(&rules, &cells, white, rook, a1, square("a8")),
        kind_takes(&rules, &cells, white, rook, a1, e4),
    ];
    expect_eq(&rt, found, [true, false, false, true, false]);
}

#[test]
fn soldiers_are_held_back(rt: HostRuntime) {
    let rules = xiangqi();
    for (side, at, held) in [
        (Side::White, "e5", true),
        (Side::White, "e6", false),
        (Side::Black, "e6", true),
        (Side::Black, "e5", false),
    ] {
        let found = is_held_back(&rules, side, kind(b'p'), square(at));
        expect_eq_at(&rt, at, found, held);
    }
}

#[test]
fn kings_keep_to_palaces(rt: HostRuntime) {
    let rules = xiangqi();
    for (side, at, inside) in [
        (Side::White, "d3", true),
        (Side::White, "d4", false),
        (Side::Black, "f8", true),
        (Side::Black, "f7", false),
    ] {
        let found = in_mobility(&rules, side, kind(b'k'), square(at));
        expect_eq_at(&rt, at, found, inside);
    }
}

#[test]
fn kings_face_each_other(rt: HostRuntime) {
    let to = square("e10");
    for (pieces, faces) in [
        ("Ke1 ke10", true),
        ("Ke1 Pe4 ke10", false),
        ("Ke1 kd10", false),
    ] {
        let found = flies_to(&xiangqi(), &position(pieces).cells, Side::White, to);
        expect_eq_at(&rt, pieces, found, faces);
    }
    let cells = position("Ke1 ke8").cells;
    expect(&rt, !flies_to(&chess(), &cells, Side::White, square("e8")));
}

/// Whether the kind goes from the one square to the other, to take where a piece is there.
fn goes(rules: &Rules, p: &Position, letter: u8, from: Square, to: Square) -> bool
    requires { IsFit rules.now }
{
    let Some(Some(rule)) = rules.kinds.get(kind(letter).0 as usize) else {
        return false;
    };
    let board = board_of(rules);
    let is_taken = p.cells.get(to.0 as usize).copied().flatten().is_some();
    for term in rule.terms.items.iter() {
        let serves = if is_taken { term.takes } else { term.quiet };
        if serves && reaches_plain(board, &p.cells, Side::White, term, from, to) {
            return true;
        }
    }
    false
}

/// Asserts of White's piece, among the pieces of the text, that it goes to the one squares and not to the others.
fn goes_to<R: Abort>(
    rt: &R,
    rules: &Rules,
    pieces: &str,
    letter: u8,
    from: &str,
    near: &str,
    far: &str,
)
    requires { IsFit rules.now }
{
    let p = position(pieces);
    for to in near.split(' ') {
        assert!(rt;
            goes(rules, &p, letter, square(from), square(to)),
            "{from} {to}"
        );
    }
    for to in far.split(' ') {
        assert!(rt;
            !goes(rules, &p, letter, square(from), square(to)),
            "{from} {to}"
        );
    }
}

#[test]
fn pieces_of_leapers_and_chess_go(rt: HostRuntime) {
    let small = leapers();
    goes_to(&rt, &small, "", b'c', "f1", "c2 e4 g4", "f2 e3 d4");
    goes_to(&rt, &small, "", b'k', "a1", "a2 b1 b2", "c1 a3 b3");
    let rules = chess();
    goes_to(&rt, &rules, "", b'n', "g1", "e2 f3 h3", "g3 f2 d1");
    goes_to(&rt, &rules, "pe5", b'q', "e1", "e5 h4 a1 d2", "e6 f3");
}

#[test]
fn pieces_of_two_moves_go(rt: HostRuntime) {
    goes_to(
        &rt,
        &capablanca(),
        "Pe5",
        b'a',
        "c3",
        "e5 a5 b1 d4",
        "f6 c4 h8",
    );
    goes_to(&rt, &shouse(), "", b'e', "a1", "a8 h1 b3 c2", "b2 c3");
}

#[test]
fn generals_go(rt: HostRuntime) {
    let rules = generals();
    goes_to(&rt, &rules, "", b's', "d4", "c5 d5 e5 c3 e3", "c4 d3");
    goes_to(&rt, &rules, "", b'g', "d4", "c5 d5 e5 c4 d3", "c3 e3");
}

#[test]
fn pieces_of_xiangqi_go(rt: HostRuntime) {
    let rules = xiangqi();
    goes_to(&rt, &rules, "", b'b', "c1", "a3 e3", "b2 d2 c3");
    goes_to(&rt, &rules, "Pd2", b'b', "c1", "a3", "e3");
    goes_to(
        &rt,
        &rules,
        "pa4 Pa6",
        b'c',
        "a1",
        "a2 a3 a6 i1",
        "a4 a5 a7 b2",
    );
}
