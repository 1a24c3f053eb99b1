//! Tests of `position_key`.
ghost use Rattle.rules_model.specs.Fit.{IsFit};
ghost use Rattle.rules_model.specs.Moves.{IsFitMove};

use crate::expect::{expect, expect_eq};
use crate::helpers::{castle, go};
use next_position::{make_move, sound_positions_take_moves, touched};
use position_key::{BoardKey, Packed, key_of, key_of_repeat};
use rules_model::{Cell, Kind, Move, Position, Promo, Repeat, Rules, Side, repeat_of, sound};
use sample_rules::{hand_of, kind, position, shouse, square};
use square_set::EMPTY;
use std::process::Abort;

fn bare() -> Repeat {
    repeat_of(&position(""))
}

// The values are computed by MurmurHash3's published finalizer, apart from this program.
#[test]
fn keys_are_sums_of_words(rt: HostRuntime) {
    let mut p = position("Ke1 kd8 Pe2");
    p.hands[1][16] = 2;
    p.gates = [0x90, 0x91];
    p.rights = [[true, true], [false, true]];
    p.checks = [3, 2];
    p.ep = Some(square("e5"));
    p.side = Side::Black;
    expect_eq(&rt, BoardKey::of(&p), BoardKey(0x75DC_9B7A_EF04_365A));
    expect_eq(&rt, key_of(&p), 0x05D0_E764_87F6_708E);
    expect_eq(&rt, key_of_repeat(&repeat_of(&p)), 0x05D0_E764_87F6_708E);
}

#[test]
fn every_part_of_a_repeat_counts(rt: HostRuntime) {
    let none = Packed::of(&bare());
    let mut others = [bare(); 7];
    others[0].hands[1][25] = 1;
    others[1].checks[0] = 1;
    others[2].side = Side::Black;
    others[3].gates[1] = 1;
    others[4].rights[1][1] = true;
    others[5].ep = Some(square("c5"));
    others[6].cells[119] = Some(Cell {
        side: Side::White,
        kind: Kind(10),
        origin: None,
    });
    for (place, other) in others.iter().enumerate() {
        let packed = Packed::of(other);
        assert!(rt; packed.hash() != none.hash(), "part {place}");
        assert!(rt;
            !packed.is(&none) && packed.is(&Packed::of(other)),
            "part {place}"
        );
    }
}

// What a piece was promoted from is no part of a key, and is a part of a repeat.
#[test]
fn an_origin_is_compared(rt: HostRuntime) {
    let plain = position("Ke1 Qd1 kd8");
    let mut promoted = plain;
    if let Some(cell) = &mut promoted.cells[square("d1").0 as usize] {
        cell.origin = Some(kind(b'p'));
    }
    let packed = Packed::of(&repeat_of(&promoted));
    expect_eq(&rt, packed.hash(), key_of(&plain));
    expect(&rt, !packed.is(&Packed::of(&repeat_of(&plain))));
}

/// White's elephant and horse in hand, and these pieces on the board.
fn holding(pieces: &str) -> Position {
    let mut p = position(pieces);
    p.hands[0] = hand_of(b"eh");
    p
}

/// After the move the key that was kept is that of the board and the hands, and another than before.
fn is_kept<R: Abort>(rt: &R, rules: &Rules, p: &Position, m: &Move)
    requires fit { IsFit rules.now }
    requires move_fits { IsFitMove m.now }
{
    assert!(rt; sound(rules, p));
    sound_positions_take_moves();
    let mut next = *p;
    make_move(rules, &mut next, m);
    let key = BoardKey::of(p);
    let kept = key.after(p, &next, touched(rules, p, m));
    let whole = key_of(&next);
    let found = [
        kept != key,
        kept == BoardKey::of(&next),
        kept.whole(&next) == whole,
        Packed::with_key(&next, kept).hash() == whole,
    ];
    expect(rt, found == [true; 4]);
}

// A capture into the hand, en passant and a promotion.
#[test]
fn keys_are_kept_through_pawn_moves_and_captures(rt: HostRuntime) {
    let rules = shouse();
    let capture = go("d1", "d5", Promo::Stays, None);
    is_kept(&rt, &rules, &holding("Ke1 Qd1 kg8 pd5"), &capture);
    let mut passing = holding("Ke1 Pe5 kg8 pd5");
    passing.ep = Some(square("d6"));
    is_kept(&rt, &rules, &passing, &go("e5", "d6", Promo::Stays, None));
    let queen = go("a7", "a8", Promo::Pawn(kind(b'q')), None);
    is_kept(&rt, &rules, &holding("Ke1 Pa7 kg8 pd5"), &queen);
}

// A gate, a castle with a gate, and a drop.
#[test]
fn keys_are_kept_through_placings(rt: HostRuntime) {
    let rules = shouse();
    let gated = go("e1", "e2", Promo::Stays, Some(kind(b'h')));
    is_kept(&rt, &rules, &holding("Ke1 kg8 pd5"), &gated);
    is_kept(&rt, &rules, &holding("Ke1 Rh1 kg8 pd5"), &castle());
    let dropped = Move::Drop {
        kind: kind(b'h'),
        to: square("h4"),
    };
    is_kept(&rt, &rules, &holding("Ke1 kg8 pd5"), &dropped);
}

#[test]
fn moves_touch_few_squares(rt: HostRuntime) {
    let rules = shouse();
    let mut p = position("Ke1 Rh1 Pe5 kg8 pd5");
    p.ep = Some(square("d6"));
    let mut passing = EMPTY;
    for text in ["e5", "d6", "d5"] {
        passing = passing.with(square(text).0);
    }
    expect_eq(
        &rt,
        touched(&rules, &p, &go("e5", "d6", Promo::Stays, None)).squares,
        passing,
    );
    expect_eq(&rt, touched(&rules, &p, &castle()).squares.count(), 4);
    let drop = Move::Drop {
        kind: kind(b'h'),
        to: square("h4"),
    };
    let hands = [
        touched(&rules, &p, &go("e1", "e2", Promo::Stays, None)).hands,
        touched(&rules, &p, &go("e5", "d6", Promo::Stays, None)).hands,
        touched(&rules, &p, &castle()).hands,
        touched(&rules, &p, &drop).hands,
    ];
    expect_eq(&rt, hands, [false, true, true, true]);
}
