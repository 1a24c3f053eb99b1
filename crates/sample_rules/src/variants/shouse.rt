ghost use Rattle.std.specs.Prelude.{◌≡◌, true};
ghost use Rattle.rules_model.specs.Fit.{IsFit};
ghost use Rattle.rules_model.specs.Sound.{is_sound};
ghost use Rattle.sample_rules.specs.Shouse as Shouse;

use crate::base::{base, empty};
use crate::pieces::{DIAGONAL, KNIGHT, LEAP, ORTHOGONAL, SLIDE, add, add_pawn, kind, none, with};
use crate::positions::{cells_of, hand_of};
use crate::regions::mask_of;
use rules_model::{Position, Rules};

const START: &[u8; 120] = b"\
    RNBQKBNR....\
    PPPPPPPP....\
    ............\
    ............\
    ............\
    ............\
    pppppppp....\
    rnbqkbnr....\
    ............\
    ............";

fn rules() -> Rules
    ensures { result ≡ Shouse.shouse }
{
    let mut rules = base(8, 8);
    add(
        &mut rules,
        b'k',
        with(with(none(), &ORTHOGONAL, LEAP), &DIAGONAL, LEAP),
    );
    add(
        &mut rules,
        b'q',
        with(with(none(), &ORTHOGONAL, SLIDE), &DIAGONAL, SLIDE),
    );
    add(&mut rules, b'r', with(none(), &ORTHOGONAL, SLIDE));
    add(&mut rules, b'b', with(none(), &DIAGONAL, SLIDE));
    add(&mut rules, b'n', with(none(), &KNIGHT, LEAP));
    add(
        &mut rules,
        b'h',
        with(with(none(), &DIAGONAL, SLIDE), &KNIGHT, LEAP),
    );
    add(
        &mut rules,
        b'e',
        with(with(none(), &ORTHOGONAL, SLIDE), &KNIGHT, LEAP),
    );
    add_pawn(&mut rules);
    rules.king = Some(kind(b'k'));
    rules.promotion_kinds = mask_of(b"ehnbrq");
    rules.castle_rooks = mask_of(b"r");
    rules.n_move_kinds = mask_of(b"p");
    rules.castling = true;
    rules.drops = true;
    rules.to_hand = true;
    rules.gating = true;
    rules.gate_hand = true;
    rules.start = Position {
        cells: cells_of(START),
        rights: [[true; 2]; 2],
        gates: [0xff; 2],
        hands: [hand_of(b"eh"), hand_of(b"eh")],
        ..empty()
    };
    rules
}

/// Chess with gates and drops: a hawk (bishop and knight) and an elephant (rook and knight) wait in each hand, and
/// captured pieces come back (Seirawan chess with the drops of Crazyhouse).
pub fn shouse() -> Rules
    ensures is { result ≡ Shouse.shouse }
    ensures fit { IsFit result }
    ensures start { is_sound result result.start ≡ true }
{
    rules()
}
