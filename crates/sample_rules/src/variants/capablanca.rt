ghost use Rattle.std.specs.Prelude.{◌≡◌, true};
ghost use Rattle.rules_model.specs.Fit.{IsFit};
ghost use Rattle.rules_model.specs.Sound.{is_sound};
ghost use Rattle.sample_rules.specs.Capablanca as Capablanca;

use crate::base::{base, empty};
use crate::pieces::{DIAGONAL, KNIGHT, LEAP, ORTHOGONAL, SLIDE, add, add_pawn, kind, none, with};
use crate::positions::cells_of;
use crate::regions::mask_of;
use rules_model::{Position, Rules};

const START: &[u8; 120] = b"\
    RNABQKBCNR..\
    PPPPPPPPPP..\
    ............\
    ............\
    ............\
    ............\
    pppppppppp..\
    rnabqkbcnr..\
    ............\
    ............";

fn rules() -> Rules
    ensures { result ≡ Capablanca.capablanca }
{
    let mut rules = base(10, 8);
    add(
        &mut rules,
        b'k',
        with(with(none(), &ORTHOGONAL, LEAP), &DIAGONAL, LEAP),
    );
    add(
        &mut rules,
        b'q',
        with(with(none(), &ORTHOGONAL, SLIDE), &DIAGONAL, SLIDE),
    );
    add(&mut rules, b'r', with(none(), &ORTHOGONAL, SLIDE));
    add(&mut rules, b'b', with(none(), &DIAGONAL, SLIDE));
    add(&mut rules, b'n', with(none(), &KNIGHT, LEAP));
    add(
        &mut rules,
        b'a',
        with(with(none(), &DIAGONAL, SLIDE), &KNIGHT, LEAP),
    );
    add(
        &mut rules,
        b'c',
        with(with(none(), &ORTHOGONAL, SLIDE), &KNIGHT, LEAP),
    );
    add_pawn(&mut rules);
    rules.king = Some(kind(b'k'));
    rules.promotion_kinds = mask_of(b"acnbrq");
    rules.castle_rooks = mask_of(b"r");
    rules.n_move_kinds = mask_of(b"p");
    rules.castle_king = 5;
    rules.castle_near = 8;
    rules.castling = true;
    rules.start = Position {
        cells: cells_of(START),
        rights: [[true; 2]; 2],
        ..empty()
    };
    rules
}

/// Chess on ten files, with an archbishop (bishop and knight) and a chancellor (rook and knight) (J. R. Capablanca,
/// about 1920).
pub fn capablanca() -> Rules
    ensures is { result ≡ Capablanca.capablanca }
    ensures fit { IsFit result }
    ensures start { is_sound result result.start ≡ true }
{
    rules()
}
