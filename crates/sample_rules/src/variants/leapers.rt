ghost use Rattle.std.specs.Prelude.{◌≡◌, true};
ghost use Rattle.rules_model.specs.Fit.{IsFit};
ghost use Rattle.rules_model.specs.Sound.{is_sound};
ghost use Rattle.sample_rules.specs.Leapers as Leapers;

use crate::base::{base, empty};
use crate::pieces::{CAMEL, DIAGONAL, KNIGHT, LEAP, ORTHOGONAL, add, kind, none, with};
use crate::positions::cells_of;
use rules_model::{Position, Rules};

const START: &[u8; 120] = b"\
    ...K.CN.....\
    ............\
    ............\
    ............\
    ............\
    ............\
    ............\
    .nc.k.......\
    ............\
    ............";

fn rules() -> Rules
    ensures { result ≡ Leapers.leapers }
{
    let mut rules = base(8, 8);
    add(
        &mut rules,
        b'k',
        with(with(none(), &ORTHOGONAL, LEAP), &DIAGONAL, LEAP),
    );
    add(&mut rules, b'n', with(none(), &KNIGHT, LEAP));
    add(&mut rules, b'c', with(none(), &CAMEL, LEAP));
    rules.king = Some(kind(b'k'));
    rules.start = Position {
        cells: cells_of(START),
        ..empty()
    };
    rules
}

/// A king, a knight and a camel on each side of the chess board.
pub fn leapers() -> Rules
    ensures is { result ≡ Leapers.leapers }
    ensures fit { IsFit result }
    ensures start { is_sound result result.start ≡ true }
{
    rules()
}
