ghost use Rattle.std.specs.Prelude.{◌≡◌, true};
ghost use Rattle.rules_model.specs.Fit.{IsFit};
ghost use Rattle.rules_model.specs.Sound.{is_sound};
ghost use Rattle.sample_rules.specs.Xiangqi as Xiangqi;

use crate::base::{base, empty};
use crate::pieces::{
    DIAGONAL, ELEPHANT, HOP, KNIGHT, LAME, LEAP, ORTHOGONAL, QUIET_SLIDE, SLIDE, SOLDIER, add,
    add_bound, kind, none, with,
};
use crate::positions::cells_of;
use crate::regions::area;
use rules_model::{Position, Rules, Value};

const START: &[u8; 120] = b"\
    RNBAKABNR...\
    ............\
    .C.....C....\
    P.P.P.P.P...\
    ............\
    ............\
    p.p.p.p.p...\
    .c.....c....\
    ............\
    rnbakabnr...";

fn rules() -> Rules
    ensures { result ≡ Xiangqi.xiangqi }
{
    let mut rules = base(9, 10);
    let palaces = [area(3, 6, 0, 3), area(3, 6, 7, 10)];
    let halves = [area(0, 9, 0, 5), area(0, 9, 5, 10)];
    add_bound(&mut rules, b'k', with(none(), &ORTHOGONAL, LEAP), palaces);
    add_bound(&mut rules, b'a', with(none(), &DIAGONAL, LEAP), palaces);
    add_bound(&mut rules, b'b', with(none(), &ELEPHANT, LAME), halves);
    add(&mut rules, b'n', with(none(), &KNIGHT, LAME));
    add(&mut rules, b'r', with(none(), &ORTHOGONAL, SLIDE));
    add(
        &mut rules,
        b'c',
        with(with(none(), &ORTHOGONAL, QUIET_SLIDE), &ORTHOGONAL, HOP),
    );
    add(&mut rules, b'p', with(none(), &SOLDIER, LEAP));
    rules.king = Some(kind(b'k'));
    rules.soldier = Some(kind(b'p'));
    rules.soldier_rank = 6;
    rules.stalemate = Value::Loss;
    rules.flying = true;
    rules.start = Position {
        cells: cells_of(START),
        ..empty()
    };
    rules
}

/// Xiangqi: palaces, a river, soldiers that go sideways only after it, and kings that must not face each other.
pub fn xiangqi() -> Rules
    ensures is { result ≡ Xiangqi.xiangqi }
    ensures fit { IsFit result }
    ensures start { is_sound result result.start ≡ true }
{
    rules()
}
