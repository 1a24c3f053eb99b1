ghost use Rattle.std.specs.Prelude.{◌≡◌, true};
ghost use Rattle.rules_model.specs.Fit.{IsFit};
ghost use Rattle.rules_model.specs.Sound.{is_sound};
ghost use Rattle.sample_rules.specs.Generals as Generals;

use crate::base::{base, empty};
use crate::pieces::{
    DIAGONAL, GOLD, LEAP, ORTHOGONAL, SILVER, SLIDE, add, add_pawn, add_promoted, kind, none, with,
};
use crate::positions::{cells_of, hand_of};
use crate::regions::{area, mask_of};
use rules_model::{Position, Rules};

const START: &[u8; 120] = b"\
    R...K..R....\
    ....P.......\
    .S..........\
    ...p........\
    ............\
    ............\
    ............\
    r...k..r....\
    ............\
    ............";

fn rules() -> Rules
    ensures { result ≡ Generals.generals }
{
    let mut rules = base(8, 8);
    add(
        &mut rules,
        b'k',
        with(with(none(), &ORTHOGONAL, LEAP), &DIAGONAL, LEAP),
    );
    add(&mut rules, b'r', with(none(), &ORTHOGONAL, SLIDE));
    add(&mut rules, b'g', with(none(), &GOLD, LEAP));
    add_promoted(&mut rules, b's', with(none(), &SILVER, LEAP), kind(b'g'));
    add_pawn(&mut rules);
    rules.king = Some(kind(b'k'));
    rules.promotion = [area(0, 8, 5, 8), area(0, 8, 0, 3)];
    rules.promotion_kinds = mask_of(b"r");
    rules.castle_rooks = mask_of(b"r");
    rules.n_move_kinds = mask_of(b"p");
    rules.must_promote_pawn = false;
    rules.castling = true;
    rules.drops = true;
    rules.to_hand = true;
    rules.gating = true;
    rules.gate_hand = true;
    rules.check_counting = true;
    rules.start = Position {
        cells: cells_of(START),
        rights: [[true; 2]; 2],
        gates: [0x91; 2],
        hands: [hand_of(b"s"), hand_of(b"")],
        checks: [3; 2],
        ..empty()
    };
    rules
}

/// Kings, rooks, pawns, and silver generals that become gold ones, from the middle of a game on: castling, gates and
/// drops, and three checks win. Kings and rooks hold their gates, and a silver general waits in White's hand.
pub fn generals() -> Rules
    ensures is { result ≡ Generals.generals }
    ensures fit { IsFit result }
    ensures start { is_sound result result.start ≡ true }
{
    rules()
}
