//! Whether rights and gates have their pieces in place.
ghost use Rattle.std.specs.Prelude.{◌≡◌, ◌<◌, IfSome};
ghost use Rattle.foundation.specs.Count.{all_below};
ghost use Rattle.fen_model.specs.Held as Said;
ghost use Rattle.fen_model.specs.Held.{held_on};
ghost use Rattle.rules_model.specs.Fit.{IsFit};
ghost use Rattle.rules_model.specs.Sound as Sound;

use fen_model::Held;
use rules_model::attacks::is_own_king;
use rules_model::castling::{castling_on, castling_square, has_gate, holds_right, rook_file};
use rules_model::kinds::first_rank;
use rules_model::soundness::is_own_piece;
use rules_model::{Cells, Rules, Side, Wing};

/// Whether the castling rook is there, and with it the gates that a right needs.
fn is_sound_rook(rules: &Rules, gates: &[u16; 2], side: Side, file: Option<u8>) -> bool
    requires fit { IsFit rules.now }
    requires file { IfSome file (λ f. f < 12) }
    ensures { result ≡ Sound.sound_rook rules.now gates.now side file }
{
    match file {
        None => false,
        Some(file) => {
            !rules.gating
                || (has_gate(gates, side, rules.castle_king) && has_gate(gates, side, file))
        }
    }
}

#[tactic(auto, unfolding(rules_model::specs::Sound::sound_right))]
fn may_hold_right(rules: &Rules, cells: &Cells, held: &Held, side: Side, wing: Wing) -> bool
    requires { IsFit rules.now }
    ensures { result ≡ Sound.sound_right rules.now (held_on cells.now held.now) side wing }
{
    let king = castling_square(rules, side, rules.castle_king);
    !holds_right(&held.rights, side, wing)
        || (castling_on(rules)
            && is_own_king(rules, side, cells[king.0 as usize])
            && is_sound_rook(
                rules,
                &held.gates,
                side,
                rook_file(rules, cells, side, wing),
            ))
}

#[tactic(auto, unfolding(rules_model::specs::Sound::sound_gate))]
fn may_hold_gate(rules: &Rules, cells: &Cells, held: &Held, side: Side, file: u8) -> bool
    requires fit { IsFit rules.now }
    requires file { file < 16 }
    ensures { result ≡ Sound.sound_gate rules.now (held_on cells.now held.now) side file }
{
    if !has_gate(&held.gates, side, file) {
        return true;
    }
    if !rules.gating || file >= rules.files {
        return false;
    }
    let at = 12 * first_rank(rules, side) + file;
    is_own_piece(rules, side, cells[at as usize])
}

#[tactic(auto, using(foundation::proofs::CountLemmas::all))]
fn may_hold_gates(rules: &Rules, cells: &Cells, held: &Held, side: Side) -> bool
    requires { IsFit rules.now }
    ensures { result ≡ all_below (Sound.sound_gate rules.now (held_on cells.now held.now) side) 16 }
{
    let mut sound = true;
    for file in 0..16 {
        sound = sound && may_hold_gate(rules, cells, held, side, file);
    }
    sound
}

fn side_may_hold(rules: &Rules, cells: &Cells, held: &Held, side: Side) -> bool
    requires { IsFit rules.now }
    ensures { result ≡ Said.side_may_hold rules.now (held_on cells.now held.now) side }
{
    may_hold_right(rules, cells, held, side, Wing::Kingside)
        && may_hold_right(rules, cells, held, side, Wing::Queenside)
        && may_hold_gates(rules, cells, held, side)
}

/// Whether each right has its king and its castling rook in place, and each gate an own piece that is no pawn.
#[tactic(auto, unfolding(fen_model::specs::Held::may_hold))]
pub(crate) fn may_hold(rules: &Rules, cells: &Cells, held: &Held) -> bool
    requires { IsFit rules.now }
    ensures { result ≡ Said.may_hold rules.now cells.now held.now }
{
    side_may_hold(rules, cells, held, Side::White) && side_may_hold(rules, cells, held, Side::Black)
}
