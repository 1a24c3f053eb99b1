//! Which positions are sound: those from which a game may start.
ghost use Rattle.std.specs.Prelude.{◌≡◌, ◌≤◌, ◌<◌, ◌+◌, ◌*◌, ◌&&◌, not, IfSome, count_by, sum, List, slice_index, nat_le, ◌||◌, ◌==◌};
ghost use Rattle.foundation.specs.Count.{all_below, first_below, last_below};
ghost use Rattle.rules_model.specs.declared.board.Side.TheVariants.{White, Black};
ghost use Rattle.rules_model.specs.declared.board.Wing.TheVariants.{Kingside, Queenside};
ghost use Rattle.rules_model.specs.Attacks as Attacks;
ghost use Rattle.rules_model.specs.Castling as Castling;
ghost use Rattle.rules_model.specs.Ends as Ends;
ghost use Rattle.rules_model.specs.Fit.{IsFit};
ghost use Rattle.rules_model.specs.Gates as Gates;
ghost use Rattle.rules_model.specs.Hands as Hands;
ghost use Rattle.rules_model.specs.Kinds as Kinds;
ghost use Rattle.rules_model.specs.Pawns as Pawns;
ghost use Rattle.rules_model.specs.Regions as Regions;
ghost use Rattle.rules_model.specs.Repeats.{repeat_of};
ghost use Rattle.rules_model.specs.Sides as Sides;
ghost use Rattle.rules_model.specs.Sound as Sound;

use crate::attacks::{ahead, is_own_king, is_own_pawn, king_attacked, pawn_at, pawn_could_take};
use crate::board::{Cell, Cells, KINDS, Kind, Position, Region, SQUARES, Side, Square, Wing};
use crate::castling::{castling_on, castling_square, has_gate, holds_right, rook_file};
use crate::kinds::{board_of, first_rank, has_kind, in_hand, in_region, masks, names, promoted_of};
use crate::rules::Rules;
use crate::sizes::prove_position_sizes;

/// Whether the square is on the board of the variant.
pub fn is_on_board(rules: &Rules, at: Square) -> bool
    ensures { result ≡ Sound.on_board rules.now at.0 }
{
    at.file() < rules.files && at.rank() < rules.ranks
}

fn is_origin(rules: &Rules, kind: Kind, origin: Option<Kind>) -> bool
    ensures { result ≡ Sound.is_origin rules.now kind origin }
{
    match origin {
        None => true,
        Some(origin) => {
            (rules.to_hand && names(rules.pawn, origin) && masks(&rules.promotion_kinds, kind))
                || names(promoted_of(rules, origin), kind)
        }
    }
}

#[tactic(auto, unfolding(crate::specs::Sound::sound_at))]
fn is_sound_at(rules: &Rules, cells: &Cells, at: u8) -> bool
    requires { at < 120 }
    ensures { result ≡ Sound.sound_at rules.now cells.now at }
{
    match cells[at as usize] {
        None => true,
        Some(cell) => {
            is_on_board(rules, Square(at))
                && has_kind(rules, cell.kind)
                && is_origin(rules, cell.kind, cell.origin)
        }
    }
}

#[tactic(auto, using(foundation::proofs::CountLemmas::all))]
fn are_sound_cells(rules: &Rules, cells: &Cells) -> bool
    ensures { result ≡ all_below (Sound.sound_at rules.now cells.now) 120 }
{
    let mut sound = true;
    for at in 0..SQUARES as u8 {
        sound = sound && is_sound_at(rules, cells, at);
    }
    sound
}

#[tactic(auto, unfolding(crate::specs::Sound::sound_in_hand))]
fn is_sound_in_hand(rules: &Rules, hands: &[[u8; KINDS]; 2], side: Side, kind: u8) -> bool
    ensures { result ≡ Sound.sound_in_hand rules.now hands.now side kind }
{
    let kind = Kind(kind);
    in_hand(hands, side, kind) == 0
        || ((rules.drops || rules.to_hand || rules.gating)
            && has_kind(rules, kind)
            && !names(rules.king, kind))
}

#[tactic(auto, using(foundation::proofs::CountLemmas::all))]
fn is_sound_hand(rules: &Rules, hands: &[[u8; KINDS]; 2], side: Side) -> bool
    ensures { result ≡ all_below (Sound.sound_in_hand rules.now hands.now side) 26 }
{
    let mut sound = true;
    for kind in 0..KINDS as u8 {
        sound = sound && is_sound_in_hand(rules, hands, side, kind);
    }
    sound
}

/// Whether the side has exactly one king on the board, where the variant has kings.
pub fn has_its_king(rules: &Rules, cells: &Cells, side: Side) -> bool
    ensures { result ≡ Sound.has_its_king rules.now cells.now side }
{
    rules.king.is_none()
        || cells
            .iter()
            .filter(|cell| is_own_king(rules, side, **cell))
            .count()
            == 1
}

/// Whether a piece of the side stands there.
pub fn is_of(side: Side, cell: Option<Cell>) -> bool
    ensures { result ≡ Ends.is_of side cell }
{
    match cell {
        None => false,
        Some(cell) => cell.side.is(side),
    }
}

fn on_board_of(cells: &Cells, side: Side) -> usize
    ensures is { result ≡ count_by (Ends.is_of side) cells.now }
    ensures few { result ≤ 120 }
{
    cells.iter().filter(|cell| is_of(side, **cell)).count()
}

fn total(hand: &[u8; KINDS]) -> usize
    ensures is { result ≡ sum hand.now }
    ensures few { result ≤ 6630 }
{
    let mut total: usize = 0;
    for n in hand {
        total += *n as usize;
    }
    total
}

/// How many pieces the side has on the board and in its hand.
#[tactic(auto, unfolding(crate::specs::Ends::pieces_of))]
pub fn pieces_of(p: &Position, side: Side) -> usize
    ensures is { result ≡ Ends.pieces_of (repeat_of p.now) side }
    ensures few { result ≤ 6750 }
{
    let hand = p.hands[side.index()];
    on_board_of(&p.cells, side) + total(&hand)
}

fn is_sound_rook(rules: &Rules, gates: &[u16; 2], side: Side, file: Option<u8>) -> bool
    requires fit { IsFit rules.now }
    requires file { IfSome file (λ f. f < 12) }
    ensures { result ≡ Sound.sound_rook rules.now gates.now side file }
{
    match file {
        None => false,
        Some(file) => {
            !rules.gating
                || (has_gate(gates, side, rules.castle_king) && has_gate(gates, side, file))
        }
    }
}

#[tactic(auto, unfolding(crate::specs::Sound::sound_right))]
fn is_sound_right(rules: &Rules, p: &Position, side: Side, wing: Wing) -> bool
    requires { IsFit rules.now }
    ensures { result ≡ Sound.sound_right rules.now (repeat_of p.now) side wing }
{
    let king = castling_square(rules, side, rules.castle_king);
    !holds_right(&p.rights, side, wing)
        || (castling_on(rules)
            && is_own_king(rules, side, p.cells[king.0 as usize])
            && is_sound_rook(
                rules,
                &p.gates,
                side,
                rook_file(rules, &p.cells, side, wing),
            ))
}

/// Whether a piece of the side that is not the pawn stands there.
pub fn is_own_piece(rules: &Rules, side: Side, cell: Option<Cell>) -> bool
    ensures { result ≡ Attacks.is_own side (λ kind. not (Kinds.is_pawn rules.now kind)) cell }
{
    match cell {
        None => false,
        Some(cell) => cell.side.is(side) && !names(rules.pawn, cell.kind),
    }
}

#[tactic(auto, unfolding(crate::specs::Sound::sound_gate))]
fn is_sound_gate(rules: &Rules, p: &Position, side: Side, file: u8) -> bool
    requires fit { IsFit rules.now }
    requires file { file < 16 }
    ensures { result ≡ Sound.sound_gate rules.now (repeat_of p.now) side file }
{
    if !has_gate(&p.gates, side, file) {
        return true;
    }
    if !rules.gating || file >= rules.files {
        return false;
    }
    let at = Square::at(file, first_rank(rules, side));
    is_own_piece(rules, side, p.cells[at.0 as usize])
}

#[tactic(auto, using(foundation::proofs::CountLemmas::all))]
fn are_sound_gates(rules: &Rules, p: &Position, side: Side) -> bool
    requires { IsFit rules.now }
    ensures { result ≡ all_below (Sound.sound_gate rules.now (repeat_of p.now) side) 16 }
{
    let mut sound = true;
    for file in 0..16 {
        sound = sound && is_sound_gate(rules, p, side, file);
    }
    sound
}

/// Whether there is such a square, and nothing stands on it.
pub fn is_free(cells: &Cells, at: Option<u8>) -> bool
    requires { IfSome at (λ s. s < 120) }
    ensures { result ≡ Pawns.is_free cells.now at }
{
    match at {
        None => false,
        Some(at) => cells[at as usize].is_none(),
    }
}

/// Whether there is such a square, and it lies in the side's region.
pub fn lies_in(regions: &[Region; 2], side: Side, at: Option<u8>) -> bool
    requires { IfSome at (λ s. s < 120) }
    ensures { result ≡ Sound.lies_in regions.now side at }
{
    match at {
        None => false,
        Some(at) => in_region(regions, side, at),
    }
}

/// Whether a pawn of the other side has just passed the square, which is on the board.
fn was_passed(rules: &Rules, p: &Position, ep: Square) -> bool
    requires fit { IsFit rules.now }
    requires on_board { ep.0 < 120 }
    ensures { result ≡ Sound.was_passed rules.now (repeat_of p.now) ep }
{
    let board = board_of(rules);
    let enemy = p.side.other();
    let start = ahead(board, p.side, ep, 1);
    rules.double_step
        && is_free(&p.cells, Some(ep.0))
        && is_free(&p.cells, start)
        && lies_in(&rules.double_region, enemy, start)
        && pawn_at(rules, &p.cells, enemy, ahead(board, enemy, ep, 1))
        && pawn_could_take(rules, &p.cells, p.side, ep)
}

fn is_sound_ep(rules: &Rules, p: &Position) -> bool
    requires { IsFit rules.now }
    ensures { result ≡ Sound.is_sound_ep rules.now (repeat_of p.now) p.now.ep }
{
    match p.ep {
        None => true,
        Some(ep) => is_on_board(rules, ep) && was_passed(rules, p, ep),
    }
}

fn are_sound_checks(rules: &Rules, p: &Position, side: Side) -> bool
    ensures { result ≡ (nat_le (slice_index p.now.checks (Sides.side_index side)) 99
        && (rules.now.check_counting || (slice_index p.now.checks (Sides.side_index side) == 0))) }
{
    let left = p.checks[side.index()];
    left <= 99 && (rules.check_counting || left == 0)
}

#[tactic(auto, unfolding(crate::specs::Sound::is_sound_side))]
fn is_sound_side(rules: &Rules, p: &Position, side: Side) -> bool
    requires { IsFit rules.now }
    ensures { result ≡ Sound.is_sound_side rules.now (repeat_of p.now) side }
{
    is_sound_hand(rules, &p.hands, side)
        && has_its_king(rules, &p.cells, side)
        && is_sound_right(rules, p, side, Wing::Kingside)
        && is_sound_right(rules, p, side, Wing::Queenside)
        && are_sound_gates(rules, p, side)
        && are_sound_checks(rules, p, side)
}

#[tactic(auto, using(crate::proofs::SizeLaws::has_sizes_test), unfolding(crate::specs::Sound::is_sound_repeat))]
fn is_sound_repeat(rules: &Rules, p: &Position) -> bool
    requires { IsFit rules.now }
    ensures { result ≡ Sound.is_sound_repeat rules.now (repeat_of p.now) }
{
    prove_position_sizes(p);
    are_sound_cells(rules, &p.cells)
        && pieces_of(p, Side::White) + pieces_of(p, Side::Black) <= 240
        && is_sound_side(rules, p, Side::White)
        && is_sound_side(rules, p, Side::Black)
        && !king_attacked(rules, &p.cells, p.side.other())
        && is_sound_ep(rules, p)
}

/// Whether a game of the variant may start from the position.
///
/// Pieces stand on the board only and are of the variant's kinds, with origins that the variant gives; hands hold what
/// they may; each side has its king, and the king of the side that is not to move is not attacked; castling rights,
/// gates and the en passant square have their pieces in place; all counts are in range.
#[tactic(auto, unfolding(crate::specs::Sound::is_sound))]
pub fn sound(rules: &Rules, p: &Position) -> bool
    requires { IsFit rules.now }
    ensures { result ≡ Sound.is_sound rules.now p.now }
{
    is_sound_repeat(rules, p) && p.counter <= 9999 && p.number >= 1 && p.number <= 9999
}
