//! Castling: whether the variant has it, and where its pieces stand.
ghost use Rattle.std.specs.Prelude.{◌≡◌, ◌<◌, ◌≤◌, true, IfSome};
ghost use Rattle.foundation.specs.Count.{first_below, last_below};
ghost use Rattle.rules_model.specs.declared.board.Wing.TheVariants.{Kingside, Queenside};
ghost use Rattle.rules_model.specs.Attacks as Attacks;
ghost use Rattle.rules_model.specs.Castling as Castling;
ghost use Rattle.rules_model.specs.Castling.{IsFitCastle, castling_on};
ghost use Rattle.rules_model.specs.Fit.{IsFit};
ghost use Rattle.rules_model.specs.Gates as Gates;
ghost use Rattle.rules_model.specs.Kinds as Kinds;
ghost use Rattle.rules_model.specs.Regions as Regions;
ghost use Rattle.rules_model.specs.Sides as Sides;

use crate::board::{Cell, Cells, Side, Square, Wing};
use crate::kinds::{masks, names_any};
use crate::rules::Rules;

/// The squares of a castle: where king and rook stand before it, and after it.
#[derive(Clone, Copy, PartialEq, Eq)]
pub struct CastleSquares {
    pub king: Square,
    pub king_to: Square,
    pub rook: Square,
    pub rook_to: Square,
}

/// Whether the variant has castling: the option is on, there are a king and a castling rook, and the files and the rank
/// of castling lie on the board, in their order.
#[tactic(auto, unfolding(crate::specs::Castling::castling_on))]
pub fn castling_on(rules: &Rules) -> bool
    ensures { result ≡ Castling.castling_on rules.now }
{
    rules.castling
        && rules.king.is_some()
        && names_any(&rules.castle_rooks)
        && rules.castle_rank <= rules.ranks
        && rules.castle_king < rules.files
        && rules.castle_near < rules.files
        && rules.castle_far < rules.files
        && rules.castle_far < rules.castle_king
        && rules.castle_king < rules.castle_near
}

/// The square of a file of the side's castling rank.
pub fn castling_square(rules: &Rules, side: Side, file: u8) -> Square
    requires fit { IsFit rules.now }
    requires file { file < 12 }
    ensures is { result.0 ≡ Regions.castling_square rules.now side file }
    ensures on_board { result.0 < 120 }
{
    let rank = match side {
        Side::White => rules.castle_rank - 1,
        Side::Black => rules.ranks.saturating_sub(rules.castle_rank),
    };
    Square::at(file, rank)
}

/// Whether the side holds the castling right of the wing.
pub fn holds_right(rights: &[[bool; 2]; 2], side: Side, wing: Wing) -> bool
    ensures { result ≡ Castling.holds_right rights.now side wing }
{
    let held = rights[side.index()];
    held[wing.index()]
}

/// Whether the side holds the gate right of the file.
pub fn has_gate(gates: &[u16; 2], side: Side, file: u8) -> bool
    requires { file < 16 }
    ensures { result ≡ Gates.has_gate gates.now side file }
{
    (gates[side.index()] >> file) % 2 == 1
}

/// Whether a piece of the side that may castle as a rook stands there.
pub fn is_rook(rules: &Rules, side: Side, cell: Option<Cell>) -> bool
    ensures { result ≡ Attacks.is_own side (Kinds.masks rules.now.castle_rooks) cell }
{
    match cell {
        None => false,
        Some(cell) => cell.side.is(side) && masks(&rules.castle_rooks, cell.kind),
    }
}

#[tactic(auto, unfolding(crate::specs::Castling::rook_on))]
fn rook_on(rules: &Rules, cells: &Cells, side: Side, file: u8) -> bool
    requires fit { IsFit rules.now }
    requires file { file < 12 }
    ensures { result ≡ Castling.rook_on rules.now cells.now side file }
{
    is_rook(
        rules,
        side,
        cells[castling_square(rules, side, file).0 as usize],
    )
}

/// The file of the last castling rook on the kingside.
#[tactic(auto, using(foundation::proofs::CountLemmas::last))]
fn kingside_rook(rules: &Rules, cells: &Cells, side: Side) -> Option<u8>
    requires { IsFit rules.now }
    ensures is { result ≡ last_below (Castling.rook_beyond rules.now cells.now side Kingside) rules.now.files }
    ensures on_board { IfSome result (λ f. f < rules.now.files) }
{
    let mut file = rules.files;
    while file > 0 {
        file -= 1;
        if file > rules.castle_king && rook_on(rules, cells, side, file) {
            return Some(file);
        }
    }
    None
}

/// The file of the first castling rook on the queenside.
#[tactic(auto, using(foundation::proofs::CountLemmas::first))]
fn queenside_rook(rules: &Rules, cells: &Cells, side: Side) -> Option<u8>
    requires { IsFit rules.now }
    ensures is { result ≡ first_below (Castling.rook_beyond rules.now cells.now side Queenside) rules.now.files }
    ensures on_board { IfSome result (λ f. f < rules.now.files) }
{
    for file in 0..rules.files {
        if file < rules.castle_king && rook_on(rules, cells, side, file) {
            return Some(file);
        }
    }
    None
}

/// The file of the side's castling rook: the outermost on that side of the king's file.
#[tactic(auto, unfolding(crate::specs::Castling::rook_file))]
pub fn rook_file(rules: &Rules, cells: &Cells, side: Side, wing: Wing) -> Option<u8>
    requires { IsFit rules.now }
    ensures is { result ≡ Castling.rook_file rules.now cells.now side wing }
    ensures on_board { IfSome result (λ f. f < rules.now.files) }
{
    match wing {
        Wing::Kingside => kingside_rook(rules, cells, side),
        Wing::Queenside => queenside_rook(rules, cells, side),
    }
}

/// The file to which the king goes when it castles to the wing.
pub fn king_file(rules: &Rules, wing: Wing) -> u8
    requires { IsFit rules.now }
    ensures is { result ≡ Castling.king_file rules.now wing }
    ensures below { result < 12 }
{
    match wing {
        Wing::Kingside => rules.castle_near,
        Wing::Queenside => rules.castle_far,
    }
}

/// The file to which the rook goes when the king castles to the wing: the one beside the king's on the inner side.
#[tactic(auto, unfolding(crate::specs::Castling::castling_on))]
pub fn rook_to_file(rules: &Rules, wing: Wing) -> u8
    requires fit { IsFit rules.now }
    requires on { castling_on rules.now ≡ true }
    ensures is { result ≡ Castling.rook_to_file rules.now wing }
    ensures below { result < 12 }
{
    match wing {
        Wing::Kingside => rules.castle_near.saturating_sub(1),
        Wing::Queenside => rules.castle_far + 1,
    }
}

/// The squares of the side's castle to the wing. None where no castling rook stands on that side of the king's file.
pub fn castle_of(rules: &Rules, cells: &Cells, side: Side, wing: Wing) -> Option<CastleSquares>
    requires fit { IsFit rules.now }
    requires on { castling_on rules.now ≡ true }
    ensures is { result ≡ Castling.castle_of rules.now cells.now side wing }
    ensures on_board { IfSome result IsFitCastle }
{
    let file = rook_file(rules, cells, side, wing)?;
    Some(CastleSquares {
        king: castling_square(rules, side, rules.castle_king),
        king_to: castling_square(rules, side, king_file(rules, wing)),
        rook: castling_square(rules, side, file),
        rook_to: castling_square(rules, side, rook_to_file(rules, wing)),
    })
}

/// The square to which the rook of a castle goes, by the move alone: one past the last square at most.
pub fn rook_target(from: Square, to: Square, rook: Square) -> u8
    requires { to.0 < 120 }
    ensures is { result ≡ Castling.rook_target from to rook }
    ensures near { result ≤ 120 }
{
    if from.0 < rook.0 {
        to.0.saturating_sub(1)
    } else {
        to.0 + 1
    }
}
