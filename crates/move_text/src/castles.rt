//! The castles that texts mean.
ghost use Rattle.std.specs.Prelude.{◌≡◌, true, IfSome};
ghost use Rattle.std.specs.Bool.{OnTrue};
ghost use Rattle.rules_model.specs.declared.moves.Promo.TheVariants.{Stays};
ghost use Rattle.rules_model.specs.Castling.{IsFitCastle, castling_on, holds_right};
ghost use Rattle.rules_model.specs.Fit.{IsFit};
ghost use Rattle.rules_model.specs.Repeats.{repeat_of};
ghost use Rattle.rules_model.specs.Sound.{is_sound};
ghost use Rattle.move_text.specs.Cuts.{squares_view};
ghost use Rattle.move_text.specs.Read as Read;

use crate::endings::{gate_ending, named_kind};
use crate::squares::CutSquares;
use rules_model::attacks::is_own_king;
use rules_model::castling::{CastleSquares, castle_of, holds_right};
use rules_model::{Kind, Move, Placed, Position, Promo, Rules, Side, Square, Wing};

fn castle_move(castle: &CastleSquares, gate: Option<Placed>) -> Move
    ensures { result ≡ Read.castle_move castle.now gate }
{
    Move::Castle {
        from: castle.king,
        to: castle.king_to,
        rook: castle.rook,
        gate,
    }
}

fn placed_on(at: Square, kind: Option<Kind>) -> Option<Placed>
    ensures { result ≡ Read.placed_on at kind }
{
    match kind {
        None => None,
        Some(kind) => Some(Placed { kind, at }),
    }
}

/// The castle without a gate, or with one on the king's start.
fn king_castle(castle: &CastleSquares, text: &[u8]) -> Option<Move>
    ensures { result ≡ Read.king_castle castle.now (Read.gate_ending Stays text.now) }
{
    let ending = gate_ending(Promo::Stays, text)?;
    Some(castle_move(castle, placed_on(castle.king, ending.gate)))
}

/// The castle with a gate on the rook's start.
fn rook_castle(castle: &CastleSquares, text: &[u8]) -> Option<Move>
    ensures { result ≡ Read.rook_castle castle.now text.now }
{
    match text {
        [letter] => {
            let kind = named_kind(*letter)?;
            Some(castle_move(castle, placed_on(castle.rook, Some(kind))))
        }
        _ => None,
    }
}

/// The castle that the squares say.
fn castle_by_squares(castle: &CastleSquares, squares: &CutSquares<'_>) -> Option<Move>
    ensures { result ≡ Read.castle_by_squares castle.now (squares_view squares.now) }
{
    if squares.from.0 == castle.king.0 && squares.to.0 == castle.king_to.0 {
        king_castle(castle, squares.ending)
    } else if squares.from.0 == castle.rook.0 && squares.to.0 == castle.king.0 {
        rook_castle(castle, squares.ending)
    } else {
        None
    }
}

fn castle_where(
    rules: &Rules,
    p: &Position,
    squares: &CutSquares<'_>,
    castle: Option<CastleSquares>,
) -> Option<Move>
    requires { IfSome castle IsFitCastle }
    ensures { result ≡ Read.castle_where rules.now (repeat_of p.now) (squares_view squares.now) castle }
{
    let castle = castle?;
    if is_own_king(rules, p.side, p.cells[castle.king.0 as usize]) {
        castle_by_squares(&castle, squares)
    } else {
        None
    }
}

/// Whether the side to move holds the right of the wing. A sound position with a right has castling.
fn has_right(rules: &Rules, p: &Position, wing: Wing) -> bool
    requires sound { is_sound rules.now p.now ≡ true }
    ensures is { result ≡ holds_right p.now.rights p.now.side wing }
    ensures on { OnTrue result (castling_on rules.now ≡ true) }
{
    holds_right(&p.rights, p.side, wing)
}

/// The castle to the wing, where its right is held.
#[tactic(auto, unfolding(crate::specs::Read::castle_to))]
fn castle_to(rules: &Rules, p: &Position, squares: &CutSquares<'_>, wing: Wing) -> Option<Move>
    requires fit { IsFit rules.now }
    requires sound { is_sound rules.now p.now ≡ true }
    ensures { result ≡ Read.castle_to rules.now (repeat_of p.now) (squares_view squares.now) wing }
{
    if has_right(rules, p, wing) {
        castle_where(rules, p, squares, castle_of(rules, &p.cells, p.side, wing))
    } else {
        None
    }
}

/// The castle that the squares and the letters after them say, if they say one.
#[tactic(auto, unfolding(crate::specs::Read::castle_said))]
pub(crate) fn castle_said(rules: &Rules, p: &Position, squares: &CutSquares<'_>) -> Option<Move>
    requires fit { IsFit rules.now }
    requires sound { is_sound rules.now p.now ≡ true }
    ensures { result ≡ Read.castle_said rules.now (repeat_of p.now) (squares_view squares.now) }
{
    match castle_to(rules, p, squares, Wing::Kingside) {
        Some(castle) => Some(castle),
        None => castle_to(rules, p, squares, Wing::Queenside),
    }
}
