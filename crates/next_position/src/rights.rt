//! The castling rights after a move.
ghost use Rattle.std.specs.Prelude.{◌≡◌, ◌<◌, IfSome, Some};
ghost use Rattle.rules_model.specs.Castling as Castling;
ghost use Rattle.rules_model.specs.Fit.{IsFit};
ghost use Rattle.rules_model.specs.Moves.{IsFitMove};
ghost use Rattle.rules_model.specs.Next as Next;
ghost use Rattle.rules_model.specs.Repeats.{repeat_of};
ghost use Rattle.next_position.specs.Parts as Parts;

use rules_model::castling::{castling_square, holds_right, rook_file, rook_target};
use rules_model::{Cells, FILES, Move, Position, Rules, Side, Square, Wing};

/// The files of the rooks with which a side may still castle, as far as what it had before the move tells.
#[derive(Clone, Copy)]
pub(crate) struct Rooks {
    pub kingside: Option<u8>,
    pub queenside: Option<u8>,
}

/// The rights that a move leaves to a side: all that it has, or those of these rooks, where they still are the
/// outermost ones.
#[derive(Clone, Copy)]
pub(crate) enum RightsLeft {
    All,
    OfRooks(Rooks),
}

/// Whether the move leaves the square.
fn leaves(m: &Move, at: Square) -> bool
    ensures { result ≡ Next.leaves m.now at.0 }
{
    match *m {
        Move::Go { from, .. } => from.0 == at.0,
        Move::Castle { from, rook, .. } => from.0 == at.0 || rook.0 == at.0,
        Move::Drop { .. } => false,
    }
}

/// Whether the move enters the square.
fn enters(m: &Move, at: Square) -> bool
    requires { IsFitMove m.now }
    ensures { result ≡ Next.enters m.now at.0 }
{
    match *m {
        Move::Go { to, .. } => to.0 == at.0,
        Move::Castle { from, to, rook, .. } => to.0 == at.0 || rook_target(from, to, rook) == at.0,
        Move::Drop { to, .. } => to.0 == at.0,
    }
}

/// The file of the rook, where the rook stands still.
fn standing(rules: &Rules, side: Side, m: &Move, file: Option<u8>) -> Option<u8>
    requires fit { IsFit rules.now }
    requires move_fits { IsFitMove m.now }
    requires file { IfSome file (λ f. f < 12) }
    ensures { result ≡ Parts.standing rules.now side m.now file }
{
    match file {
        None => None,
        Some(file) => {
            let rook = castling_square(rules, side, file);
            if !leaves(m, rook) && !enters(m, rook) {
                Some(file)
            } else {
                None
            }
        }
    }
}

/// The file of the wing's rook, where the side has the right and neither king nor rook moves.
fn rook_left(rules: &Rules, p: &Position, m: &Move, side: Side, wing: Wing) -> Option<u8>
    requires fit { IsFit rules.now }
    requires move_fits { IsFitMove m.now }
    ensures { result ≡ Parts.rook_left rules.now (repeat_of p.now) m.now side wing }
{
    if holds_right(&p.rights, side, wing)
        && !leaves(m, castling_square(rules, side, rules.castle_king))
    {
        standing(rules, side, m, rook_file(rules, &p.cells, side, wing))
    } else {
        None
    }
}

/// Whether the square is of the rank that begins with the square `first`.
fn is_on_rank(first: u8, at: Square) -> bool
    requires { first < 120 }
    ensures { result ≡ Parts.is_on_rank first at.0 }
{
    first <= at.0 && at.0 < first + FILES
}

/// Whether the move plainly leaves alone all squares of the side's castling rank. `passing` says whether it takes a
/// pawn in passing.
fn is_apart(rules: &Rules, side: Side, passing: bool, m: &Move) -> bool
    requires { IsFit rules.now }
    ensures { result ≡ Parts.is_apart rules.now side passing m.now }
{
    let first = castling_square(rules, side, 0).0;
    match *m {
        Move::Go { from, to, .. } => !passing && !is_on_rank(first, from) && !is_on_rank(first, to),
        Move::Castle { .. } => false,
        Move::Drop { to, .. } => !is_on_rank(first, to),
    }
}

/// Whether the side holds a castling right.
fn holds_any_right(rights: &[[bool; 2]; 2], side: Side) -> bool
    ensures { result ≡ Parts.holds_any_right rights.now side }
{
    holds_right(rights, side, Wing::Kingside) || holds_right(rights, side, Wing::Queenside)
}

/// What rights the move leaves to the side. Rooks are looked for only where the side holds a right, and the move is not
/// apart from its castling rank. `passing` says whether it takes a pawn in passing.
pub(crate) fn rights_left(
    rules: &Rules,
    p: &Position,
    passing: bool,
    m: &Move,
    side: Side,
) -> RightsLeft
    requires fit { IsFit rules.now }
    requires move_fits { IsFitMove m.now }
    ensures { result ≡ Parts.rights_left rules.now (repeat_of p.now) passing m.now side }
{
    if !holds_any_right(&p.rights, side) || is_apart(rules, side, passing, m) {
        return RightsLeft::All;
    }
    RightsLeft::OfRooks(Rooks {
        kingside: rook_left(rules, p, m, side, Wing::Kingside),
        queenside: rook_left(rules, p, m, side, Wing::Queenside),
    })
}

fn is_file(file: u8, outermost: Option<u8>) -> bool
    ensures { result ≡ Parts.is_outermost (Some file) outermost }
{
    match outermost {
        None => false,
        Some(outermost) => outermost == file,
    }
}

/// Whether the rook is still the outermost one.
fn is_outermost(rules: &Rules, cells: &Cells, side: Side, wing: Wing, rook: Option<u8>) -> bool
    requires { IsFit rules.now }
    ensures { result ≡ Parts.is_outermost rook (Castling.rook_file rules.now cells.now side wing) }
{
    match rook {
        None => false,
        Some(file) => is_file(file, rook_file(rules, cells, side, wing)),
    }
}

/// The rights that the side keeps, of those before the move and by the pieces after it.
pub(crate) fn rights_kept(
    rules: &Rules,
    cells: &Cells,
    rights: &[[bool; 2]; 2],
    side: Side,
    left: RightsLeft,
) -> [bool; 2]
    requires { IsFit rules.now }
    ensures { result ≡ Parts.rights_kept rules.now cells.now rights.now side left }
{
    match left {
        RightsLeft::All => [
            holds_right(rights, side, Wing::Kingside),
            holds_right(rights, side, Wing::Queenside),
        ],
        RightsLeft::OfRooks(rooks) => [
            is_outermost(rules, cells, side, Wing::Kingside, rooks.kingside),
            is_outermost(rules, cells, side, Wing::Queenside, rooks.queenside),
        ],
    }
}
