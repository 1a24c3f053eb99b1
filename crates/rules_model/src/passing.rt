//! En passant: whether a pawn takes in passing.
ghost use Rattle.std.specs.Prelude.{◌≡◌};
ghost use Rattle.rules_model.specs.Fit.{IsFit};
ghost use Rattle.rules_model.specs.Pawns as Pawns;
ghost use Rattle.rules_model.specs.Repeats.{repeat_of};

use crate::attacks::{is_diagonal, is_own_pawn};
use crate::board::{Position, Square, cell_at};
use crate::kinds::board_of;
use crate::moves::Promo;
use crate::rules::Rules;

/// Whether the square is the one of en passant.
pub fn is_ep(ep: Option<Square>, to: Square) -> bool
    ensures { result ≡ Pawns.is_ep ep to.0 }
{
    match ep {
        None => false,
        Some(ep) => ep.0 == to.0,
    }
}

/// Whether what moves ends its move as it is.
pub fn is_stays(promo: Promo) -> bool
    ensures { result ≡ Pawns.is_stays promo }
{
    match promo {
        Promo::Stays => true,
        Promo::Pawn(_) => false,
        Promo::Plus => false,
    }
}

/// Whether a pawn of the side to move goes diagonally forward to the en passant square.
#[tactic(auto, unfolding(crate::specs::Pawns::passes_by))]
pub fn passes_by(rules: &Rules, p: &Position, from: Square, to: Square) -> bool
    requires fit { IsFit rules.now }
    ensures { result ≡ Pawns.passes_by rules.now (repeat_of p.now) from to.0 }
{
    is_ep(p.ep, to)
        && is_own_pawn(rules, p.side, cell_at(&p.cells, from))
        && is_diagonal(board_of(rules), p.side, from, to)
}
