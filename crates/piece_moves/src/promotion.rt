//! What a piece becomes, and the king's move that means castling.
ghost use Rattle.std.specs.Prelude.{◌≡◌};
ghost use Rattle.rules_model.specs.Fit.{IsFit};
ghost use Rattle.rules_model.specs.Pieces as Pieces;
ghost use Rattle.rules_model.specs.Repeats.{repeat_of};
ghost use Rattle.piece_moves.specs.Plain as Plain;

use rules_model::castling::{castling_square, holds_right, king_file};
use rules_model::kinds::{in_region, names, promoted_of};
use rules_model::{Kind, Position, Promo, Rules, Side, Square, Wing};

/// Whether a piece of the kind may become its promoted kind: it has one, and the start or the target lies in the side's
/// promotion region.
pub(crate) fn may_plus(rules: &Rules, side: Side, kind: Kind, from: Square, to: Square) -> bool
    ensures { result ≡ Pieces.may_plus rules.now side kind from.0 to.0 }
{
    promoted_of(rules, kind).is_some()
        && (in_region(&rules.promotion, side, from.0) || in_region(&rules.promotion, side, to.0))
}

/// Whether the side to move holds a castling right.
pub fn holds_a_right(p: &Position) -> bool
    ensures { result ≡ Plain.holds_a_right (repeat_of p.now) }
{
    holds_right(&p.rights, p.side, Wing::Kingside)
        || holds_right(&p.rights, p.side, Wing::Queenside)
}

/// Whether a piece of the kind ends each move as it is, and none of its moves may mean castling: it is not the king, or
/// the mover holds no castling right; and it has no promoted kind.
pub(crate) fn is_plain(rules: &Rules, p: &Position, kind: Kind) -> bool
    ensures { result ≡ Plain.is_plain rules.now (repeat_of p.now) kind }
{
    !(names(rules.king, kind) && holds_a_right(p)) && promoted_of(rules, kind).is_none()
}

/// Whether a piece may end its move so, where it may become its promoted kind or not.
pub(crate) fn becomes(rules: &Rules, may: bool, promo: Promo) -> bool
    ensures { result ≡ Pieces.piece_promo rules.now may promo }
{
    match promo {
        Promo::Stays => !(may && rules.must_promote_piece),
        Promo::Pawn(_) => false,
        Promo::Plus => may,
    }
}

fn to_castling_target(rules: &Rules, p: &Position, wing: Wing, from: Square, to: Square) -> bool
    requires { IsFit rules.now }
    ensures { result ≡ Pieces.to_castling_target rules.now (repeat_of p.now) wing from.0 to.0 }
{
    holds_right(&p.rights, p.side, wing)
        && from.0 == castling_square(rules, p.side, rules.castle_king).0
        && to.0 == castling_square(rules, p.side, king_file(rules, wing)).0
}

/// Whether the move of such a piece is the text of a castle: the king's from its castling square to the castling target
/// of a wing whose right the side holds.
pub(crate) fn means_castling(
    rules: &Rules,
    p: &Position,
    kind: Kind,
    from: Square,
    to: Square,
) -> bool
    requires { IsFit rules.now }
    ensures { result ≡ Pieces.means_castling rules.now (repeat_of p.now) kind from.0 to.0 }
{
    names(rules.king, kind)
        && (to_castling_target(rules, p, Wing::Kingside, from, to)
            || to_castling_target(rules, p, Wing::Queenside, from, to))
}
