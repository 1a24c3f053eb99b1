//! Where a pawn may go, and what it may become there.
ghost use Rattle.std.specs.Prelude.{◌≡◌, ◌<◌, ◌&&◌, ◌||◌, IfSome};
ghost use Rattle.rules_model.specs.Attacks as Attacks;
ghost use Rattle.rules_model.specs.Fit.{IsFit};
ghost use Rattle.rules_model.specs.Kinds.{board_of};
ghost use Rattle.rules_model.specs.Pawns as Pawns;
ghost use Rattle.rules_model.specs.Repeats.{repeat_of};
ghost use Rattle.rules_model.specs.Squares.{step_to, cell_at};
ghost use Rattle.special_moves.specs.PawnParts as Parts;

use rules_model::attacks::ahead;
use rules_model::kinds::{board_of, in_region, masks, names_any};
use rules_model::passing::is_stays;
use rules_model::reach::{step, term_ray};
use rules_model::soundness::is_free;
use rules_model::{Cell, Position, Promo, Rules, Side, Square, Term, Way};

/// A file beside the pawn's, as its side sees it.
#[derive(Clone, Copy)]
pub(crate) enum Flank {
    Right,
    Left,
}

/// Whether a piece of the other side stands there.
pub(crate) fn is_enemy(side: Side, cell: Option<Cell>) -> bool
    ensures { result ≡ Pawns.is_enemy side cell }
{
    match cell {
        None => false,
        Some(cell) => !cell.side.is(side),
    }
}

/// Whether a piece of the side that is not to move stands on the square.
pub(crate) fn is_enemy_on(p: &Position, at: u8) -> bool
    requires { at < 120 }
    ensures { result ≡ Pawns.is_enemy p.now.side (cell_at p.now.cells at) }
{
    is_enemy(p.side, p.cells[at as usize])
}

/// Whether the pawn may step twice where the second square is empty: it stands in the region, and the first square is
/// empty.
pub(crate) fn may_step_twice(rules: &Rules, p: &Position, from: Square) -> bool
    requires fit { IsFit rules.now }
    ensures { result ≡ Parts.may_step_twice rules.now (repeat_of p.now) from }
{
    rules.double_step
        && in_region(&rules.double_region, p.side, from.0)
        && is_free(&p.cells, ahead(board_of(rules), p.side, from, 1))
}

/// The square one step forward and `dx` files to the right, as the side sees it, where it is on the board.
fn forward(rules: &Rules, side: Side, dx: i8, from: Square) -> Option<u8>
    requires fit { IsFit rules.now }
    ensures is { result ≡ step_to (Attacks.pawn_ray (board_of rules.now) side dx from) 1 }
    ensures on_board { IfSome result (λ s. s < 120) }
{
    let diagonal = Term {
        dx,
        dy: 1,
        way: Way::Leap,
        limit: 1,
        quiet: false,
        takes: true,
    };
    step(&term_ray(board_of(rules), side, &diagonal, from), 1)
}

/// The square diagonally one step forward, where it is on the board.
pub(crate) fn diagonal(rules: &Rules, p: &Position, flank: Flank, from: Square) -> Option<u8>
    requires fit { IsFit rules.now }
    ensures is { result ≡ Parts.diagonal rules.now (repeat_of p.now) flank from }
    ensures on_board { IfSome result (λ s. s < 120) }
{
    match flank {
        Flank::Right => forward(rules, p.side, 1, from),
        Flank::Left => forward(rules, p.side, -1, from),
    }
}

/// Whether a pawn may promote on the square: there is a kind to promote to, and the square lies in the side's region.
pub(crate) fn may_promote(rules: &Rules, side: Side, to: Square) -> bool
    ensures { result ≡ Pawns.may_promote rules.now side to.0 }
{
    in_region(&rules.promotion, side, to.0) && names_any(&rules.promotion_kinds)
}

/// Whether a pawn promotes on the square, or may, where it goes there.
pub(crate) fn promotes(rules: &Rules, side: Side, goes: bool, to: Square) -> bool
    ensures { result ≡ (goes && Pawns.may_promote rules.now side to.0) }
{
    goes && may_promote(rules, side, to)
}

fn pawn_promo(rules: &Rules, may: bool, promo: Promo) -> bool
    ensures { result ≡ Pawns.pawn_promo rules.now may promo }
{
    match promo {
        Promo::Stays => !(may && rules.must_promote_pawn),
        Promo::Pawn(kind) => may && masks(&rules.promotion_kinds, kind),
        Promo::Plus => false,
    }
}

/// Whether a pawn may end its move so, on a square where it may promote or not, to which it goes or on which it passes
/// another pawn.
pub(crate) fn becomes(rules: &Rules, may: bool, goes: bool, passes: bool, promo: Promo) -> bool
    ensures { result ≡ Parts.becomes rules.now may goes passes promo }
{
    (goes && pawn_promo(rules, may, promo)) || (passes && is_stays(promo))
}
