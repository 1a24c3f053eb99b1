//! En passant: whether a move takes in passing, and the square that it leaves to be passed by.
ghost use Rattle.std.specs.Prelude.{◌≡◌, ◌<◌};
ghost use Rattle.rules_model.specs.Fit.{IsFit};
ghost use Rattle.rules_model.specs.Moves.{IsFitMove};
ghost use Rattle.rules_model.specs.Next as Next;
ghost use Rattle.rules_model.specs.Repeats.{repeat_of};
ghost use Rattle.next_position.specs.Parts as Parts;

use rules_model::attacks::{ahead, is_own_pawn, pawn_could_take};
use rules_model::kinds::board_of;
use rules_model::passing::{is_stays, passes_by};
use rules_model::reach::is_target;
use rules_model::{Cells, Move, Position, Promo, Rules, Side, Square};

/// Whether the move takes a pawn in passing.
pub(crate) fn is_passing(rules: &Rules, p: &Position, m: &Move) -> bool
    requires fit { IsFit rules.now }
    requires move_fits { IsFitMove m.now }
    ensures { result ≡ Parts.is_passing rules.now (repeat_of p.now) m.now }
{
    match *m {
        Move::Go { from, to, .. } => passes_by(rules, p, from, to),
        Move::Castle { .. } => false,
        Move::Drop { .. } => false,
    }
}

/// A pawn takes a double step and stays a pawn.
fn is_double_step(rules: &Rules, p: &Position, from: Square, to: Square, promo: Promo) -> bool
    requires fit { IsFit rules.now }
    requires from { from.0 < 120 }
    ensures { result ≡ Next.is_double_step rules.now (repeat_of p.now) from to promo }
{
    is_own_pawn(rules, p.side, p.cells[from.0 as usize])
        && is_stays(promo)
        && is_target(ahead(board_of(rules), p.side, from, 2), to)
}

fn square_at(at: Option<u8>) -> Option<Square>
    ensures { result ≡ Next.square_at at }
{
    match at {
        None => None,
        Some(at) => Some(Square(at)),
    }
}

/// The square that a double step passes over.
pub(crate) fn passed_over(rules: &Rules, p: &Position, m: &Move) -> Option<Square>
    requires fit { IsFit rules.now }
    requires move_fits { IsFitMove m.now }
    ensures { result ≡ Parts.passed_over rules.now (repeat_of p.now) m.now }
{
    match *m {
        Move::Go {
            from,
            to,
            promo,
            ..
        } => {
            if is_double_step(rules, p, from, to, promo) {
                square_at(ahead(board_of(rules), p.side, from, 1))
            } else {
                None
            }
        }
        Move::Castle { .. } => None,
        Move::Drop { .. } => None,
    }
}

/// The en passant square: the one that was passed over, where an enemy pawn could go there by its movement alone.
pub(crate) fn ep_square(
    rules: &Rules,
    cells: &Cells,
    side: Side,
    passed: Option<Square>,
) -> Option<Square>
    requires { IsFit rules.now }
    ensures { result ≡ Next.ep_where rules.now side cells.now passed }
{
    match passed {
        None => None,
        Some(square) => {
            if pawn_could_take(rules, cells, side.other(), square) {
                Some(square)
            } else {
                None
            }
        }
    }
}
