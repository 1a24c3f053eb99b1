//! The test of one move.
ghost use Rattle.std.specs.Prelude.{◌≡◌};
ghost use Rattle.rules_model.specs.Candidates.{own_pawn_moves};
ghost use Rattle.rules_model.specs.Fit.{IsFit};
ghost use Rattle.rules_model.specs.Pawns as Pawns;
ghost use Rattle.rules_model.specs.Repeats.{repeat_of};
ghost use Rattle.rules_model.specs.Squares as Squares;
ghost use Rattle.special_moves.specs.PawnMoves.{is_pawn_move};

use crate::pawn::{becomes, is_enemy, may_promote, may_step_twice};
use rules_model::attacks::{ahead, is_diagonal, is_own_pawn};
use rules_model::kinds::board_of;
use rules_model::passing::passes_by;
use rules_model::reach::is_target;
use rules_model::{Cell, Cells, Move, Position, Promo, Rules, Square, cell_at};

fn steps_twice(rules: &Rules, p: &Position, from: Square, to: Square) -> bool
    requires fit { IsFit rules.now }
    ensures { result ≡ Pawns.steps_twice rules.now (repeat_of p.now) from to.0 }
{
    may_step_twice(rules, p, from) && is_target(ahead(board_of(rules), p.side, from, 2), to)
}

/// Whether a pawn on `from` goes to the square: to an empty one straight forward, or onto an enemy diagonally one step
/// forward.
#[tactic(auto, unfolding(rules_model::specs::Pawns::pawn_goes))]
fn pawn_goes(rules: &Rules, p: &Position, from: Square, to: Square) -> bool
    requires fit { IsFit rules.now }
    ensures { result ≡ Pawns.pawn_goes rules.now (repeat_of p.now) from to.0 }
{
    let board = board_of(rules);
    let target = cell_at(&p.cells, to);
    (target.is_none()
        && (is_target(ahead(board, p.side, from, 1), to) || steps_twice(rules, p, from, to)))
        || (is_enemy(p.side, target) && is_diagonal(board, p.side, from, to))
}

#[tactic(auto, unfolding(rules_model::specs::Pawns::pawn_moves))]
fn pawn_moves(rules: &Rules, p: &Position, from: Square, to: Square, promo: Promo) -> bool
    requires fit { IsFit rules.now }
    ensures { result ≡ Pawns.pawn_moves rules.now (repeat_of p.now) from to promo }
{
    becomes(
        rules,
        may_promote(rules, p.side, to),
        pawn_goes(rules, p, from, to),
        passes_by(rules, p, from, to),
        promo,
    )
}

fn own_pawn_moves(rules: &Rules, p: &Position, from: Square, to: Square, promo: Promo) -> bool
    requires fit { IsFit rules.now }
    ensures { result ≡ own_pawn_moves rules.now (repeat_of p.now) from to promo (Squares.cell_at p.now.cells from.0) }
{
    is_own_pawn(rules, p.side, cell_at(&p.cells, from)) && pawn_moves(rules, p, from, to, promo)
}

/// Whether the move is one of an own pawn: a step forward to an empty square, two steps from the double-step region
/// over an empty square, or a diagonal step onto an enemy or to the en passant square; with a promotion where it must
/// promote, or may. Whether it leaves the king safe is not asked.
#[tactic(auto, unfolding(crate::specs::PawnMoves::is_pawn_move))]
pub fn is_pawn_candidate(rules: &Rules, p: &Position, m: &Move) -> bool
    requires fit { IsFit rules.now }
    ensures { result ≡ is_pawn_move rules.now (repeat_of p.now) m.now }
{
    match *m {
        Move::Go {
            from,
            to,
            promo,
            gate: None,
        } => own_pawn_moves(rules, p, from, to, promo),
        Move::Go { gate: Some(_), .. } => false,
        Move::Castle { .. } => false,
        Move::Drop { .. } => false,
    }
}
