//! Whether a move captures.
ghost use Rattle.std.specs.Prelude.{◌≡◌, ◌<◌, IfSome, is_some};
ghost use Rattle.rules_model.specs.Fit.{IsFit};
ghost use Rattle.rules_model.specs.Moves.{IsFitMove};
ghost use Rattle.rules_model.specs.Next as Next;
ghost use Rattle.rules_model.specs.Repeats.{repeat_of};

use rules_model::attacks::ahead;
use rules_model::kinds::board_of;
use rules_model::passing::passes_by;
use rules_model::{Cells, Move, Position, Rules, Square};

fn has_piece(cells: &Cells, at: Option<u8>) -> bool
    requires { IfSome at (λ s. s < 120) }
    ensures { result ≡ is_some (Next.cell_on cells.now at) }
{
    match at {
        None => false,
        Some(at) => cells[at as usize].is_some(),
    }
}

/// Whether a piece that goes there takes another, on the square or in passing.
#[tactic(auto, unfolding(rules_model::specs::Next::taken))]
fn takes(rules: &Rules, p: &Position, from: Square, to: Square) -> bool
    requires fit { IsFit rules.now }
    requires from { from.0 < 120 }
    requires to { to.0 < 120 }
    ensures { result ≡ is_some (Next.taken rules.now (repeat_of p.now) from to) }
{
    if passes_by(rules, p, from, to) {
        has_piece(&p.cells, ahead(board_of(rules), p.side.other(), to, 1))
    } else {
        p.cells[to.0 as usize].is_some()
    }
}

/// Whether the move captures. En passant is a capture.
pub fn captures(rules: &Rules, p: &Position, m: &Move) -> bool
    requires fit { IsFit rules.now }
    requires move_fits { IsFitMove m.now }
    ensures { result ≡ Next.captures rules.now (repeat_of p.now) m.now }
{
    match *m {
        Move::Go { from, to, .. } => takes(rules, p, from, to),
        Move::Castle { .. } => false,
        Move::Drop { .. } => false,
    }
}
