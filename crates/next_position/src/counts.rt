//! The counts after a move: plies, the number of the move and the checks left.
ghost use Rattle.std.specs.Prelude.{◌≡◌, ◌&&◌};
ghost use Rattle.rules_model.specs.Attacks.{king_attacked};
ghost use Rattle.rules_model.specs.Fit.{IsFit};
ghost use Rattle.rules_model.specs.Moves.{IsFitMove};
ghost use Rattle.rules_model.specs.Next as Next;
ghost use Rattle.rules_model.specs.Repeats.{repeat_of};
ghost use Rattle.rules_model.specs.Sides.{other};
ghost use Rattle.next_position.specs.Parts as Parts;

use rules_model::attacks::king_attacked;
use rules_model::kinds::masks;
use rules_model::{Cell, Cells, Move, Position, Rules, Side};

/// One more, and no more at 9,999.
fn risen(n: u16) -> u16
    ensures { result ≡ Next.risen n }
{
    if n < 9999 { n + 1 } else { n }
}

fn resets_by(rules: &Rules, cell: Option<Cell>) -> bool
    ensures { result ≡ Next.resets_by rules.now cell }
{
    match cell {
        None => false,
        Some(piece) => masks(&rules.n_move_kinds, piece.kind),
    }
}

/// Whether the move is a capture or one of a kind that the move-count rule names.
#[tactic(auto, unfolding(rules_model::specs::Next::resets))]
fn resets(rules: &Rules, p: &Position, m: &Move, taken: Option<Cell>) -> bool
    requires move_fits { IsFitMove m.now }
    requires taken { taken ≡ Parts.taken_by rules.now (repeat_of p.now) m.now }
    ensures { result ≡ Next.resets rules.now (repeat_of p.now) m.now }
{
    match *m {
        Move::Go { from, .. } => taken.is_some() || resets_by(rules, p.cells[from.0 as usize]),
        Move::Castle { .. } => false,
        Move::Drop { .. } => false,
    }
}

/// The plies since the last such move, after the move.
pub(crate) fn counter(rules: &Rules, p: &Position, m: &Move, taken: Option<Cell>) -> u16
    requires move_fits { IsFitMove m.now }
    requires taken { taken ≡ Parts.taken_by rules.now (repeat_of p.now) m.now }
    ensures { result ≡ Next.next_counter rules.now (repeat_of p.now) m.now p.now.counter }
{
    if resets(rules, p, m, taken) {
        0
    } else {
        risen(p.counter)
    }
}

/// The number of the move, which rises after Black's.
pub(crate) fn number(side: Side, number: u16) -> u16
    ensures { result ≡ Next.next_number side number }
{
    match side {
        Side::White => number,
        Side::Black => risen(number),
    }
}

/// Whether the side gives a check that counts, by the pieces after its move.
pub(crate) fn is_counted(rules: &Rules, cells: &Cells, side: Side) -> bool
    requires { IsFit rules.now }
    ensures { result ≡ (rules.now.check_counting && king_attacked rules.now cells.now (other side)) }
{
    rules.check_counting && king_attacked(rules, cells, side.other())
}

/// Takes one from the checks that the side has still to give, where some are left and it gives one that counts.
pub fn count_check(p: &mut Position, side: Side, gives: bool)
    ensures { p.new ≡ record p.old { checks = Parts.checks_left gives side p.old.checks } }
{
    if gives {
        p.checks[side.index()] = p.checks[side.index()].saturating_sub(1);
    }
}
