//! Whether a piece can ever move from its square.
ghost use Rattle.std.specs.Prelude.{◌≡◌, ◌<◌, false};
ghost use Rattle.foundation.specs.Count.{any_below};
ghost use Rattle.rules_model.specs.Fit.{IsFit};
ghost use Rattle.rules_model.specs.Kinds.{is_pawn};
ghost use Rattle.rules_model.specs.Legal as Legal;
ghost use Rattle.rules_model.specs.Moves.{IsFitMove};
ghost use Rattle.rules_model.specs.Next as Next;
ghost use Rattle.rules_model.specs.Repeats.{repeat_of};

use attack_tables::{Mode, Tables};
use rules_model::attacks::ahead;
use rules_model::kinds::{board_of, names};
use rules_model::{Cell, Cells, Kind, Move, Position, Side, Square};
use square_set::EMPTY;

/// Whether a piece of the kind, which is not the pawn, reaches some square of the otherwise empty board, by any term.
fn roams(tables: &Tables, side: Side, kind: Kind, from: Square) -> bool
    requires fit { IsFit tables.now }
    requires from { from.0 < 120 }
    requires piece { is_pawn tables.now kind ≡ false }
    ensures { result ≡ any_below (Legal.roams_to tables.now side kind from) 120 }
{
    if kind.0 >= 26 {
        return false;
    }
    let quiet = tables.reach_set(side, kind, from, Mode::Quiet, EMPTY);
    let takes = tables.reach_set(side, kind, from, Mode::Take, EMPTY);
    match quiet.or(takes).first() {
        Some(_) => true,
        None => false,
    }
}

/// Whether a piece of the kind reaches some square of the otherwise empty board, by any term; a pawn, whether there is
/// a square in front of it.
#[tactic(auto, unfolding(rules_model::specs::Legal::is_mobile))]
fn is_mobile(tables: &Tables, side: Side, kind: Kind, from: Square) -> bool
    requires { from.0 < 120 }
    ensures { result ≡ Legal.is_mobile tables.now side kind from }
{
    let rules = tables.rules();
    if names(rules.pawn, kind) {
        ahead(board_of(rules), side, from, 1).is_some()
    } else {
        roams(tables, side, kind, from)
    }
}

fn is_mobile_at(tables: &Tables, side: Side, at: Square, cell: Option<Cell>) -> bool
    requires { at.0 < 120 }
    ensures { result ≡ Legal.mobile_at tables.now side at cell }
{
    match cell {
        None => true,
        Some(cell) => is_mobile(tables, side, cell.kind, at),
    }
}

/// Whether the piece on the target of the move can ever move again. The cells are those after the move.
#[tactic(auto, unfolding(rules_model::specs::Next::next_repeat))]
pub(crate) fn stays_mobile(tables: &Tables, p: &Position, m: &Move, cells: &Cells) -> bool
    requires move_fits { IsFitMove m.now }
    requires after { cells.now ≡ Next.cells_after tables.now (repeat_of p.now) m.now }
    ensures { result ≡ Legal.stays_mobile tables.now (repeat_of p.now) m.now }
{
    match *m {
        Move::Go { to, .. } => is_mobile_at(tables, p.side, to, cells[to.0 as usize]),
        Move::Castle { .. } => true,
        Move::Drop { to, .. } => is_mobile_at(tables, p.side, to, cells[to.0 as usize]),
    }
}
