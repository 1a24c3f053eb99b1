//! Where an own piece may land.
ghost use Rattle.std.specs.Prelude.{◌≡◌, Some};
ghost use Rattle.move_tables.specs.Reached.{reaches_in};
ghost use Rattle.rules_model.specs.Pieces as Pieces;
ghost use Rattle.rules_model.specs.Squares.{cell_at};
ghost use Rattle.board_sets.specs.Sets.{AreSets};
ghost use Rattle.piece_moves.specs.Goals as Goals;

use attack_tables::{Mode, Tables};
use board_sets::BoardSets;
use rules_model::{Cell, Position, Square};

/// Whether the piece on `from` reaches the square.
fn reaches_to(
    tables: &Tables,
    p: &Position,
    sets: &BoardSets,
    from: Square,
    mode: Mode,
    to: Square,
) -> bool
    requires { AreSets tables.now p.now.side p.now.cells sets.now }
    ensures { result ≡ reaches_in tables.now p.now.cells from mode to.0 }
{
    tables.reaches_square(p, sets.occupied(), from, mode, to)
}

/// Whether what stands on the square lets a piece on `from` land there.
fn lands_on(tables: &Tables, p: &Position, sets: &BoardSets, from: Square, to: Square) -> bool
    requires { AreSets tables.now p.now.side p.now.cells sets.now }
    ensures { result ≡ Goals.lands_on tables.now p.now.cells p.now.side from to.0 }
{
    match p.cells.get(to.0 as usize) {
        Some(Some(target)) => {
            !target.side.is(p.side) && reaches_to(tables, p, sets, from, Mode::Take, to)
        }
        Some(None) => reaches_to(tables, p, sets, from, Mode::Quiet, to),
        None => reaches_to(tables, p, sets, from, Mode::Quiet, to),
    }
}

/// Whether the own piece on `from` goes to the square.
pub(crate) fn goes(
    tables: &Tables,
    p: &Position,
    sets: &BoardSets,
    piece: Cell,
    from: Square,
    to: Square,
) -> bool
    requires sets { AreSets tables.now p.now.side p.now.cells sets.now }
    requires own { Goals.own_piece tables.now p.now.side (cell_at p.now.cells from.0) ≡ Some piece }
    ensures { result ≡ Pieces.piece_goes tables.now p.now.cells p.now.side piece.kind from to.0 }
{
    lands_on(tables, p, sets, from, to)
}
