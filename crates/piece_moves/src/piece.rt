//! The own pieces that are not the pawn.
ghost use Rattle.std.specs.Prelude.{◌≡◌};
ghost use Rattle.rules_model.specs.Squares.{cell_at};
ghost use Rattle.piece_moves.specs.Goals as Goals;

use rules_model::kinds::names;
use rules_model::{Cell, Position, Rules, Square};

/// The piece on the square, where it is one of the side to move and not the pawn.
pub(crate) fn own_piece(rules: &Rules, p: &Position, from: Square) -> Option<Cell>
    ensures { result ≡ Goals.own_piece rules.now p.now.side (cell_at p.now.cells from.0) }
{
    match p.cells.get(from.0 as usize) {
        Some(Some(cell)) => {
            if cell.side.is(p.side) && !names(rules.pawn, cell.kind) {
                Some(*cell)
            } else {
                None
            }
        }
        Some(None) => None,
        None => None,
    }
}
