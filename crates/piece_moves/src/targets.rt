//! The squares to which an own piece goes.
ghost use Rattle.std.specs.Prelude.{◌≡◌, ℕ, ◌<◌, true, Some};
ghost use Rattle.rules_model.specs.Fit.{IsFit};
ghost use Rattle.rules_model.specs.Squares.{cell_at};
ghost use Rattle.square_set.specs.Members.{has};
ghost use Rattle.board_sets.specs.Sets.{AreSets};
ghost use Rattle.piece_moves.specs.Goals as Goals;
ghost use Rattle.piece_moves.specs.Targets.{AreTargets};

use attack_tables::Tables;
use board_sets::BoardSets;
use rules_model::{Cell, Position, Square};
use square_set::{EMPTY, Set};

/// The squares to which the own piece goes: the empty ones that it reaches quietly, and the enemies' that it reaches to
/// take.
pub(crate) fn targets(
    tables: &Tables,
    p: &Position,
    sets: &BoardSets,
    piece: Cell,
    from: Square,
) -> Set
    requires fit { IsFit tables.now }
    requires sets { AreSets tables.now p.now.side p.now.cells sets.now }
    requires from { from.0 < 120 }
    requires own { Goals.own_piece tables.now p.now.side (cell_at p.now.cells from.0) ≡ Some piece }
    ensures are { AreTargets tables.now p.now.cells p.now.side piece.kind from result }
    ensures small { (s : ℕ) → has result s ≡ true → s < 120 }
{
    if piece.kind.0 >= 26 {
        return EMPTY;
    }
    tables.goals(p.side, piece.kind, from, sets.occupied(), sets.enemies)
}
