//! Whether the side that has moved has its flag piece in its flag region, by the sets of the board.
ghost use Rattle.std.specs.Prelude.{◌≡◌};
ghost use Rattle.rules_model.specs.Ends as Ends;
ghost use Rattle.rules_model.specs.Sides.{other};
ghost use Rattle.board_sets.specs.Sets.{AreSets};
ghost use Rattle.legality.specs.Flags.{MayHoldFlag};

use attack_tables::{Tables, cell_on};
use board_sets::BoardSets;
use end_rules::is_flag_piece;
use rules_model::{Cells, Position, Rules, Side};
use square_set::Set;

/// The squares of its flag region on which the side that has moved has pieces.
fn men_in_flag_region(tables: &Tables, p: &Position, sets: &BoardSets) -> Set
    requires { AreSets tables.now p.now.side p.now.cells sets.now }
    ensures { MayHoldFlag tables.now p.now.cells (other p.now.side) result }
{
    sets.enemies.and(tables.flag_region(p.side.other()))
}

/// Whether the flag piece of the side stands in its flag region, where it may stand on these squares alone.
fn finds_flag(rules: &Rules, cells: &Cells, side: Side, squares: Set) -> bool
    requires { MayHoldFlag rules.now cells.now side squares }
    ensures { result ≡ Ends.has_flag rules.now cells.now side }
{
    let mut left = squares;
    while let Some(at) = left.take_first() {
        if is_flag_piece(rules, side, cell_on(cells, at)) {
            return true;
        }
    }
    false
}

/// Whether the side that has moved has its flag piece in its flag region. Where the variant has no such kind, no square
/// is looked at.
pub(crate) fn has_flag(tables: &Tables, p: &Position, sets: &BoardSets) -> bool
    requires { AreSets tables.now p.now.side p.now.cells sets.now }
    ensures { result ≡ Ends.has_flag tables.now p.now.cells (other p.now.side) }
{
    let rules = tables.rules();
    match rules.flag_kind {
        None => false,
        Some(_) => {
            let men = men_in_flag_region(tables, p, sets);
            finds_flag(rules, &p.cells, p.side.other(), men)
        }
    }
}
