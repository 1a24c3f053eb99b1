//! The squares that open no line to a king: a piece that leaves one lets no other piece of its side attack a king.
ghost use Rattle.std.specs.Prelude.{◌≡◌, ◌<◌};
ghost use Rattle.move_tables.specs.Occupied.{AreMen};
ghost use Rattle.square_set.specs.Members.{OnSquares};
ghost use Rattle.pins.specs.Guards.{AfterLeaving};
ghost use Rattle.check_moves.specs.Shut as Shut;

use attack_tables::Tables;
use pins::unpinned::guards_from;
use rules_model::sizes::prove_board_size;
use rules_model::{Cells, Side, Square};
use square_set::{ALL, EMPTY, Set};

/// The squares that guard the king from each piece of the side that stays on its square. Where one attacks it, they are
/// all, and no other is asked.
fn guards_of_king(
    tables: &Tables,
    cells: &Cells,
    men: Set,
    occupied: Set,
    king: Square,
    by: Side,
) -> Set
    requires king { king.0 < 120 }
    requires men { AreMen by cells.now men }
    ensures { AfterLeaving occupied result (Shut.StayersSpare tables.now by cells.now king.0) }
{
    prove_board_size(cells);
    let _rules = tables.rules();
    let mut guards = EMPTY;
    let mut near = tables.takers(by, king).and(men);
    while let Some(from) = near.take_first() {
        guards = guards.or(guards_from(tables, cells, occupied, king, by, from));
        if ALL.minus(guards).is_empty() {
            return guards;
        }
    }
    guards
}

/// The squares that a piece may leave, wherever it goes: no other piece of its side attacks one of the other side's
/// kings then. The same holds of the squares on which a piece is dropped. A flying king is not asked.
pub(crate) fn shut(
    tables: &Tables,
    cells: &Cells,
    kings: Set,
    men: Set,
    occupied: Set,
    by: Side,
) -> Set
    requires kings { OnSquares kings }
    requires men { AreMen by cells.now men }
    ensures { Shut.AreShut tables.now by cells.now occupied kings result }
{
    let mut shut = ALL;
    let mut rest = kings;
    while let Some(king) = rest.take_first() {
        shut = shut.minus(guards_of_king(tables, cells, men, occupied, Square(king), by));
    }
    shut
}
