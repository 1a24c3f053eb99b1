//! The squares on which a king would stand attacked by pieces.
ghost use Rattle.std.specs.Prelude.{◌<◌, Some};
ghost use Rattle.rules_model.specs.Sides.{other};
ghost use Rattle.rules_model.specs.Squares.{cell_at};
ghost use Rattle.attack_tables.specs.Boards.{HoldsMen};
ghost use Rattle.square_set.specs.Members.{OnSquares};
ghost use Rattle.pins.specs.Danger as Danger;

use attack_tables::{Mode, Tables, cell_on};
use rules_model::sizes::prove_board_size;
use rules_model::{Cells, Side, Square};
use square_set::{EMPTY, Set};

/// From this number of targets on, one set of all squares in danger is found sooner than each target is looked at.
const MANY_TARGETS: u32 = 3;

/// The squares that the piece on the square reaches to take, whatever stands on them.
fn reach_from(tables: &Tables, cells: &Cells, left: Set, from: u8) -> Set
    requires from { from < 120 }
    ensures { Danger.AreReachedToTake tables.now (cell_at cells.now from) from left result }
{
    let _rules = tables.rules();
    match cell_on(cells, from) {
        None => EMPTY,
        Some(piece) => tables.reach_of(piece, Square(from), Mode::Take, left),
    }
}

/// The squares on which pieces of the other side would attack a king of the side once it has gone there from its square
/// and taken what stood there: those that they reach to take, where the king no longer stands on its square.
fn danger_anywhere(
    tables: &Tables,
    cells: &Cells,
    king: Square,
    enemies: Set,
    occupied: Set,
    side: Side,
) -> Set
    requires king { king.0 < 120 }
    requires enemies { HoldsMen (other side) cells.now enemies }
    ensures { Danger.AreDangers tables.now side cells.now king.0 enemies occupied result }
{
    prove_board_size(cells);
    let _rules = tables.rules();
    let left = occupied.without(king.0);
    let mut danger = EMPTY;
    let mut rest = enemies;
    while let Some(from) = rest.take_first() {
        danger = danger.or(reach_from(tables, cells, left, from));
    }
    danger
}

/// Whether pieces of the other side would attack a king of the side once it has gone to the square.
fn is_danger_at(
    tables: &Tables,
    cells: &Cells,
    king: Square,
    enemies: Set,
    occupied: Set,
    side: Side,
    to: u8,
) -> bool
    requires king { king.0 < 120 }
    requires enemies { HoldsMen (other side) cells.now enemies }
    requires to { to < 120 }
    ensures { Danger.IsDangerAt tables.now side cells.now king.0 enemies occupied to result }
{
    let men = enemies.without(to);
    let moved = occupied.without(king.0).with(to);
    tables.piece_attacks(cells, men, moved, Square(to), side.other())
}

/// The targets on which a king would be attacked, each looked at alone.
fn danger_at_each(
    tables: &Tables,
    cells: &Cells,
    king: Square,
    enemies: Set,
    occupied: Set,
    side: Side,
    targets: Set,
) -> Set
    requires king { king.0 < 120 }
    requires enemies { HoldsMen (other side) cells.now enemies }
    requires targets { OnSquares targets }
    ensures { Danger.AreDangersAmong tables.now side cells.now king.0 enemies occupied targets result }
{
    let mut danger = EMPTY;
    let mut rest = targets;
    while let Some(to) = rest.take_first() {
        if is_danger_at(tables, cells, king, enemies, occupied, side, to) {
            danger = danger.with(to);
        }
    }
    danger
}

/// Of the targets, those on which pieces of the other side would attack a king of the side once it has gone there from
/// its square and taken what stood there. The set may have other squares besides. `enemies` are the squares of the
/// other side's pieces. Whether a king that flies would face it is not asked.
pub fn danger(
    tables: &Tables,
    cells: &Cells,
    king: Square,
    enemies: Set,
    occupied: Set,
    side: Side,
    targets: Set,
) -> Set
    requires king { king.0 < 120 }
    requires enemies { HoldsMen (other side) cells.now enemies }
    requires targets { OnSquares targets }
    ensures { Danger.AreDangersAmong tables.now side cells.now king.0 enemies occupied targets result }
{
    if targets.count() < MANY_TARGETS {
        danger_at_each(tables, cells, king, enemies, occupied, side, targets)
    } else {
        danger_anywhere(tables, cells, king, enemies, occupied, side)
    }
}
