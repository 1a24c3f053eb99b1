//! The pieces that are not pinned: they may go anywhere.
ghost use Rattle.std.specs.Prelude.{◌≡◌, ◌<◌, true, false};
ghost use Rattle.rules_model.specs.Sides.{other};
ghost use Rattle.rules_model.specs.Squares.{cell_at};
ghost use Rattle.move_tables.specs.declared.line.Passage.TheVariants.{Slide};
ghost use Rattle.attack_tables.specs.Boards.{HoldsMen};
ghost use Rattle.square_set.specs.Members.{OnSquares};
ghost use Rattle.pins.specs.Free as Free;
ghost use Rattle.pins.specs.Guards.{AfterLeaving};

use crate::guards::{all, along, guards};
use attack_tables::{Mode, Tables, cell_on};
use move_tables::{Line, Passage};
use rules_model::attacks::is_own_king;
use rules_model::sizes::prove_board_size;
use rules_model::{Cells, Kind, Side, Square};
use square_set::{EMPTY, Set};

/// The squares that guard the king from a piece of the kind.
fn guards_from_kind(
    tables: &Tables,
    occupied: Set,
    king: Square,
    by: Side,
    kind: Kind,
    from: u8,
) -> Set
    requires king { king.0 < 120 }
    requires from { from < 120 }
    ensures { AfterLeaving occupied result (Free.KindSpares tables.now by kind from king.0) }
{
    let _rules = tables.rules();
    if kind.0 >= 26 {
        return EMPTY;
    }
    guards(
        tables.spot(by, kind, Square(from), Mode::Take),
        occupied,
        king.0,
    )
}

/// The squares that guard the king from the piece on a square.
pub fn guards_from(
    tables: &Tables,
    cells: &Cells,
    occupied: Set,
    king: Square,
    by: Side,
    from: u8,
) -> Set
    requires king { king.0 < 120 }
    requires from { from < 120 }
    ensures { AfterLeaving occupied result (Free.PieceSpares tables.now by king.0 from (cell_at cells.now from)) }
{
    match cell_on(cells, from) {
        None => EMPTY,
        Some(cell) => guards_from_kind(tables, occupied, king, by, cell.kind, from),
    }
}

/// The squares that guard the king from the pieces of the side. Where one attacks it, they are all, and no other is
/// asked. The king that flies is not asked.
fn guards_from_pieces(
    tables: &Tables,
    cells: &Cells,
    enemies: Set,
    occupied: Set,
    king: Square,
    by: Side,
) -> Set
    requires king { king.0 < 120 }
    requires enemies { HoldsMen by cells.now enemies }
    ensures { Free.AfterMoves by cells.now enemies occupied result (Free.PiecesSpare tables.now by king.0) }
{
    prove_board_size(cells);
    let _rules = tables.rules();
    let mut guards = EMPTY;
    let mut near = tables.takers(by, king).and(enemies);
    while let Some(from) = near.take_first() {
        guards = guards.or(guards_from(tables, cells, occupied, king, by, from));
        if all().minus(guards).is_empty() {
            return guards;
        }
    }
    guards
}

fn slide(squares: Set, rising: bool) -> Line
    ensures { result ≡ (record { squares = squares; rising = rising; passage = Slide }) }
{
    Line {
        squares,
        rising,
        passage: Passage::Slide,
    }
}

/// The squares that guard the king from the one on a square, which flies.
fn guards_from_king(
    tables: &Tables,
    cells: &Cells,
    occupied: Set,
    king: Square,
    by: Side,
    from: u8,
) -> Set
    requires king { king.0 < 120 }
    requires from { from < 120 }
    ensures { AfterLeaving occupied result (Free.KingSpares tables.now by king.0 from (cell_at cells.now from)) }
{
    let rules = tables.rules();
    if !is_own_king(rules, by, cell_on(cells, from)) {
        return EMPTY;
    }
    let sight = tables.sight(king);
    let lines = [slide(sight.above, true), slide(sight.below, false)];
    along(&lines, occupied, from)
}

/// The squares that guard the king from the kings of the side, where kings fly.
fn guards_from_kings(
    tables: &Tables,
    cells: &Cells,
    enemies: Set,
    occupied: Set,
    king: Square,
    by: Side,
) -> Set
    requires king { king.0 < 120 }
    requires enemies { HoldsMen by cells.now enemies }
    ensures { Free.AfterMoves by cells.now enemies occupied result (Free.KingsSpare tables.now by king.0) }
{
    prove_board_size(cells);
    let sight = tables.sight(king);
    let mut guards = EMPTY;
    let mut near = sight.above.or(sight.below).and(enemies);
    while let Some(from) = near.take_first() {
        guards = guards.or(guards_from_king(tables, cells, occupied, king, by, from));
    }
    guards
}

/// The squares that guard the king from the side: all where it is attacked.
fn guards_of_king(
    tables: &Tables,
    cells: &Cells,
    enemies: Set,
    occupied: Set,
    king: Square,
    by: Side,
) -> Set
    requires king { king.0 < 120 }
    requires enemies { HoldsMen by cells.now enemies }
    ensures { Free.AfterMoves by cells.now enemies occupied result (Free.SideSpares tables.now by king.0) }
{
    let pieces = guards_from_pieces(tables, cells, enemies, occupied, king, by);
    if !tables.rules().flying {
        return pieces;
    }
    pieces.or(guards_from_kings(tables, cells, enemies, occupied, king, by))
}

/// The squares from which a piece other than a king may go anywhere without leaving a king of its side attacked: none
/// where one is attacked now. A piece that is dropped on such a square leaves them safe as well, as one would that goes
/// from there to itself. `kings` are all those of the side.
pub fn free(
    tables: &Tables,
    cells: &Cells,
    kings: Set,
    enemies: Set,
    occupied: Set,
    side: Side,
) -> Set
    requires kings { OnSquares kings }
    requires enemies { HoldsMen (other side) cells.now enemies }
    ensures { Free.IsFree tables.now side cells.now kings enemies occupied result }
{
    let by = side.other();
    let mut free = all();
    let mut rest = kings;
    while let Some(king) = rest.take_first() {
        free = free.minus(guards_of_king(tables, cells, enemies, occupied, Square(king), by));
    }
    free
}
