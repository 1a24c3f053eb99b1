//! The squares on which the attacks on kings depend: what leaves and enters none of them leaves a king attacked.
ghost use Rattle.std.specs.Prelude.{◌≡◌, ◌<◌, true, IfSome};
ghost use Rattle.std.specs.List.{list_any};
ghost use Rattle.rules_model.specs.Attacks.{is_own};
ghost use Rattle.rules_model.specs.Sides.{other};
ghost use Rattle.rules_model.specs.Squares.{cell_at};
ghost use Rattle.attack_tables.specs.Boards.{HoldsMen};
ghost use Rattle.move_tables.specs.Lines.{by_jump, by_spot, on_line};
ghost use Rattle.square_set.specs.Members.{OnSquares};
ghost use Rattle.pins.specs.Evasion as Evasion;
ghost use Rattle.pins.specs.Evasion.{AttackDependsOn, DependsOn};

use crate::guards::{all, squares_before};
use attack_tables::{Mode, Tables, cell_on};
use move_tables::{Jump, Line, Spot};
use rules_model::sizes::prove_board_size;
use rules_model::{Cells, Kind, Side, Square};
use square_set::{EMPTY, Set};

/// Squares for the moves of pieces other than kings: one that leaves no king of its side attacked leaves one of `leave`
/// or enters one of `enter`, unless it takes in passing.
#[derive(Clone, Copy, PartialEq, Eq)]
pub struct EvasionSquares {
    /// Those on which some attack depends: a piece that leaves one may end it.
    pub leave: Set,
    /// Those at which a piece that comes may end each of the attacks: it takes the attacker, or comes to a square on
    /// which the attack depends.
    pub enter: Set,
}

/// The squares of a line on which it depends whether the target is reached.
fn line_way(line: Line, target: u8) -> Set
    requires { target < 128 }
    ensures { DependsOn (λ set. on_line line set target) result }
{
    if line.squares.has(target) {
        squares_before(line, target)
    } else {
        EMPTY
    }
}

/// The squares of a jump on which it depends whether the target is reached.
fn jump_way(jump: Jump, target: u8) -> Set
    requires { target < 128 }
    ensures { DependsOn (λ set. by_jump jump set target) result }
{
    if jump.target.has(target) {
        jump.over
    } else {
        EMPTY
    }
}

/// The squares on which it depends whether the target is reached along one of the lines.
fn lines_way(lines: &[Line], target: u8) -> Set
    requires { target < 128 }
    ensures { DependsOn (λ set. list_any (λ line. on_line line set target) lines.now) result }
{
    let mut way = EMPTY;
    for line in lines {
        way = way.or(line_way(*line, target));
    }
    way
}

/// The squares on which it depends whether the target is reached by one of the jumps.
fn jumps_way(jumps: &[Jump], target: u8) -> Set
    requires { target < 128 }
    ensures { DependsOn (λ set. list_any (λ jump. by_jump jump set target) jumps.now) result }
{
    let mut way = EMPTY;
    for jump in jumps {
        way = way.or(jump_way(*jump, target));
    }
    way
}

/// The squares on which it depends whether the target is reached from the spot.
fn spot_way(spot: &Spot, target: u8) -> Set
    requires { target < 128 }
    ensures { DependsOn (λ set. by_spot spot.now set target) result }
{
    if spot.leaps.has(target) {
        return EMPTY;
    }
    lines_way(&spot.lines, target).or(jumps_way(&spot.jumps, target))
}

/// Where a piece of the kind attacks the king, the squares on which this attack depends.
fn kind_way(
    tables: &Tables,
    occupied: Set,
    king: Square,
    by: Side,
    kind: Kind,
    from: u8,
) -> Option<Set>
    requires king { king.0 < 120 }
    requires from { from < 120 }
    ensures { IfSome result (Evasion.KindDependsOn tables.now by kind occupied king.0 from) }
{
    if kind.0 >= 26 {
        return None;
    }
    let spot = tables.spot(by, kind, Square(from), Mode::Take);
    if spot.reach(occupied).has(king.0) {
        Some(spot_way(spot, king.0))
    } else {
        None
    }
}

/// Where the side's piece on a square attacks the king, the squares on which this attack depends.
fn attack_way(
    tables: &Tables,
    cells: &Cells,
    occupied: Set,
    king: Square,
    by: Side,
    from: u8,
) -> Option<Set>
    requires king { king.0 < 120 }
    requires from { from < 120 }
    requires man { is_own by (λ kind. true) (cell_at cells.now from) ≡ true }
    ensures { IfSome result (AttackDependsOn tables.now by cells.now occupied king.0 from) }
{
    let cell = cell_on(cells, from)?;
    kind_way(tables, occupied, king, by, cell.kind, from)
}

/// The evasions of the attacks on one king.
fn king_evasions(
    tables: &Tables,
    cells: &Cells,
    enemies: Set,
    occupied: Set,
    king: Square,
    by: Side,
) -> EvasionSquares
    requires king { king.0 < 120 }
    requires enemies { HoldsMen by cells.now enemies }
    ensures { Evasion.AfterVainMoves by cells.now enemies occupied result.leave result.enter
        (Evasion.PiecesAttack tables.now by king.0) }
{
    prove_board_size(cells);
    let mut leave = EMPTY;
    let mut enter = all();
    let mut near = tables.takers(by, king).and(enemies);
    while let Some(from) = near.take_first() {
        if let Some(way) = attack_way(tables, cells, occupied, king, by, from) {
            leave = leave.or(way);
            enter = enter.and(way.with(from));
        }
    }
    EvasionSquares { leave, enter }
}

/// The squares by which pieces other than kings may end the attacks of the other side's pieces on the side's kings: a
/// move that leaves none of `leave` and enters none of `enter` leaves at least one of the attacks as it is, unless it
/// takes in passing, which empties a third square. Where there is no attack, `enter` is every square. A piece that is
/// dropped, or that leaves another one behind, leaves no square. `kings` are all those of the side.
pub fn evasions(
    tables: &Tables,
    cells: &Cells,
    kings: Set,
    enemies: Set,
    occupied: Set,
    side: Side,
) -> EvasionSquares
    requires kings { OnSquares kings }
    requires enemies { HoldsMen (other side) cells.now enemies }
    ensures { Evasion.AreEvasions tables.now side cells.now kings enemies occupied result.leave result.enter }
{
    let by = side.other();
    let mut leave = EMPTY;
    let mut enter = all();
    let mut rest = kings;
    while let Some(king) = rest.take_first() {
        let found = king_evasions(tables, cells, enemies, occupied, Square(king), by);
        leave = leave.or(found.leave);
        enter = enter.and(found.enter);
    }
    EvasionSquares { leave, enter }
}
