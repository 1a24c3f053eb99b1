//! The squares whose pieces keep a target out of reach: while they stay, no move of another piece opens a way to it.
ghost use Rattle.std.specs.Prelude.{◌≡◌, ℕ, ◌<◌, ◌≤◌, false};
ghost use Rattle.std.specs.List.{list_any};
ghost use Rattle.square_set.specs.Members.{has, size};
ghost use Rattle.move_tables.specs.Lines.{by_jump, by_spot, in_both, on_line};
ghost use Rattle.pins.specs.Guards.{AreBefore, Guards, IsAll, IsScreened};

use move_tables::{Jump, Line, Passage, Spot};
use square_set::{ALL, EMPTY, Set};

/// Every square.
pub(crate) fn all() -> Set
    ensures { IsAll result }
{
    ALL
}

/// The set, where it has at most this many squares; otherwise the empty set.
fn at_most(most: u32, set: Set) -> Set
    ensures few { size set ≤ most → result ≡ set }
    ensures many { most < size set → result ≡ EMPTY }
{
    if set.count() <= most { set } else { EMPTY }
}

/// The squares of a line before the target.
pub(crate) fn squares_before(line: Line, target: u8) -> Set
    requires { target < 128 }
    ensures { AreBefore line.rising (has line.squares) target result }
{
    let near = EMPTY.with(target).cover(line.rising).without(target);
    line.squares.and(near)
}

/// The occupied squares of a line before the target.
fn blockers(line: Line, occupied: Set, target: u8) -> Set
    requires { target < 128 }
    ensures { AreBefore line.rising (in_both line.squares occupied) target result }
{
    squares_before(line, target).and(occupied)
}

/// A hopper needs one piece before its target: without one any that comes may open the way, and of three two stay.
fn screens(blockers: Set) -> Set
    ensures { (s : ℕ) → s < 128 → has result s ≡ false → IsScreened blockers s }
{
    if blockers.is_empty() {
        all()
    } else {
        at_most(2, blockers)
    }
}

/// The squares that guard the target along a line: all where it is reached.
fn line_guards(line: Line, occupied: Set, target: u8) -> Set
    requires { target < 128 }
    ensures { Guards (λ set. on_line line set target) occupied result }
{
    if !line.squares.has(target) {
        return EMPTY;
    }
    if line.reach(occupied).has(target) {
        return all();
    }
    let blockers = blockers(line, occupied, target);
    match line.passage {
        Passage::Slide => at_most(1, blockers),
        Passage::Hop => screens(blockers),
        Passage::Grass => screens(blockers),
    }
}

/// The squares that guard the target of a jump: all where it is reached.
fn jump_guards(jump: Jump, occupied: Set, target: u8) -> Set
    requires { target < 128 }
    ensures { Guards (λ set. by_jump jump set target) occupied result }
{
    if !jump.target.has(target) {
        return EMPTY;
    }
    if jump.reach(occupied).has(target) {
        return all();
    }
    at_most(1, jump.over.and(occupied))
}

/// The squares that guard the target along each of the lines.
pub(crate) fn along(lines: &[Line], occupied: Set, target: u8) -> Set
    requires { target < 128 }
    ensures { Guards (λ set. list_any (λ line. on_line line set target) lines.now) occupied result }
{
    let mut guards = EMPTY;
    for line in lines {
        guards = guards.or(line_guards(*line, occupied, target));
    }
    guards
}

/// The squares that guard the target of each of the jumps.
fn over(jumps: &[Jump], occupied: Set, target: u8) -> Set
    requires { target < 128 }
    ensures { Guards (λ set. list_any (λ jump. by_jump jump set target) jumps.now) occupied result }
{
    let mut guards = EMPTY;
    for jump in jumps {
        guards = guards.or(jump_guards(*jump, occupied, target));
    }
    guards
}

/// The squares that guard the target from a spot: all where it is reached or any piece that comes may open the way.
pub fn guards(spot: &Spot, occupied: Set, target: u8) -> Set
    requires { target < 128 }
    ensures { Guards (λ set. by_spot spot.now set target) occupied result }
{
    if !spot.within.has(target) {
        return EMPTY;
    }
    if spot.leaps.has(target) {
        return all();
    }
    along(&spot.lines, occupied, target).or(over(&spot.jumps, occupied, target))
}
