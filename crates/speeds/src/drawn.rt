//! Facts that are true whatever the position: under rules that draw every end, the attacker wins nothing.
ghost use Rattle.std.specs.Prelude.{◌≡◌, false};
ghost use Rattle.mate_shards.specs.Refuted.{RefutesAll};

use mate_core::{Fact, Frame};
use rules_model::{Blocked, Cell, Kind, Position, Side, Value, repeat_of};
use sample_rules::{empty, leapers};
use std::alloc::{AllocError, Global};

/// How many positions there are.
pub const POSITIONS: usize = 32000;

/// A frame whose rules draw every end.
pub fn drawn(alloc: Global) -> Frame
    ensures { RefutesAll result }
{
    let mut rules = leapers();
    rules.flag_kind = None;
    rules.check_counting = false;
    rules.extinction = None;
    rules.checkmate = Value::Draw;
    rules.stalemate = Value::Draw;
    Frame {
        rules,
        blocked: Blocked {
            items: Vec::new(alloc),
        },
        attacker: Side::White,
    }
}

fn man(kind: u8) -> Option<Cell> {
    Some(Cell {
        side: Side::White,
        kind: Kind(kind),
        origin: None,
    })
}

// Three men, each on one of forty squares.
fn numbered(number: usize) -> Position {
    let mut p = empty();
    p.cells[number % 40] = man(0);
    p.cells[40 + number / 40 % 40] = man(1);
    p.cells[80 + number / 1600 % 40] = man(2);
    p
}

/// Positions that differ on the board.
pub fn positions(alloc: Global) -> Result<Vec<Position>, AllocError> {
    let mut positions = Vec::with_capacity(alloc, POSITIONS)?;
    for number in 0..POSITIONS {
        positions.push(numbered(number))?;
    }
    Ok(positions)
}

/// That the position is not won within two moves, at any counter.
pub fn refutation(p: &Position) -> Fact
    ensures { result.wins ≡ false }
{
    Fact {
        repeat: repeat_of(p),
        attacker: Side::White,
        moves: 2,
        counter: 0,
        best: None,
        wins: false,
    }
}
