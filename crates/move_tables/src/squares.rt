//! The squares of a board's pieces, as sets.
ghost use Rattle.std.specs.Prelude.{◌≡◌, ◌<◌, true, is_some};
ghost use Rattle.rules_model.specs.Attacks.{is_own};
ghost use Rattle.rules_model.specs.Squares.{cell_at};
ghost use Rattle.move_tables.specs.Occupied.{IsOccupied, AreMen};

use rules_model::sizes::prove_board_size;
use rules_model::{Cell, Side};
use square_set::{EMPTY, Set};

fn is_piece(cells: &[Option<Cell>; 120], at: u8) -> bool
    requires { at < 120 }
    ensures { result ≡ is_some (cell_at cells.now at) }
{
    match cells[at as usize] {
        None => false,
        Some(_) => true,
    }
}

fn is_man(cells: &[Option<Cell>; 120], side: Side, at: u8) -> bool
    requires { at < 120 }
    ensures { result ≡ is_own side (λ kind. true) (cell_at cells.now at) }
{
    match cells[at as usize] {
        None => false,
        Some(cell) => cell.side.is(side),
    }
}

/// The squares with a piece.
pub fn occupied(cells: &[Option<Cell>; 120]) -> Set
    ensures { IsOccupied result cells.now }
{
    prove_board_size(cells);
    let mut set = EMPTY;
    for at in 0..120u8 {
        if is_piece(cells, at) {
            set = set.with(at);
        }
    }
    set
}

/// The squares with a piece of the side.
pub fn men(cells: &[Option<Cell>; 120], side: Side) -> Set
    ensures { AreMen side cells.now result }
{
    prove_board_size(cells);
    let mut set = EMPTY;
    for at in 0..120u8 {
        if is_man(cells, side, at) {
            set = set.with(at);
        }
    }
    set
}
