//! The text of a list of squares.
ghost use Rattle.std.specs.Prelude.{◌≡◌, ◌++◌, OnOk};
ghost use Rattle.std.specs.List.{flat_map};
ghost use Rattle.checkers.specs.SquareList.{blank_square, listed};

use move_text::square_text;
use rules_model::Square;
use std::alloc::AllocError;

// Appends a square after a blank.
fn push_square(text: &mut Vec<u8>, square: u8) -> Result<(), AllocError>
    ensures { OnOk result (text.new.items ≡ text.old.items ++ blank_square square) }
{
    text.push(b' ')?;
    text.extend_from_slice(square_text(Square(square)).items.as_slice())
}

fn push_each(text: &mut Vec<u8>, squares: &[u8]) -> Result<(), AllocError>
    ensures { OnOk result (text.new.items ≡ text.old.items ++ flat_map blank_square squares.now) }
{
    for square in squares {
        push_square(text, *square)?;
    }
    Ok(())
}

/// Appends the squares of these indices, each after a blank, or a blank and a dash where there are none.
pub fn push_squares(text: &mut Vec<u8>, squares: &[u8]) -> Result<(), AllocError>
    ensures { OnOk result (text.new.items ≡ text.old.items ++ listed squares.now) }
{
    if squares.is_empty() {
        text.extend_from_slice(b" -")
    } else {
        push_each(text, squares)
    }
}
