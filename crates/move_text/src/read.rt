//! Reading the text of a move.
ghost use Rattle.std.specs.Prelude.{◌≡◌, ◌<◌, ◌≤◌, true, IfSome};
ghost use Rattle.std.specs.Option.{option_map};
ghost use Rattle.rules_model.specs.Fit.{IsFit};
ghost use Rattle.rules_model.specs.Repeats.{repeat_of};
ghost use Rattle.rules_model.specs.Sound.{is_sound};
ghost use Rattle.move_text.specs.Cuts.{cut_view, squares_view};
ghost use Rattle.move_text.specs.Read as Read;
ghost use Rattle.move_text.specs.Squares as Squares;

use crate::castles::castle_said;
use crate::endings::kind_ending;
use crate::squares::{CutSquares, SplitNumber, cut_square, cut_squares};
use rules_model::{Cell, Kind, Move, Position, Rules, Square};

/// The drop of the letter's kind on the square, where nothing follows it.
fn drop_on(letter: u8, square: Option<SplitNumber<'_>>) -> Option<Move>
    requires letter { 65 ≤ letter }
    requires square { IfSome square (λ s. s.value < 120) }
    ensures { result ≡ Read.drop_on letter (option_map cut_view square.entry) }
{
    let square = square?;
    match square.rest {
        [] => Some(Move::Drop {
            kind: Kind(letter - b'A'),
            to: Square(square.value),
        }),
        _ => None,
    }
}

/// The drop that an upper-case letter, `@` and a square say.
#[tactic(auto, unfolding(crate::specs::Read::drop_said))]
fn drop_said(text: &[u8]) -> Option<Move>
    ensures { result ≡ Read.drop_said text.now }
{
    let (letter, rest) = text.split_first()?;
    let (at, rest) = rest.split_first()?;
    if *letter >= b'A' && *letter <= b'Z' && *at == b'@' {
        drop_on(*letter, cut_square(rest))
    } else {
        None
    }
}

/// The move of what stands on the start, where that is an own piece.
fn go_said(
    rules: &Rules,
    p: &Position,
    squares: &CutSquares<'_>,
    cell: Option<Cell>,
) -> Option<Move>
    ensures { result ≡ Read.go_of rules.now (repeat_of p.now) (squares_view squares.now) cell }
{
    let cell = cell?;
    if !cell.side.is(p.side) {
        return None;
    }
    let ending = kind_ending(rules, cell.kind, squares.ending)?;
    Some(Move::Go {
        from: squares.from,
        to: squares.to,
        promo: ending.promo,
        gate: ending.gate,
    })
}

/// A castle, or another move of a piece.
fn squares_said(rules: &Rules, p: &Position, text: &[u8]) -> Option<Move>
    requires fit { IsFit rules.now }
    requires sound { is_sound rules.now p.now ≡ true }
    ensures { result ≡ Read.squares_said rules.now (repeat_of p.now) (Squares.squares_front text.now) }
{
    let squares = cut_squares(text)?;
    match castle_said(rules, p, &squares) {
        Some(castle) => Some(castle),
        None => go_said(rules, p, &squares, p.cells[squares.from.0 as usize]),
    }
}

/// The move that the text says.
#[tactic(auto, unfolding(crate::specs::Read::move_said))]
pub(crate) fn said(rules: &Rules, p: &Position, text: &[u8]) -> Option<Move>
    requires fit { IsFit rules.now }
    requires sound { is_sound rules.now p.now ≡ true }
    ensures { result ≡ Read.move_said rules.now p.now text.now }
{
    match drop_said(text) {
        Some(drop) => Some(drop),
        None => squares_said(rules, p, text),
    }
}
