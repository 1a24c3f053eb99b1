//! How the words of `reach` set up a board of 8 by 8 squares.
ghost use Rattle.std.specs.Prelude.{◌≡◌, ◌==◌, ◌<◌, Err, IfOk, IfSome, MatchResult, Ok};
ghost use Rattle.std.specs.List.{slice_split};
ghost use Rattle.one_shot_checks.specs.Setup.{square_named, piece_of, piece_on, placed, placed_all, texts_of, setup_of};
ghost use Rattle.one_shot_checks.specs.UnplacedView.{unplaced_of};

use rules_model::{Cell, Cells, Kind, Side, Square, cell_at};
use std::fmt;

/// A board with a piece to move.
#[derive(Clone, Copy)]
pub struct Setup {
    /// What stands on each square, the piece to move too.
    pub cells: Cells,
    /// The square of the piece to move.
    pub from: Square,
}

/// Why no piece is put where a text says.
#[derive(Clone, Copy, PartialEq, Eq)]
pub enum ReachFault<'a> {
    /// The text names no square of the board.
    BadSquare(&'a str),
    /// A piece stands there already.
    SquareTwice(&'a str),
}

impl<'a> fmt::Display for ReachFault<'a> {
    ghost use Rattle.std.specs.Prelude.{Some};
    ghost use Rattle.one_shot_checks.specs.Setup.{unplaced_text};

    ghost output = { λ fault. Some (unplaced_text (unplaced_of fault)) };

    /// The type's name, the fault's number, its name and the text, as `ReachFault 1 BadSquare i9`.
    fn fmt<W: fmt::Write>(&self, f: &mut fmt::Formatter<W>) -> fmt::Result {
        match *self {
            ReachFault::BadSquare(text) => write!(f, "ReachFault 1 BadSquare {text}"),
            ReachFault::SquareTwice(text) => write!(f, "ReachFault 2 SquareTwice {text}"),
        }
    }
}

/// The square of the board that a text names: a letter from `a` to `h` and a digit from `1` to `8`.
fn square_named(text: &[u8]) -> Option<Square>
    ensures is { result ≡ square_named text.now }
    ensures on_board { IfSome result (λ square. square.0 < 120) }
{
    match text {
        [file @ b'a'..=b'h', rank @ b'1'..=b'8'] => {
            Some(Square(12 * (*rank - b'1') + (*file - b'a')))
        }
        _ => None,
    }
}

// A piece of the side. Its kind does not matter.
fn piece_of(side: Side) -> Cell
    ensures { result ≡ piece_of side }
{
    Cell {
        side,
        kind: Kind(0),
        origin: None,
    }
}

// A White piece alone.
#[tactic(auto, unfolding(crate::specs::Setup::piece_on))]
fn piece_on(from: Square) -> Cells
    requires { from.0 < 120 }
    ensures { result ≡ piece_on from }
{
    let mut cells = [None; 120];
    cells[from.0 as usize] = Some(piece_of(Side::White));
    cells
}

// Puts a piece of the side on the square that the text names.
#[tactic(auto, unfolding(crate::specs::Setup::placed))]
fn place<'a>(side: Side, text: &'a str, cells: &mut Cells) -> Result<(), ReachFault<'a>>
    ensures { MatchResult result
        (λ _. placed side cells.old text.now ≡ Ok cells.new)
        (λ why. placed side cells.old text.now ≡ Err (unplaced_of why)) }
{
    let Some(square) = square_named(text.as_bytes()) else {
        return Err(ReachFault::BadSquare(text));
    };
    if cell_at(cells, square).is_some() {
        return Err(ReachFault::SquareTwice(text));
    }
    cells[square.0 as usize] = Some(piece_of(side));
    Ok(())
}

// Puts a piece of the side on each square that the text lists between its commas.
fn place_each<'a>(side: Side, text: &'a str, cells: &mut Cells) -> Result<(), ReachFault<'a>>
    ensures { MatchResult result
        (λ _. placed_all side (slice_split (λ b. b == 44) text.now) cells.old ≡ Ok cells.new)
        (λ why. placed_all side (slice_split (λ b. b == 44) text.now) cells.old ≡ Err (unplaced_of why)) }
{
    match text.split_once(',') {
        None => place(side, text, cells),
        Some((first, rest)) => match place(side, first, cells) {
            Ok(()) => place_each(side, rest, cells),
            Err(why) => Err(why),
        },
    }
}

// Puts a piece of the side on each square of a list.
#[tactic(auto, unfolding(crate::specs::Setup::texts_of, crate::specs::Setup::placed_all))]
fn place_list<'a>(side: Side, list: &'a str, cells: &mut Cells) -> Result<(), ReachFault<'a>>
    ensures { MatchResult result
        (λ _. placed_all side (texts_of list.now) cells.old ≡ Ok cells.new)
        (λ why. placed_all side (texts_of list.now) cells.old ≡ Err (unplaced_of why)) }
{
    if list == "none" {
        return Ok(());
    }
    place_each(side, list, cells)
}

/// The board with a White piece to move on its square, and pieces of both sides on the squares of two lists.
///
/// A list has squares separated by commas, or is `none`. The error is the first text, from left to right, that names no
/// square, or a square on which a piece stands already.
#[tactic(auto, unfolding(crate::specs::Setup::setup_of))]
pub fn set_up<'a>(square: &'a str, own: &'a str, enemy: &'a str) -> Result<Setup, ReachFault<'a>>
    ensures setup { MatchResult result
        (λ s. setup_of square.now own.now enemy.now ≡ Ok (s.from, s.cells))
        (λ why. setup_of square.now own.now enemy.now ≡ Err (unplaced_of why)) }
    ensures on_board { IfOk result (λ s. s.from.0 < 120) }
{
    let Some(from) = square_named(square.as_bytes()) else {
        return Err(ReachFault::BadSquare(square));
    };
    let mut cells = piece_on(from);
    place_list(Side::White, own, &mut cells)?;
    place_list(Side::Black, enemy, &mut cells)?;
    Ok(Setup { cells, from })
}
