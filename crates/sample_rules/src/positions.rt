//! Squares and positions from short texts.
ghost use Rattle.std.specs.Prelude.{◌≡◌, ◌<◌, length, IfSome};
ghost use Rattle.sample_rules.specs.Positions as Positions;

use crate::base::empty;
use crate::regions::is_listed;
use rules_model::{Cell, Cells, FILES, Kind, Position, RANKS, Side, Square};

/// The square of a text such as `e4` or `i10`. A text that is not one gives a1.
pub fn square(text: &str) -> Square
    ensures { result.0 < 120 }
{
    read_square(text.as_bytes()).unwrap_or(Square(0))
}

fn read_square(text: &[u8]) -> Option<Square>
    ensures { IfSome result (λ s. s.0 < 120) }
{
    let file = text.first()?.checked_sub(b'a')?;
    let rank = number(text).checked_sub(1)?;
    if file < FILES && rank < RANKS {
        Some(Square::at(file, rank))
    } else {
        None
    }
}

/// The number after the letter, of one digit or two.
fn number(text: &[u8]) -> u8 {
    let digit = |place: usize| text.get(place).copied().unwrap_or(0).saturating_sub(b'0');
    if text.len() > 2 {
        digit(1).saturating_mul(10).saturating_add(digit(2))
    } else {
        digit(1)
    }
}

/// The piece of a letter: White's for a capital one, Black's for a small one, none for another sign.
fn piece_of(letter: u8) -> Option<Cell>
    ensures { result ≡ Positions.piece_of letter }
{
    let (side, first) = match letter {
        b'A'..=b'Z' => (Side::White, b'A'),
        b'a'..=b'z' => (Side::Black, b'a'),
        _ => return None,
    };
    Some(Cell {
        side,
        kind: Kind(letter - first),
        origin: None,
    })
}

/// The position of a text such as `Ke1 Rh1 ke8`: each word is a piece, White's by a capital letter, and its square.
/// White is to move, and there are no hands, gates and rights. A word that is not of a letter and a square is left out.
pub fn position(text: &str) -> Position {
    let mut p = empty();
    for word in text.as_bytes().split(|byte| *byte == b' ') {
        if let [letter, at @ ..] = word
            && let Some(to) = read_square(at)
        {
            p.cells[to.0 as usize] = piece_of(*letter);
        }
    }
    p
}

/// The pieces of a diagram of twelve signs a rank, White's first rank first: its letters are pieces, all else is empty.
#[tactic(auto, unfolding(crate::specs::Positions::cells_of))]
pub fn cells_of(diagram: &[u8]) -> Cells
    requires { length diagram.now ≡ 120 }
    ensures { result ≡ Positions.cells_of diagram.now }
{
    let mut cells = [None; 120];
    for at in 0..120 {
        cells[at] = piece_of(diagram[at]);
    }
    cells
}

/// A hand with one piece of each of the kinds.
#[tactic(auto, unfolding(crate::specs::Positions::hand_of))]
pub fn hand_of(letters: &[u8]) -> [u8; 26]
    ensures { result ≡ Positions.hand_of letters.now }
{
    let mut hand = [0; 26];
    for k in 0..26 {
        hand[k] = if is_listed(letters, k) { 1 } else { 0 };
    }
    hand
}
