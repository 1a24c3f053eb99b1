//! The form of a suite's lines.
ghost use Rattle.std.specs.Prelude.{◌≡◌, ◌≤◌, IfSome};
ghost use Rattle.suite.specs.Suite as Said;

use foundation::{cut_at, number_within};
use std::marker::Model;

/// The most moves that a problem asks for.
const MOST_MOVES: u16 = 20;

/// What stands on the line of a problem: the name of a variant, within how many moves, and the text of a position.
#[derive(Drop)]
pub(crate) struct Row<'t> {
    pub name: &'t [u8],
    pub moves: u16,
    pub position: &'t [u8],
}

impl<'t> Model for Row<'t> {
    ghost use Rattle.suite.specs.Suite.{Asked};

    ghost Value = { Asked };

    ghost view = { λ r. record { name = r.name.now; moves = r.moves; position = r.position.now } };
}

/// Whether the line is empty or a comment.
pub(crate) fn is_skipped(text: &[u8]) -> bool
    ensures { result ≡ Said.is_skipped text.now }
{
    match text {
        [] => true,
        [first, ..] => *first == b'#',
    }
}

// Whether a position is there, after a single space.
fn is_apart(text: &[u8]) -> bool
    ensures { result ≡ Said.is_apart text.now }
{
    match text {
        [] => false,
        [first, ..] => *first != b' ',
    }
}

/// The parts of a line that has the form.
#[tactic(auto, unfolding(crate::specs::Suite::row_of))]
pub(crate) fn row_of(text: &[u8]) -> Option<Row<'_>>
    ensures is { result ≡ Said.row_of text.now }
    ensures some { IfSome result (λ row. 1 ≤ row.moves) }
    ensures few { IfSome result (λ row. row.moves ≤ 20) }
{
    let (name, rest) = cut_at(text, b' ');
    let rest = rest?;
    if name.is_empty() {
        return None;
    }
    let (number, position) = cut_at(rest, b' ');
    let position = position?;
    if !is_apart(position) {
        return None;
    }
    let moves = number_within(1, MOST_MOVES, number)?;
    Some(Row {
        name,
        moves,
        position,
    })
}
