//! Whether two positions are one, as a repetition compares them, and whether two moves are.
ghost use Rattle.std.specs.Prelude.{◌≡◌, ◌↔◌, IsTrue};
ghost use Rattle.rules_model.specs.Games.{same_repeat};
ghost use Rattle.rules_model.specs.Moves as Moves;
ghost use Rattle.rules_model.specs.Repeats as Repeats;

use crate::board::{Cell, Position, Repeat, Square};
use crate::moves::Move;

// What differs most often comes first.
fn are_equal(a: &Repeat, b: &Repeat) -> bool
    ensures { IsTrue result ↔ (a.now ≡ b.now) }
{
    are_same_cells(&a.cells, &b.cells)
        && a.side == b.side
        && are_same_hands(&a.hands, &b.hands)
        && are_same_squares(a.ep, b.ep)
        && a.gates == b.gates
        && are_same_rights(&a.rights, &b.rights)
        && a.checks == b.checks
}

/// Whether the two are one repeat.
pub fn is_same_repeat(a: &Repeat, b: &Repeat) -> bool
    ensures { result ≡ same_repeat a.now b.now }
{
    are_equal(a, b)
}

// The same without making repeats of positions.
fn are_equal_positions(p: &Position, q: &Position) -> bool
    ensures { IsTrue result ↔ (Repeats.repeat_of p.now ≡ Repeats.repeat_of q.now) }
{
    are_same_cells(&p.cells, &q.cells)
        && p.side == q.side
        && are_same_hands(&p.hands, &q.hands)
        && are_same_squares(p.ep, q.ep)
        && p.gates == q.gates
        && are_same_rights(&p.rights, &q.rights)
        && p.checks == q.checks
}

/// Whether the one position repeats the other: whether they differ at most in their counters and numbers. Nothing is
/// copied.
pub fn repeats(p: &Position, q: &Position) -> bool
    ensures { result ≡ same_repeat (Repeats.repeat_of p.now) (Repeats.repeat_of q.now) }
{
    are_equal_positions(p, q)
}

fn are_same_cells(a: &[Option<Cell>; 120], b: &[Option<Cell>; 120]) -> bool
    ensures { IsTrue result ↔ (a.now ≡ b.now) }
{
    a == b
}

/// Whether these are the same hands.
pub fn are_same_hands(a: &[[u8; 26]; 2], b: &[[u8; 26]; 2]) -> bool
    ensures { IsTrue result ↔ (a.now ≡ b.now) }
{
    a == b
}

/// Whether these are the same castling rights.
pub fn are_same_rights(a: &[[bool; 2]; 2], b: &[[bool; 2]; 2]) -> bool
    ensures { IsTrue result ↔ (a.now ≡ b.now) }
{
    a == b
}

fn are_same_squares(a: Option<Square>, b: Option<Square>) -> bool
    ensures { IsTrue result ↔ (a ≡ b) }
{
    a == b
}

fn are_equal_moves(a: &Move, b: &Move) -> bool
    ensures { IsTrue result ↔ (a.now ≡ b.now) }
{
    a == b
}

/// Whether the two are one move.
pub fn is_same_move(a: &Move, b: &Move) -> bool
    ensures is { result ≡ Moves.same_move a.now b.now }
    ensures same { IsTrue result ↔ (a.now ≡ b.now) }
{
    are_equal_moves(a, b)
}
