//! The key of a board and its hands, kept through moves, and the key of a whole position.
ghost use Rattle.std.specs.Prelude.{◌≡◌, ◌+◌, ◌%◌, ◌^◌};
ghost use Rattle.rules_model.specs.Repeats.{repeat_of};
ghost use Rattle.next_position.specs.Changed.{Covers};
ghost use Rattle.position_key.specs.Key as Key;
ghost use Rattle.position_key.specs.Key.{IsBoardKey};
ghost use Rattle.position_key.specs.Words as Words;

use crate::sums::{cells_sum, hand_sum, with_cells, with_hands};
use crate::words::{folded, rest_number, word};
use next_position::Writes;
use rules_model::{Cells, KINDS, Position, Repeat, Side, Square};

/// The key of a board and of what both sides hold. A move changes it in few places.
#[derive(Clone, Copy, PartialEq, Eq)]
pub struct BoardKey(pub u64);

/// The key of the board and the hands, from all squares and all counts.
#[tactic(auto, unfolding(crate::specs::Key::board_key))]
fn board_key(cells: &Cells, hands: &[[u8; KINDS]; 2]) -> BoardKey
    ensures { result.0 ≡ Key.board_key cells.now hands.now }
{
    let white = hand_sum(Side::White, &hands[0]);
    let black = hand_sum(Side::Black, &hands[1]);
    BoardKey(cells_sum(cells).wrapping_add(white.wrapping_add(black)))
}

/// The key of a board and its hands, with the rest mixed in.
fn mixed(key: BoardKey, rest: u64) -> u64
    ensures { result ≡ Words.folded ((key.0 + Words.word rest) % 2 ^ 64) }
{
    folded(key.0.wrapping_add(word(rest)))
}

impl BoardKey {
    /// The key of the position's board and hands, from all squares.
    pub fn of(p: &Position) -> BoardKey
        ensures { IsBoardKey result (repeat_of p.now) }
    {
        board_key(&p.cells, &p.hands)
    }

    /// The key of the repeat's board and hands, from all squares.
    pub fn of_repeat(r: &Repeat) -> BoardKey
        ensures { IsBoardKey result r.now }
    {
        board_key(&r.cells, &r.hands)
    }

    /// The key of the next position, from that of the one before and what may have changed. Nothing else is looked at.
    #[tactic(auto, unfolding(crate::specs::Key::board_key))]
    pub fn after(self, before: &Position, next: &Position, touched: Writes) -> BoardKey
        requires key { IsBoardKey self (repeat_of before.now) }
        requires touched { Covers touched before.now next.now }
        ensures { IsBoardKey result (repeat_of next.now) }
    {
        let moved = with_cells(self.0, &before.cells, &next.cells, touched.squares);
        if !touched.hands {
            return BoardKey(moved);
        }
        let side = before.side;
        BoardKey(with_hands(moved, side, &before.hands, &next.hands))
    }

    /// The key of all that a repetition compares of the position.
    #[tactic(auto, unfolding(crate::specs::Key::key_of))]
    pub fn whole(self, p: &Position) -> u64
        requires { IsBoardKey self (repeat_of p.now) }
        ensures { result ≡ Key.key_of (repeat_of p.now) }
    {
        mixed(
            self,
            rest_number(&p.gates, &p.rights, &p.checks, p.ep, p.side),
        )
    }

    /// The same of a repeat.
    #[tactic(auto, unfolding(crate::specs::Key::key_of))]
    pub fn whole_repeat(self, r: &Repeat) -> u64
        requires { IsBoardKey self r.now }
        ensures { result ≡ Key.key_of r.now }
    {
        mixed(
            self,
            rest_number(&r.gates, &r.rights, &r.checks, r.ep, r.side),
        )
    }
}

/// The key of all that a repetition compares of the position, from all squares.
pub fn key_of(p: &Position) -> u64
    ensures { result ≡ Key.key_of (repeat_of p.now) }
{
    BoardKey::of(p).whole(p)
}

/// The same of a repeat.
pub fn key_of_repeat(r: &Repeat) -> u64
    ensures { result ≡ Key.key_of r.now }
{
    BoardKey::of_repeat(r).whole_repeat(r)
}
