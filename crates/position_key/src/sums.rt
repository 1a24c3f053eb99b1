//! The sums of words: those of a whole board and of whole hands, and how they change.
ghost use Rattle.std.specs.Prelude.{◌≡◌, ◌%◌, ◌^◌};
ghost use Rattle.rules_model.specs.Hands.{hand_of};
ghost use Rattle.rules_model.specs.Sides.{other};
ghost use Rattle.next_position.specs.Changed.{AgreeOutside};
ghost use Rattle.position_key.specs.Changed.{IsExchanged};
ghost use Rattle.position_key.specs.Key as Key;

use crate::words::{cell_word, hand_word};
use rules_model::{Cells, KINDS, SQUARES, Side, Square, cell_at};
use square_set::Set;

/// The key with the second number in the place of the first.
fn exchanged(key: u64, out: u64, put: u64) -> u64
    ensures { IsExchanged key out put result }
{
    key.wrapping_sub(out).wrapping_add(put)
}

/// The sum of the words of what stands on the squares.
pub(crate) fn cells_sum(cells: &Cells) -> u64
    ensures { result ≡ Key.cells_sum cells.now % 2 ^ 64 }
{
    let mut sum = 0u64;
    for at in 0..SQUARES as u8 {
        let square = Square(at);
        sum = sum.wrapping_add(cell_word(square, cell_at(cells, square)));
    }
    sum
}

/// The sum of the words of what the side holds.
pub(crate) fn hand_sum(side: Side, hand: &[u8; KINDS]) -> u64
    ensures { result ≡ Key.hand_sum side hand.now % 2 ^ 64 }
{
    let mut sum = 0u64;
    for kind in 0..KINDS as u8 {
        sum = sum.wrapping_add(hand_word(side, kind, hand[kind as usize]));
    }
    sum
}

/// The key once the squares of the set, outside of which the two boards agree, are those of the second board.
pub(crate) fn with_cells(mut key: u64, before: &Cells, next: &Cells, touched: Set) -> u64
    requires { AgreeOutside touched before.now next.now }
    ensures { IsExchanged key (Key.cells_sum before.now) (Key.cells_sum next.now) result }
{
    let mut left = touched;
    while let Some(at) = left.take_first() {
        let square = Square(at);
        let was = cell_word(square, cell_at(before, square));
        let is = cell_word(square, cell_at(next, square));
        key = exchanged(key, was, is);
    }
    key
}

/// The key once the side's hand is the second one.
fn with_hand(mut key: u64, side: Side, before: &[u8; KINDS], next: &[u8; KINDS]) -> u64
    ensures { IsExchanged key (Key.hand_sum side before.now) (Key.hand_sum side next.now) result }
{
    for kind in 0..KINDS as u8 {
        let was = before[kind as usize];
        let is = next[kind as usize];
        if was != is {
            key = exchanged(key, hand_word(side, kind, was), hand_word(side, kind, is));
        }
    }
    key
}

/// The key once the hands are the second ones, where that of the other side stays as it is.
pub(crate) fn with_hands(
    key: u64,
    side: Side,
    before: &[[u8; KINDS]; 2],
    next: &[[u8; KINDS]; 2],
) -> u64
    requires { hand_of next.now (other side) ≡ hand_of before.now (other side) }
    ensures { IsExchanged key (Key.hands_sum before.now) (Key.hands_sum next.now) result }
{
    match side {
        Side::White => with_hand(key, Side::White, &before[0], &next[0]),
        Side::Black => with_hand(key, Side::Black, &before[1], &next[1]),
    }
}
