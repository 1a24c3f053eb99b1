//! The order of moves.
ghost use Rattle.std.specs.Prelude.{◌≡◌, slice_index};
ghost use Rattle.move_text.specs.Keys.{KeysAreInOrder, key_of, with_digits};

use crate::text::write_move;
use rules_model::Move;

/// The byte at the place, or 0 after the last.
fn byte_at(bytes: &[u8], i: usize) -> u64
    ensures { result ≡ slice_index bytes.now i }
{
    match bytes.get(i) {
        Some(byte) => u64::from(*byte),
        None => 0,
    }
}

/// The bytes as the highest of 8 digits of base 256. What follows the eighth does not count.
fn number_of(bytes: &[u8]) -> u64
    ensures { result ≡ with_digits 0 8 bytes.now }
{
    let mut number = 0;
    for i in 0..8 {
        number = number * 256 + byte_at(bytes, i);
    }
    number
}

/// The text of the move as a number: its bytes are the highest of 8.
pub fn move_key(m: &Move) -> u64
    ensures { result ≡ key_of m.now }
{
    number_of(write_move(m).items.as_slice())
}

/// Two moves on the largest board compare by their keys as their texts do byte by byte: a text has at most 8 bytes, and
/// none is 0.
pub fn keys_are_in_the_order_of_texts()
    ensures { KeysAreInOrder }
{}
