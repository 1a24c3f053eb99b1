//! Keys of positions: one for all that a repetition compares, whose part for board and hands is kept through a move.
//! Positions that repeat each other have equal keys, and `Packed` tells whether two of one key do.
#![tactic(auto)]

mod board_key;
mod cells;
mod laws;
mod packed;
mod rest;
mod sums;
mod words;

pub use board_key::{BoardKey, key_of, key_of_repeat};
pub use laws::equal_repeats_have_equal_keys;
pub use packed::Packed;
pub use rest::Rest;
