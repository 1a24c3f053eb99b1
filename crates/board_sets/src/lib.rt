//! The squares of the pieces and of the kings of both sides, and of the pawns, kept through a move.
#![tactic(auto)]

pub mod sets;

pub use sets::{BoardSets, sets_are_on_board, sets_of};
