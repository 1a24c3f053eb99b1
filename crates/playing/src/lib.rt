//! A position that is played on, with what is kept of it through moves: the sets of its board, and its key.
#![tactic(auto)]

mod board;
mod ends;
mod moves;

pub use board::Board;
