//! The ordinary moves of pieces that are not the chess pawn, without gating; and what takes the moves of a generator
//! (`MoveSink`): a list, a count, or a test that stops at the first.
#![tactic(auto)]

pub mod candidate;
pub mod generate;
mod goal;
mod move_sink;
mod piece;
mod promotion;
mod targets;

pub use candidate::is_candidate;
pub use generate::{Mover, mover_on, push_mover, push_moves, push_moves_from};
pub use move_sink::{MoveSink, push_if};
pub use promotion::holds_a_right;
