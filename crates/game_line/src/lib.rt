//! Lines of moves that go on from a game, for searches: moves are put on the line and taken off again, without memory.
#![tactic(auto)]

mod line;
mod results;
mod slots;

pub use line::Line;
