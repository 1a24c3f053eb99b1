//! Games: a sound start, and legal moves each in turn (FIDE Laws of Chess, article 1), with their history and their
//! results.
#![tactic(auto)]

pub mod faults;
pub mod game;
pub mod laws;
mod perft;
mod play;
mod repetition;
mod results;
mod standings;

pub use faults::{NothingPlayed, PlayFault};
pub use game::{Game, MOST_PLIES};
pub use results::counted_end;
