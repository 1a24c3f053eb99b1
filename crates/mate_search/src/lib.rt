//! The exact solver of forced mates: whether a game is won within some number of moves of the side that attacks, and by
//! which strategy. Many workers look for it, and shards keep what they learn.
#![tactic(auto)]

mod answer;
mod counting;
mod frame;
mod job;
pub mod laws;
mod lending;
mod ordering;
mod race;
mod racing;
mod shared;
mod shared_root;
mod solve_memory;
mod solving;
mod tree_round;
mod whole;

pub use answer::Mate;
pub use counting::is_counted;
pub use frame::{copy_of_frame, frame_of};
pub use mate_showing::Settled;
pub use strategy::Counters;
pub use whole::{settle, solve, solve_watched};
