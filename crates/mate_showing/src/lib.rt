//! Whether a game is won within some number of moves of the side that attacks, by one worker with facts of its own, and
//! the strategy that shows a win.
#![tactic(auto)]

mod answer;
mod building;
mod judging;
mod node_table;
mod ordering;
mod plan;
mod solving;

pub use answer::Settled;
pub use ordering::to_front;
pub use solving::{Decision, decide, show};
