//! Proof-number trees that are grown for some number of nodes, before a search that is depth first.
//!
//! The numbers of a tree choose where it grows, and nothing else. What it answers are facts of `mate_settle`, each
//! proved from the position itself: a tree that was wrong would cost time alone.
#![tactic(auto)]

mod growing;
mod node;
mod numbers;
mod opening;

pub use growing::{Step, grow_child};
pub use node::Node;
pub use opening::leaves_of;
