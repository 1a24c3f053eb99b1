//! A proof-number mate finder: it grows a tree of positions, always at the leaf that proves most, until its root is
//! settled.
#![tactic(auto)]

mod carrying;
mod descending;
mod expanding;
mod fault;
mod finding;
mod grew;
mod mating;
mod node;
mod numbers;
mod tree;

pub use expanding::root_end;
pub use fault::PnFault;
pub use finding::{Found, find};
pub use grew::Grew;
pub use mating::least_mate;
pub use node::{Node, State};
pub use numbers::{INFINITE, Pair};
pub use tree::Tree;
