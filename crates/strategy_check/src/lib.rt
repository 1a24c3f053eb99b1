//! Checks strategies of forced mates: says that a strategy wins, or names its first fault.
#![tactic(auto)]

mod edges;
mod ends;
mod first_fault;
mod places;
mod repetition;
mod replies;
mod table;
mod verdict;

pub use first_fault::check;
pub use verdict::Verdict;
