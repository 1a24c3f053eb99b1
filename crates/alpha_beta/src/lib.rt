//! The search: the exact value of a game at a depth, by workers that race over the moves beside the leftmost line. The
//! first of them runs in the caller and asks a watch that is lent; what the watch hears is its own matter.
#![tactic(auto)]

mod jobs;
mod left;
mod plan;
mod race;
mod roots;
mod searching;
mod settling;
mod shared;
mod sharing;
mod taking;
mod unwatched;

pub use io_ports::{Limits, SearchFault, Stopped};
pub use searching::{Found, Searched, search, search_watched};
pub use unwatched::search_unwatched;
