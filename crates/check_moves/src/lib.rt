//! The moves that may give check, and those that leave the attacked king a step, told before they are made: the others
//! need not be made to be known as quiet, nor these to be known as no mate.
#![tactic(auto)]

mod checks;
mod flights;
mod listing;
mod replies;
mod shut;

pub use checks::{Checks, checks_of, gives_check, may_check};
pub use flights::{Flight, KnownFlights, LoneKing};
pub use listing::push_checks;
pub use replies::{Leaper, Replies, Reply};
