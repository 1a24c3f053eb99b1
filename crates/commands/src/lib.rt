//! The one call that does what the words of a command line ask.
#![tactic(auto)]

mod program;
mod sessions;

pub use one_shot_checks::NO_MEMORY;
pub use program::run;
