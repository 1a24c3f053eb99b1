//! A ticket lock whose passes know the history of the value under it.
#![tactic(auto)]

mod journal;
mod lock;
mod rule;
mod view;

pub use journal::Journal;
pub use lock::{Lock, Pass};
