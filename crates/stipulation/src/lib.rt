//! Selfmates and helpmates: finds them, and checks certificates of them, with the whole history of a game.
#![tactic(auto)]

mod cert;
mod check;
pub mod laws;
mod line;
mod mates;
mod reach;
mod reach_facts;
mod search;
mod task;
mod tree;
mod verdict;

pub use cert::{Cert, Step, Steps};
pub use check::{check_help, check_self};
pub use line::Line;
pub use mates::{help_mate, self_mate};
pub use verdict::CertVerdict;
