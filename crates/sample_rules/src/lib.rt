//! Rules of a few variants, each fit and with a sound start, and positions from short texts: for tests, and for
//! programs that measure or compare.
//!
//! A variant says only what differs from the defaults of the options (`variants.ini`), which `base` has.
#![tactic(auto)]

mod base;
mod pieces;
mod positions;
mod regions;
mod variants;

pub use base::empty;
pub use pieces::kind;
pub use positions::{hand_of, position, square};
pub use variants::capablanca::capablanca;
pub use variants::chess::chess;
pub use variants::generals::generals;
pub use variants::leapers::leapers;
pub use variants::shouse::shouse;
pub use variants::wide_chess::wide_chess;
pub use variants::xiangqi::xiangqi;
