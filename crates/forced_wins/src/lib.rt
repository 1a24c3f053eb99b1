//! The theory of forced wins: laws about definitions, each the contract of a function without code.
//!
//! `any_game` has them over any game of two sides whose positions repeat and have a counter, `by_rules` over the rules
//! of play.
#![tactic(auto)]

pub mod any_game;
pub mod by_rules;
mod ends;
mod fact;

pub use ends::won_by;
pub use fact::{Fact, is_falling};
