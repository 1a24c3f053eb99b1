//! The pieces that may go anywhere without leaving their king attacked, the squares on which pieces would attack a
//! king, and those that a move has to leave or enter to end a check, found without a move being made.
#![tactic(auto)]

pub mod danger;
pub mod evasion;
pub mod guards;
pub mod unpinned;

pub use unpinned::free;
