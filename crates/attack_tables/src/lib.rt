//! What a piece reaches and what a side attacks in a position, by tables that are made once for the rules of a variant.
#![tactic(auto)]

mod alike;
mod kind_masks;
mod masks;
mod pawns;
mod regions;
pub mod sight;
pub mod tables;

pub use move_tables::{Mode, men, occupied};
pub use pawns::PawnMasks;
pub use sight::Sight;
pub use tables::{Tables, cell_on};
