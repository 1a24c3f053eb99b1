//! The moves of pawns, castles, drops and the moves that place a hand piece at a gate. Those of the chess pawn are one
//! step, two steps, taking, en passant and promotions (FIDE Laws of Chess, article 3.7), by the regions and options of
//! the variant.
#![tactic(auto)]

pub mod candidate;
mod castles;
mod drops;
mod gates;
pub mod generate;
mod pawn;
pub mod pawn_candidate;
pub mod pawn_generate;
mod shifted;
mod way;

pub use candidate::is_candidate;
pub use generate::push_moves;
pub use pawn_candidate::is_pawn_candidate;
pub use pawn_generate::push_pawn_moves;
