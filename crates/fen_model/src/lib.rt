//! What FEN (Forsyth-Edwards notation) says of positions of variants, as Fairy-Stockfish extends it: the definitions,
//! the faults of a text, and the laws of both.
#![tactic(auto)]

mod fault;
mod held;
pub mod laws;

pub use fault::FenFault;
pub use held::Held;
