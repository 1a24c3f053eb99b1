//! Moves as text, in the long algebraic notation of the UCI protocol with Fairy-Stockfish's drops and gates: the text
//! of a move, the order of the texts, and the move that a text names in a position.
#![tactic(auto)]

mod castles;
mod endings;
pub mod laws;
mod names;
pub mod order;
mod read;
mod squares;
pub mod text;

pub use names::read_move;
pub use order::{keys_are_in_the_order_of_texts, move_key};
pub use text::{MoveText, lower, square_text, upper, write_move};
