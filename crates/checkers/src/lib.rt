//! The pieces that attack the king of the side to move, and the text of a list of squares.
#![tactic(auto)]

mod attackers;
mod list;
mod text;

pub use attackers::checkers;
pub use list::push_squares;
pub use text::checkers_of;
