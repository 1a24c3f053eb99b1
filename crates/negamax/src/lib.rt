//! The exact value of a game at a depth, by negamax with windows (Knuth and Moore, "An analysis of alpha-beta pruning",
//! 1975): the recursion, the search of one move, and what the facts of moves come to.
//!
//! The value is that of `evaluation`: plain negamax over the whole history, with a search of captures at the end of
//! each line. Windows, hints and the order of moves change how many nodes are entered and nothing else.
#![tactic(auto)]

mod ends;
mod facts;
mod last_ply;
mod move_order;
mod quiescence;
mod root;
mod scored_moves;
mod search;
mod search_state;
mod settling;
mod window;

pub use ends::end_where;
pub use facts::{Best, Fact, known_score};
pub use move_order::root_rank;
pub use root::{better_of, combine, score_move, search_move};
pub use search::value_within;
pub use search_state::SearchState;
pub use window::Window;
