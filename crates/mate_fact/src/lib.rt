//! The six ways in which a fact on a position follows from facts on the positions after its moves. Each call makes one
//! fact, exactly that of its way, and it is true in the frame where the facts that it is made of are.
#![tactic(auto)]

mod ends;
mod refuted;
mod won;

pub use ends::{end_of, is_blocked};
pub use forced_wins::won_by;
pub use refuted::{
    refuted_by_all, refuted_by_all_within, refuted_by_move, refuted_by_move_within, refuted_now,
    refuted_where,
};
pub use won::{by_all, by_all_within, by_move, by_move_within, won_now, won_where};
