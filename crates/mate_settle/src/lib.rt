//! Whether a position is won by force within some number of moves, exactly, looked at without its history: a search
//! that is depth first and keeps facts.
#![tactic(auto)]

mod choosing;
mod fact_table;
mod last_moves;
mod last_replies;
mod ordering;
mod settling;
mod told;
mod weighing;

pub use choosing::{WinningMove, all_won, choose};
pub use fact_table::FactTable;
pub use settling::{decide, keep_now, moves_to_try, settle};
pub use told::Told;
pub use weighing::{WeighedMove, weighed_moves};
