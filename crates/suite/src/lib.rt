//! Mates with their least numbers of moves. `least_win` says within how many of its moves a side wins a game, and how;
//! `mate_keys` which first moves of a game win it, each within how many; `solve_suite` reads a suite of many mate
//! problems, has workers solve them beside each other, and makes the report on them.
#![tactic(auto)]

mod at_once;
mod fault;
mod first_moves;
mod keys_fault;
mod keys_report;
mod playing_on;
mod problem;
mod queue;
mod race;
mod reading;
mod report;
mod reporting;
mod row;
mod settling;
mod solving;
mod winning;
mod work;

pub use fault::{NoSuite, SuiteFault};
pub use first_moves::{Key, Keys, mate_keys};
pub use keys_fault::KeysFault;
pub use keys_report::write_keys;
pub use problem::{Answer, Problem, Solved};
pub use reading::{MOST_PROBLEMS, Suite, read_suite};
pub use report::write_report;
pub use reporting::solve_suite;
pub use solving::solve_all;
pub use winning::{LeastWin, least_win};
