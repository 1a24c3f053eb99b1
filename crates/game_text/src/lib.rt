//! Game texts: the name of a variant, a position and the moves that were played, read line by line into a game; and
//! what the commands print of a game.
//!
//! Line 1 is the name of a variant, line 2 is `startpos` or a FEN, and the lines after them have the texts of moves,
//! separated by spaces and tabs. The text ends with the input. A problem is a game text whose moves stand on line 3
//! alone, and a goal on line 4.
//!
//! Of a game are printed its legal moves, how it stands, and how many lists of legal moves there are.
#![tactic(auto)]

mod copies;
mod fault;
mod game;
mod goal;
pub mod laws;
mod moves;
mod outcome;
mod play;
mod problem;
mod read;
mod unmade;

pub use copies::copy_of;
pub use fault::{GameFault, NoGame, write_fault};
pub use game::{moves_of, perft_of, status_of};
pub use goal::{Goal, ReadGoal, Stipulation, read_goal_after};
pub use moves::text_of_moves;
pub use outcome::{Printed, cause_name};
pub use play::play_move;
pub use problem::{Problem, read_problem, read_problem_after};
pub use read::{position_of, read_game};
pub use unmade::Unmade;
