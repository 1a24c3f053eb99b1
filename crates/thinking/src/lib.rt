//! What both protocols share of a search. `search_once` and `solve_once` are one search and one solve of a session, by
//! what it keeps for them (`EngineState`), over a watch of its ports, and say why they end. `iterative_deepening`
//! searches one depth after another, with a line for each, and shows scores that stand for mates by a strategy;
//! `try_mates` looks for mates within 1, 2, .. moves. A line, a limit or a fault cuts all this.
#![tactic(auto)]

mod deepening;
mod depth;
mod depth_result;
mod engine_state;
mod judging;
mod lines;
mod mates;
mod scores;
mod search;
mod shared_facts;
mod solve;
mod style;
mod task;

pub use deepening::{Depths, iterative_deepening};
pub use depth_result::{AnnouncedMate, DepthResult, Evidence, Score};
pub use engine_state::EngineState;
pub use lines::{depth_lines, unsettled_line};
pub use mates::{MateAttempt, try_mates};
pub use search::search_once;
pub use solve::solve_once;
pub use style::Style;
pub use task::{Start, Task, begin};
