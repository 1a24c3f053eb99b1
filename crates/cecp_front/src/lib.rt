//! CECP sessions: what their lines ask (`read_line`), which lines give a search up, and the limits of a search; a
//! session's state, what its lines set and answer, and how the engine thinks and moves. `serve` answers one line after
//! another.
#![tactic(auto)]

mod answers;
mod command;
mod limits;
mod moving;
mod serving;
mod session;
mod texts;
mod verb;
mod words;

pub use command::{Command, Limit, gives_up, read_line};
pub use limits::{depth_for, time_for};
pub use serving::serve;
pub use session::CecpSession;
