//! UCI sessions: what a session keeps between lines, what lines set, and what `go` searches. `serve` answers one line
//! after another.
#![tactic(auto)]

mod answering;
mod going;
mod moves;
mod plan;
mod refusal;
mod reply;
mod searching;
mod serving;
mod session;
mod texts;
mod without_search;

pub use serving::serve;
pub use session::UciSession;
pub use session_model::Ended;
