//! Whether a strategy or a certificate of the input holds in its game (`checking`, `certificates`), the certificates of
//! a game (`stipulating`), the squares that a Betza word reaches on a board that words set up (`reach`), and why a
//! command has no text: `Fault` has the line and the status of each fault, and `Stop` what cuts a run short.
#![tactic(auto)]

mod certificates;
mod checking;
mod fault;
mod laws;
mod no_answer;
mod reach;
mod setup;
mod stipulating;
mod stop;

pub use certificates::cert_check_text;
pub use checking::check_text;
pub use fault::Fault;
pub use laws::{checked_certificates_hold, checked_games_are_won, printed_certificates_hold};
pub use no_answer::NoAnswer;
pub use reach::reach_text;
pub use setup::{ReachFault, Setup, set_up};
pub use stipulating::{help_mate_of, self_mate_of};
pub use stop::{NO_MEMORY, SINK_FAILED, SOURCE_FAILED, Stop};
