//! The answers of one-shot commands: what the words of a command line ask, and the one text that it prints, or the
//! fault in its place. `random_play` and `report` have games of random legal moves, the same on every machine.
#![tactic(auto)]

mod answers;
mod first_moves;
mod game;
mod generating;
mod help_text;
mod laws;
mod no_variant;
mod opening;
mod pn_mate_text;
mod random_play;
mod refereed;
mod report;
mod rules_text;
mod sections;
mod suite_text;
mod variants;

pub use answers::{Answer, answer_of, answer_refereed, answer_to};
pub use game::game_in;
pub use laws::{printed_rules_are_read_back, words_have_one_answer};
pub use opening::{Opened, open};
pub use refereed::is_refereed;
pub use sections::sections_with;
