//! Proof texts: strategies of forced mates that stand alone. A proof text, `strategy 2`, states the rules of its
//! variant, a game, a goal and a strategy, so that it says all that a check needs. It is read, and written. The lines
//! of its rules are written alone, too.
#![tactic(auto)]

mod body;
mod fault;
mod head;
mod history;
pub mod laws;
mod pairs;
mod proof;
mod reading;
mod rule_pairs;
mod source_lines;
mod strategy_lines;
mod text_source;
mod words;
mod writing;

pub use fault::ProofFault;
pub use proof::Proof;
pub use reading::{read_proof, read_proof_after};
pub use source_lines::NoProof;
pub use strategy_lines::{NoStrategy, read_strategy};
pub use text_source::TextSource;
pub use words::is_version;
pub use writing::{write_proof, write_rules};
