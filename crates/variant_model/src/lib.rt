//! What the sections of a variants file say: the rules of each section, or its first fault, and the laws of both.
#![tactic(auto)]

mod fault;
pub mod laws;

pub use fault::SectionFault;
