//! What the lines of a variants file say: the options and the pieces, the kinds of their values, and what is wrong with
//! a line.
#![tactic(auto)]

pub mod fault;
pub mod keys;
pub mod letters;
pub mod line;
pub mod options;
pub mod pieces;
pub mod readings;
pub mod value;
pub mod words;

pub use fault::LineFault;
pub use line::line_fault;
pub use value::{Area, Listed, ValueKind};
