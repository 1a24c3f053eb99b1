//! The text of a variants file, in the manner of Fairy-Stockfish's variants.ini: sections, their keys and values, and
//! the inheritance of an option from a section's parents. Nothing here knows which keys a variant may have.
#![tactic(auto)]

mod class;
mod cuts;
mod fault;
mod key_line;
mod laws;
mod line;
mod names;
mod parents;
mod reading;
mod section;
mod sections;

pub use fault::IniFault;
pub use key_line::KeyLine;
pub use laws::{later_sections_change_no_option, options_are_inherited};
pub use line::{Header, Line, Pair, pair_of, read_line};
pub use reading::LONGEST_LINE;
pub use sections::Sections;
