//! Strategies of forced mates, as values and as text, version 1: for each position that a forced mate can lead to, the
//! attacker's move, or a move for each reply of the other side.
#![tactic(auto)]

mod fault;
mod header;
pub mod laws;
mod nodes;
mod reader;
mod reading;
mod said;
mod writing;

pub use fault::StrategyFault;
pub use nodes::{Counters, Edge, Edges, Node, Nodes, Strategy};
pub use reader::Reader;
pub use reading::{cut_line, read};
pub use writing::{push_line, push_number, push_text, write};
