//! Certificates of selfmates and helpmates as text: read line by line, and written.
//!
//! Line 1 is `selfmate K` or `helpmate K`, then there is one line `PLY MOVE` for each step, and the last line is `end`.
//! The move of a step is read in the position of its parent's game.
#![tactic(auto)]

mod fault;
pub mod laws;
mod reader;
mod reading;
mod said;
mod writing;

pub use fault::{CertFault, NoCert};
pub use reading::{read_cert, read_cert_lines};
pub use writing::write_cert;
