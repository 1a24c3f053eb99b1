//! What the words of a run ask: options first, and then a command with its arguments, read with `clap`.
//!
//! An option is `--name value` or `--name=value`, each at most once: `--variants FILE`, the file of variants, and
//! `--threads N`, how many threads may work, from 1 to 64 and 1 where it is not given. A value has at least one byte
//! and does not begin with a dash, and no word of the command begins with one. Numbers have decimal digits alone, at
//! most 20 of them; zeros may lead. Options alone, and no words at all, ask for the session of `uci`. `--help` and
//! `--version` each stand alone. All other words are not of the command set, and ask nothing.
#![tactic(auto)]

mod command;
pub mod help;
mod number;
mod reader;
mod reading;
pub mod version;

pub use command::Command;
pub use reading::{Asked, read_words};
