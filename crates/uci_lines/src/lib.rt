//! What the lines of a UCI session ask: their commands and words, the options and positions that they set, and the
//! limits of a search.
#![tactic(auto)]

mod go_words;
mod limits;
mod line;
mod numbers;
mod setting;
mod words;

pub use go_words::{Go, read_go};
pub use limits::{allowance, is_held, last_depth, last_mate, roots_of, share_of, time_for};
pub use line::{CommandKind, read_line};
pub use numbers::number;
pub use setting::{Placing, Setting, read_placing, read_setting};
pub use words::{joined, joined_by, words_in};
