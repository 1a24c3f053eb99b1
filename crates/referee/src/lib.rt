//! The referee in memory: the commands of the program that a referee answers, over bytes that are given. One thread
//! works each of them out, without waiting.
#![tactic(auto)]

mod answering;
mod games;
mod given_file;
mod word_list;

pub use answering::{Reply, reply_to};
pub use games::{Begun, begin, play};
