//! The facts that workers share, each shard of them under a lock of its own. Every fact in every shard is true in the
//! frame.
//!
//! The lock is the ticket lock of `fact_lock`: a thread draws a ticket only when it is the one that is served. So
//! nobody waits with a ticket in hand, and threads are not served in the order in which they come. A thread that finds
//! the lock taken spins with pauses and then yields. Each pass for it knows the beginning of the list that it has seen.
#![tactic(auto)]

mod journal;
mod keeps;
mod passes;
mod published;
mod rebase;
mod request;
mod same_rules;
mod shard;
mod shards;

pub use published::Published;
pub use shards::{Passes, Shards, USUAL_FACTS, USUAL_SHARDS};
