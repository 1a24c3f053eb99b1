//! What a shard is asked to do. The repeat is packed and hashed before the turn, so that no other thread waits for
//! that.
use crate::published::Published;
use mate_core::{Claim, PackedFact};
use position_key::Packed;

/// The question whether the attacker wins the repeat at the counter, within this many of his moves.
#[derive(Drop)]
pub struct Query {
    pub repeat: Packed,
    pub counter: u16,
    pub moves: u16,
}

/// What a shard is given: a fact that is to be added to its list, or a question that a fact of the list may answer.
#[derive(Drop)]
pub enum Request {
    /// The answer says whether the fact was stored.
    Publish(PackedFact),
    /// The answer is what the best fact of the list says that serves the query, or nothing.
    Look(Query),
}

/// What the shard answers.
#[derive(Clone, Copy)]
pub enum Answer {
    /// Whether the fact was stored, or why it was not.
    Published(Published),
    /// What the fact that was found says of its repeat, or that none serves.
    Found(Option<Claim>),
}
