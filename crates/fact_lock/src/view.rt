//! What a seat at the lock's table knows. No value of these types is made.
use std::collections::LinkedList;

/// Where a seat stands in the line.
pub enum Stage {
    Rests,
    /// It holds this ticket.
    Waits(u64),
    /// It holds this ticket, its turn has come, and the value is out with it.
    Acts(u64),
}

pub struct View<K, E> {
    /// The lock's key; a seat that was joined to another has none.
    pub key: Option<K>,
    /// A beginning of the list.
    pub seen: LinkedList<E>,
    /// What the seat that was joined to this one had seen.
    pub told: LinkedList<E>,
    /// The places of the entries that were added with this seat.
    pub own: LinkedList<u64>,
    pub parts: u64,
    pub stage: Stage,
}
