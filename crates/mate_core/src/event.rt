//! What workers do to the shared facts, and what they are answered.
use forced_wins::Fact;
use rules_model::Repeat;

/// One atomic step of a worker on the facts of one shard, or on a hint word, which no fact depends on.
#[derive(Clone, Copy)]
pub enum Event {
    Publish {
        worker: u32,
        shard: u32,
        fact: Fact,
    },
    /// Asks whether the attacker wins the repeat at the counter within so many of his moves.
    Look {
        worker: u32,
        shard: u32,
        repeat: Repeat,
        counter: u16,
        moves: u16,
    },
    Hint {
        word: u32,
        value: u64,
    },
}

/// The answer to an event.
#[derive(Clone, Copy)]
pub enum Reply {
    /// The fact now stands at the end of the shard's list.
    Stored,
    /// The list has a fact that answers all that this one does.
    KnownBetter,
    /// The list has as many facts as its capacity.
    Full,
    /// The first of the facts with the least moves among those that answer the query, if there is one.
    Found(Option<Fact>),
    /// The event changes nothing.
    Nothing,
}
