//! What a value under the lock has to say of itself.
ghost use Rattle.std.specs.Prelude.{◌≡◌, ◌++◌, List, Option, length};
ghost use Rattle.fact_lock.specs.Passes.{entries};

/// A value with a list of entries that only grows, by at most one entry at a call.
pub trait Journal {
    /// What no call changes.
    type Key;

    /// What the list is made of.
    type Entry;

    /// What `act` is asked to do.
    type Op;

    /// What `act` answers.
    type Reply;

    /// The key of a value.
    ghost key: { Self → Self.Key };

    /// The list of a value.
    ghost list: { Self → List Self.Entry };

    /// The condition of `act`.
    ghost fits: { Self.Key → Self.Op → Type 0 };

    /// A fact that every value has of its own key and list.
    ghost holds: { Self.Key → List Self.Entry → Type 0 };

    /// The answer of `act` at a key, a list and an operation.
    ghost reply: { Self.Key → List Self.Entry → Self.Op → Self.Reply };

    /// The entry that `act` adds there, if it adds one.
    ghost added: { Self.Key → List Self.Entry → Self.Op → Option Self.Entry };

    /// Does the operation. It takes no memory.
    fn act(&mut self, op: Self::Op) -> Self::Reply
        requires { fits (key self.old) op }
        ensures key { key self.new ≡ key self.old }
        ensures list { list self.new ≡ list self.old ++ entries (added (key self.old) (list self.old) op) }
        ensures reply { result ≡ reply (key self.old) (list self.old) op };

    /// The number of entries. It takes no memory.
    fn len(&self) -> u64
        ensures len { result ≡ length (list self.now) }
        ensures holds { holds (key self.now) (list self.now) };
}
