/// What became of a fact that was published.
#[derive(Clone, Copy, PartialEq, Eq)]
pub enum Published {
    /// It stands at the end of its shard's list, at a place of the pass.
    Stored,
    /// The list has a fact of its repeat and kind that serves every query which this one serves.
    KnownBetter,
    /// The list has as many facts as its capacity.
    Full,
}
