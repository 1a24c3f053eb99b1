//! What one step of growth does.

/// What `grow` has done.
#[derive(Clone, Copy, PartialEq, Eq)]
pub enum Grew {
    /// The most-proving leaf, which has this number, was expanded.
    Expanded(u64),
    /// One of the root's numbers is infinite, and nothing was changed.
    Settled,
}
