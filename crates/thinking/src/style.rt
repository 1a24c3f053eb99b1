//! How a search tells of its depths.

/// The lines that a search writes for its depths.
#[derive(Clone, Copy, PartialEq, Eq)]
pub enum Style {
    /// Those of UCI.
    Uci,
    /// Those of CECP, each with the time from the first reading of the clock to one after the depth.
    Post,
    /// None.
    Silent,
}
