//! How a session ends.

/// How a session ended that no fault ended.
#[derive(Clone, Copy, PartialEq, Eq)]
pub enum Ended {
    /// A line said `quit`.
    Quit,
    /// No line was left.
    InputEnded,
}
