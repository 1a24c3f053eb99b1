//! Which problem is next.
use std::sync::atomic::{AtomicUsize, Ordering};

/// The number of the next problem. Workers share it. It has no rule: a problem that is taken twice or by nobody does no
/// harm.
#[derive(Drop)]
pub(crate) struct Queue {
    next: AtomicUsize,
}

impl Queue {
    /// No problem was taken.
    pub fn new() -> Queue {
        Queue {
            next: AtomicUsize::new(0),
        }
    }

    /// The number of a problem that nobody has taken, or one past the last problem.
    pub fn take(&self) -> usize {
        self.next.fetch_add(1, Ordering::SeqCst)
    }
}
