//! What the workers of a solve tell each other. No cell has a rule: any value at any time does no harm.
use rules_model::Memory;
use std::alloc::Global;
use std::sync::atomic::{AtomicU64, Ordering};
use watching::{MoveMarks, Round, StopFlag};

/// What a worker found of a root move: whether it decides the root, and whether the shards tell all workers so.
#[derive(Clone, Copy)]
pub(crate) struct RootFinding {
    pub decides: bool,
    pub published: bool,
}

/// Whether the race is over, what became of each root move, how many are not settled, and which is to be tried first in
/// the end.
#[derive(Drop)]
pub(crate) struct Shared {
    pub over: StopFlag,
    marks: MoveMarks,
    open: AtomicU64,
    favoured: AtomicU64,
}

impl Shared {
    /// Nothing is known of N root moves.
    pub fn new(alloc: Global, roots: usize) -> Result<Shared, Memory> {
        Ok(Shared {
            over: StopFlag::new(),
            marks: MoveMarks::new(alloc, roots)?,
            open: AtomicU64::new(roots as u64),
            favoured: AtomicU64::new(0),
        })
    }

    /// Whether a worker is to take the root move.
    pub fn takes(&self, i: usize, round: Round) -> bool {
        if self.over.is_raised() {
            return false;
        }
        self.marks.takes(i, round)
    }

    /// The root move is to be tried first in the end.
    pub fn favour(&self, i: usize) {
        self.favoured.store(i as u64, Ordering::SeqCst);
    }

    /// Which root move is to be tried first: the first one, if none was named.
    pub fn favoured(&self) -> usize {
        self.favoured.load(Ordering::SeqCst) as usize
    }

    /// The worker of this number has settled the root move. The race is over where it decides the root, and where no
    /// other is left. What a worker beside the first has found counts only where the first can learn it from the
    /// shards.
    pub fn tell(&self, i: usize, finding: RootFinding, number: u32) {
        if number != 0 && !finding.published {
            return;
        }
        if finding.decides {
            self.over.raise();
        }
        if self.marks.finish(i) && self.open.fetch_sub(1, Ordering::SeqCst) <= 1 {
            self.over.raise();
        }
    }
}
