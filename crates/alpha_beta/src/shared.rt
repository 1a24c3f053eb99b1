//! What the workers of a race share. No cell has a rule: any value at any time does no harm.
use foundation::Memory;
use std::alloc::Global;
use watching::{MoveMarks, Round, StopFlag, Work};

/// What the workers tell each other: whether they are to stop, and what became of each move.
#[derive(Drop)]
pub(crate) struct SharedMoves {
    pub flag: StopFlag,
    marks: MoveMarks,
}

impl SharedMoves {
    /// Nothing is known of N moves.
    pub fn new(alloc: Global, count: usize) -> Result<SharedMoves, Memory> {
        Ok(SharedMoves {
            flag: StopFlag::new(),
            marks: MoveMarks::new(alloc, count)?,
        })
    }

    /// Whether a worker is to take the move.
    pub fn takes(&self, i: usize, round: Round) -> bool {
        self.marks.takes(i, round)
    }

    /// Whether some move is free, as far as this worker sees.
    pub fn has_free(&self) -> bool {
        self.marks.has_free()
    }

    /// The move is finished.
    pub fn finish(&self, i: usize) {
        self.marks.finish(i);
    }
}

/// The move of a place, as work that ends once another worker has finished the move.
#[derive(Drop)]
pub(crate) struct MoveToFinish<'s> {
    pub shared: &'s SharedMoves,
    pub place: usize,
}

impl Work for MoveToFinish<'_> {
    fn is_over(&self) -> bool {
        !self.shared.takes(self.place, Round::Unfinished)
    }
}
