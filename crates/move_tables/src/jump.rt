//! A square that is reached over others.
ghost use Rattle.std.specs.Prelude.{◌≡◌, ℕ};
ghost use Rattle.square_set.specs.Members.{has};
ghost use Rattle.move_tables.specs.Lines as Lines;

use square_set::{EMPTY, Set};

/// The target of a lame leap, which is reached where the squares `over` are empty.
#[derive(Clone, Copy, PartialEq, Eq)]
pub struct Jump {
    pub target: Set,
    pub over: Set,
}

impl Jump {
    /// The square that is reached where these are occupied, or none.
    pub fn reach(self, occupied: Set) -> Set
        ensures { (t : ℕ) → has result t ≡ Lines.by_jump self occupied t }
    {
        if self.over.and(occupied).is_empty() {
            self.target
        } else {
            EMPTY
        }
    }
}
