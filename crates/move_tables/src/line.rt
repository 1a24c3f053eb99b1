//! A straight row of squares from a square, up to the limit of a term.
ghost use Rattle.std.specs.Prelude.{◌≡◌, ℕ, ◌<◌};
ghost use Rattle.square_set.specs.Members.{has};
ghost use Rattle.move_tables.specs.Lines as Lines;

use square_set::Set;

/// How far along its line a piece reaches.
#[derive(Clone, Copy, PartialEq, Eq)]
pub enum Passage {
    /// Up to the first piece.
    Slide,
    /// After the first piece, up to the second.
    Hop,
    /// To the first square after the first piece.
    Grass,
}

/// The squares at the multiples of a step. Their numbers rise or fall with the distance.
#[derive(Clone, Copy, PartialEq, Eq)]
pub struct Line {
    pub squares: Set,
    pub rising: bool,
    pub passage: Passage,
}

impl Line {
    /// The squares that are reached where these are occupied.
    pub fn reach(self, occupied: Set) -> Set
        ensures { (t : ℕ) → t < 128 → has result t ≡ Lines.on_line self occupied t }
    {
        let blockers = self.squares.and(occupied);
        let near = blockers.cover(self.rising);
        match self.passage {
            Passage::Slide => self.squares.and(near),
            Passage::Hop => {
                let second = blockers.minus(near).cover(self.rising);
                self.squares.and(second.minus(near))
            }
            Passage::Grass => {
                let far = self.squares.minus(near);
                far.and(far.cover(self.rising))
            }
        }
    }
}
