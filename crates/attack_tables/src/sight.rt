//! The squares that are seen from a square along its file: from there the other king attacks, where kings fly.
ghost use Rattle.std.specs.Prelude.{◌≡◌, ◌&&◌, ℕ, ◌<◌, nat_lt, IfOk};
ghost use Rattle.square_set.specs.Members.{has};
ghost use Rattle.attack_tables.specs.Sights as Sights;

use foundation::Memory;
use move_tables::{Line, Passage};
use square_set::{EMPTY, Set};
use std::alloc::Global;

/// The other squares of a square's file.
#[derive(Clone, Copy, PartialEq, Eq)]
pub struct Sight {
    pub above: Set,
    pub below: Set,
}

fn is_above(at: u8, square: u8) -> bool
    ensures { result ≡ Sights.is_above at square }
{
    square % 12 == at % 12 && at < square
}

fn is_below(at: u8, square: u8) -> bool
    ensures { result ≡ Sights.is_below at square }
{
    square % 12 == at % 12 && square < at
}

fn squares_above(at: u8) -> Set
    ensures { (s : ℕ) → has result s ≡ (nat_lt s 120 && Sights.is_above at s) }
{
    let mut set = EMPTY;
    for square in 0..120u8 {
        if is_above(at, square) {
            set = set.with(square);
        }
    }
    set
}

fn squares_below(at: u8) -> Set
    ensures { (s : ℕ) → has result s ≡ (nat_lt s 120 && Sights.is_below at s) }
{
    let mut set = EMPTY;
    for square in 0..120u8 {
        if is_below(at, square) {
            set = set.with(square);
        }
    }
    set
}

fn sight_of(at: u8) -> Sight
    ensures { Sights.IsSightOf at result }
{
    Sight {
        above: squares_above(at),
        below: squares_below(at),
    }
}

/// What is seen from each square.
pub(crate) fn sights(alloc: Global) -> Result<Vec<Sight>, Memory>
    ensures { IfOk result (λ sights. Sights.AreSights sights.items) }
{
    let mut sights = Vec::with_capacity(alloc, 120)?;
    for at in 0..120u8 {
        sights.push(sight_of(at))?;
    }
    Ok(sights)
}

impl Sight {
    /// The squares that are seen, up to the first piece above and below.
    pub(crate) fn reach(self, occupied: Set) -> Set
        ensures { (s : ℕ) → s < 128 → has result s ≡ Sights.sees self occupied s }
    {
        let up = Line {
            squares: self.above,
            rising: true,
            passage: Passage::Slide,
        };
        let down = Line {
            squares: self.below,
            rising: false,
            passage: Passage::Slide,
        };
        up.reach(occupied).or(down.reach(occupied))
    }
}
