//! How many games are won within 1 move, 2 and 3.
use std::fmt;

/// How many games are won within 1 to 3 moves and not within fewer, and how many are not won within 3.
#[derive(Clone, Copy)]
pub struct Tally {
    within: [u32; 3],
    open: u32,
}

impl Tally {
    pub fn new() -> Tally {
        Tally {
            within: [0; 3],
            open: 0,
        }
    }

    /// Counts a game that is won within `least` moves and not within fewer, or one that is not won within 3.
    pub fn count(&mut self, least: Option<u16>) {
        let place = match least {
            Some(n) => usize::from(n.saturating_sub(1)),
            None => 3,
        };
        if place < 3 {
            self.within[place] = self.within[place].saturating_add(1);
        } else {
            self.open = self.open.saturating_add(1);
        }
    }
}

impl fmt::Display for Tally {
    fn fmt<W: fmt::Write>(&self, f: &mut fmt::Formatter<W>) -> fmt::Result {
        let [one, two, three] = self.within;
        write!(f, "{one} in 1, {two} in 2, {three} in 3, {} not", self.open)
    }
}
