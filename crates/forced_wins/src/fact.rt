//! Facts on positions without their history.
ghost use Rattle.std.specs.Prelude.{◌≡◌};
ghost use Rattle.forced_wins.specs.Facts as Facts;
ghost use Rattle.forced_wins.specs.Tables as Tables;

use rules_model::{Move, Repeat, Side};

/// A win, or a refutation, of the positions of a repeat for the side that attacks.
#[derive(Clone, Copy, PartialEq, Eq)]
pub struct Fact {
    pub repeat: Repeat,
    pub attacker: Side,
    /// Within how many of the attacker's own moves.
    pub moves: u16,
    /// A win stands at each counter up to it, a refutation at each counter from it on.
    pub counter: u16,
    /// The move that wins, or refutes, where a single one does.
    pub best: Option<Move>,
    /// Whether the attacker wins.
    pub wins: bool,
}

impl Fact {
    /// Whether the fact answers, for its own repeat, if the attacker wins at the counter within so many of his moves: a
    /// win answers yes for as many moves or more at a counter up to its own, a refutation no for as many or fewer at
    /// one from its own on.
    pub fn covers(&self, counter: u16, moves: u16) -> bool
        ensures { result ≡ Facts.covers self.now self.now.wins counter moves }
    {
        if self.wins {
            self.moves <= moves && counter <= self.counter
        } else {
            moves <= self.moves && self.counter <= counter
        }
    }
}

/// Whether a strategy's edge may lead from a rank to another: the rank falls at a move of the attacker, and does not
/// rise at one of the other side.
pub fn is_falling(is_attacking: bool, from: u16, to: u16) -> bool
    ensures { result ≡ Tables.fits_rank is_attacking from to }
{
    if is_attacking { to < from } else { to <= from }
}
