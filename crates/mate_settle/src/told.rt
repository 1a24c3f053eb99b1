//! What is told of a position.
ghost use Rattle.std.specs.Prelude.{◌≡◌};
ghost use Rattle.mate_settle.specs.Tellings as Tellings;

use mate_core::Fact;

/// Whether the attacker wins from a position: he does within `moves` of his moves, or he does not within as many.
#[derive(Clone, Copy, PartialEq, Eq)]
pub struct Told {
    pub wins: bool,
    pub moves: u16,
}

impl Told {
    /// What a fact tells of its positions.
    pub fn of(fact: &Fact) -> Told
        ensures { result ≡ Tellings.told_of fact.now }
    {
        Told {
            wins: fact.wins,
            moves: fact.moves,
        }
    }
}

/// What is told of a position that is ended: for any number of moves.
pub(crate) fn told_of_end(won: bool) -> Told
    ensures { result ≡ Tellings.told_of_end won }
{
    if won {
        Told {
            wins: true,
            moves: 0,
        }
    } else {
        Told {
            wins: false,
            moves: u16::MAX,
        }
    }
}
