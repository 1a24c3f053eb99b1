//! What is searched, and its limits.
ghost use Rattle.std.specs.Prelude.{◌≡◌, ◌-◌, [], ◌∷◌};
ghost use Rattle.std.specs.Option.{option_map};
ghost use Rattle.io_ports.specs.Clock.{GivesReadings, count_after};
ghost use Rattle.thinking.specs.Views.{IsStart};

use game_play::Game;
use io_ports::Clock;
use rules_model::Move;

/// What is searched, one depth after another: a game, over root moves that are legal, at least one.
#[derive(Drop)]
pub struct Task<'a> {
    pub game: &'a Game,
    pub roots: &'a [Move],
    /// All legal moves are root moves, so that a mate is looked for where a value stands for one.
    pub all: bool,
    /// The last depth, from 1 to 64.
    pub depths: u8,
    /// The nodes that each worker may enter in all searches together.
    pub share: Option<u64>,
    /// The time from the first reading of the clock to the deadline, in milliseconds.
    pub time: Option<u64>,
}

/// The first reading of the clock, and the deadline.
#[derive(Clone, Copy, PartialEq, Eq)]
pub struct Start {
    /// The first reading, in milliseconds.
    pub first: u64,
    /// The reading from which on the search ends, in milliseconds.
    pub deadline: Option<u64>,
}

/// Reads the clock, and sets the deadline `time` milliseconds later, at most 2^64 - 1; none where no time is given.
pub fn begin<C: Clock>(clock: &mut C, time: Option<u64>) -> Start
    ensures given { GivesReadings (C.count clock.new) (C.given clock.old) (C.given clock.new) (result.first ∷ []) }
    ensures count { C.count clock.new ≡ count_after (C.count clock.old) (result.first ∷ []) }
    ensures last { C.last clock.new ≡ result.first }
    ensures start { IsStart time result }
{
    let first = clock.now();
    let deadline = match time {
        None => None,
        Some(time) => Some(first.saturating_add(time)),
    };
    Start { first, deadline }
}

/// What is left of the share after `entered` nodes, 0 at the least; None where there is no share.
pub(crate) fn quota_left(share: Option<u64>, entered: u64) -> Option<u64>
    ensures { result ≡ option_map (λ number. number - entered) share }
{
    match share {
        None => None,
        Some(number) => Some(number.saturating_sub(entered)),
    }
}
