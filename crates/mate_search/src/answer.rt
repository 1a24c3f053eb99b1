//! What a solve answers that may be cut.

use io_ports::Stopped;
use mate_showing::Settled;
use rules_model::Repeat;
use strategy::{Counters, Strategy};

/// What a solve answers that may be cut.
#[derive(Drop)]
pub enum Mate {
    /// The game is won, and this is how.
    Shown(Strategy),
    /// It is not won.
    NoMate,
    /// The solve was cut.
    Stopped(Stopped),
    /// As `Settled::Unsettled`.
    Unsettled { repeat: Repeat, counters: Counters },
}

impl From<Settled> for Mate {
    ghost use Rattle.std.specs.Prelude.{◌≡◌};
    ghost use Rattle.mate_search.specs.Solves.{mate_of};

    ghost from_gives = { λ settled result. result ≡ mate_of settled };

    fn from(settled: Settled) -> Self {
        match settled {
            Settled::Shown(strategy) => Mate::Shown(strategy),
            Settled::NoMate => Mate::NoMate,
            Settled::Unsettled { repeat, counters } => Mate::Unsettled { repeat, counters },
        }
    }
}
