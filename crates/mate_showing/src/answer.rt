//! What a solve answers.

use rules_model::Repeat;
use strategy::{Counters, Strategy};

/// What a game comes to within some number of moves.
#[derive(Drop)]
pub enum Settled {
    /// It is won, and this is how.
    Shown(Strategy),
    /// It is not won.
    NoMate,
    /// It seems won where positions are looked at without their history, and no table of nodes shows it: near the
    /// move-count limit this repeat stands on winning lines at these counters, which are too many.
    Unsettled { repeat: Repeat, counters: Counters },
}
