//! What is found at a depth.
ghost use Rattle.std.specs.Prelude.{◌≡◌, ◌<◌, length};
ghost use Rattle.session_model.specs.Mates.{counters_of};
ghost use Rattle.session_model.specs.Thinking.{announced_by};
ghost use Rattle.thinking.specs.Views.{evidence_of, announced_seen, score_seen};

use rules_model::{Move, Repeat};
use strategy::{Counters, Strategy};
use watching::Cut;

/// What a depth scores.
#[derive(Drop)]
pub enum Score {
    /// The value.
    Points(i32),
    /// The mover mates within this number of moves, by this strategy.
    Mates(u16, Strategy),
    /// The other side mates within this number of moves, by this strategy.
    Mated(u16, Strategy),
}

/// Why a mate that was looked for stays unsettled: near the move-count limit this repeat stands on winning lines at
/// these counters, the first one and the others, which are too many.
#[derive(Drop)]
pub struct Evidence {
    pub repeat: Repeat,
    pub first: u16,
    pub others: Counters,
}

/// What is found at a depth.
#[derive(Drop)]
pub struct DepthResult {
    pub score: Score,
    pub best: Move,
    pub unsettled: Option<Evidence>,
    /// The greatest count of nodes that one worker entered in the search.
    pub nodes: u64,
}

/// A solve within this number of moves that was cut.
#[derive(Clone, Copy, PartialEq, Eq)]
pub(crate) struct CutSolve {
    pub moves: u16,
    pub why: Cut,
}

/// The strategy of the mate that was announced last, and its number of moves.
#[derive(Drop)]
pub struct AnnouncedMate {
    pub strategy: Strategy,
    pub moves: u16,
}

/// A repeat and its counters, of which there is at least one, as evidence.
pub(crate) fn evidence_at(repeat: Repeat, mut counters: Counters) -> Evidence
    requires { 0 < length counters }
    ensures repeat { result.repeat ≡ repeat }
    ensures counters { counters_of (evidence_of result) ≡ counters }
{
    let first = counters.items.remove(0);
    Evidence {
        repeat,
        first,
        others: counters,
    }
}

/// The mate that is kept after one more depth.
pub(crate) fn announced_by(kept: Option<AnnouncedMate>, score: Score) -> Option<AnnouncedMate>
    ensures { announced_seen result ≡ announced_by (score_seen score) (announced_seen kept) }
{
    match score {
        Score::Points(_) => kept,
        Score::Mates(moves, strategy) | Score::Mated(moves, strategy) => {
            Some(AnnouncedMate { strategy, moves })
        }
    }
}
