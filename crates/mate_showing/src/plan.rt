//! What a table of nodes is made for.
ghost use Rattle.std.specs.Prelude.{◌≡◌, ◌⊎◌, ◌+◌, ◌*◌, ◌≤◌, ◌<◌, true, false};
ghost use Rattle.mate_showing.specs.Tables.{most};
ghost use Rattle.mate_settle.specs.Lines.{plies, seen_in};

use mate_core::Frame;
use rules_model::Position;

/// The root, the number `whole` of the attacker's moves within which it is won, and whether each counter has a node of
/// its own, `exact`. If not, the counter of a node is what is left of `room` after its plies, or the highest that there
/// is.
#[derive(Clone, Copy)]
pub(crate) struct StrategyPlan {
    pub root: Position,
    pub whole: u16,
    pub exact: bool,
    pub room: u32,
}

/// n moves of the attacker in plies.
pub(crate) fn plies_of(frame: &Frame, p: &Position, n: u16) -> u32
    ensures { result ≡ plies (seen_in frame.now) n p.now }
{
    let both = 2 * u32::from(n);
    if p.side.is(frame.attacker) {
        both
    } else {
        both + 1
    }
}

/// The plan for a win from the position within n moves. Each counter has a node of its own where the counter can run
/// out.
pub(crate) fn plan_for(frame: &Frame, p: &Position, n: u16) -> StrategyPlan
    requires small { n ≤ most }
    requires low { p.now.counter ≤ 9999 }
    ensures root { result.root ≡ p.now }
    ensures whole { result.whole ≡ n }
    ensures room { result.room ≡ p.now.counter + plies (seen_in frame.now) n p.now }
    ensures inside { result.exact ≡ false →
        (2 * frame.now.rules.n_move ≡ 0) ⊎ (p.now.counter + (n + n) < 2 * frame.now.rules.n_move) }
    ensures near { result.exact ≡ true →
        (0 < 2 * frame.now.rules.n_move) × (2 * frame.now.rules.n_move ≤ p.now.counter + (n + n)) }
{
    let limit = 2 * u32::from(frame.rules.n_move);
    let counter = u32::from(p.counter);
    StrategyPlan {
        root: *p,
        whole: n,
        exact: 0 < limit && limit <= counter + 2 * u32::from(n),
        room: counter + plies_of(frame, p, n),
    }
}
