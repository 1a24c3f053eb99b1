//! Scores that stand for mates.
ghost use Rattle.std.specs.Prelude.{◌≡◌, ℕ};
ghost use Rattle.session_model.specs.Mates as Mates;
ghost use Rattle.session_model.specs.Thinking as Thinking;
ghost use Rattle.thinking.specs.Views.{IsTask, task_seen};

use crate::task::Task;
use rules_model::{Move, Side};
use session_model::limits::{LEAST_MATE, MOST_MATE, WON};
use strategy::Strategy;

/// The number of moves of the mate that a value stands for: 31,000 or more either way, and from 1 to 100 moves.
#[tactic(auto, unfolding(session_model::specs::Mates::mate_in))]
pub(crate) fn mate_in(value: i32) -> Option<u16>
    ensures { result ≡ Mates.mate_in value }
{
    let size = value.unsigned_abs();
    if size < LEAST_MATE {
        return None;
    }
    let plies = if value < 0 {
        WON.saturating_sub(size)
    } else {
        (WON + 1).saturating_sub(size)
    };
    let moves = plies / 2;
    if 1 <= moves && moves <= MOST_MATE {
        Some(moves as u16)
    } else {
        None
    }
}

/// The side that a value favours, where this side is to move.
pub(crate) fn favoured(mover: Side, value: i32) -> Side
    ensures { result ≡ Mates.favoured mover value }
{
    if value < 0 { mover.other() } else { mover }
}

/// Within how many moves a mate is looked for after a depth of this value: all legal moves are root moves, and the
/// value stands for a mate.
pub(crate) fn mate_sought(task: &Task, value: i32) -> Option<u16>
    requires task { IsTask task.now }
    ensures { (depth : ℕ) → value ≡ Thinking.value_at (task_seen task.now) depth
        → result ≡ Thinking.mate_sought (task_seen task.now) depth }
{
    if task.all { mate_in(value) } else { None }
}

/// The move at the root of a strategy, where there is one.
pub(crate) fn root_move(strategy: &Strategy) -> Option<Move>
    ensures { result ≡ Mates.root_move strategy.now }
{
    let root = strategy.nodes.items.as_slice().first()?;
    let edge = root.edges.items.as_slice().first()?;
    Some(edge.chosen)
}
