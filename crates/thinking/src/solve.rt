//! One solve.
ghost use Rattle.std.specs.Prelude.{◌≡◌, ◌≤◌, IfOk};
ghost use Rattle.session_model.specs.declared.limits.TheConstants.{MOST_MATE};
ghost use Rattle.game_play.specs.Played.{story};
ghost use Rattle.evaluation.specs.Bounds.{solve_bound};
ghost use Rattle.watching.specs.Stopping.{Partly};
ghost use Rattle.watching.specs.Watched.{moment, world};
ghost use Rattle.thinking.specs.Seeks.{IsRight};

use crate::engine_state::EngineState;
use crate::shared_facts::SharedFacts;
use game_play::Game;
use io_ports::{Clock, Dialect, Gate, Limits, LineBuf, Sink, Source};
use mate_search::{frame_of, solve_watched};
use mate_showing::Settled;
use rules_model::Side;
use std::alloc::Global;
use std::sync::Wait;
use std::thread::Threads;
use watching::{Caller, Halt};

/// Whether the game is won by the side within n of its moves, from 1 to 100, and how.
///
/// # Errors
///
/// As of `search_once`.
pub fn solve_once<R: Threads + Wait + Sync, S: Source, K: Sink, C: Clock, G: Gate + Sync>(
    rt: &R,
    alloc: Global,
    engine: &mut EngineState,
    game: &Game,
    attacker: Side,
    n: u16,
    limits: Limits,
    source: &mut S,
    sink: &mut K,
    clock: &mut C,
    gate: &G,
    dialect: Dialect,
    line: &mut LineBuf,
) -> Result<Settled, Halt>
    requires n { (1 ≤ n) × (n ≤ MOST_MATE) }
    ensures right { IfOk result (IsRight game.now attacker n) }
    ensures sought { Partly (world S.left S.owed S.faults K.taken K.faults C.given C.count C.last) dialect limits
        (moment source.old sink.old clock.old 0) source.new sink.new clock.new line.new
        (solve_bound game.now.rules n (story game.now)) result }
    ensures same { engine.new ≡ engine.old }
{
    engine.make_hints(alloc)?;
    let frame = frame_of(alloc, game, attacker)?;
    let (shards, passes) = engine.take_facts(alloc, frame)?.into_parts();
    let mut watch = Caller {
        source,
        sink,
        clock,
        line,
        dialect,
        limits,
        nodes: 0,
    };
    let (passes, settled) = solve_watched(
        rt,
        alloc,
        game,
        n,
        &shards,
        passes,
        engine.hints(),
        limits.quota,
        engine.threads(),
        gate,
        &mut watch,
    );
    engine.put_facts(SharedFacts::of(shards, passes));
    settled
}
