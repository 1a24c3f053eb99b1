//! One search.
ghost use Rattle.std.specs.Prelude.{◌≡◌, ◌<◌, ◌≤◌, length, IfOk};
ghost use Rattle.session_model.specs.declared.limits.TheConstants.{MOST_DEPTH};
ghost use Rattle.std.specs.List.{All};
ghost use Rattle.foundation.specs.Member.{Member};
ghost use Rattle.game_play.specs.Played.{legal_in, story};
ghost use Rattle.evaluation.specs.Bounds.{search_bound};
ghost use Rattle.watching.specs.Stopping.{Partly};
ghost use Rattle.watching.specs.Watched.{moment, world};
ghost use Rattle.thinking.specs.Seeks.{IsFound};

use crate::engine_state::EngineState;
use alpha_beta::{Found, search_watched};
use game_play::Game;
use io_ports::{Clock, Dialect, Gate, Limits, LineBuf, Sink, Source};
use rules_model::Move;
use std::alloc::Global;
use std::thread::Threads;
use watching::{Caller, Halt};

/// The value of the game at a depth from 1 to 64 over root moves, at least one and all legal, and one of them that
/// attains it.
///
/// # Errors
///
/// What cut it, and a line that did is then in the line buffer; a fault of the source or the sink, whose count of
/// faults has risen; or no memory.
pub fn search_once<R: Threads + Sync, S: Source, K: Sink, C: Clock, G: Gate + Sync>(
    rt: &R,
    alloc: Global,
    engine: &mut EngineState,
    game: &Game,
    roots: &[Move],
    depth: u8,
    limits: Limits,
    source: &mut S,
    sink: &mut K,
    clock: &mut C,
    gate: &G,
    dialect: Dialect,
    line: &mut LineBuf,
) -> Result<Found, Halt>
    requires depth { (1 ≤ depth) × (depth ≤ MOST_DEPTH) }
    requires legal { All (λ m. Member m (legal_in game.now)) roots.now }
    requires some { 0 < length roots.now }
    ensures found { IfOk result (IsFound game.now roots.now depth) }
    ensures sought { Partly (world S.left S.owed S.faults K.taken K.faults C.given C.count C.last) dialect limits
        (moment source.old sink.old clock.old 0) source.new sink.new clock.new line.new
        (search_bound game.now.rules depth (story game.now)) result }
    ensures same { engine.new ≡ engine.old }
{
    engine.make_hints(alloc)?;
    let mut watch = Caller {
        source,
        sink,
        clock,
        line,
        dialect,
        limits,
        nodes: 0,
    };
    search_watched(
        rt,
        alloc,
        game,
        depth,
        roots,
        engine.hints(),
        limits.quota,
        engine.threads(),
        gate,
        &mut watch,
    )
}
