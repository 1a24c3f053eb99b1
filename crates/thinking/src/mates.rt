//! Mates that are looked for within 1, 2, .. moves.
ghost use Rattle.std.specs.Prelude.{◌≡◌, ◌≤◌, ◌<◌, IfOk, IsErrOf, Some, length};
ghost use Rattle.session_model.specs.declared.limits.TheConstants.{MOST_MATE};
ghost use Rattle.std.specs.Io.KnownBytes.{IsAtEnd};
ghost use Rattle.io_ports.specs.Trace.{Moves};
ghost use Rattle.io_ports.specs.declared.limits.SearchFault.{SearchFault};
ghost use Rattle.game_play.specs.Played.{legal_in};
ghost use Rattle.session_model.specs.Lines.{Causes};
ghost use Rattle.thinking.specs.Tries.{BrokeTrying, IsTried, cut_in};

use crate::depth_result::{Evidence, evidence_at};
use crate::scores::root_move;
use crate::{EngineState, solve_once};
use game_play::Game;
use io_ports::{Clock, Dialect, Gate, Limits, LineBuf, SearchFault, Sink, Source};
use mate_showing::Settled;
use rules_model::Move;
use std::alloc::Global;
use std::sync::Wait;
use std::thread::Threads;
use strategy::Strategy;
use watching::{Cut, Halt};

/// The first answer of solves within 1, 2, .. moves that is not that there is no mate; or that there is none.
#[derive(Drop)]
pub enum MateAttempt {
    /// The mover mates within this number of moves, by this strategy, with this move first.
    Shown {
        moves: u16,
        strategy: Strategy,
        best: Move,
    },
    /// It stays unsettled whether the mover mates within this number of moves.
    Unsettled {
        moves: u16,
        unsettled: Evidence,
    },
    /// The solve within this number of moves was cut.
    Stopped {
        moves: u16,
        why: Cut,
    },
    /// The mover has no mate.
    NoMate,
}

/// Looks for a mate of the mover, who has a legal move, within 1, 2, .. moves, up to the last number, from 1 to 100.
///
/// # Errors
///
/// The fault of the source or of the sink; or no memory. The lines that were heard until then are answered, the last
/// one in part.
pub fn try_mates<R: Threads + Wait + Sync, S: Source, K: Sink, C: Clock, G: Gate + Sync>(
    rt: &R,
    alloc: Global,
    engine: &mut EngineState,
    game: &Game,
    last: u16,
    limits: Limits,
    source: &mut S,
    sink: &mut K,
    clock: &mut C,
    gate: &G,
    dialect: Dialect,
    line: &mut LineBuf,
) -> Result<MateAttempt, SearchFault>
    requires some { 0 < length (legal_in game.now) }
    requires least { 1 ≤ last }
    requires most { last ≤ MOST_MATE }
    ensures tried { IfOk result (IsTried dialect
        (Moves S.left K.taken C.given C.count C.last source.old source.new sink.old sink.new clock.old clock.new)
        (S.owed source.old) (S.owed source.new) limits game.now last line.new) }
    ensures broke { (why : SearchFault) → IsErrOf result why → BrokeTrying dialect
        (Moves S.left K.taken C.given C.count C.last source.old source.new sink.old sink.new clock.old clock.new)
        game.now last }
    ensures end { IfOk result (λ tried. cut_in tried ≡ Some Cut.End → IsAtEnd (S.left source.new)) }
    ensures causes { Causes (S.faults source.old) (S.faults source.new) (K.faults sink.old) (K.faults sink.new)
        (IsErrOf result) }
    ensures same { engine.new ≡ engine.old }
{
    let mover = game.position().side;
    for before in 0..last {
        let moves = before + 1;
        let solved = solve_once(
            rt, alloc, engine, game, mover, moves, limits, source, sink, clock, gate, dialect, line,
        );
        match solved {
            Ok(Settled::NoMate) => {}
            Ok(Settled::Shown(strategy)) => {
                let Some(best) = root_move(&strategy) else {
                    unreachable!();
                };
                return Ok(MateAttempt::Shown {
                    moves,
                    strategy,
                    best,
                });
            }
            Ok(Settled::Unsettled { repeat, counters }) => {
                return Ok(MateAttempt::Unsettled {
                    moves,
                    unsettled: evidence_at(repeat, counters),
                });
            }
            Err(Halt::Cut(why)) => return Ok(MateAttempt::Stopped { moves, why }),
            Err(Halt::Fault(why)) => return Err(why),
        }
    }
    Ok(MateAttempt::NoMate)
}
