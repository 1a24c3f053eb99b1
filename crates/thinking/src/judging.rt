//! Mates that the value of a depth stands for.
ghost use Rattle.std.specs.Prelude.{◌≡◌, ◌≤◌, ◌<◌, IfOk, OnErr, IsErrOf, Some, None};
ghost use Rattle.session_model.specs.declared.limits.TheConstants.{MOST_DEPTH};
ghost use Rattle.std.specs.Io.KnownBytes.{IsAtEnd};
ghost use Rattle.io_ports.specs.Trace.{Moves};
ghost use Rattle.game_play.specs.Played.{story};
ghost use Rattle.evaluation.specs.Bounds.{search_bound};
ghost use Rattle.watching.specs.Events.{Listens};
ghost use Rattle.watching.specs.Looks.{Broke};
ghost use Rattle.session_model.specs.Thinking as Thinking;
ghost use Rattle.session_model.specs.Lines.{Causes};
ghost use Rattle.thinking.specs.Judging.{IsJudged, IsExplored, explored_cut, solve_cut};
ghost use Rattle.thinking.specs.Views.{IsTask, task_seen};

use crate::depth_result::{CutSolve, DepthResult, Evidence, Score, evidence_at};
use crate::scores::{favoured, mate_sought, root_move};
use crate::task::{Task, quota_left};
use crate::{EngineState, search_once, solve_once};
use io_ports::{Clock, Dialect, Gate, Limits, LineBuf, SearchFault, Sink, Source};
use mate_showing::Settled;
use rules_model::Move;
use std::alloc::Global;
use std::sync::Wait;
use std::thread::Threads;
use watching::{Cut, Halt};

/// What is found at a depth, and the solve that was cut after its search, where one was.
#[derive(Drop)]
pub(crate) struct DepthJudged {
    pub found: DepthResult,
    pub cut: Option<CutSolve>,
}

/// What a depth comes to: what is found, or a search that was cut.
#[derive(Drop)]
pub(crate) enum DepthSearched {
    Found(DepthJudged),
    Off(Cut),
}

// A depth that no cut leaves open.
fn settled(score: Score, best: Move, unsettled: Option<Evidence>, nodes: u64) -> DepthJudged
    ensures found { result.found ≡ record { score = score; best = best; unsettled = unsettled; nodes = nodes } }
    ensures cut { result.cut ≡ None }
{
    let found = DepthResult {
        score,
        best,
        unsettled,
        nodes,
    };
    DepthJudged { found, cut: None }
}

/// Looks for the mate that the value of a depth stands for, where all legal moves are root moves.
///
/// # Errors
///
/// The fault of the source or of the sink; or no memory. The lines that were heard until then are answered, the last
/// one in part.
pub(crate) fn seek_mate<R: Threads + Wait + Sync, S: Source, K: Sink, C: Clock, G: Gate + Sync>(
    rt: &R,
    alloc: Global,
    engine: &mut EngineState,
    task: &Task,
    depth: u8,
    value: i32,
    best: Move,
    nodes: u64,
    limits: Limits,
    source: &mut S,
    sink: &mut K,
    clock: &mut C,
    gate: &G,
    dialect: Dialect,
    line: &mut LineBuf,
) -> Result<DepthJudged, SearchFault>
    requires task { IsTask task.now }
    requires least { 1 ≤ depth }
    requires value { value ≡ Thinking.value_at (task_seen task.now) depth }
    requires best { Thinking.AttainsAt (task_seen task.now) depth best }
    requires few { nodes ≤ search_bound task.now.game.now.rules depth (story task.now.game.now) }
    ensures judged { IfOk result (IsJudged dialect
        (Moves S.left K.taken C.given C.count C.last source.old source.new sink.old sink.new clock.old clock.new)
        (S.owed source.old) (S.owed source.new) (task_seen task.now) depth limits line.new) }
    ensures broken { OnErr result (Broke dialect
        (Moves S.left K.taken C.given C.count C.last source.old source.new sink.old sink.new clock.old clock.new)
        (Listens dialect)) }
    ensures end { IfOk result (λ judged. solve_cut judged.cut ≡ Some Cut.End → IsAtEnd (S.left source.new)) }
    ensures causes { Causes (S.faults source.old) (S.faults source.new) (K.faults sink.old) (K.faults sink.new)
        (IsErrOf result) }
    ensures same { engine.new ≡ engine.old }
{
    let Some(moves) = mate_sought(task, value) else {
        return Ok(settled(Score::Points(value), best, None, nodes));
    };
    let side = favoured(task.game.position().side, value);
    let solved = solve_once(
        rt, alloc, engine, task.game, side, moves, limits, source, sink, clock, gate, dialect, line,
    );
    match solved {
        Ok(Settled::NoMate) => Ok(settled(Score::Points(value), best, None, nodes)),
        Ok(Settled::Unsettled { repeat, counters }) => {
            let unsettled = Some(evidence_at(repeat, counters));
            Ok(settled(Score::Points(value), best, unsettled, nodes))
        }
        Ok(Settled::Shown(strategy)) => {
            if value < 0 {
                return Ok(settled(Score::Mated(moves, strategy), best, None, nodes));
            }
            let Some(chosen) = root_move(&strategy) else {
                unreachable!();
            };
            Ok(settled(Score::Mates(moves, strategy), chosen, None, nodes))
        }
        Err(Halt::Cut(why)) => {
            let DepthJudged { found, .. } = settled(Score::Points(value), best, None, nodes);
            Ok(DepthJudged {
                found,
                cut: Some(CutSolve { moves, why }),
            })
        }
        Err(Halt::Fault(why)) => Err(why),
    }
}

/// Searches the task to one depth, from 1 to 64, and looks for the mate that the value stands for.
///
/// # Errors
///
/// The fault of the source or of the sink; or no memory. The lines that were heard until then are answered, the last
/// one in part.
pub(crate) fn search_and_judge<
    R: Threads + Wait + Sync,
    S: Source,
    K: Sink,
    C: Clock,
    G: Gate + Sync,
>(
    rt: &R,
    alloc: Global,
    engine: &mut EngineState,
    task: &Task,
    depth: u8,
    limits: Limits,
    source: &mut S,
    sink: &mut K,
    clock: &mut C,
    gate: &G,
    dialect: Dialect,
    line: &mut LineBuf,
) -> Result<DepthSearched, SearchFault>
    requires task { IsTask task.now }
    requires least { 1 ≤ depth }
    requires most { depth ≤ MOST_DEPTH }
    ensures explored { IfOk result (IsExplored dialect
        (Moves S.left K.taken C.given C.count C.last source.old source.new sink.old sink.new clock.old clock.new)
        (S.owed source.old) (S.owed source.new) (task_seen task.now) depth limits line.new) }
    ensures broken { OnErr result (Broke dialect
        (Moves S.left K.taken C.given C.count C.last source.old source.new sink.old sink.new clock.old clock.new)
        (Listens dialect)) }
    ensures end { IfOk result (λ e. explored_cut e ≡ Some Cut.End → IsAtEnd (S.left source.new)) }
    ensures causes { Causes (S.faults source.old) (S.faults source.new) (K.faults sink.old) (K.faults sink.new)
        (IsErrOf result) }
    ensures same { engine.new ≡ engine.old }
{
    let searched = search_once(
        rt, alloc, engine, task.game, task.roots, depth, limits, source, sink, clock, gate,
        dialect, line,
    );
    match searched {
        Ok(found) => {
            let (value, best, nodes) = (found.value, found.best, found.nodes);
            let left = Limits {
                quota: quota_left(limits.quota, nodes),
                deadline: limits.deadline,
            };
            let judged = seek_mate(
                rt, alloc, engine, task, depth, value, best, nodes, left, source, sink, clock,
                gate, dialect, line,
            )?;
            Ok(DepthSearched::Found(judged))
        }
        Err(Halt::Cut(why)) => Ok(DepthSearched::Off(why)),
        Err(Halt::Fault(why)) => Err(why),
    }
}
