//! One depth, with its lines.
ghost use Rattle.std.specs.Prelude.{◌≡◌, ◌≤◌, IfOk, IsErrOf, Some};
ghost use Rattle.session_model.specs.declared.limits.TheConstants.{MOST_DEPTH};
ghost use Rattle.std.specs.Io.KnownBytes.{IsAtEnd};
ghost use Rattle.io_ports.specs.Clock.{GivesReadings, count_after, last_after};
ghost use Rattle.io_ports.specs.Trace.{Moves};
ghost use Rattle.io_ports.specs.declared.limits.SearchFault.{SearchFault};
ghost use Rattle.session_model.specs.Lines.{Causes};
ghost use Rattle.thinking.specs.Depths.{BrokeDepth, Deeper, cut_in};
ghost use Rattle.thinking.specs.Tells.{reads_by};
ghost use Rattle.thinking.specs.Views.{IsTask, task_seen};

use crate::EngineState;
use crate::depth_result::{CutSolve, DepthResult};
use crate::judging::{DepthJudged, DepthSearched, search_and_judge};
use crate::lines::depth_lines;
use crate::style::Style;
use crate::task::Task;
use io_ports::{Clock, Dialect, Gate, Limits, LineBuf, SearchFault, Sink, Source};
use std::alloc::Global;
use std::sync::Wait;
use std::thread::Threads;
use watching::{Cut, say_some};

/// How one depth ended.
#[derive(Drop)]
pub(crate) enum Depth {
    /// It was searched: what was found, the reading of the clock after it in milliseconds where lines have times, and
    /// the solve that was cut after its search, where one was.
    Done {
        found: DepthResult,
        clock: u64,
        cut: Option<CutSolve>,
    },
    /// Its search was cut.
    Off(Cut),
}

// Reads the clock where lines have times.
fn reading_for<C: Clock>(style: Style, clock: &mut C) -> u64
    ensures given { GivesReadings (C.count clock.new) (C.given clock.old) (C.given clock.new) (reads_by style result) }
    ensures count { C.count clock.new ≡ count_after (C.count clock.old) (reads_by style result) }
    ensures last { C.last clock.new ≡ last_after (C.last clock.old) (reads_by style result) }
{
    match style {
        Style::Post => clock.now(),
        Style::Uci | Style::Silent => 0,
    }
}

/// Searches the task to one depth, from 1 to 64, after a first reading of the clock, and tells of it. A mate that the
/// value stands for is looked for.
///
/// # Errors
///
/// The fault of the source or of the sink; or no memory. What was written until then is a front part of what
/// may be written.
pub(crate) fn search_depth<R: Threads + Wait + Sync, S: Source, K: Sink, C: Clock, G: Gate + Sync>(
    rt: &R,
    alloc: Global,
    engine: &mut EngineState,
    task: &Task,
    style: Style,
    first: u64,
    depth: u8,
    limits: Limits,
    source: &mut S,
    sink: &mut K,
    clock: &mut C,
    gate: &G,
    dialect: Dialect,
    line: &mut LineBuf,
) -> Result<Depth, SearchFault>
    requires task { IsTask task.now }
    requires least { 1 ≤ depth }
    requires most { depth ≤ MOST_DEPTH }
    ensures search_depth { IfOk result (Deeper dialect style
        (Moves S.left K.taken C.given C.count C.last source.old source.new sink.old sink.new clock.old clock.new)
        (S.owed source.old) (S.owed source.new) (task_seen task.now) first depth limits line.new) }
    ensures broke { (why : SearchFault) → IsErrOf result why → BrokeDepth dialect style
        (Moves S.left K.taken C.given C.count C.last source.old source.new sink.old sink.new clock.old clock.new)
        (task_seen task.now) first depth limits }
    ensures end { IfOk result (λ d. cut_in d ≡ Some Cut.End → IsAtEnd (S.left source.new)) }
    ensures causes { Causes (S.faults source.old) (S.faults source.new) (K.faults sink.old) (K.faults sink.new)
        (IsErrOf result) }
    ensures same { engine.new ≡ engine.old }
{
    let explored = search_and_judge(
        rt, alloc, engine, task, depth, limits, source, sink, clock, gate, dialect, line,
    )?;
    match explored {
        DepthSearched::Off(why) => Ok(Depth::Off(why)),
        DepthSearched::Found(judged) => {
            let DepthJudged { found, cut } = judged;
            let reading = reading_for(style, clock);
            task.game.prove_played();
            let text = depth_lines(
                alloc,
                style,
                task.game.rules(),
                first,
                depth,
                &found,
                reading,
            )?;
            say_some(sink, text.items.as_slice())?;
            Ok(Depth::Done {
                found,
                clock: reading,
                cut,
            })
        }
    }
}
