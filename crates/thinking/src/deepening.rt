//! One depth after another.
ghost use Rattle.std.specs.Prelude.{◌≡◌, IfOk, IsErrOf, Some};
ghost use Rattle.std.specs.Io.KnownBytes.{IsAtEnd};
ghost use Rattle.io_ports.specs.Trace.{Moves};
ghost use Rattle.rules_model.specs.declared.moves.Move.{Move};
ghost use Rattle.io_ports.specs.declared.limits.SearchFault.{SearchFault};
ghost use Rattle.session_model.specs.UciSession.{first_of};
ghost use Rattle.session_model.specs.Lines.{Causes};
ghost use Rattle.thinking.specs.Depths.{BrokeOff, Deepened};
ghost use Rattle.thinking.specs.Views.{IsStart, IsTask, task_seen};

use crate::EngineState;
use crate::depth::{Depth, search_depth};
use crate::depth_result::{AnnouncedMate, DepthResult, announced_by};
use crate::style::Style;
use crate::task::{Start, Task, quota_left};
use io_ports::{Clock, Dialect, Gate, Limits, LineBuf, SearchFault, Sink, Source};
use rules_model::Move;
use std::alloc::Global;
use std::sync::Wait;
use std::thread::Threads;
use watching::Cut;

/// What one depth after another comes to.
#[derive(Drop)]
pub struct Depths {
    /// The move of the last depth, else the first root move.
    pub best: Move,
    /// The mate that was announced last, where one was.
    pub kept: Option<AnnouncedMate>,
    /// What cut the search, or a solve after it.
    pub why: Option<Cut>,
}

/// Searches the task to one depth after another, and tells of each, until all are done or one is cut. A mate that a
/// value stands for is looked for, and announced with the strategy that shows it.
///
/// # Errors
///
/// The fault of the source or of the sink; or no memory. What was written until then is a front part of what
/// may be written.
pub fn iterative_deepening<R: Threads + Wait + Sync, S: Source, K: Sink, C: Clock, G: Gate + Sync>(
    rt: &R,
    alloc: Global,
    engine: &mut EngineState,
    task: &Task,
    style: Style,
    start: Start,
    source: &mut S,
    sink: &mut K,
    clock: &mut C,
    gate: &G,
    dialect: Dialect,
    line: &mut LineBuf,
) -> Result<Depths, SearchFault>
    requires task { IsTask task.now }
    requires start { IsStart task.now.time start }
    ensures deepened { (other : Move) → IfOk result (Deepened dialect style
        (Moves S.left K.taken C.given C.count C.last source.old source.new sink.old sink.new clock.old clock.new)
        (S.owed source.old) (S.owed source.new) (task_seen task.now) (first_of other task.now.roots.now) start.first
        line.new) }
    ensures broke { (why : SearchFault) → IsErrOf result why → BrokeOff dialect style
        (Moves S.left K.taken C.given C.count C.last source.old source.new sink.old sink.new clock.old clock.new)
        (task_seen task.now) start.first }
    ensures end { IfOk result (λ depths. depths.why ≡ Some Cut.End → IsAtEnd (S.left source.new)) }
    ensures causes { Causes (S.faults source.old) (S.faults source.new) (K.faults sink.old) (K.faults sink.new)
        (IsErrOf result) }
    ensures same { engine.new ≡ engine.old }
{
    let mut best = task.roots[0];
    let mut kept = None;
    let mut entered: u64 = 0;
    for done in 0..task.depths {
        let limits = Limits {
            quota: quota_left(task.share, entered),
            deadline: start.deadline,
        };
        let depth = search_depth(
            rt,
            alloc,
            engine,
            task,
            style,
            start.first,
            done + 1,
            limits,
            source,
            sink,
            clock,
            gate,
            dialect,
            line,
        )?;
        match depth {
            Depth::Off(why) => {
                return Ok(Depths {
                    best,
                    kept,
                    why: Some(why),
                });
            }
            Depth::Done { found, cut, .. } => {
                let DepthResult {
                    score,
                    best: chosen,
                    nodes,
                    ..
                } = found;
                best = chosen;
                kept = announced_by(kept, score);
                entered = entered.saturating_add(nodes);
                if let Some(solve) = cut {
                    return Ok(Depths {
                        best,
                        kept,
                        why: Some(solve.why),
                    });
                }
            }
        }
    }
    Ok(Depths {
        best,
        kept,
        why: None,
    })
}
