//! The answer to `go`.
ghost use Rattle.std.specs.Prelude.{◌≡◌, [], true, None, IfOk, OnErr, IsErrOf};
ghost use Rattle.std.specs.Io.KnownBytes.{IsAtEnd};
ghost use Rattle.io_ports.specs.Cause.{Rose};
ghost use Rattle.io_ports.specs.Trace.{Moves};
ghost use Rattle.session_model.specs.Lines.{Causes};
ghost use Rattle.uci_front.specs.Going.{ServesGo, UnservesGo};
ghost use Rattle.uci_front.specs.PlanView.{ArePlies, IsAsked, SaidAtOnce};

use crate::UciSession;
use crate::plan::GoPlan;
use crate::reply::tell;
use crate::searching::{GoResult, search};
use crate::texts::{last_line, perft_line};
use foundation::{Memory, Text};
use game_play::Game;
use io_ports::{Clock, Dialect, Gate, Got, LineBuf, SearchFault, Sink, Source};
use session_model::{next_of, wait_if_held};
use std::alloc::Global;
use std::sync::Wait;
use std::thread::Threads;
use watching::say;

// What is said at once, without a search: a count, or that no move is legal where no best move is held back.
fn at_once(alloc: Global, game: &Game, plan: &GoPlan) -> Result<Option<Text>, Memory>
    requires { ArePlies plan.now.perft }
    ensures { IfOk result (SaidAtOnce game.now plan.now) }
{
    if let Some(plies) = plan.perft {
        return Ok(Some(perft_line(alloc, plies, game)?));
    }
    if plan.legal.items.is_empty() && !plan.holds {
        return Ok(Some(last_line(alloc, None)?));
    }
    Ok(None)
}

// Searches, tells the best move, which may be held back, and takes the next line.
fn go_on<R: Threads + Wait + Sync, S: Source, K: Sink, C: Clock, G: Gate + Sync>(
    rt: &R,
    alloc: Global,
    session: &mut UciSession,
    plan: &GoPlan,
    source: &mut S,
    sink: &mut K,
    clock: &mut C,
    gate: &G,
    line: &mut LineBuf,
) -> Result<Got, SearchFault>
    requires asked { IsAsked session.old plan.now }
    requires perft { plan.now.perft ≡ None }
    requires held { plan.now.legal ≡ [] → plan.now.holds ≡ true }
    ensures served { IfOk result (λ next. ServesGo
        (Moves S.left K.taken C.given C.count C.last source.old source.new sink.old sink.new clock.old clock.new)
        (S.owed source.old) (S.owed source.new) session.old session.new plan.now next line.new) }
    ensures unserved { OnErr result (UnservesGo
        (Moves S.left K.taken C.given C.count C.last source.old source.new sink.old sink.new clock.old clock.new)
        session.old plan.now) }
    ensures end { IfOk result (λ next. next ≡ Got.End → IsAtEnd (S.left source.new)) }
    ensures failed { IfOk result (λ next. next ≡ Got.Failed → Rose (S.faults source.old) (S.faults source.new)) }
    ensures causes { Causes (S.faults source.old) (S.faults source.new) (K.faults sink.old) (K.faults sink.new)
        (IsErrOf result) }
{
    let GoResult { best, kept, why } = search(
        rt, alloc, session, plan, source, sink, clock, gate, line,
    )?;
    let text = last_line(alloc, best)?;
    let why = wait_if_held(source, sink, Dialect::Uci, line, plan.holds, why)?;
    say(sink, text.items.as_slice())?;
    session.keep(kept);
    Ok(next_of(source, line, why))
}

/// Answers `go`, and takes the next line, which a search may have heard already.
///
/// # Errors
///
/// The fault of the source or of the sink; or there was no memory.
pub(crate) fn answer_go<R: Threads + Wait + Sync, S: Source, K: Sink, C: Clock, G: Gate + Sync>(
    rt: &R,
    alloc: Global,
    session: &mut UciSession,
    plan: &GoPlan,
    source: &mut S,
    sink: &mut K,
    clock: &mut C,
    gate: &G,
    line: &mut LineBuf,
) -> Result<Got, SearchFault>
    requires { IsAsked session.old plan.now }
    ensures served { IfOk result (λ next. ServesGo
        (Moves S.left K.taken C.given C.count C.last source.old source.new sink.old sink.new clock.old clock.new)
        (S.owed source.old) (S.owed source.new) session.old session.new plan.now next line.new) }
    ensures unserved { OnErr result (UnservesGo
        (Moves S.left K.taken C.given C.count C.last source.old source.new sink.old sink.new clock.old clock.new)
        session.old plan.now) }
    ensures end { IfOk result (λ next. next ≡ Got.End → IsAtEnd (S.left source.new)) }
    ensures failed { IfOk result (λ next. next ≡ Got.Failed → Rose (S.faults source.old) (S.faults source.new)) }
    ensures causes { Causes (S.faults source.old) (S.faults source.new) (K.faults sink.old) (K.faults sink.new)
        (IsErrOf result) }
{
    match at_once(alloc, session.game(), plan)? {
        Some(text) => {
            session.forget_mate();
            tell(source, sink, line, Some(text.items.as_slice()))
        }
        None => go_on(rt, alloc, session, plan, source, sink, clock, gate, line),
    }
}
