//! What `go` searches.
ghost use Rattle.std.specs.Prelude.{◌≡◌, ◌<◌, [], None, Some, true, IfOk, OnErr, IsErrOf, length};
ghost use Rattle.std.specs.Io.KnownBytes.{IsAtEnd};
ghost use Rattle.io_ports.specs.Trace.{Moves};
ghost use Rattle.session_model.specs.Lines.{Causes};
ghost use Rattle.rules_model.specs.Fit.{IsFit};
ghost use Rattle.thinking.specs.Tries.{answer_seen};
ghost use Rattle.uci_front.specs.Searched.{BrokeGoing, HasCome};
ghost use Rattle.uci_front.specs.Trying.{came_by};
ghost use Rattle.uci_front.specs.PlanView.{BeginsWith, IsAsked, IsSayable, mate_said};

use crate::plan::GoPlan;
use crate::session::UciSession;
use crate::texts::{STOPPED, mate_line, no_mate_line};
use foundation::{Memory, Text};
use io_ports::{Clock, Dialect, Gate, Limits, LineBuf, SearchFault, Sink, Source};
use rules_model::{Move, Rules};
use std::alloc::Global;
use std::sync::Wait;
use std::thread::Threads;
use thinking::{
    AnnouncedMate, Depths, MateAttempt, Start, Style, Task, begin, iterative_deepening, try_mates,
    unsettled_line,
};
use watching::{Cut, say};

/// What a `go` comes to that searches.
#[derive(Drop)]
pub(crate) struct GoResult {
    /// The best move, where one is legal.
    pub best: Option<Move>,
    /// The mate that was announced last, where one was.
    pub kept: Option<AnnouncedMate>,
    /// What cut it, if anything.
    pub why: Option<Cut>,
}

// What depths came to, as what `go` came to.
fn go_result_of(depths: Depths) -> GoResult
    ensures { result ≡ record { best = Some depths.best; kept = depths.kept; why = depths.why } }
{
    let Depths { best, kept, why } = depths;
    GoResult {
        best: Some(best),
        kept,
        why,
    }
}

// Searches one depth after another.
fn search_depths<R: Threads + Wait + Sync, S: Source, K: Sink, C: Clock, G: Gate + Sync>(
    rt: &R,
    alloc: Global,
    session: &mut UciSession,
    plan: &GoPlan,
    source: &mut S,
    sink: &mut K,
    clock: &mut C,
    gate: &G,
    line: &mut LineBuf,
) -> Result<GoResult, SearchFault>
    requires asked { IsAsked session.old plan.now }
    requires perft { plan.now.perft ≡ None }
    requires mate { plan.now.mate ≡ None }
    requires some { 0 < length plan.now.legal }
    ensures came { IfOk result (HasCome
        (Moves S.left K.taken C.given C.count C.last source.old source.new sink.old sink.new clock.old clock.new)
        (S.owed source.old) (S.owed source.new) session.old plan.now line.new) }
    ensures broke { OnErr result (BrokeGoing
        (Moves S.left K.taken C.given C.count C.last source.old source.new sink.old sink.new clock.old clock.new)
        session.old plan.now) }
    ensures end { IfOk result (λ came. came.why ≡ Some Cut.End → IsAtEnd (S.left source.new)) }
    ensures causes { Causes (S.faults source.old) (S.faults source.new) (K.faults sink.old) (K.faults sink.new)
        (IsErrOf result) }
    ensures same { session.new ≡ session.old }
{
    let start = begin(clock, plan.time);
    let roots = plan.roots.as_slice();
    let legal = plan.legal.items.as_slice();
    let task = Task {
        game: &session.game,
        roots,
        all: roots.len() == legal.len(),
        depths: plan.depths,
        share: plan.share,
        time: plan.time,
    };
    let depths = iterative_deepening(
        rt,
        alloc,
        &mut session.engine,
        &task,
        Style::Uci,
        start,
        source,
        sink,
        clock,
        gate,
        Dialect::Uci,
        line,
    )?;
    Ok(go_result_of(depths))
}

// What is told of a mate that was looked for, up to N moves.
fn mate_text(alloc: Global, rules: &Rules, last: u16, tried: &MateAttempt) -> Result<Text, Memory>
    requires fit { IsFit rules.now }
    requires sayable { IsSayable rules.now (answer_seen tried.now) }
    ensures { IfOk result (λ text. text ≡ mate_said rules.now last (answer_seen tried.now)) }
{
    match tried {
        MateAttempt::Shown { moves, best, .. } => mate_line(alloc, *moves, best),
        MateAttempt::Unsettled { unsettled, .. } => unsettled_line(alloc, rules, unsettled),
        MateAttempt::Stopped { .. } => {
            let items = STOPPED.to_vec(alloc)?;
            Ok(Text { items })
        }
        MateAttempt::NoMate => no_mate_line(alloc, last),
    }
}

// What a mate that was looked for came to, or none where depth 1 is searched after it.
fn ended_by(tried: MateAttempt, first: Move) -> Option<GoResult>
    ensures { result ≡ came_by first tried }
{
    match tried {
        MateAttempt::Shown {
            moves,
            strategy,
            best,
        } => Some(GoResult {
            best: Some(best),
            kept: Some(AnnouncedMate { strategy, moves }),
            why: None,
        }),
        MateAttempt::Stopped { moves: _moves, why } => Some(GoResult {
            best: Some(first),
            kept: None,
            why: Some(why),
        }),
        MateAttempt::Unsettled {
            moves: _moves,
            unsettled: _unsettled,
        } => None,
        MateAttempt::NoMate => None,
    }
}

// Looks for a mate within 1, 2, .. moves, and searches depth 1 where there is none.
fn search_mate<R: Threads + Wait + Sync, S: Source, K: Sink, C: Clock, G: Gate + Sync>(
    rt: &R,
    alloc: Global,
    session: &mut UciSession,
    plan: &GoPlan,
    first: Move,
    last: u16,
    source: &mut S,
    sink: &mut K,
    clock: &mut C,
    gate: &G,
    line: &mut LineBuf,
) -> Result<GoResult, SearchFault>
    requires asked { IsAsked session.old plan.now }
    requires perft { plan.now.perft ≡ None }
    requires mate { plan.now.mate ≡ Some last }
    requires first { BeginsWith plan.now.legal first }
    ensures came { IfOk result (HasCome
        (Moves S.left K.taken C.given C.count C.last source.old source.new sink.old sink.new clock.old clock.new)
        (S.owed source.old) (S.owed source.new) session.old plan.now line.new) }
    ensures broke { OnErr result (BrokeGoing
        (Moves S.left K.taken C.given C.count C.last source.old source.new sink.old sink.new clock.old clock.new)
        session.old plan.now) }
    ensures end { IfOk result (λ came. came.why ≡ Some Cut.End → IsAtEnd (S.left source.new)) }
    ensures causes { Causes (S.faults source.old) (S.faults source.new) (K.faults sink.old) (K.faults sink.new)
        (IsErrOf result) }
    ensures same { session.new ≡ session.old }
{
    // Tells the prover that the game's rules are fit. Nothing is done.
    session.game.prove_played();
    let begun = begin(clock, plan.time);
    let limits = Limits {
        quota: plan.share,
        deadline: begun.deadline,
    };
    let tried = try_mates(
        rt,
        alloc,
        &mut session.engine,
        &session.game,
        last,
        limits,
        source,
        sink,
        clock,
        gate,
        Dialect::Uci,
        line,
    )?;
    let text = mate_text(alloc, session.game.rules(), last, &tried)?;
    say(sink, text.items.as_slice())?;
    if let Some(came) = ended_by(tried, first) {
        return Ok(came);
    }
    let task = Task {
        game: &session.game,
        roots: plan.legal.items.as_slice(),
        all: true,
        depths: 1,
        share: None,
        time: None,
    };
    let start = Start {
        first: begun.first,
        deadline: None,
    };
    let depths = iterative_deepening(
        rt,
        alloc,
        &mut session.engine,
        &task,
        Style::Uci,
        start,
        source,
        sink,
        clock,
        gate,
        Dialect::Uci,
        line,
    )?;
    Ok(go_result_of(depths))
}

/// Searches what `go` asks, and tells of it, up to the best move.
///
/// # Errors
///
/// The fault of the source or of the sink; or there was no memory.
pub(crate) fn search<R: Threads + Wait + Sync, S: Source, K: Sink, C: Clock, G: Gate + Sync>(
    rt: &R,
    alloc: Global,
    session: &mut UciSession,
    plan: &GoPlan,
    source: &mut S,
    sink: &mut K,
    clock: &mut C,
    gate: &G,
    line: &mut LineBuf,
) -> Result<GoResult, SearchFault>
    requires asked { IsAsked session.old plan.now }
    requires perft { plan.now.perft ≡ None }
    requires held { plan.now.legal ≡ [] → plan.now.holds ≡ true }
    ensures came { IfOk result (HasCome
        (Moves S.left K.taken C.given C.count C.last source.old source.new sink.old sink.new clock.old clock.new)
        (S.owed source.old) (S.owed source.new) session.old plan.now line.new) }
    ensures broke { OnErr result (BrokeGoing
        (Moves S.left K.taken C.given C.count C.last source.old source.new sink.old sink.new clock.old clock.new)
        session.old plan.now) }
    ensures end { IfOk result (λ came. came.why ≡ Some Cut.End → IsAtEnd (S.left source.new)) }
    ensures causes { Causes (S.faults source.old) (S.faults source.new) (K.faults sink.old) (K.faults sink.new)
        (IsErrOf result) }
    ensures same { session.new ≡ session.old }
{
    if plan.legal.items.is_empty() {
        return Ok(GoResult {
            best: None,
            kept: None,
            why: None,
        });
    }
    let first = plan.legal.items[0];
    match plan.mate {
        Some(last) => search_mate(
            rt, alloc, session, plan, first, last, source, sink, clock, gate, line,
        ),
        None => search_depths(rt, alloc, session, plan, source, sink, clock, gate, line),
    }
}
