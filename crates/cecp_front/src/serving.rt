//! The session: one line after another, each answered, up to `quit` or the end of the lines.
ghost use Rattle.std.specs.Prelude.{◌≡◌, Ok, IfOk, IsErrOf, OnErr, OnOk, Option};
ghost use Rattle.std.specs.Io.KnownBytes.{Appends, IsAtEnd};
ghost use Rattle.io_ports.specs.Cause.{HasCause, Rose};
ghost use Rattle.io_ports.specs.Files.{Contents};
ghost use Rattle.io_ports.specs.Sink.{AppendsFront};
ghost use Rattle.io_ports.specs.Trace.{Moves};
ghost use Rattle.session_model.specs.CecpSession.{answer_of, cecp};
ghost use Rattle.session_model.specs.Lines.{Causes, got_line};
ghost use Rattle.session_model.specs.Spoken.{Spoke, SpokePart, TookQuit};
ghost use Rattle.session_model.specs.Turned.{Served, Unserved};
ghost use Rattle.watching.specs.Stopping.{AreSamePorts};
ghost use Rattle.cecp_front.specs.Reading.{NoReads};

use crate::command::quits;
use crate::session::CecpSession;
use io_ports::{Clock, Gate, Got, LineBuf, Ports, SearchFault, Sink, Source};
use session_model::Ended;
use std::alloc::Global;
use std::sync::Wait;
use std::thread::Threads;
use watching::say_some;

// Answers the line that was taken, before the engine thinks.
fn tell<K: Sink>(
    alloc: Global,
    session: &mut CecpSession,
    sink: &mut K,
    next: Got,
    line: &[u8],
) -> Result<(), SearchFault>
    ensures told { OnOk result (session.new ≡ (answer_of session.old (got_line next line.now)).state) }
    ensures wrote { OnOk result (Appends (K.taken sink.old) (K.taken sink.new)
        (answer_of session.old (got_line next line.now)).text) }
    ensures part { OnErr result (AppendsFront (K.taken sink.old) (K.taken sink.new)
        (answer_of session.old (got_line next line.now)).text) }
    ensures read { ¬ IsErrOf result SearchFault.ReadFault }
    ensures cause { HasCause (K.faults sink.old) (K.faults sink.new) (IsErrOf result SearchFault.WriteFault) }
{
    let text = session.answer_line(alloc, next, line)?;
    say_some(sink, text.items.as_slice())
}

// Answers the line that was taken, thinks where the engine plays, and takes the next line.
fn serve_line<R, S, K, C, G>(
    rt: &R,
    alloc: Global,
    session: &mut CecpSession,
    source: &mut S,
    sink: &mut K,
    clock: &mut C,
    gate: &G,
    next: Got,
    line: &mut LineBuf,
) -> Result<Got, SearchFault>
where
    R: Threads + Wait + Sync,
    S: Source,
    K: Sink,
    C: Clock,
    G: Gate + Sync,
    ensures served { IfOk result (λ after. Served cecp
        (Moves S.left K.taken C.given C.count C.last source.old source.new sink.old sink.new clock.old clock.new)
        NoReads (S.owed source.old) (S.owed source.new) session.old session.new (got_line next line.old)
        after line.new) }
    ensures unserved { (contents : Option Contents) → OnErr result (Unserved cecp
        (Moves S.left K.taken C.given C.count C.last source.old source.new sink.old sink.new clock.old clock.new)
        NoReads contents session.old (got_line next line.old)) }
    ensures end { IfOk result (λ after. after ≡ Got.End → IsAtEnd (S.left source.new)) }
    ensures failed { IfOk result (λ after. after ≡ Got.Failed → Rose (S.faults source.old) (S.faults source.new)) }
    ensures causes { Causes (S.faults source.old) (S.faults source.new) (K.faults sink.old) (K.faults sink.new)
        (IsErrOf result) }
{
    tell(alloc, session, sink, next, line.text())?;
    if session.thinks() {
        session.think(rt, alloc, source, sink, clock, gate, line)
    } else {
        Ok(source.next_line(line))
    }
}

// Whether the line that was taken ends the session.
fn is_last(next: Got, line: &[u8]) -> bool
    ensures { result ≡ cecp.quits (got_line next line.now) }
{
    match next {
        Got::Line => quits(line),
        Got::TooLong | Got::End | Got::Failed => false,
    }
}

/// The session over ports that are lent singly.
fn serve_lent<R, S, K, C, G>(
    rt: &R,
    alloc: Global,
    session: &mut CecpSession,
    source: &mut S,
    sink: &mut K,
    clock: &mut C,
    gate: &G,
) -> Result<Ended, SearchFault>
where
    R: Threads + Wait + Sync,
    S: Source,
    K: Sink,
    C: Clock,
    G: Gate + Sync,
    ensures spoke { (contents : Option Contents) → OnOk result (Spoke cecp
        (Moves S.left K.taken C.given C.count C.last source.old source.new sink.old sink.new clock.old clock.new)
        NoReads (S.owed source.old) contents (S.left source.old) session.old) }
    ensures part { (contents : Option Contents) → OnErr result (SpokePart cecp
        (Moves S.left K.taken C.given C.count C.last source.old source.new sink.old sink.new clock.old clock.new)
        NoReads contents session.old) }
    ensures quit { result ≡ Ok Ended.Quit → TookQuit cecp
        (Moves S.left K.taken C.given C.count C.last source.old source.new sink.old sink.new clock.old clock.new) }
    ensures end { result ≡ Ok Ended.InputEnded → IsAtEnd (S.left source.new) }
    ensures causes { Causes (S.faults source.old) (S.faults source.new) (K.faults sink.old) (K.faults sink.new)
        (IsErrOf result) }
{
    let mut line = LineBuf::new(alloc)?;
    let mut next = source.next_line(&mut line);
    for _turn in 0..u64::MAX {
        match next {
            Got::End => return Ok(Ended::InputEnded),
            Got::Failed => return Err(SearchFault::ReadFault),
            Got::Line | Got::TooLong => {
                if is_last(next, line.text()) {
                    return Ok(Ended::Quit);
                }
                next = serve_line(
                    rt, alloc, session, source, sink, clock, gate, next, &mut line,
                )?;
            }
        }
    }
    Err(SearchFault::Memory)
}

/// Answers the lines of the source, one after another, up to `quit` or the end of the lines, and thinks and moves where
/// the engine plays the side to move. It reads no file.
///
/// # Errors
///
/// The fault of the source or of the sink, or there was no memory. What was written until then is a front part of what
/// may be written to the lines that were taken.
pub fn serve<R, S, K, C, G>(
    rt: &R,
    alloc: Global,
    session: &mut CecpSession,
    ports: &mut Ports<S, K, C, G>,
) -> Result<Ended, SearchFault>
where
    R: Threads + Wait + Sync,
    S: Source,
    K: Sink,
    C: Clock,
    G: Gate + Sync,
    ensures spoke { (contents : Option Contents) → OnOk result (Spoke cecp
        (Moves S.left K.taken C.given C.count C.last
        ports.entry.now.source.now ports.exit.now.source.now
        ports.entry.now.sink.now ports.exit.now.sink.now
        ports.entry.now.clock.now ports.exit.now.clock.now)
        NoReads (S.owed ports.entry.now.source.now) contents (S.left ports.entry.now.source.now) session.old) }
    ensures part { (contents : Option Contents) → OnErr result (SpokePart cecp
        (Moves S.left K.taken C.given C.count C.last
        ports.entry.now.source.now ports.exit.now.source.now
        ports.entry.now.sink.now ports.exit.now.sink.now
        ports.entry.now.clock.now ports.exit.now.clock.now)
        NoReads contents session.old) }
    ensures quit { result ≡ Ok Ended.Quit → TookQuit cecp
        (Moves S.left K.taken C.given C.count C.last
        ports.entry.now.source.now ports.exit.now.source.now
        ports.entry.now.sink.now ports.exit.now.sink.now
        ports.entry.now.clock.now ports.exit.now.clock.now) }
    ensures end { result ≡ Ok Ended.InputEnded → IsAtEnd (S.left ports.exit.now.source.now) }
    ensures causes { Causes (S.faults ports.entry.now.source.now) (S.faults ports.exit.now.source.now)
        (K.faults ports.entry.now.sink.now) (K.faults ports.exit.now.sink.now) (IsErrOf result) }
    ensures same { AreSamePorts ports.entry.now ports.exit.now }
{
    serve_lent(
        rt,
        alloc,
        session,
        ports.source,
        ports.sink,
        ports.clock,
        ports.gate,
    )
}
