//! The session: one line after another, each answered, up to `quit` or the end of the lines.
ghost use Rattle.std.specs.Prelude.{◌≡◌, Ok, OnOk, OnErr, IsErrOf};
ghost use Rattle.std.specs.Io.KnownBytes.{IsAtEnd};
ghost use Rattle.io_ports.specs.Trace.{Moves, Reads};
ghost use Rattle.session_model.specs.UciSession.{uci};
ghost use Rattle.session_model.specs.Lines.{Causes};
ghost use Rattle.session_model.specs.Spoken.{Spoke, SpokePart, TookQuit};
ghost use Rattle.session_model.specs.declared.ended.Ended.TheVariants as Ended;
ghost use Rattle.watching.specs.Stopping.{AreSamePorts};

use crate::UciSession;
use crate::answering::{answer, quits};
use io_ports::{Clock, Files, Gate, Got, LineBuf, Ports, SearchFault, Sink, Source};
use session_model::Ended;
use std::alloc::Global;
use std::sync::Wait;
use std::thread::Threads;

/// The session over ports that are lent singly.
fn serve_lent<R, S, K, C, G, F>(
    rt: &R,
    alloc: Global,
    session: &mut UciSession,
    source: &mut S,
    sink: &mut K,
    clock: &mut C,
    gate: &G,
    files: &mut F,
    line: &mut LineBuf,
) -> Result<Ended, SearchFault>
where
    R: Threads + Wait + Sync,
    S: Source,
    K: Sink,
    C: Clock,
    G: Gate + Sync,
    F: Files,
    ensures spoke { OnOk result (Spoke uci
        (Moves S.left K.taken C.given C.count C.last source.old source.new sink.old sink.new clock.old clock.new)
        (Reads F.contents F.faults files.old files.new)
        (S.owed source.old) (F.contents files.old) (S.left source.old) session.old) }
    ensures part { OnErr result (SpokePart uci
        (Moves S.left K.taken C.given C.count C.last source.old source.new sink.old sink.new clock.old clock.new)
        (Reads F.contents F.faults files.old files.new) (F.contents files.old) session.old) }
    ensures quit { result ≡ Ok Ended.Quit → TookQuit uci
        (Moves S.left K.taken C.given C.count C.last source.old source.new sink.old sink.new clock.old clock.new) }
    ensures end { result ≡ Ok Ended.InputEnded → IsAtEnd (S.left source.new) }
    ensures causes { Causes (S.faults source.old) (S.faults source.new) (K.faults sink.old) (K.faults sink.new)
        (IsErrOf result) }
{
    let mut next = source.next_line(line);
    for _ in 0..u64::MAX {
        match next {
            Got::End => return Ok(Ended::InputEnded),
            Got::Failed => return Err(SearchFault::ReadFault),
            Got::Line | Got::TooLong => {
                if quits(next, line) {
                    return Ok(Ended::Quit);
                }
                next = answer(
                    rt, alloc, session, source, sink, clock, gate, files, next, line,
                )?;
            }
        }
    }
    Err(SearchFault::Memory)
}

/// Answers the lines of the source in the UCI protocol, one after another, up to `quit` or the end of the lines.
///
/// # Errors
///
/// The fault of the source or of the sink; or there was no memory. What was written until then is a front part of what
/// may be written to the lines that were taken.
pub fn serve<R, S, K, C, G, F>(
    rt: &R,
    alloc: Global,
    session: &mut UciSession,
    ports: &mut Ports<S, K, C, G>,
    files: &mut F,
) -> Result<Ended, SearchFault>
where
    R: Threads + Wait + Sync,
    S: Source,
    K: Sink,
    C: Clock,
    G: Gate + Sync,
    F: Files,
    ensures spoke { OnOk result (Spoke uci
        (Moves S.left K.taken C.given C.count C.last
        ports.entry.now.source.now ports.exit.now.source.now
        ports.entry.now.sink.now ports.exit.now.sink.now
        ports.entry.now.clock.now ports.exit.now.clock.now)
        (Reads F.contents F.faults files.old files.new)
        (S.owed ports.entry.now.source.now) (F.contents files.old) (S.left ports.entry.now.source.now) session.old) }
    ensures part { OnErr result (SpokePart uci
        (Moves S.left K.taken C.given C.count C.last
        ports.entry.now.source.now ports.exit.now.source.now
        ports.entry.now.sink.now ports.exit.now.sink.now
        ports.entry.now.clock.now ports.exit.now.clock.now)
        (Reads F.contents F.faults files.old files.new) (F.contents files.old) session.old) }
    ensures quit { result ≡ Ok Ended.Quit → TookQuit uci
        (Moves S.left K.taken C.given C.count C.last
        ports.entry.now.source.now ports.exit.now.source.now
        ports.entry.now.sink.now ports.exit.now.sink.now
        ports.entry.now.clock.now ports.exit.now.clock.now) }
    ensures end { result ≡ Ok Ended.InputEnded → IsAtEnd (S.left ports.exit.now.source.now) }
    ensures causes { Causes (S.faults ports.entry.now.source.now) (S.faults ports.exit.now.source.now)
        (K.faults ports.entry.now.sink.now) (K.faults ports.exit.now.sink.now) (IsErrOf result) }
    ensures same { AreSamePorts ports.entry.now ports.exit.now }
{
    let mut line = LineBuf::new(alloc)?;
    serve_lent(
        rt,
        alloc,
        session,
        ports.source,
        ports.sink,
        ports.clock,
        ports.gate,
        files,
        &mut line,
    )
}
