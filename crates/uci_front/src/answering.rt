//! One line and its answer.
ghost use Rattle.std.specs.Prelude.{◌≡◌, false, IfOk, OnErr, IsErrOf};
ghost use Rattle.std.specs.Io.KnownBytes.{IsAtEnd};
ghost use Rattle.io_ports.specs.Cause.{Rose};
ghost use Rattle.io_ports.specs.Trace.{Moves, Reads};
ghost use Rattle.session_model.specs.UciSession.{uci};
ghost use Rattle.session_model.specs.Lines.{Causes, HasLine, got_line};
ghost use Rattle.session_model.specs.Turned.{Served, Unserved};

use crate::going::answer_go;
use crate::plan::read_plan;
use crate::reply::tell;
use crate::session::{UciSession, bytes_of};
use crate::without_search::answer_plain;
use io_ports::{Clock, Files, Gate, Got, LineBuf, SearchFault, Sink, Source};
use std::alloc::Global;
use std::sync::Wait;
use std::thread::Threads;
use uci_lines::{CommandKind, read_line};

/// Whether the line ends the session.
pub(crate) fn quits(next: Got, line: &LineBuf) -> bool
    ensures { result ≡ uci.quits (got_line next line.now) }
{
    let (kind, _) = read_line(next, line.text());
    matches!(kind, CommandKind::Quit)
}

/// Answers a line that does not end the session, and takes the next line, which a search may have heard already.
///
/// # Errors
///
/// The fault of the source or of the sink; or there was no memory.
pub(crate) fn answer<R, S, K, C, G, F>(
    rt: &R,
    alloc: Global,
    session: &mut UciSession,
    source: &mut S,
    sink: &mut K,
    clock: &mut C,
    gate: &G,
    files: &mut F,
    next: Got,
    line: &mut LineBuf,
) -> Result<Got, SearchFault>
where
    R: Threads + Wait + Sync,
    S: Source,
    K: Sink,
    C: Clock,
    G: Gate + Sync,
    F: Files,
    requires line { HasLine next }
    requires goes_on { uci.quits (got_line next line.old) ≡ false }
    ensures served { IfOk result (λ after. Served uci
        (Moves S.left K.taken C.given C.count C.last source.old source.new sink.old sink.new clock.old clock.new)
        (Reads F.contents F.faults files.old files.new) (S.owed source.old) (S.owed source.new)
        session.old session.new (got_line next line.old) after line.new) }
    ensures unserved { OnErr result (Unserved uci
        (Moves S.left K.taken C.given C.count C.last source.old source.new sink.old sink.new clock.old clock.new)
        (Reads F.contents F.faults files.old files.new) (F.contents files.old) session.old (got_line next line.old)) }
    ensures end { IfOk result (λ after. after ≡ Got.End → IsAtEnd (S.left source.new)) }
    ensures failed { IfOk result (λ after. after ≡ Got.Failed → Rose (S.faults source.old) (S.faults source.new)) }
    ensures causes { Causes (S.faults source.old) (S.faults source.new) (K.faults sink.old) (K.faults sink.new)
        (IsErrOf result) }
    ensures files { F.contents files.new ≡ F.contents files.old }
{
    let (kind, rest) = read_line(next, line.text());
    match kind {
        CommandKind::Go => {
            let plan = read_plan(alloc, session, rest)?;
            answer_go(rt, alloc, session, &plan, source, sink, clock, gate, line)
        }
        _ => {
            let text = answer_plain(alloc, session, files, kind, rest)?;
            tell(source, sink, line, bytes_of(&text))
        }
    }
}
