//! Sessions: runs that answer the lines of their input as these come, each from the start of its protocol to its end.
ghost use Rattle.std.specs.Prelude.{◌≡◌, ◌≤◌, IsErrOf};
ghost use Rattle.io_ports.specs.Trace.{Moves, Reads};
ghost use Rattle.session_model.specs.Lines.{Causes};
ghost use Rattle.one_shots.specs.Sessions as sessions;
ghost use Rattle.commands.specs.Speaking.{Talks, ended_status, moved_between};
ghost use Rattle.uci_front.specs.SessionView.{BeginsBuiltIn};
ghost use Rattle.watching.specs.Stopping.{AreSamePorts};
ghost use Rattle.words.specs.View.{command_seen};

use cecp_front::CecpSession;
use io_ports::{Clock, Dialect, Files, Gate, Ports, SearchFault, Sink, Source};
use one_shot_checks::{NO_MEMORY, SINK_FAILED, SOURCE_FAILED};
use session_model::laws::variants_have_places;
use std::alloc::Global;
use std::sync::Wait;
use std::thread::Threads;
use uci_front::UciSession;
use variant_ini::Sections;
use variant_rules::load;
use words::Command;

/// The protocol of a command that is a session.
pub(crate) fn dialect_of(command: &Command) -> Option<Dialect>
    ensures { result ≡ sessions.dialect_of (command_seen command.now) }
{
    match command {
        Command::Uci => Some(Dialect::Uci),
        Command::Xboard => Some(Dialect::Cecp),
        _ => None,
    }
}

/// The status of a run whose session ended so.
pub(crate) fn status_of(ended: Result<(), SearchFault>) -> u8
    ensures { result ≡ ended_status ended }
{
    match ended {
        Ok(()) => 0,
        Err(SearchFault::ReadFault) => SOURCE_FAILED,
        Err(SearchFault::WriteFault) => SINK_FAILED,
        Err(SearchFault::Memory) => NO_MEMORY,
    }
}

// Holds a session in UCI.
fn speak_uci<R, S, K, F, C, G>(
    rt: &R,
    alloc: Global,
    sections: Sections,
    threads: u32,
    ports: &mut Ports<S, K, C, G>,
    files: &mut F,
) -> Result<(), SearchFault>
where
    R: Threads + Wait + Sync,
    S: Source,
    K: Sink,
    F: Files,
    C: Clock,
    G: Gate + Sync,
    requires begins { BeginsBuiltIn sections }
    requires threads { (1 ≤ threads) × (threads ≤ 64) }
    ensures talks { Talks Dialect.Uci sections threads
        (moved_between S.left K.taken C.given C.count C.last ports.entry.now ports.exit.now)
        (Reads F.contents F.faults files.old files.new) (S.owed ports.entry.now.source.now)
        (F.contents files.old) (S.left ports.entry.now.source.now) result }
    ensures causes { Causes (S.faults ports.entry.now.source.now) (S.faults ports.exit.now.source.now)
        (K.faults ports.entry.now.sink.now) (K.faults ports.exit.now.sink.now) (IsErrOf result) }
    ensures same { AreSamePorts ports.entry.now ports.exit.now }
{
    variants_have_places();
    let variants = load(alloc, &sections)?;
    let mut session = UciSession::new(alloc, sections, variants, threads)?;
    match uci_front::serve(rt, alloc, &mut session, ports, files) {
        Ok(_) => Ok(()),
        Err(why) => Err(why),
    }
}

// Holds a session in CECP, which reads no file.
fn speak_cecp<R, S, K, F, C, G>(
    rt: &R,
    alloc: Global,
    sections: Sections,
    threads: u32,
    ports: &mut Ports<S, K, C, G>,
    files: &F,
) -> Result<(), SearchFault>
where
    R: Threads + Wait + Sync,
    S: Source,
    K: Sink,
    F: Files,
    C: Clock,
    G: Gate + Sync,
    requires begins { BeginsBuiltIn sections }
    requires threads { (1 ≤ threads) × (threads ≤ 64) }
    ensures talks { Talks Dialect.Cecp sections threads
        (moved_between S.left K.taken C.given C.count C.last ports.entry.now ports.exit.now)
        (Reads F.contents F.faults files.now files.now) (S.owed ports.entry.now.source.now)
        (F.contents files.now) (S.left ports.entry.now.source.now) result }
    ensures causes { Causes (S.faults ports.entry.now.source.now) (S.faults ports.exit.now.source.now)
        (K.faults ports.entry.now.sink.now) (K.faults ports.exit.now.sink.now) (IsErrOf result) }
    ensures same { AreSamePorts ports.entry.now ports.exit.now }
{
    variants_have_places();
    let variants = load(alloc, &sections)?;
    let mut session = CecpSession::new(alloc, sections, variants, threads)?;
    match cecp_front::serve(rt, alloc, &mut session, ports) {
        Ok(_) => Ok(()),
        Err(why) => Err(why),
    }
}

// Holds a session in the dialect of these ports.
fn speak_over<R, S, K, F, C, G>(
    rt: &R,
    alloc: Global,
    sections: Sections,
    threads: u32,
    ports: &mut Ports<S, K, C, G>,
    files: &mut F,
) -> Result<(), SearchFault>
where
    R: Threads + Wait + Sync,
    S: Source,
    K: Sink,
    F: Files,
    C: Clock,
    G: Gate + Sync,
    requires begins { BeginsBuiltIn sections }
    requires threads { (1 ≤ threads) × (threads ≤ 64) }
    ensures talks { Talks ports.entry.now.dialect sections threads
        (moved_between S.left K.taken C.given C.count C.last ports.entry.now ports.exit.now)
        (Reads F.contents F.faults files.old files.new) (S.owed ports.entry.now.source.now)
        (F.contents files.old) (S.left ports.entry.now.source.now) result }
    ensures causes { Causes (S.faults ports.entry.now.source.now) (S.faults ports.exit.now.source.now)
        (K.faults ports.entry.now.sink.now) (K.faults ports.exit.now.sink.now) (IsErrOf result) }
    ensures same { AreSamePorts ports.entry.now ports.exit.now }
{
    match ports.dialect {
        Dialect::Uci => speak_uci(rt, alloc, sections, threads, ports, files),
        Dialect::Cecp => speak_cecp(rt, alloc, sections, threads, ports, files),
    }
}

/// Holds a session in this dialect, with these sections and this number of threads, from its start to `quit` or the end
/// of its lines.
///
/// # Errors
///
/// The fault of the source or of the sink; or there was no memory.
pub(crate) fn speak<R, S, K, F, C, G>(
    rt: &R,
    alloc: Global,
    dialect: Dialect,
    sections: Sections,
    threads: u32,
    source: &mut S,
    sink: &mut K,
    files: &mut F,
    clock: &mut C,
    gate: &G,
) -> Result<(), SearchFault>
where
    R: Threads + Wait + Sync,
    S: Source,
    K: Sink,
    F: Files,
    C: Clock,
    G: Gate + Sync,
    requires begins { BeginsBuiltIn sections }
    requires threads { (1 ≤ threads) × (threads ≤ 64) }
    ensures talks { Talks dialect sections threads
        (Moves S.left K.taken C.given C.count C.last source.old source.new sink.old sink.new clock.old clock.new)
        (Reads F.contents F.faults files.old files.new) (S.owed source.old) (F.contents files.old) (S.left source.old)
        result }
    ensures causes { Causes (S.faults source.old) (S.faults source.new) (K.faults sink.old) (K.faults sink.new)
        (IsErrOf result) }
{
    let mut ports = Ports {
        source,
        sink,
        clock,
        gate,
        dialect,
    };
    speak_over(rt, alloc, sections, threads, &mut ports, files)
}
