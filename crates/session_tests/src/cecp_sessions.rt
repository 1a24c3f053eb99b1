//! Tests of `cecp_front`.
use crate::expect::{expect, expect_eq_at, expect_of};
use cecp_front::{CecpSession, serve};
use foundation::Memory;
use io_ports::{Dialect, ListClock, MemSink, MemSource, OpenGate, PollsOwed, Ports, SearchFault};
use session_model::Ended;
use std::alloc::Global;
use std::process::Abort;
use std::sync::Wait;
use std::thread::Threads;
use variant_rules::{builtin, load};

/// The line of the variants that are built in.
const FEATURES: &str = "feature ping=1 setboard=1 usermove=1 colors=0 sigint=0 sigterm=0 \
    myname=\"vengine\" variants=\"normal,crazyhouse,3check,kingofthehill,antichess,extinction,\
    losalamos,capablanca,seirawan,xiangqi\" done=1\n";

/// How a session of the lines of the source ends.
fn talk<R: Threads + Wait + Sync>(
    rt: &R,
    alloc: Global,
    session: &mut CecpSession,
    source: &mut MemSource,
    sink: &mut MemSink,
    clock: &mut ListClock,
) -> Result<Ended, SearchFault> {
    let mut ports = Ports {
        source,
        sink,
        clock,
        gate: &OpenGate,
        dialect: Dialect::Cecp,
    };
    serve(rt, alloc, session, &mut ports)
}

/// How a session of these lines ends, with a clock that stands still, and what it wrote.
fn served<R: AllocGlobal + Threads + Wait + Sync>(
    rt: &R,
    input: &str,
    polls: PollsOwed,
    failing: &[u64],
    room: usize,
) -> Result<(Result<Ended, SearchFault>, MemSink), Memory> {
    let alloc = rt.alloc();
    let mut source = MemSource::new(alloc, input.as_bytes(), polls, failing)?;
    let mut sink = MemSink::new(alloc, room)?;
    let mut clock = ListClock::new(alloc, &[0])?;
    let sections = builtin(alloc)?;
    let variants = load(alloc, &sections)?;
    let mut session = CecpSession::new(alloc, sections, variants, 1)?;
    let ended = talk(rt, alloc, &mut session, &mut source, &mut sink, &mut clock);
    Ok((ended, sink))
}

/// Serves these lines up to `quit`, and wants this text.
fn says<R: Abort + AllocGlobal + Threads + Wait + Sync>(
    rt: &R,
    polls: PollsOwed,
    input: &str,
    text: &str,
) {
    let (ended, sink) = served(rt, input, polls, &[], 1000).expect(rt, "no fault");
    expect_of(rt, &input, ended == Ok(Ended::Quit));
    expect_eq_at(rt, input, sink.taken(), text.as_bytes());
}

#[test]
fn lines_set_and_answer(rt: HostRuntime) {
    let never = PollsOwed::Endless;
    says(&rt, never, "xboard\nprotover 2\nquit\n", FEATURES);
    let words = "\nping 007\n \nhello you\nping x\nquit now\n";
    let answers = "pong 007\nError (unknown command):  \nError (unknown command): hello you\n\
        Error (bad number): ping x\n";
    says(&rt, never, words, answers);
    let refused = "setboard 8/8\nvariant shogi\nlevel 40 5 0.5\nquit\n";
    let answers = "Error (illegal position): setboard 8/8\nError (unknown variant): variant shogi\n\
        Error (bad number): level 40 5 0.5\n";
    says(&rt, never, refused, answers);
}

#[test]
fn moves_are_played_and_taken_back(rt: HostRuntime) {
    let never = PollsOwed::Endless;
    let back = "force\nusermove e2e4\nremove\nundo\nundo\nquit\n";
    let answers = "Error (nothing played): remove\nError (nothing played): undo\n";
    says(&rt, never, back, answers);
    let mate = "force\nusermove f2f3\nusermove e7e5\nusermove g2g4\nusermove d8h4\nquit\n";
    says(&rt, never, mate, "0-1 {Black wins by checkmate}\n");
    let variant =
        "variant losalamos\nforce\nusermove e2e4\nusermove a1a1\nnew\nforce\nusermove e2e4\nquit\n";
    says(
        &rt,
        never,
        variant,
        "Illegal move: e2e4\nIllegal move: a1a1\n",
    );
}

/// Serves these lines up to `quit`, and wants an end of what is written.
fn ends<R: Abort + AllocGlobal + Threads + Wait + Sync>(rt: &R, input: &str, text: &str) {
    let (ended, sink) = served(rt, input, PollsOwed::Endless, &[], 1000).expect(rt, "no fault");
    expect_of(rt, &input, ended == Ok(Ended::Quit));
    expect_of(rt, &input, sink.taken().ends_with(text.as_bytes()));
}

// The engine plays where it is its turn, whatever line came before, and not in a game that is over.
#[test]
fn the_engine_moves(rt: HostRuntime) {
    let mates = "xboard\nprotover 2\nforce\nusermove e2e4\nusermove e7e4\n\
        setboard 7k/8/5KQ1/8/8/8/8/8 w - - 0 1\nsd 1\ngo\nquit\n";
    let answers = "Illegal move: e7e4\nmove g6g7\n1-0 {White wins by checkmate}\n";
    ends(&rt, mates, answers);
    let over =
        "force\nsetboard 7k/8/5KQ1/8/8/8/8/8 w - - 0 1\nplayother\nusermove g6f7\nping 1\nquit\n";
    ends(&rt, over, "1/2-1/2 {Draw by stalemate}\npong 1\n");
    let takes = "sd 1\nsetboard k7/8/8/8/8/8/1q6/K7 w - - 0 1\nnopost\ngo\nping 1\nquit\n";
    ends(&rt, takes, "move a1b2\npong 1\n");
}

// The count of nodes stands between these.
#[test]
fn depths_are_posted(rt: HostRuntime) {
    let input = "force\npost\nsetboard 7k/8/5KQ1/8/8/8/8/8 w - - 0 1\nsd 1\ngo\nquit\n";
    let (ended, sink) = served(&rt, input, PollsOwed::Endless, &[], 1000).expect(&rt, "no fault");
    expect(&rt, ended == Ok(Ended::Quit));
    let text = sink.taken();
    expect(&rt, text.starts_with(b"1 100001 0 "));
    expect(
        &rt,
        text.ends_with(b" g6g7\nmove g6g7\n1-0 {White wins by checkmate}\n"),
    );
}

// The king's one move is to take the queen. A search that is stopped by `force` makes no move, and by `?` or the end of
// the lines makes it at once.
#[test]
fn lines_stop_a_search(rt: HostRuntime) {
    let now = PollsOwed::Number(0);
    let force = "force\nsetboard k7/8/8/8/8/8/1q6/K7 w - - 0 1\nst 1000\ngo\nforce\nping 1\nquit\n";
    says(&rt, now, force, "pong 1\n");
    let ping = "force\nsetboard k7/8/8/8/8/8/1q6/K7 w - - 0 1\nst 1000\ngo\nping 1\nquit\n";
    says(&rt, now, ping, "move a1b2\npong 1\n");
    let quit = "force\nsetboard k7/8/8/8/8/8/1q6/K7 w - - 0 1\nst 1000\ngo\nquit\n";
    says(&rt, now, quit, "");
}

/// Asserts how a session with a source that fails at these calls and a sink with this room ends, and what it wrote.
fn expect_end<R: Abort + AllocGlobal + Threads + Wait + Sync>(
    rt: &R,
    failing: &[u64],
    room: usize,
    end: Result<Ended, SearchFault>,
    text: &str,
) {
    let (ended, sink) = served(rt, "ping 1\nping 2", PollsOwed::Endless, failing, room).expect(
        rt, "no fault",
    );
    expect_of(rt, &text, ended == end && sink.taken() == text.as_bytes());
}

#[test]
fn faults_end_a_session(rt: HostRuntime) {
    expect_end(&rt, &[], 100, Ok(Ended::InputEnded), "pong 1\npong 2\n");
    expect_end(&rt, &[0], 100, Err(SearchFault::ReadFault), "");
    expect_end(&rt, &[1], 100, Err(SearchFault::ReadFault), "pong 1\n");
    expect_end(&rt, &[], 9, Err(SearchFault::WriteFault), "pong 1\npo");
}
