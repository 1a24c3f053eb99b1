//! Sources and sinks that fail: the status, and the part of its text that a run wrote.
use crate::expect::{expect, expect_of};
use crate::runs::{ROOM, answers, is_cut, ran, ran_over, some_files};
use io_ports::{MemFiles, MemSink, MemSource, PollsOwed, SinkFault};
use std::process::Abort;
use std::sync::Wait;
use std::thread::Threads;

/// The input that `moves` reads in four calls.
const LINES: &[u8] = b"chess\n4k3/8/8/8/8/8/8/K7 b - - 0 1\ne8e7\n";

#[test]
fn a_run_fails_with_its_sink(rt: HostRuntime) {
    let mut files = MemFiles::new(rt.alloc());
    is_cut(
        &rt,
        &mut files,
        &["moves"],
        LINES,
        b"a1a2\na1b1\na1b2\nmoves 3\n",
    );
    is_cut(
        &rt,
        &mut files,
        &["uci"],
        b"isready\nisready\n",
        b"readyok\nreadyok\n",
    );
    let words = ["--variants", "f", "moves"].as_slice();
    is_cut(
        &rt,
        &mut files,
        words,
        LINES,
        b"error FileFault 1 Missing\n",
    );
    let (answered, sink) = ran(&rt, &mut files, &["uci"], b"uci\nquit\n", &[], 20);
    let front = b"id name vengine\nid a".as_slice();
    expect(&rt, answered == 5 && sink.taken() == front);
}

#[test]
fn a_run_fails_with_its_source(rt: HostRuntime) {
    let mut files = MemFiles::new(rt.alloc());
    for call in 0..4 {
        let (answered, sink) = ran(&rt, &mut files, &["moves"], LINES, &[call], 1000);
        assert!(rt; answered == 4 && sink.taken().is_empty());
    }
    let lines = b"isready\nisready\n";
    let (answered, sink) = ran(&rt, &mut files, &["uci"], lines, &[0], 1000);
    assert!(rt; answered == 4 && sink.taken().is_empty());
    let (answered, sink) = ran(&rt, &mut files, &["uci"], lines, &[1], 1000);
    expect(
        &rt,
        answered == 4 && sink.taken() == b"readyok\n".as_slice(),
    );
    answers(
        &rt,
        &mut files,
        &["moves"],
        LINES,
        0,
        b"a1a2\na1b1\na1b2\nmoves 3\n",
    );
}

/// Asserts that a run whose sink fails at this call ends with its status and a front part of its own text, or that it
/// has no such call.
fn sink_is_cut<R: Abort + AllocGlobal + Threads + Wait + Sync>(
    rt: &R,
    words: &[&str],
    input: &str,
    call: u64,
    own: &[u8],
) {
    let mut files = some_files(rt, rt.alloc());
    let source = MemSource::new(rt.alloc(), input.as_bytes(), PollsOwed::Endless, &[]).expect(
        rt, "no fault",
    );
    let sink = MemSink::failing(rt.alloc(), ROOM, &[SinkFault { call, taken: 7 }]).expect(
        rt, "no fault",
    );
    let (status, sink) = ran_over(rt, &mut files, words, source, sink);
    let is_own = status == 0 && own == sink.taken();
    let is_front = status == 5 && own.starts_with(sink.taken());
    expect_of(rt, &call, is_own || is_front);
}

/// Asserts that a run whose source or sink fails at each call in turn ends with its status and a front part of its own
/// text.
fn is_cut_at_each<R: Abort + AllocGlobal + Threads + Wait + Sync>(
    rt: &R,
    words: &[&str],
    input: &str,
    calls: u64,
) {
    let mut files = some_files(rt, rt.alloc());
    let (whole, own) = ran(rt, &mut files, words, input.as_bytes(), &[], ROOM);
    expect(rt, whole == 0);
    for call in 0..calls {
        let mut files = some_files(rt, rt.alloc());
        let (status, sink) = ran(rt, &mut files, words, input.as_bytes(), &[call], ROOM);
        expect_of(
            rt,
            &call,
            status == 4 && own.taken().starts_with(sink.taken()),
        );
        sink_is_cut(rt, words, input, call, own.taken());
    }
}

/// A session of each protocol, with mates, refusals and files of variants.
#[test]
fn a_session_fails_with_its_source_and_its_sink(rt: HostRuntime) {
    let words = ["--variants", "f", "uci"].as_slice();
    let input =
        "uci\nsetoption name VariantPath value moods\nsetoption name UCI_Variant value must\n\
        setoption name VariantPath value pair\nstatus\nposition fen 7k/R7/5K2/8/8/8/8/8 w - - 0 1\n\
        go mate 2\nstrategy\ngo depth 2\nposition startpos moves e2e5\nstatus\nquit\n";
    is_cut_at_each(&rt, words, input, 13);
    let input = "protover 2\nforce\nsetboard 7k/8/5KQ1/8/8/8/8/8 w - - 0 1\npost\nsd 2\ngo\nundo\n\
        usermove g6g7\nusermove g6g8\nping 1\nquit\n";
    is_cut_at_each(&rt, &["xboard"], input, 11);
}

/// The second poll of a search fails; and the first call of a sink, which takes nothing.
#[test]
fn a_search_and_a_sink_fail_at_once(rt: HostRuntime) {
    let mut files = MemFiles::new(rt.alloc());
    let (status, sink) = ran(&rt, &mut files, &["uci"], b"go infinite\n", &[2], ROOM);
    expect(
        &rt,
        status == 4 && sink.taken().starts_with(b"info depth 1 score cp "),
    );
    let source = MemSource::new(rt.alloc(), b"uci\nquit\n", PollsOwed::Endless, &[]).expect(
        &rt, "no fault",
    );
    let sink = MemSink::failing(rt.alloc(), ROOM, &[SinkFault { call: 0, taken: 0 }]).expect(
        &rt, "no fault",
    );
    let (status, sink) = ran_over(&rt, &mut files, &["uci"], source, sink);
    assert!(rt; status == 5 && sink.taken().is_empty());
}
