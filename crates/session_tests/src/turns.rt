//! Tests of the frame of a session, of `session_model`.
use crate::expect::{expect, expect_eq};
use foundation::Memory;
use io_ports::{Dialect, Got, LineBuf, MAX_LINE, MemSink, MemSource, PollsOwed, SearchFault};
use session_model::{next_of, wait, wait_if_held};
use std::alloc::Global;
use std::process::Abort;
use watching::Cut;

/// Asserts what is left of the input, and what was written.
fn leaves<R: Abort>(rt: &R, source: &MemSource, sink: &MemSink, left: &str, written: &str) {
    expect_eq(rt, source.left(), left.as_bytes());
    expect_eq(rt, sink.taken(), written.as_bytes());
}

/// Asserts how a wait for a line of the input ends, what is left then, and what was written.
fn expect_wait(
    rt: &impl Abort,
    alloc: Global,
    dialect: Dialect,
    input: &[u8],
    ends: (Cut, &str),
    left: &str,
    written: &str,
) {
    let mut source = MemSource::new(alloc, input, PollsOwed::Endless, &[]).expect(rt, "no fault");
    let mut sink = MemSink::new(alloc, 100).expect(rt, "no fault");
    let mut line = LineBuf::new(alloc).expect(rt, "no fault");
    let (cut, text) = ends;
    expect_eq(
        rt,
        wait(&mut source, &mut sink, dialect, &mut line),
        Ok(cut),
    );
    expect(rt, cut != Cut::Line || line.text() == text.as_bytes());
    leaves(rt, &source, &sink, left, written);
}

#[test]
fn a_wait_ends_with_a_line_that_stops_or_with_the_end(rt: HostRuntime) {
    let (alloc, uci) = (rt.alloc(), Dialect::Uci);
    let input = b"isready\ndebug on\n\n words\nisready\nxx stop now\nquit\n";
    let stop = (Cut::Line, "xx stop now");
    expect_wait(&rt, alloc, uci, input, stop, "quit\n", "readyok\nreadyok\n");
    expect_wait(&rt, alloc, uci, b"quit", (Cut::Line, "quit"), "", "");
    expect_wait(
        &rt,
        alloc,
        uci,
        b"isready\n",
        (Cut::End, ""),
        "",
        "readyok\n",
    );
    expect_wait(&rt, alloc, uci, b"", (Cut::End, ""), "", "");
}

#[test]
fn a_wait_in_cecp(rt: HostRuntime) {
    let (alloc, cecp) = (rt.alloc(), Dialect::Cecp);
    let ping = (Cut::Line, "ping 1");
    expect_wait(&rt, alloc, cecp, b"\n\r\nping 1\n?\n", ping, "?\n", "");
    expect_wait(&rt, alloc, cecp, b"\n\n", (Cut::End, ""), "", "");
}

/// A line with one byte too many, and one that stops.
fn too_long(alloc: Global) -> Result<Vec<u8>, Memory> {
    let mut input = Vec::new(alloc);
    for _ in 0..MAX_LINE + 1 {
        input.push(b'x')?;
    }
    input.extend_from_slice(b"\nstop\n")?;
    Ok(input)
}

#[test]
fn a_line_that_is_too_long_is_answered(rt: HostRuntime) {
    let input = too_long(rt.alloc()).expect(&rt, "no fault");
    let (stop, uci) = (
        (Cut::Line, "stop"),
        "info string error LineFault 1 TooLong\n",
    );
    expect_wait(&rt, rt.alloc(), Dialect::Uci, &input, stop, "", uci);
    let cecp = "Error (line too long)\n";
    expect_wait(&rt, rt.alloc(), Dialect::Cecp, &input, stop, "", cecp);
}

/// Asserts what a search that ended for this reason, and holds its best move back or not, ends for at last.
fn expect_settled(
    rt: &impl Abort,
    alloc: Global,
    holds: bool,
    why: Option<Cut>,
    input: &str,
    settled: Option<Cut>,
    leaves_and_writes: (&str, &str),
) {
    let mut source = MemSource::new(alloc, input.as_bytes(), PollsOwed::Endless, &[]).expect(
        rt, "no fault",
    );
    let mut sink = MemSink::new(alloc, 100).expect(rt, "no fault");
    let mut line = LineBuf::new(alloc).expect(rt, "no fault");
    let answer = wait_if_held(&mut source, &mut sink, Dialect::Uci, &mut line, holds, why);
    expect_eq(rt, answer, Ok(settled));
    let (left, written) = leaves_and_writes;
    leaves(rt, &source, &sink, left, written);
}

#[test]
fn a_best_move_that_is_not_held_back(rt: HostRuntime) {
    let (alloc, late) = (rt.alloc(), Some(Cut::Deadline(7)));
    let whole = ("isready\nstop\n", "");
    expect_settled(&rt, alloc, false, None, "isready\nstop\n", None, whole);
    expect_settled(&rt, alloc, false, late, "stop\n", late, ("stop\n", ""));
}

#[test]
fn a_best_move_is_held_back_until_a_line_or_the_end(rt: HostRuntime) {
    let alloc = rt.alloc();
    let (line, end) = (Some(Cut::Line), Some(Cut::End));
    let after = ("go\n", "readyok\n");
    expect_settled(&rt, alloc, true, None, "isready\nstop\ngo\n", line, after);
    let (quota, late) = (Some(Cut::Quota(3)), Some(Cut::Deadline(7)));
    let ready = ("", "readyok\n");
    expect_settled(&rt, alloc, true, quota, "isready\n", end, ready);
    expect_settled(&rt, alloc, true, late, "stop\n", line, ("", ""));
    expect_settled(&rt, alloc, true, line, "stop\n", line, ("stop\n", ""));
    expect_settled(&rt, alloc, true, end, "", end, ("", ""));
}

/// Asserts what comes after a search that ended for this reason, its text, and what is left.
fn expect_next(
    rt: &impl Abort,
    alloc: Global,
    why: Option<Cut>,
    input: &str,
    comes: (Got, &str),
    left: &str,
) {
    let mut source = MemSource::new(alloc, input.as_bytes(), PollsOwed::Endless, &[]).expect(
        rt, "no fault",
    );
    let mut line = LineBuf::new(alloc).expect(rt, "no fault");
    line.set(b"held");
    let (got, text) = comes;
    expect_eq(rt, next_of(&mut source, &mut line, why), got);
    expect(rt, got != Got::Line || line.text() == text.as_bytes());
    expect_eq(rt, source.left(), left.as_bytes());
}

#[test]
fn the_line_that_cut_a_search_comes_next(rt: HostRuntime) {
    let alloc = rt.alloc();
    expect_next(&rt, alloc, None, "go\nquit\n", (Got::Line, "go"), "quit\n");
    expect_next(
        &rt,
        alloc,
        Some(Cut::Line),
        "go\n",
        (Got::Line, "held"),
        "go\n",
    );
    expect_next(
        &rt,
        alloc,
        Some(Cut::Quota(1)),
        "go\n",
        (Got::Line, "go"),
        "",
    );
    expect_next(&rt, alloc, Some(Cut::Deadline(1)), "", (Got::End, ""), "");
    expect_next(&rt, alloc, Some(Cut::End), "", (Got::End, ""), "");
}

/// Asserts the fault that ends a wait, by a source that fails at these calls or a sink without more room.
fn expect_fault(
    rt: &impl Abort,
    alloc: Global,
    failing: &[u64],
    room: usize,
    fault: SearchFault,
    left: &str,
    written: &str,
) {
    let mut source = MemSource::new(alloc, b"isready\nstop\n", PollsOwed::Endless, failing).expect(
        rt, "no fault",
    );
    let mut sink = MemSink::new(alloc, room).expect(rt, "no fault");
    let mut line = LineBuf::new(alloc).expect(rt, "no fault");
    let answer = wait_if_held(&mut source, &mut sink, Dialect::Uci, &mut line, true, None);
    expect_eq(rt, answer, Err(fault));
    leaves(rt, &source, &sink, left, written);
}

#[test]
fn a_fault_ends_a_wait(rt: HostRuntime) {
    let alloc = rt.alloc();
    let (reads, writes) = (SearchFault::ReadFault, SearchFault::WriteFault);
    expect_fault(&rt, alloc, &[1], 100, reads, "stop\n", "readyok\n");
    expect_fault(&rt, alloc, &[0], 100, reads, "isready\nstop\n", "");
    expect_fault(&rt, alloc, &[], 5, writes, "stop\n", "ready");
    expect_fault(&rt, alloc, &[], 7, writes, "stop\n", "readyok");
}
