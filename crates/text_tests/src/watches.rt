//! Tests of `watching`.
use crate::expect::{expect, expect_eq};
use foundation::Memory;
use io_ports::{Dialect, Limits, LineBuf, ListClock, MemSink, MemSource, PollsOwed, SearchFault};
use std::alloc::Global;
use std::io::{self, Write};
use std::test::Fail;
use watching::{Caller, Cut, Halt, Helper, StopFlag, Unwatched, Watch};

const NONE: Limits = Limits {
    quota: None,
    deadline: None,
};

/// Enters nodes, as many as the watch lets it.
fn enter<W: Watch>(watch: &mut W, nodes: u64) -> Result<(), Halt> {
    for _ in 0..nodes {
        watch.enter()?;
    }
    Ok(())
}

/// How a worker in the caller ended that was to enter 3,000 nodes, and the nodes that it entered.
fn watched(
    alloc: Global,
    dialect: Dialect,
    source: &mut MemSource,
    sink: &mut MemSink,
    limits: Limits,
) -> Result<(Result<(), Halt>, u64), Memory> {
    let mut clock = ListClock::new(alloc, &[5, 7, 9])?;
    let mut line = LineBuf::new(alloc)?;
    let mut watch = Caller {
        source,
        sink,
        clock: &mut clock,
        line: &mut line,
        dialect,
        limits,
        nodes: 0,
    };
    let end = enter(&mut watch, 3000);
    Ok((end, watch.nodes()))
}

/// Writes how a worker ended.
fn tell_end(told: &mut Vec<u8>, end: Result<(), Halt>) -> io::Result<()> {
    match end {
        Ok(()) => write!(told, "done"),
        Err(Halt::Cut(Cut::Line)) => write!(told, "line"),
        Err(Halt::Cut(Cut::End)) => write!(told, "end"),
        Err(Halt::Cut(Cut::Quota(nodes))) => write!(told, "quota {nodes}"),
        Err(Halt::Cut(Cut::Deadline(reading))) => write!(told, "deadline {reading}"),
        Err(Halt::Fault(_)) => write!(told, "fault"),
    }
}

/// Writes how it ends with these lines, where this many polls are owed, the nodes, and what it wrote.
fn tell(
    told: &mut Vec<u8>,
    dialect: Dialect,
    lines: &[u8],
    owed: u64,
    limits: Limits,
) -> Result<(), Fail> {
    let alloc = *told.allocator();
    let mut source = MemSource::new(alloc, lines, PollsOwed::Number(owed), &[])?;
    let mut sink = MemSink::new(alloc, 100)?;
    let (ended, nodes) = watched(alloc, dialect, &mut source, &mut sink, limits)?;
    tell_end(told, ended)?;
    write!(told, " {nodes} ")?;
    told.extend_from_slice(sink.taken())?;
    Ok(told.push(b'\n')?)
}

// Polls come at the first node and each 1,024 nodes, and the fourth would be at 3,073.
#[test]
fn lines_are_heard(rt: HostRuntime) -> Result<(), Fail> {
    let mut told = Vec::new(rt.alloc());
    tell(&mut told, Dialect::Uci, b"stop\n", 3, NONE)?;
    tell(&mut told, Dialect::Uci, b"stop\n", 2, NONE)?;
    tell(
        &mut told,
        Dialect::Uci,
        b"isready\ndebug on\nstop\n",
        0,
        NONE,
    )?;
    tell(&mut told, Dialect::Uci, b"isready\n", 1, NONE)?;
    tell(&mut told, Dialect::Uci, b"", 0, NONE)?;
    let wanted = b"\
        done 3000 \n\
        line 2049 \n\
        line 2049 readyok\n\n\
        end 2049 readyok\n\n\
        end 1 \n";
    expect(&rt, told.as_slice() == wanted.as_slice());
    Ok(())
}

/// Writes how it ends under these limits, where no poll hears a line.
fn tell_limited(told: &mut Vec<u8>, quota: Option<u64>, deadline: Option<u64>) -> Result<(), Fail> {
    tell(told, Dialect::Cecp, b"?\n", 9, Limits { quota, deadline })
}

#[test]
fn limits_end_a_search(rt: HostRuntime) -> Result<(), Fail> {
    let mut told = Vec::new(rt.alloc());
    tell_limited(&mut told, Some(1000), None)?;
    tell_limited(&mut told, Some(0), None)?;
    tell_limited(&mut told, None, Some(7))?;
    tell_limited(&mut told, None, Some(6))?;
    tell_limited(&mut told, Some(1025), Some(9))?;
    let wanted = b"\
        quota 1000 1000 \n\
        quota 0 0 \n\
        deadline 7 1025 \n\
        deadline 7 1025 \n\
        quota 1025 1025 \n";
    expect(&rt, told.as_slice() == wanted.as_slice());
    Ok(())
}

#[test]
fn faults_end_a_search(rt: HostRuntime) {
    let alloc = rt.alloc();
    let mut source = MemSource::new(alloc, b"isready\n", PollsOwed::Number(0), &[1]).expect(
        &rt, "no fault",
    );
    let mut sink = MemSink::new(alloc, 100).expect(&rt, "no fault");
    let (end, nodes) = watched(alloc, Dialect::Uci, &mut source, &mut sink, NONE).expect(
        &rt, "no fault",
    );
    expect_eq(&rt, end, Err(Halt::Fault(SearchFault::ReadFault)));
    expect_eq(&rt, nodes, 1025);
    let mut again = MemSource::new(alloc, b"isready\n", PollsOwed::Number(0), &[]).expect(
        &rt, "no fault",
    );
    let mut small = MemSink::new(alloc, 3).expect(&rt, "no fault");
    let (ended, _) = watched(alloc, Dialect::Uci, &mut again, &mut small, NONE).expect(
        &rt, "no fault",
    );
    expect_eq(&rt, ended, Err(Halt::Fault(SearchFault::WriteFault)));
    expect(&rt, small.taken() == b"rea".as_slice());
}

#[test]
fn helpers_heed_flag_and_quota(rt: HostRuntime) {
    let flag = StopFlag::new();
    let mut helper = Helper::new(&flag, Some(20));
    expect_eq(&rt, enter(&mut helper, 15), Ok(()));
    expect_eq(&rt, enter(&mut helper, 15), Err(Halt::Cut(Cut::Quota(20))));
    expect_eq(&rt, helper.nodes(), 20);
    flag.raise();
    let mut later = Helper::new(&flag, None);
    expect_eq(&rt, enter(&mut later, 15), Err(Halt::Cut(Cut::End)));
    expect_eq(&rt, later.nodes(), 0);
}

#[test]
fn nothing_ends_an_unwatched_search(rt: HostRuntime) {
    let mut watch = Unwatched::new();
    expect_eq(&rt, watch.nodes(), 0);
    expect_eq(&rt, enter(&mut watch, 3000), Ok(()));
    expect_eq(&rt, watch.nodes(), 3000);
}
