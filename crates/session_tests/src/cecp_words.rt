//! Tests of the lines of CECP and their limits, of `cecp_front`.
use crate::expect::expect_of;
use cecp_front::{Command, Limit, depth_for, gives_up, read_line, time_for};
use io_ports::Got;
use std::alloc::Global;
use std::process::Abort;

// A command's name, its text and its numbers.
fn shown<'b>(command: &'b Command) -> (&'static str, &'b [u8], u64, u64) {
    match command {
        Command::Idle => ("idle", b"", 0, 0),
        Command::Protover => ("protover", b"", 0, 0),
        Command::New => ("new", b"", 0, 0),
        Command::Variant(name) => ("variant", name, 0, 0),
        Command::Force => ("force", b"", 0, 0),
        Command::Go => ("go", b"", 0, 0),
        Command::PlayOther => ("playother", b"", 0, 0),
        Command::UserMove(text) => ("usermove", text, 0, 0),
        Command::SetBoard(fen) => ("setboard", fen.items.as_slice(), 0, 0),
        Command::Ping(digits) => ("ping", digits, 0, 0),
        Command::TakeBack(plies) => ("back", b"", u64::from(*plies), 0),
        Command::Post(on) => ("post", b"", u64::from(*on), 0),
        Command::Limit(Limit::St(seconds)) => ("st", b"", *seconds, 0),
        Command::Limit(Limit::Sd(depth)) => ("sd", b"", *depth, 0),
        Command::Limit(Limit::Level { moves, increment }) => ("level", b"", *moves, *increment),
        Command::Limit(Limit::Time(left)) => ("time", b"", *left, 0),
        Command::Quit => ("quit", b"", 0, 0),
        Command::BadNumber => ("bad number", b"", 0, 0),
        Command::Unknown => ("unknown", b"", 0, 0),
        Command::TooLong => ("too long", b"", 0, 0),
    }
}

/// Asserts what the line says: its command's name and text, and its numbers.
fn expect_all(
    rt: &impl Abort,
    alloc: Global,
    line: &[u8],
    name: &str,
    text: &[u8],
    numbers: (u64, u64),
) {
    let command = read_line(alloc, Got::Line, line)
        .map_err(|_| "no memory")
        .expect(rt, "no fault");
    let (is, said, one, two) = shown(&command);
    expect_of(rt, &line, is == name && said == text);
    expect_of(rt, &line, (one, two) == numbers);
}

/// The same of a line that has neither a text nor a number.
fn expect(rt: &impl Abort, alloc: Global, line: &str, name: &str) {
    expect_all(rt, alloc, line.as_bytes(), name, b"", (0, 0));
}

#[test]
fn commands_alone(rt: HostRuntime) {
    let alloc = rt.alloc();
    expect(&rt, alloc, "", "idle");
    expect(&rt, alloc, " \t", "unknown");
    expect(&rt, alloc, "xboard", "idle");
    expect(&rt, alloc, "accepted ping", "idle");
    expect(&rt, alloc, "otim 1", "idle");
    expect(&rt, alloc, "?", "idle");
    expect(&rt, alloc, "\tnew  now", "new");
}

#[test]
fn commands_that_say_who_plays(rt: HostRuntime) {
    let alloc = rt.alloc();
    expect(&rt, alloc, "force", "force");
    expect(&rt, alloc, "result 1-0 {mate}", "force");
    expect(&rt, alloc, "go", "go");
    expect(&rt, alloc, "playother", "playother");
    expect(&rt, alloc, "quit now", "quit");
    expect(&rt, alloc, "now quit", "unknown");
}

/// Asserts the text of a line.
fn expect_text(rt: &impl Abort, alloc: Global, line: &str, name: &str, text: &str) {
    expect_all(rt, alloc, line.as_bytes(), name, text.as_bytes(), (0, 0));
}

#[test]
fn commands_with_a_text(rt: HostRuntime) {
    let alloc = rt.alloc();
    expect_text(&rt, alloc, "variant crazyhouse x", "variant", "crazyhouse");
    expect_text(&rt, alloc, "variant", "variant", "");
    expect_text(&rt, alloc, "usermove e2e4", "usermove", "e2e4");
    expect_text(&rt, alloc, "setboard 8/8  w -", "setboard", "8/8 w -");
    let digits = "00000000000000000001";
    expect_text(&rt, alloc, "ping 00000000000000000001", "ping", digits);
}

#[test]
fn bad_numbers(rt: HostRuntime) {
    let alloc = rt.alloc();
    expect(&rt, alloc, "protover 2", "protover");
    expect(&rt, alloc, "protover two", "bad number");
    expect(&rt, alloc, "ping 000000000000000000001", "bad number");
    expect(&rt, alloc, "ping -1", "bad number");
    expect(&rt, alloc, "level 0 5 0.5", "bad number");
    expect(&rt, alloc, "level 40 2:3:0 12", "bad number");
    expect(&rt, alloc, "level 40 5", "bad number");
    expect(&rt, alloc, "time 18446744073709551616", "bad number");
}

/// Asserts the number of a line.
fn expect_number(rt: &impl Abort, alloc: Global, line: &str, name: &str, number: u64) {
    expect_all(rt, alloc, line.as_bytes(), name, b"", (number, 0));
}

#[test]
fn commands_with_numbers(rt: HostRuntime) {
    let alloc = rt.alloc();
    expect_number(&rt, alloc, "undo", "back", 1);
    expect_number(&rt, alloc, "remove", "back", 2);
    expect_number(&rt, alloc, "post", "post", 1);
    expect_number(&rt, alloc, "nopost", "post", 0);
    expect_number(&rt, alloc, "st 5", "st", 5);
    expect_number(&rt, alloc, "sd 99", "sd", 99);
    expect_number(&rt, alloc, "time 18446744073709551615", "time", u64::MAX);
    expect_all(&rt, alloc, b"level 40 2:30 12", "level", b"", (40, 12));
}

#[test]
fn a_long_line(rt: HostRuntime) {
    let long = read_line(rt.alloc(), Got::TooLong, b"quit")
        .map_err(|_| "no memory")
        .expect(&rt, "no fault");
    assert!(rt; shown(&long).0 == "too long");
}

/// Asserts that a search is given up for the line.
fn expect_given_up(rt: &impl Abort, line: &str) {
    expect_of(rt, &line, gives_up(line.as_bytes()));
}

#[test]
fn lines_give_a_search_up(rt: HostRuntime) {
    expect_given_up(&rt, "\tnew  now");
    expect_given_up(&rt, "variant crazyhouse x");
    expect_given_up(&rt, "force");
    expect_given_up(&rt, "result 1-0 {mate}");
    expect_given_up(&rt, "setboard 8/8  w -");
    expect_given_up(&rt, "undo");
    expect_given_up(&rt, "remove");
    expect_given_up(&rt, "quit now");
}

/// Asserts that a search is not given up for the line.
fn expect_kept(rt: &impl Abort, line: &str) {
    expect_of(rt, &line, !gives_up(line.as_bytes()));
}

#[test]
fn lines_keep_a_search(rt: HostRuntime) {
    expect_kept(&rt, "");
    expect_kept(&rt, "?");
    expect_kept(&rt, "go");
    expect_kept(&rt, "playother");
    expect_kept(&rt, "usermove e2e4");
    expect_kept(&rt, "ping 1");
    expect_kept(&rt, "post");
    expect_kept(&rt, "level 40 2:30 12");
    expect_kept(&rt, "otim 1");
    expect_kept(&rt, "now quit");
}

/// Asserts the time of a thinking by what `st`, `level` and `time` said.
fn expect_time(
    rt: &impl Abort,
    st: Option<u64>,
    level: Option<(u64, u64)>,
    left: Option<u64>,
    time: Option<u64>,
) {
    assert!(rt; time_for(st, level, left) == time);
}

#[test]
fn times(rt: HostRuntime) {
    expect_time(&rt, None, None, None, None);
    expect_time(&rt, Some(2), Some((40, 0)), Some(100), Some(2000));
    expect_time(&rt, None, Some((40, 0)), None, None);
    expect_time(&rt, None, None, Some(100), None);
    expect_time(&rt, None, Some((0, 0)), Some(6000), Some(2000));
    expect_time(&rt, None, Some((60, 2)), Some(6000), Some(2000));
    expect_time(&rt, None, Some((1, 0)), Some(1), Some(5));
}

/// Asserts the last depth of a thinking of this time by what `sd` said.
fn expect_depth(rt: &impl Abort, time: Option<u64>, sd: Option<u64>, depth: u8) {
    assert!(rt; depth_for(time, sd) == depth);
}

#[test]
fn depths(rt: HostRuntime) {
    expect_depth(&rt, None, None, 4);
    expect_depth(&rt, None, Some(0), 1);
    expect_depth(&rt, None, Some(3), 3);
    expect_depth(&rt, Some(2000), None, 64);
    expect_depth(&rt, Some(2000), Some(7), 7);
    expect_depth(&rt, Some(2000), Some(99), 64);
}
