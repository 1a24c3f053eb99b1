//! Tests of `thinking`.
ghost use Rattle.std.specs.Prelude.{◌≡◌, ◌≤◌, None};

use crate::expect::{expect, expect_eq, expect_of};
use crate::helpers::go;
use foundation::Memory;
use game_play::Game;
use io_ports::{
    Dialect, Limits, LineBuf, ListClock, MemSink, MemSource, OpenGate, PollsOwed, SearchFault,
};
use legality::legal_moves;
use rules_model::{Move, Position, Side, repeat_of, sound};
use sample_rules::{chess, position};
use std::alloc::Global;
use std::process::Abort;
use std::sync::Wait;
use std::thread::Threads;
use strategy::{Counters, Nodes, Strategy};
use thinking::{
    DepthResult, Depths, EngineState, Evidence, MateAttempt, Score, Style, Task, begin,
    depth_lines, iterative_deepening, try_mates, unsettled_line,
};
use watching::Cut;

fn no_strategy(alloc: Global) -> Strategy {
    Strategy {
        attacker: Side::White,
        nodes: Nodes {
            items: Vec::new(alloc),
        },
    }
}

/// A score, without the strategy of a mate.
#[derive(Clone, Copy)]
enum Scored {
    Points(i32),
    Mates(u16),
    Mated(u16),
}

/// What is found where the best move is e2e4, after 77 nodes.
fn found(alloc: Global, scored: Scored) -> DepthResult
    ensures { result.unsettled ≡ None }
{
    let score = match scored {
        Scored::Points(points) => Score::Points(points),
        Scored::Mates(moves) => Score::Mates(moves, no_strategy(alloc)),
        Scored::Mated(moves) => Score::Mated(moves, no_strategy(alloc)),
    };
    DepthResult {
        score,
        best: go("e2e4"),
        unsettled: None,
        nodes: 77,
    }
}

/// Asserts the lines of depth 3, which began at 100 and ended at the reading.
fn expect_lines(
    rt: &impl Abort,
    alloc: Global,
    scored: Scored,
    style: Style,
    reading: u64,
    text: &str,
) {
    let found = found(alloc, scored);
    let written = depth_lines(alloc, style, &chess(), 100, 3, &found, reading).expect(
        rt, "no fault",
    );
    expect_of(rt, &text, written.items.as_slice() == text.as_bytes());
}

#[test]
fn lines_of_depths_in_uci(rt: HostRuntime) {
    let (alloc, uci) = (rt.alloc(), Style::Uci);
    let points = "info depth 3 score cp -12 pv e2e4\n";
    expect_lines(&rt, alloc, Scored::Points(-12), uci, 900, points);
    let mates = "info depth 3 score mate 2 pv e2e4\n";
    expect_lines(&rt, alloc, Scored::Mates(2), uci, 900, mates);
    let mated = "info depth 3 score mate -5 pv e2e4\n";
    expect_lines(&rt, alloc, Scored::Mated(5), uci, 900, mated);
}

#[test]
fn lines_of_depths_that_are_posted(rt: HostRuntime) {
    let (alloc, post) = (rt.alloc(), Style::Post);
    let points = "3 -12 113 77 e2e4\n";
    expect_lines(&rt, alloc, Scored::Points(-12), post, 1234, points);
    let mates = "3 100002 0 77 e2e4\n";
    expect_lines(&rt, alloc, Scored::Mates(2), post, 109, mates);
    let mated = "3 -100005 0 77 e2e4\n";
    expect_lines(&rt, alloc, Scored::Mated(5), post, 5, mated);
    expect_lines(&rt, alloc, Scored::Mated(5), Style::Silent, 900, "");
}

#[test]
fn lines_on_evidence(rt: HostRuntime) {
    let alloc = rt.alloc();
    let rules = chess();
    let mut others = Vec::new(alloc);
    others.push(97).expect(&rt, "no fault");
    others.push(98).expect(&rt, "no fault");
    let first = Position {
        counter: 96,
        number: 1,
        ..position("kh8 Kf6 Qg6")
    };
    assert!(rt; sound(&rules, &first));
    let e = Evidence {
        repeat: repeat_of(&first),
        first: 96,
        others: Counters { items: others },
    };
    let written = unsettled_line(alloc, &rules, &e).expect(&rt, "no fault");
    let text = "info string mate unsettled 7k/8/5KQ1/8/8/8/8/8 w - - 96 1 96 97 98\n";
    expect(&rt, written.items.as_slice() == text.as_bytes());
}

/// King and queen against a king: g6g7 mates.
const MATE: &str = "kh8 Kf6 Qg6";

/// Lines that are heard, how many polls come before them, and limits.
#[derive(Clone, Copy)]
struct Heard<'l> {
    lines: &'l [u8],
    owed: PollsOwed,
    share: Option<u64>,
    deadline: Option<u64>,
}

const NOTHING: Heard<'static> = Heard {
    lines: b"",
    owed: PollsOwed::Endless,
    share: None,
    deadline: None,
};

/// What one depth after another comes to over all legal moves, and what is written.
fn deepened<R: Threads + Wait + Abort + Sync>(
    rt: &R,
    alloc: Global,
    text: &str,
    style: Style,
    depths: u8,
    heard: Heard,
    written: &mut Vec<u8>,
) -> Result<Result<Depths, SearchFault>, Memory>
    requires least { 1 ≤ depths }
    requires most { depths ≤ 64 }
{
    let (rules, start) = (chess(), position(text));
    assert!(rt; sound(&rules, &start));
    let mut source = MemSource::new(alloc, heard.lines, heard.owed, &[])?;
    let mut sink = MemSink::new(alloc, 1000)?;
    let mut clock = ListClock::new(alloc, &[100, 130, 90])?;
    let mut line = LineBuf::new(alloc)?;
    let mut engine = EngineState::new(alloc, 1)?;
    let game = Game::new(alloc, &rules, &start)?;
    let roots = legal_moves(alloc, game.rules(), game.tables(), game.position())?;
    assert!(rt; 0 < roots.items.len());
    let task = Task {
        game: &game,
        roots: roots.items.as_slice(),
        all: true,
        depths,
        share: heard.share,
        time: heard.deadline,
    };
    let begun = begin(&mut clock, task.time);
    let depths = iterative_deepening(
        rt,
        alloc,
        &mut engine,
        &task,
        style,
        begun,
        &mut source,
        &mut sink,
        &mut clock,
        &OpenGate,
        Dialect::Uci,
        &mut line,
    );
    written.clear();
    written.extend_from_slice(sink.taken())?;
    Ok(depths)
}

/// The number of moves of the mate that is kept, or 0.
fn kept_moves(depths: &Depths) -> u16 {
    match &depths.kept {
        Some(kept) => kept.moves,
        None => 0,
    }
}

/// The best move of a search, what cut it, the number of moves of the mate that is kept, or 0, and what is written.
type Told = (&'static str, Option<Cut>, u16, &'static str);

/// Asserts what one depth after another comes to, and what is written.
fn expect_told<R: Threads + Wait + Abort + Sync>(
    rt: &R,
    alloc: Global,
    text: &str,
    style: Style,
    depths: u8,
    heard: Heard,
    told: Told,
) {
    assert!(rt; 1 <= depths && depths <= 64);
    let mut written = Vec::new(alloc);
    let found = deepened(rt, alloc, text, style, depths, heard, &mut written)
        .expect(rt, "no fault")
        .ok()
        .expect(rt, "no fault");
    let (best, why, kept, lines) = told;
    expect(rt, written.as_slice() == lines.as_bytes());
    expect(rt, found.best == go(best) && found.why == why);
    expect_eq(rt, kept_moves(&found), kept);
}

// King b3 and rook h8 mate by h8h1 once the king has gone a1b1, its one move.
#[test]
fn depths_are_told(rt: HostRuntime) {
    let (alloc, silent) = (rt.alloc(), Style::Silent);
    let lines = "info depth 1 score mate 1 pv g6g7\ninfo depth 2 score mate 1 pv g6g7\n";
    let (shown, mate) = (("g6g7", None, 1, lines), ("g6g7", None, 1, ""));
    expect_told(&rt, alloc, MATE, Style::Uci, 2, NOTHING, shown);
    expect_told(&rt, alloc, MATE, silent, 2, NOTHING, mate);
    let mated = ("a1b1", None, 1, "");
    expect_told(&rt, alloc, "Ka1 kb3 rh8", silent, 2, NOTHING, mated);
}

#[test]
fn depths_are_cut(rt: HostRuntime) {
    let (alloc, silent) = (rt.alloc(), Style::Silent);
    let one_node = Heard {
        share: Some(1),
        ..NOTHING
    };
    let quota = ("f6e5", Some(Cut::Quota(1)), 0, "");
    expect_told(&rt, alloc, MATE, silent, 2, one_node, quota);
    let soon = Heard {
        deadline: Some(20),
        ..NOTHING
    };
    let late = ("f6e5", Some(Cut::Deadline(130)), 0, "");
    expect_told(&rt, alloc, MATE, silent, 2, soon, late);
    let stop = Heard {
        lines: b"isready\nstop\n",
        owed: PollsOwed::Number(0),
        ..NOTHING
    };
    let line = ("g6g7", Some(Cut::Line), 0, "readyok\n");
    expect_told(&rt, alloc, MATE, silent, 3, stop, line);
}

/// Asserts a line of each of two depths, with a score, a time and nodes, and with one move.
fn expect_two_lines(rt: &impl Abort, text: &[u8]) {
    let (first, second) = text.split_at(text.iter().position(|byte| *byte == b'\n').unwrap_or(0));
    let found = [
        first.starts_with(b"1 100001 3 ") && !first.starts_with(b"1 100001 3 0 "),
        first.ends_with(b" g6g7"),
        second.starts_with(b"\n2 100001 0 "),
        second.ends_with(b" g6g7\n"),
    ];
    expect_eq(rt, found, [true; 4]);
}

// The first reading is 100, and those after the depths are 130 and 90.
#[test]
fn times_and_nodes_are_told(rt: HostRuntime) {
    let mut written = Vec::new(rt.alloc());
    let told = deepened(&rt, rt.alloc(), MATE, Style::Post, 2, NOTHING, &mut written).expect(
        &rt, "no fault",
    );
    assert!(rt; told.is_ok());
    expect_two_lines(&rt, written.as_slice());
}

/// What the answer of `try_mates` is, and its number of moves.
#[derive(Clone, Copy, PartialEq, Eq)]
enum Answer {
    Shown(u16, Move),
    Unsettled(u16),
    Stopped(u16, Cut),
    NoMate,
    Fault(SearchFault),
}

fn answer_of(tried: &Result<MateAttempt, SearchFault>) -> Answer {
    match tried {
        Ok(MateAttempt::Shown { moves, best, .. }) => Answer::Shown(*moves, *best),
        Ok(MateAttempt::Unsettled { moves, .. }) => Answer::Unsettled(*moves),
        Ok(MateAttempt::Stopped { moves, why }) => Answer::Stopped(*moves, *why),
        Ok(MateAttempt::NoMate) => Answer::NoMate,
        Err(fault) => Answer::Fault(*fault),
    }
}

fn tried<R: Threads + Wait + Abort + Sync>(
    rt: &R,
    alloc: Global,
    text: &str,
    last: u16,
    limits: Limits,
    heard: Heard,
) -> Answer
    requires least { 1 ≤ last }
    requires most { last ≤ 100 }
{
    let (rules, start) = (chess(), position(text));
    assert!(rt; sound(&rules, &start));
    let mut source = MemSource::new(alloc, heard.lines, heard.owed, &[]).expect(rt, "no fault");
    let mut sink = MemSink::new(alloc, 1000).expect(rt, "no fault");
    let mut clock = ListClock::new(alloc, &[130, 90]).expect(rt, "no fault");
    let mut line = LineBuf::new(alloc).expect(rt, "no fault");
    let mut engine = EngineState::new(alloc, 1).expect(rt, "no fault");
    let game = Game::new(alloc, &rules, &start).expect(rt, "no fault");
    let roots = legal_moves(alloc, game.rules(), game.tables(), game.position()).expect(
        rt, "no fault",
    );
    assert!(rt; !roots.items.is_empty());
    let tried = try_mates(
        rt,
        alloc,
        &mut engine,
        &game,
        last,
        limits,
        &mut source,
        &mut sink,
        &mut clock,
        &OpenGate,
        Dialect::Uci,
        &mut line,
    );
    answer_of(&tried)
}

/// Asserts what the answer is.
fn expect_tried<R: Threads + Wait + Abort + Sync>(
    rt: &R,
    alloc: Global,
    text: &str,
    last: u16,
    quota: Option<u64>,
    heard: Heard,
    answer: Answer,
) {
    assert!(rt; 1 <= last && last <= 100);
    let limits = Limits {
        quota,
        deadline: None,
    };
    expect_eq(rt, tried(rt, alloc, text, last, limits, heard), answer);
}

// A solve within 1 move of the kings in the corners enters at most 8 times the 67 lines of at most 3 moves, so it
// polls once, and the line that comes next stops the solve within 2.
#[test]
fn mates_are_tried(rt: HostRuntime) {
    let alloc = rt.alloc();
    let shown = Answer::Shown(1, go("g6g7"));
    expect_tried(&rt, alloc, MATE, 3, None, NOTHING, shown);
    expect_tried(&rt, alloc, "Ke1 ke8", 2, None, NOTHING, Answer::NoMate);
    let stop = Heard {
        lines: b"stop\n",
        owed: PollsOwed::Number(1),
        ..NOTHING
    };
    let by_line = Answer::Stopped(2, Cut::Line);
    expect_tried(&rt, alloc, "Ka1 kh8", 3, None, stop, by_line);
    let by_quota = Answer::Stopped(1, Cut::Quota(0));
    expect_tried(&rt, alloc, "Ke3 Ra1 kd5", 3, Some(0), NOTHING, by_quota);
}
