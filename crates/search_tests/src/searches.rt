//! Tests of `alpha_beta`.
ghost use Rattle.std.specs.Prelude.{◌≡◌, ◌<◌, ◌≤◌};

use crate::expect::{expect, expect_eq};
use alpha_beta::{Limits, SearchFault, Searched, Stopped, search};
use game_play::Game;
use hint_table::HintTable;
use io_ports::{
    Dialect, Gate, HoldingGate, ListClock, MemSink, MemSource, OpenGate, PollsOwed, Ports,
};
use playing::Board;
use rules_model::{Move, Promo, sound};
use sample_rules::{chess, position, square};
use std::alloc::Global;
use std::hint::spin_loop;
use std::process::Abort;
use std::sync::atomic::{AtomicBool, Ordering};
use std::test::Fail;
use std::thread::Threads;

const NONE: Limits = Limits {
    quota: None,
    deadline: None,
};

/// A gate that holds the other workers until worker 0 has passed, for at most so many turns.
#[derive(Drop)]
struct LeaderFirst {
    passed: AtomicBool,
}

impl Gate for LeaderFirst {
    fn pass(&self, worker: u32, _step: u64) {
        if worker == 0 {
            self.passed.store(true, Ordering::SeqCst);
            return;
        }
        for _turn in 0..100_000_000 {
            if self.passed.load(Ordering::SeqCst) {
                return;
            }
            spin_loop();
        }
    }
}

/// How a search ended.
#[derive(Clone, Copy, PartialEq, Eq)]
enum Told {
    Done(i32, Move, u64),
    Line,
    InputEnded,
    Quota(u64),
    Deadline(u64),
    Fault(SearchFault),
}

fn told_of(answer: &Result<Searched, SearchFault>) -> Told {
    match answer {
        Ok(Searched::Done { value, best, nodes }) => Told::Done(*value, *best, *nodes),
        Ok(Searched::Stopped(Stopped::Line(_))) => Told::Line,
        Ok(Searched::Stopped(Stopped::InputEnded)) => Told::InputEnded,
        Ok(Searched::Stopped(Stopped::Quota(quota))) => Told::Quota(*quota),
        Ok(Searched::Stopped(Stopped::Deadline(reading))) => Told::Deadline(*reading),
        Err(fault) => Told::Fault(*fault),
    }
}

/// The same end without its number of nodes.
fn uncounted(told: Told) -> Told {
    match told {
        Told::Done(value, best, _) => Told::Done(value, best, 0),
        _ => told,
    }
}

/// The move of a text such as `e2e4`, without promotion.
fn go(text: &str) -> Move {
    let (from, to) = text.split_at_checked(2).unwrap_or(("", ""));
    Move::Go {
        from: square(from),
        to: square(to),
        promo: Promo::Stays,
        gate: None,
    }
}

/// What a search is run on, beside the game and the gate.
#[derive(Clone, Copy)]
struct Run<'l> {
    depth: u8,
    workers: u32,
    lines: &'l [u8],
    owed: PollsOwed,
    limits: Limits,
}

/// What the search of all legal moves answers, and what it writes.
fn answer_to<R: Threads + Abort + Sync, G: Gate + Sync>(
    rt: &R,
    alloc: Global,
    game: &Game,
    hints: &HintTable,
    run: Run,
    gate: &G,
    written: &mut Vec<u8>,
) -> Told
    requires depth { (1 ≤ run.depth) × (run.depth ≤ 64) }
    requires workers { (0 < run.workers) × (run.workers ≤ 64) }
{
    let mut source = MemSource::new(alloc, run.lines, run.owed, &[]).expect(rt, "no fault");
    let mut sink = MemSink::new(alloc, 100).expect(rt, "no fault");
    let mut clock = ListClock::new(alloc, &[5, 7]).expect(rt, "no fault");
    let roots = Board::new(game.tables(), game.position())
        .legal_moves(alloc)
        .expect(rt, "no fault");
    assert!(rt; !roots.items.is_empty());
    let answer = {
        let mut ports = Ports {
            source: &mut source,
            sink: &mut sink,
            clock: &mut clock,
            gate,
            dialect: Dialect::Uci,
        };
        search(
            rt,
            alloc,
            game,
            run.depth,
            roots.items.as_slice(),
            hints,
            run.limits,
            run.workers,
            &mut ports,
        )
    };
    written.clear();
    written
        .extend_from_slice(sink.taken())
        .expect(rt, "no fault");
    told_of(&answer)
}

/// Asserts how the search of all legal moves by at most 64 workers ends, without its number of nodes, and what it
/// writes.
fn ends<R: Threads + Abort + Sync, G: Gate + Sync>(
    rt: &R,
    alloc: Global,
    game: &Game,
    hints: &HintTable,
    run: Run,
    gate: &G,
    ending: (Told, &[u8]),
)
    requires { (1 ≤ run.depth) × (run.depth ≤ 64) }
{
    assert!(rt; 0 < run.workers && run.workers <= 64);
    let mut written = Vec::new(alloc);
    let told = answer_to(rt, alloc, game, hints, run, gate, &mut written);
    let (end, text) = ending;
    expect_eq(rt, uncounted(told), end);
    expect(rt, written.as_slice() == text);
}

/// The value of the search, where nothing cuts it, and its number of nodes.
fn value_and_nodes<R: Threads + Abort + Sync, G: Gate + Sync>(
    rt: &R,
    alloc: Global,
    game: &Game,
    hints: &HintTable,
    run: Run,
    gate: &G,
) -> Result<(Option<i32>, u64), Fail>
    requires depth { (1 ≤ run.depth) × (run.depth ≤ 64) }
    requires workers { (0 < run.workers) × (run.workers ≤ 64) }
{
    let mut written = Vec::new(alloc);
    match answer_to(rt, alloc, game, hints, run, gate, &mut written) {
        Told::Done(value, _, nodes) => Ok((Some(value), nodes)),
        _ => Ok((None, 0)),
    }
}

/// King and queen against a king: g6g7 mates.
const QUEEN: &str = "kh8 Kf6 Qg6";

/// A search that nothing cuts.
fn whole(depth: u8, workers: u32) -> Run<'static>
    ensures depth { result.depth ≡ depth }
    ensures workers { result.workers ≡ workers }
{
    Run {
        depth,
        workers,
        lines: b"",
        owed: PollsOwed::Endless,
        limits: NONE,
    }
}

// By one worker, by two and by the most; the latter two with hints that mislead.
#[test]
fn each_number_of_workers_finds_the_mate(rt: HostRuntime) {
    let alloc = rt.alloc();
    let (rules, start) = (chess(), position(QUEEN));
    assert!(rt; sound(&rules, &start));
    let game = Game::new(alloc, &rules, &start).expect(&rt, "no fault");
    let hints = HintTable::new(alloc, 1024).expect(&rt, "no fault");
    let mate = Told::Done(31_999, go("g6g7"), 0);
    for workers in [1u32, 2, 64] {
        ends(
            &rt,
            alloc,
            &game,
            &hints,
            whole(3, workers),
            &OpenGate,
            (mate, b""),
        );
        hints.fill(u64::MAX);
    }
}

/// The game of the chess start.
fn started(rt: &impl Abort, alloc: Global) -> Game {
    let rules = chess();
    Game::new(alloc, &rules, &rules.start).expect(rt, "no fault")
}

/// Asserts what the game is worth at the first three depths, where each search begins with hints that are all this
/// word.
fn is_worth<R: Threads + Abort + Sync>(
    rt: &R,
    alloc: Global,
    game: &Game,
    word: u64,
    workers: u32,
    values: [i32; 3],
) -> Result<(), Fail>
    requires workers { (0 < workers) × (workers ≤ 64) }
{
    let hints = HintTable::new(alloc, 1024)?;
    for i in 0..3usize {
        hints.fill(word);
        let run = whole(i as u8 + 1, workers);
        let (value, _nodes) = value_and_nodes(rt, alloc, game, &hints, run, &OpenGate)?;
        assert!(rt; value == Some(values[i]), "{word} {workers}");
    }
    Ok(())
}

// The values are those of an independent model of the rules.
#[test]
fn hints_and_workers_change_no_value(rt: HostRuntime) -> Result<(), Fail> {
    let game = started(&rt, rt.alloc());
    let rows = [
        (0, 1u32),
        (0, 4),
        (u64::MAX, 1),
        (u64::MAX, 4),
        (1 << 63, 1),
        (1 << 63, 4),
    ];
    for (word, workers) in rows {
        assert!(rt; 0 < workers && workers <= 64);
        is_worth(&rt, rt.alloc(), &game, word, workers, [12, 0, 12])?;
    }
    Ok(())
}

/// Lines that are heard, how many polls come before them, limits, how a search ends by them, and what it writes.
type Row = (&'static str, PollsOwed, Limits, Told, &'static str);

/// Asserts that a search to depth 6 ends so, where the first worker goes ahead of the others.
fn is_cut<R: Threads + Abort + Sync>(
    rt: &R,
    alloc: Global,
    game: &Game,
    hints: &HintTable,
    workers: u32,
    row: &Row,
) {
    let (lines, owed, limits, end, written) = *row;
    let gate = LeaderFirst {
        passed: AtomicBool::new(false),
    };
    let run = Run {
        lines: lines.as_bytes(),
        owed,
        limits,
        ..whole(6, workers)
    };
    ends(
        rt,
        alloc,
        game,
        hints,
        run,
        &gate,
        (end, written.as_bytes()),
    );
}

// Polls come at the first node and each 1,024 nodes.
#[test]
fn the_outside_is_heard(rt: HostRuntime) {
    let alloc = rt.alloc();
    let game = started(&rt, alloc);
    let hints = HintTable::new(alloc, 1024).expect(&rt, "no fault");
    let few = Limits {
        quota: Some(50),
        ..NONE
    };
    let soon = Limits {
        deadline: Some(6),
        ..NONE
    };
    let (two, three) = (PollsOwed::Number(2), PollsOwed::Number(3));
    let rows: [Row; 4] = [
        ("isready\nstop\n", two, NONE, Told::Line, "readyok\n"),
        ("", three, NONE, Told::InputEnded, ""),
        ("", PollsOwed::Endless, few, Told::Quota(50), ""),
        ("", PollsOwed::Endless, soon, Told::Deadline(7), ""),
    ];
    for workers in [1u32, 4] {
        for row in &rows {
            is_cut(&rt, alloc, &game, &hints, workers, row);
        }
    }
}

// By 206,603 lines of at most four moves from the start.
#[test]
fn lines_are_cut_off(rt: HostRuntime) -> Result<(), Fail> {
    let alloc = rt.alloc();
    let game = started(&rt, alloc);
    let hints = HintTable::new(alloc, 4096)?;
    let (value, nodes) = value_and_nodes(&rt, alloc, &game, &hints, whole(4, 1), &OpenGate)?;
    assert!(rt; value.is_some() && nodes < 206_604);
    Ok(())
}

/// What a search by one worker answers within a quota, from no hints.
fn within<R: Threads + Abort + Sync>(
    rt: &R,
    alloc: Global,
    game: &Game,
    quota: Option<u64>,
) -> Told {
    let hints = HintTable::new(alloc, 1024).expect(rt, "no fault");
    let run = Run {
        limits: Limits { quota, ..NONE },
        ..whole(2, 1)
    };
    let mut written = Vec::new(alloc);
    answer_to(rt, alloc, game, &hints, run, &OpenGate, &mut written)
}

// A quota of as many nodes as a search enters does not cut it, and one of a node less does.
#[test]
fn nodes_are_those_of_the_quota(rt: HostRuntime) -> Result<(), Fail> {
    let alloc = rt.alloc();
    let game = started(&rt, alloc);
    let free = within(&rt, alloc, &game, None);
    let Told::Done(_, _, nodes) = free else {
        return Err("a whole search".into());
    };
    assert!(rt; nodes > 20);
    let fewer = nodes.saturating_sub(1);
    for (quota, end) in [(nodes, free), (fewer, Told::Quota(fewer))] {
        expect_eq(&rt, within(&rt, alloc, &game, Some(quota)), end);
    }
    Ok(())
}

#[test]
fn two_workers_run_beside_each_other(rt: HostRuntime) -> Result<(), Fail> {
    let alloc = rt.alloc();
    let game = started(&rt, alloc);
    let hints = HintTable::new(alloc, 4096)?;
    let gate = HoldingGate::new();
    let (alone, _nodes) = value_and_nodes(&rt, alloc, &game, &hints, whole(3, 1), &OpenGate)?;
    let (beside, _nodes) = value_and_nodes(&rt, alloc, &game, &hints, whole(3, 2), &gate)?;
    assert!(rt; !gate.gave_up() && alone.is_some());
    expect_eq(&rt, alone, beside);
    Ok(())
}
