//! Tests of `mate_search`.
ghost use Rattle.std.specs.Prelude.{◌≡◌, ◌<◌, ◌≤◌};
ghost use Rattle.mate_search.specs.Solves.{IsFrameFor};
ghost use Rattle.mate_shards.specs.Grown.{HaveParts};
ghost use Rattle.mate_shards.specs.Views.{ArePassesOf};

use crate::expect::{expect_eq, expect_of};
use crate::helpers::{game_from, placed, shards_for};
use game_play::Game;
use hint_table::HintTable;
use io_ports::{
    Dialect, Gate, HoldingGate, Limits, ListClock, MemSink, MemSource, OpenGate, PollsOwed, Ports,
    SearchFault, Stopped,
};
use mate_search::{Mate, Settled, settle, solve};
use mate_shards::{Passes, Shards};
use playing::Board;
use rules_model::{Move, Position, Promo, Side};
use sample_rules::{position, square};
use std::alloc::Global;
use std::process::Abort;
use std::sync::Wait;
use std::thread::Threads;

const NONE: Limits = Limits {
    quota: None,
    deadline: None,
};

/// How a solve ended.
#[derive(Clone, Copy, PartialEq, Eq)]
enum Told {
    Shown,
    NoMate,
    Unsettled,
    Line,
    InputEnded,
    Quota(u64),
    Deadline(u64),
    Fault(SearchFault),
}

fn told_of(answer: &Result<Mate, SearchFault>) -> Told {
    match answer {
        Ok(Mate::Shown(_)) => Told::Shown,
        Ok(Mate::NoMate) => Told::NoMate,
        Ok(Mate::Unsettled { .. }) => Told::Unsettled,
        Ok(Mate::Stopped(Stopped::Line(_))) => Told::Line,
        Ok(Mate::Stopped(Stopped::InputEnded)) => Told::InputEnded,
        Ok(Mate::Stopped(Stopped::Quota(quota))) => Told::Quota(*quota),
        Ok(Mate::Stopped(Stopped::Deadline(reading))) => Told::Deadline(*reading),
        Err(fault) => Told::Fault(*fault),
    }
}

/// A table of hints of which every word is this one.
fn hints_of(rt: &impl Abort, alloc: Global, word: u64) -> HintTable {
    let hints = HintTable::new(alloc, 1024).expect(rt, "no fault");
    hints.fill(word);
    hints
}

/// What is asked of a solve besides its game and its shards. Every word of the hints is `hint`.
#[derive(Clone, Copy)]
struct Run<'l> {
    n: u16,
    lines: &'l [u8],
    owed: PollsOwed,
    limits: Limits,
    workers: u32,
    hint: u64,
}

/// What the solve answers for a side, with these shards.
fn answer_with<R: Threads + Wait + Abort + Sync, G: Gate + Sync>(
    rt: &R,
    alloc: Global,
    game: &Game,
    attacker: Side,
    run: Run,
    shards: &Shards,
    passes: Passes,
    gate: &G,
) -> (Passes, Told)
    requires frame { IsFrameFor game.now attacker shards.now.frame }
    requires passes { ArePassesOf shards.now passes }
    requires parts { HaveParts 65536 passes }
    requires some { 0 < run.n }
    requires small { run.n ≤ 100 }
    requires workers { (0 < run.workers) × (run.workers ≤ 64) }
    ensures passes { ArePassesOf shards.now result.0 }
    ensures parts { HaveParts 65536 result.0 }
{
    let hints = hints_of(rt, alloc, run.hint);
    let mut source = MemSource::new(alloc, run.lines, run.owed, &[]).expect(rt, "no fault");
    let mut sink = MemSink::new(alloc, 100).expect(rt, "no fault");
    let mut clock = ListClock::new(alloc, &[5, 7]).expect(rt, "no fault");
    let (passes, answer) = {
        let mut ports = Ports {
            source: &mut source,
            sink: &mut sink,
            clock: &mut clock,
            gate,
            dialect: Dialect::Uci,
        };
        solve(
            rt,
            alloc,
            game,
            attacker,
            run.n,
            shards,
            passes,
            &hints,
            run.limits,
            run.workers,
            &mut ports,
        )
    };
    (passes, told_of(&answer))
}

/// A solve that nothing cuts.
fn whole(n: u16, workers: u32) -> Run<'static>
    ensures n { result.n ≡ n }
    ensures workers { result.workers ≡ workers }
{
    Run {
        n,
        lines: b"",
        owed: PollsOwed::Endless,
        limits: NONE,
        workers,
        hint: 0,
    }
}

/// A solve that asks the shards alone.
fn unsearched(n: u16) -> Run<'static>
    ensures n { result.n ≡ n }
    ensures workers { result.workers ≡ 1 }
{
    Run {
        limits: Limits {
            quota: Some(0),
            deadline: None,
        },
        ..whole(n, 1)
    }
}

/// What `settle` answers of the game, for the side. Its hints are all ones.
fn settled<R: Abort + Wait>(rt: &R, alloc: Global, game: &Game, attacker: Side, n: u16) -> Told
    requires some { 0 < n }
    requires small { n ≤ 100 }
{
    let (shards, passes) = shards_for(alloc, game, attacker).expect(rt, "no fault");
    let hints = hints_of(rt, alloc, u64::MAX);
    let (_, answer) = settle(rt, alloc, game, attacker, n, &shards, passes, &hints);
    match answer.expect(rt, "no fault") {
        Settled::Shown(_) => Told::Shown,
        Settled::NoMate => Told::NoMate,
        Settled::Unsettled { .. } => Told::Unsettled,
    }
}

/// What `solve` answers of the game with shards of its own.
fn solved<R: Threads + Wait + Abort + Sync>(
    rt: &R,
    alloc: Global,
    game: &Game,
    attacker: Side,
    run: Run,
) -> Told {
    assert!(rt; 0 < run.n && run.n <= 100);
    assert!(rt; 0 < run.workers && run.workers <= 64);
    let (shards, passes) = shards_for(alloc, game, attacker).expect(rt, "no fault");
    let (_, told) = answer_with(rt, alloc, game, attacker, run, &shards, passes, &OpenGate);
    told
}

/// Asserts what `settle` answers of the game, and `solve` by one worker, and by four whose hints are all ones.
fn expect<R: Threads + Wait + Abort + Sync>(
    rt: &R,
    alloc: Global,
    game: &Game,
    attacker: Side,
    n: u16,
    end: Told,
) {
    assert!(rt; 0 < n && n <= 100);
    let alone = settled(rt, alloc, game, attacker, n);
    let by_one = solved(rt, alloc, game, attacker, whole(n, 1));
    let all_ones = Run {
        hint: u64::MAX,
        ..whole(n, 4)
    };
    let by_four = solved(rt, alloc, game, attacker, all_ones);
    assert!(rt;
        alone == end && by_one == end && by_four == end,
        "within {n}"
    );
}

/// Asserts whether White, who is to move at the counter, mates within n moves.
fn expect_white<R: Threads + Wait + Abort + Sync>(
    rt: &R,
    alloc: Global,
    pieces: &str,
    counter: u16,
    n: u16,
    end: Told,
) {
    let p = Position {
        counter,
        ..position(pieces)
    };
    let game = game_from(rt, alloc, &p);
    expect(rt, alloc, &game, Side::White, n, end);
}

// A mate in one, two problems of two moves, a stalemate and a mated side.
#[test]
fn least_numbers_of_moves(rt: HostRuntime) {
    let alloc = rt.alloc();
    expect_white(&rt, alloc, "Kg6 Ra1 kh8", 0, 1, Told::Shown);
    let rook = "ra8 kd8 Rc7 pg7 ph6 pa5 Bb5 Rf5 Pb3 Pa2 Pd2 Pf2 Pg2 Ph2 Kg1";
    expect_white(&rt, alloc, rook, 0, 1, Told::NoMate);
    expect_white(&rt, alloc, rook, 0, 2, Told::Shown);
    let queen = "Qc8 Rf7 kd6 pe6 ph5 Pd4 Nc3 ne3 Pg3 Pa2 Pb2 Pe2 Kg2 Ra1";
    expect_white(&rt, alloc, queen, 0, 1, Told::NoMate);
    expect_white(&rt, alloc, queen, 0, 2, Told::Shown);
    expect_white(&rt, alloc, "Kh1 qg3 kf2", 0, 2, Told::NoMate);
    expect_white(&rt, alloc, "Kh1 qg2 kg3", 0, 2, Told::NoMate);
}

// At 99 the move that mates stands, and at 100 the game is drawn; two rooks mate by their third ply, before the counter
// is 100 or after.
#[test]
fn mates_at_the_limit_of_the_counter(rt: HostRuntime) {
    let alloc = rt.alloc();
    expect_white(&rt, alloc, "Kf6 Qg6 kh8", 99, 1, Told::Shown);
    expect_white(&rt, alloc, "Kg6 Ra1 kh8", 100, 2, Told::NoMate);
    expect_white(&rt, alloc, "Ra6 Rb5 Kg1 kg8", 96, 2, Told::Shown);
    expect_white(&rt, alloc, "Ra6 Rb5 Kg1 kg8", 98, 2, Told::NoMate);
}

/// Plays a move from a square to another, without promotion.
fn play(rt: &impl Abort, game: &mut Game, from: &str, to: &str) {
    let m = Move::Go {
        from: square(from),
        to: square(to),
        promo: Promo::Stays,
        gate: None,
    };
    assert!(rt; game.play(&m).is_ok(), "{from}{to}");
}

/// Plays both kings to and fro.
fn play_round(rt: &impl Abort, game: &mut Game) {
    play(rt, game, "h8", "g8");
    play(rt, game, "g6", "f6");
    play(rt, game, "g8", "h8");
    play(rt, game, "f6", "g6");
}

// King and rook: a mate in two, and none where its only key would be a third repetition.
#[test]
fn a_mate_that_repeats(rt: HostRuntime) {
    let alloc = rt.alloc();
    expect_white(&rt, alloc, "Kf6 Ra7 kh8", 0, 2, Told::Shown);
    let mut game = game_from(&rt, alloc, &placed("Kg6 Ra7 kh8", Side::Black));
    play_round(&rt, &mut game);
    play(&rt, &mut game, "h8", "g8");
    play(&rt, &mut game, "g6", "f6");
    play(&rt, &mut game, "g8", "h8");
    expect(&rt, alloc, &game, Side::White, 2, Told::NoMate);
}

// The other side to move, and the other attacker.
#[test]
fn mates_of_either_side(rt: HostRuntime) {
    let alloc = rt.alloc();
    let mated = game_from(&rt, alloc, &placed("Kg6 Ra7 kh8", Side::Black));
    expect(&rt, alloc, &mated, Side::White, 1, Told::Shown);
    let game = game_from(&rt, alloc, &position("Kh1 qg2 kg3"));
    expect(&rt, alloc, &game, Side::Black, 1, Told::Shown);
}

/// Asserts what cuts a solve within 8 moves of a king and a rook by one worker and by four.
fn expect_cut<R: Threads + Wait + Abort + Sync>(
    rt: &R,
    alloc: Global,
    lines: &[u8],
    owed: PollsOwed,
    limits: Limits,
    end: Told,
) {
    let game = game_from(rt, alloc, &position("Ke3 Ra1 kd5"));
    let by_one = Run {
        lines,
        owed,
        limits,
        ..whole(8, 1)
    };
    let by_four = Run {
        workers: 4,
        ..by_one
    };
    let alone = solved(rt, alloc, &game, Side::White, by_one);
    expect_eq(rt, alone, end);
    let together = solved(rt, alloc, &game, Side::White, by_four);
    expect_of(rt, &"by four", together == end);
}

fn limits(quota: Option<u64>, deadline: Option<u64>) -> Limits {
    Limits { quota, deadline }
}

#[test]
fn lines_cut_a_solve(rt: HostRuntime) {
    let (alloc, now) = (rt.alloc(), PollsOwed::Number(0));
    expect_cut(&rt, alloc, b"stop\n", now, NONE, Told::Line);
    expect_cut(&rt, alloc, b"", now, NONE, Told::InputEnded);
}

// The solve lasts much longer than the 1,025 nodes of the first worker that the last row needs.
#[test]
fn limits_cut_a_solve(rt: HostRuntime) {
    let (alloc, never) = (rt.alloc(), PollsOwed::Endless);
    expect_cut(
        &rt,
        alloc,
        b"",
        never,
        limits(Some(0), None),
        Told::Quota(0),
    );
    expect_cut(
        &rt,
        alloc,
        b"",
        never,
        limits(Some(30), None),
        Told::Quota(30),
    );
    expect_cut(
        &rt,
        alloc,
        b"",
        never,
        limits(None, Some(5)),
        Told::Deadline(5),
    );
    expect_cut(
        &rt,
        alloc,
        b"",
        never,
        limits(None, Some(6)),
        Told::Deadline(7),
    );
}

/// What the solve answers for White.
fn here<R: Threads + Wait + Abort + Sync>(
    rt: &R,
    alloc: Global,
    game: &Game,
    run: Run,
    shards: &Shards,
    passes: Passes,
) -> (Passes, Told)
    requires frame { IsFrameFor game.now Side.White shards.now.frame }
    requires passes { ArePassesOf shards.now passes }
    requires parts { HaveParts 65536 passes }
    requires some { 0 < run.n }
    requires small { run.n ≤ 100 }
    requires workers { (0 < run.workers) × (run.workers ≤ 64) }
    ensures passes { ArePassesOf shards.now result.0 }
    ensures parts { HaveParts 65536 result.0 }
{
    answer_with(rt, alloc, game, Side::White, run, shards, passes, &OpenGate)
}

/// Whether the shards know that the position is won after the king's move by which king and rook win within 2.
fn know_the_next<R: Wait>(rt: &R, shards: &Shards, passes: &mut Passes) -> bool
    requires { ArePassesOf shards.now passes.old }
{
    let next = Position {
        side: Side::Black,
        counter: 1,
        ..position("Kg6 Ra7 kh8")
    };
    shards
        .look(rt, passes, &next, 1)
        .is_some_and(|fact| fact.wins)
}

// King and rook win within 2 moves, and not within 1. A quota of 0 leaves the answer to the shards.
#[test]
fn shards_know_a_refuted_root(rt: HostRuntime) {
    let alloc = rt.alloc();
    let game = game_from(&rt, alloc, &position("Kf6 Ra7 kh8"));
    let (shards, passes) = shards_for(alloc, &game, Side::White).expect(&rt, "no fault");
    let (passes, before) = here(&rt, alloc, &game, unsearched(1), &shards, passes);
    let (passes, searched) = here(&rt, alloc, &game, whole(1, 1), &shards, passes);
    let (_, after) = here(&rt, alloc, &game, unsearched(1), &shards, passes);
    assert!(rt; before == Told::Quota(0));
    assert!(rt; searched == Told::NoMate && after == Told::NoMate);
}

// Then the shards know that the game is won, and the position after the first move.
#[test]
fn shards_know_a_won_root(rt: HostRuntime) {
    let alloc = rt.alloc();
    let p = position("Kf6 Ra7 kh8");
    let game = game_from(&rt, alloc, &p);
    let (shards, passes) = shards_for(alloc, &game, Side::White).expect(&rt, "no fault");
    let (passes, shown) = here(&rt, alloc, &game, whole(2, 1), &shards, passes);
    let (mut passes, won) = here(&rt, alloc, &game, unsearched(2), &shards, passes);
    assert!(rt; shown == Told::Shown && won == Told::Quota(0));
    let root = shards.look(&rt, &mut passes, &p, 2);
    assert!(rt; root.is_some_and(|fact| fact.wins));
    assert!(rt; know_the_next(&rt, &shards, &mut passes));
}

#[test]
fn settled_without_ports(rt: HostRuntime) {
    let alloc = rt.alloc();
    let game = game_from(&rt, alloc, &position("Kf6 Ra7 kh8"));
    let (shards, passes) = shards_for(alloc, &game, Side::White).expect(&rt, "no fault");
    let hints = hints_of(&rt, alloc, 0);
    let (passes, one) = settle(&rt, alloc, &game, Side::White, 1, &shards, passes, &hints);
    let (mut passes, two) = settle(&rt, alloc, &game, Side::White, 2, &shards, passes, &hints);
    assert!(rt; matches!(one, Ok(Settled::NoMate)));
    assert!(rt; matches!(two, Ok(Settled::Shown(_))));
    let root = Board::new(game.tables(), game.position());
    assert!(rt; hints.get(root.key()).is_some_and(|hint| hint.depth == 2));
    assert!(rt; know_the_next(&rt, &shards, &mut passes));
}

#[test]
fn two_workers_run_beside_each_other(rt: HostRuntime) {
    let alloc = rt.alloc();
    let game = game_from(&rt, alloc, &position("Ke3 Ra1 kd5"));
    let (shards, passes) = shards_for(alloc, &game, Side::White).expect(&rt, "no fault");
    let gate = HoldingGate::new();
    let run = whole(2, 2);
    let (_, told) = answer_with(&rt, alloc, &game, Side::White, run, &shards, passes, &gate);
    assert!(rt; !gate.gave_up());
    expect_eq(&rt, told, Told::NoMate);
}
