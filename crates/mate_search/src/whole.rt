//! The whole solve, over shards and ports.
ghost use Rattle.std.specs.Prelude.{◌≡◌, ◌<◌, ◌≤◌, ℕ, IfOk, IsOkAnd, OnOk, IsErrOf, Some};
ghost use Rattle.forced_wins.specs.Wins.{IsInLimit};
ghost use Rattle.game_play.specs.Played.{story};
ghost use Rattle.io_ports.specs.declared.limits.SearchFault.{SearchFault};
ghost use Rattle.mate_shards.specs.Grown.{HaveParts};
ghost use Rattle.mate_shards.specs.Views.{ArePassesOf};
ghost use Rattle.watching.specs.declared.halt.Halt.{Halt};
ghost use Rattle.watching.specs.Stopping.{AreSamePorts, Fails};
ghost use Rattle.watching.specs.Watched.{moment, world};
ghost use Rattle.mate_showing.specs.Answers.{IsDecided, IsFrameOf, IsRight};
ghost use Rattle.mate_search.specs.Handed.{AreHandedBack, RootIsShared};
ghost use Rattle.mate_search.specs.Solves.{Heard, IsDecidedMate, IsFrameFor, IsLookedUp, IsRightMate, IsUncut, IsUnmoved, bound_of};

use crate::answer::Mate;
use crate::ordering::leave_hint;
use crate::race::Race;
use crate::shared_root::is_refuted;
use crate::solve_memory::{SolveMemory, prepare, run};
use crate::solving::settle_alone;
use game_play::Game;
use hint_table::HintTable;
use io_ports::{Clock, Gate, Limits, LineBuf, Ports, SearchFault, Sink, Source, Stopped};
use mate_shards::{Passes, Shards};
use mate_showing::Settled;
use rules_model::{Memory, Side};
use std::alloc::Global;
use std::sync::Wait;
use std::thread::Threads;
use watching::{Caller, Halt, Watch, stopped_by};

/// Whether the game is won within n moves, from 1 to 100, by the side that attacks in the frame of the shards, and how;
/// by 1 to 64 workers, or by fewer where there is no memory for the passes of all. The frame has the game's rules and
/// blocked positions; the passes have a part for each worker. Hints change the time that it takes, and nothing else.
///
/// The first worker runs in the caller, and the watch that is lent is its own: all that it hears of the outside, and
/// what may cut it. It enters at most `4 * (n + 1)` times the number of lines of at most `2 * n + 1` legal moves. The
/// other workers settle root moves beside it, each within the quota of nodes, and publish what they find; no clause
/// here counts their nodes.
///
/// The passes of all workers are joined and handed back with every answer. Where the solve was not cut and the root's
/// repeat is not blocked, its shard then has a fact that serves the root, or is full.
///
/// # Errors
///
/// What ends the watch; or `Memory`.
pub fn solve_watched<R: Threads + Wait + Sync, W: Watch, G: Gate + Sync>(
    rt: &R,
    alloc: Global,
    game: &Game,
    n: u16,
    shards: &Shards,
    passes: Passes,
    hints: &HintTable,
    quota: Option<u64>,
    workers: u32,
    gate: &G,
    watch: &mut W,
) -> (Passes, Result<Settled, Halt>)
    requires frame { IsFrameOf game.now shards.now.frame }
    requires passes { ArePassesOf shards.now passes }
    requires parts { (k : ℕ) × HaveParts k passes × (workers ≤ k) }
    requires some { 0 < n }
    requires small { n ≤ 100 }
    requires workers { (0 < workers) × (workers ≤ 64) }
    ensures handed { AreHandedBack shards.now passes result.0 }
    ensures shared { OnOk result.1 (RootIsShared shards.now result.0 game.now n) }
    ensures right { IfOk result.1 (IsRight game.now.rules (story game.now) shards.now.frame.attacker n) }
    ensures decided { IfOk result.1 (λ s. IsInLimit game.now.rules n (story game.now) → IsDecided s) }
    ensures gone { OnOk result.1 (W.gone watch.old watch.new (bound_of game.now n)) }
    ensures ended { (why : Halt) → IsErrOf result.1 why → W.ended watch.old watch.new (bound_of game.now n) why }
{
    let mut passes = passes;
    let before = watch.nodes();
    if is_refuted(rt, shards, &mut passes, game, n) {
        return (passes, Ok(Settled::NoMate));
    }
    let Ok(memory) = prepare(alloc, game, n, shards, hints, workers) else {
        return (passes, Err(Halt::Fault(SearchFault::Memory)));
    };
    let SolveMemory {
        roots,
        shared,
        jobs,
        mut facts,
    } = memory;
    let race = Race {
        alloc,
        game,
        n,
        shards,
        roots: &roots,
        shared: &shared,
        gate,
        quota,
        tree_nodes: hints.nodes(),
    };
    let (passes, end) = run(rt, &race, passes, jobs, workers, &mut facts, watch);
    leave_hint(hints, game, n, &end);
    hints.put_nodes(watch.nodes().saturating_sub(before));
    (passes, end)
}

/// What the shards alone know of the root.
fn look_up<R: Wait>(rt: &R, shards: &Shards, passes: &mut Passes, game: &Game, n: u16) -> Mate
    requires frame { IsFrameOf game.now shards.now.frame }
    requires passes { ArePassesOf shards.now passes.old }
    ensures handed { AreHandedBack shards.now passes.old passes.new }
    ensures looked { IsLookedUp shards.now passes.new game.now n result }
    ensures right { IsRightMate game.now shards.now.frame.attacker n result }
{
    if is_refuted(rt, shards, passes, game, n) {
        Mate::NoMate
    } else {
        Mate::Stopped(Stopped::Quota(0))
    }
}

/// As `solve_watched`, for the side that attacks in the frame of the shards, over ports.
///
/// The first worker polls the source each 1,024 nodes, answers the lines that it hears, and is cut by a line that
/// stops the search, by the end of the lines, by the deadline, or once it has entered as many nodes as the quota says.
/// A quota of the greatest number that this worker enters never cuts a solve. How many nodes it entered is told by no
/// clause here: those of `solve_watched` say it of a watch's own count. With a quota of 0 nothing is searched: the
/// answer is what the shards know of the root.
///
/// # Errors
///
/// A fault of the source or the sink, whose count of faults has risen; or no memory.
pub fn solve<R: Threads + Wait + Sync, S: Source, K: Sink, C: Clock, G: Gate + Sync>(
    rt: &R,
    alloc: Global,
    game: &Game,
    attacker: Side,
    n: u16,
    shards: &Shards,
    passes: Passes,
    hints: &HintTable,
    limits: Limits,
    workers: u32,
    ports: &mut Ports<S, K, C, G>,
) -> (Passes, Result<Mate, SearchFault>)
    requires frame { IsFrameFor game.now attacker shards.now.frame }
    requires passes { ArePassesOf shards.now passes }
    requires parts { (k : ℕ) × HaveParts k passes × (workers ≤ k) }
    requires some { 0 < n }
    requires small { n ≤ 100 }
    requires workers { (0 < workers) × (workers ≤ 64) }
    ensures handed { AreHandedBack shards.now passes result.0 }
    ensures shared { IfOk result.1 (λ m. IsUncut m → RootIsShared shards.now result.0 game.now n) }
    ensures right { IfOk result.1 (IsRightMate game.now attacker n) }
    ensures decided { IfOk result.1 (λ m. IsInLimit game.now.rules n (story game.now) → IsDecidedMate m) }
    ensures looked { limits.quota ≡ Some 0 → IsOkAnd result.1 (IsLookedUp shards.now result.0 game.now n) }
    ensures unmoved { limits.quota ≡ Some 0 → IsUnmoved ports.entry.now ports.exit.now }
    ensures heard { IfOk result.1 (Heard
        (world S.left S.owed S.faults K.taken K.faults C.given C.count C.last) ports.entry.now.dialect limits
        (moment ports.entry.now.source.now ports.entry.now.sink.now ports.entry.now.clock.now 0)
        ports.exit.now.source.now ports.exit.now.sink.now ports.exit.now.clock.now (bound_of game.now n)) }
    ensures fails { (why : SearchFault) → IsErrOf result.1 why → Fails
        (world S.left S.owed S.faults K.taken K.faults C.given C.count C.last) ports.entry.now.dialect
        (moment ports.entry.now.source.now ports.entry.now.sink.now ports.entry.now.clock.now 0)
        ports.exit.now.source.now ports.exit.now.sink.now ports.exit.now.clock.now (bound_of game.now n) why }
    ensures same { AreSamePorts ports.entry.now ports.exit.now }
{
    let mut passes = passes;
    if limits.quota == Some(0) {
        let answer = look_up(rt, shards, &mut passes, game, n);
        return (passes, Ok(answer));
    }
    let Ok(mut line) = LineBuf::new(alloc) else {
        return (passes, Err(SearchFault::Memory));
    };
    let mut watch = Caller {
        source: &mut *ports.source,
        sink: &mut *ports.sink,
        clock: &mut *ports.clock,
        line: &mut line,
        dialect: ports.dialect,
        limits,
        nodes: 0,
    };
    let (passes, end) = solve_watched(
        rt,
        alloc,
        game,
        n,
        shards,
        passes,
        hints,
        limits.quota,
        workers,
        ports.gate,
        &mut watch,
    );
    match end {
        Ok(settled) => (passes, Ok(settled.into())),
        Err(Halt::Cut(why)) => (passes, Ok(Mate::Stopped(stopped_by(why, line)))),
        Err(Halt::Fault(why)) => (passes, Err(why)),
    }
}

/// As `solve`, by one worker, without ports and limits.
///
/// # Errors
///
/// `Memory` where there is none.
pub fn settle<R: Wait>(
    rt: &R,
    alloc: Global,
    game: &Game,
    attacker: Side,
    n: u16,
    shards: &Shards,
    passes: Passes,
    hints: &HintTable,
) -> (Passes, Result<Settled, Memory>)
    requires frame { IsFrameFor game.now attacker shards.now.frame }
    requires passes { ArePassesOf shards.now passes }
    requires some { 0 < n }
    requires small { n ≤ 100 }
    ensures handed { AreHandedBack shards.now passes result.0 }
    ensures shared { OnOk result.1 (RootIsShared shards.now result.0 game.now n) }
    ensures right { IfOk result.1 (IsRight game.now.rules (story game.now) attacker n) }
    ensures decided { IfOk result.1 (λ s. IsInLimit game.now.rules n (story game.now) → IsDecided s) }
{
    let mut passes = passes;
    let end = settle_alone(rt, alloc, game, n, shards, &mut passes, hints);
    (passes, end)
}
