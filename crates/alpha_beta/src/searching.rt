//! The whole search.
ghost use Rattle.std.specs.Prelude.{◌≡◌, ◌<◌, ◌+◌, ◌*◌, ◌≤◌, length, OnOk, IfOk, IsErrOf};
ghost use Rattle.std.specs.List.{All};
ghost use Rattle.io_ports.specs.declared.limits.SearchFault.{SearchFault};
ghost use Rattle.foundation.specs.Member.{Member};
ghost use Rattle.game_line.specs.Lined.{legal_in, story_of_line};
ghost use Rattle.game_play.specs.Played.{story};
ghost use Rattle.evaluation.specs.Laws.{Within};
ghost use Rattle.evaluation.specs.Values.{Attains, value_of};
ghost use Rattle.watching.specs.declared.halt.Halt.{Halt};
ghost use Rattle.watching.specs.Stopping.{AreSamePorts, Fails};
ghost use Rattle.watching.specs.Watched.{moment, world};
ghost use Rattle.alpha_beta.specs.Bests.{IsBest};
ghost use Rattle.alpha_beta.specs.Roots.{AreLegal, lines_of, root_lines};
ghost use Rattle.alpha_beta.specs.Searches.{Finds, Heard, IsCount, bound_of};
ghost use Rattle.alpha_beta.specs.Workers.{IsNew, most_nodes};

use crate::jobs::{Job, greatest_count, jobs_for};
use crate::plan::Team;
use crate::roots::ordered;
use crate::settling::{score_root, settle_all};
use crate::sharing::facts_of;
use game_line::Line;
use game_play::Game;
use hint_table::HintTable;
use io_ports::{Clock, Gate, Limits, LineBuf, Ports, SearchFault, Sink, Source, Stopped};
use negamax::{Best, SearchState, Window};
use rules_model::Move;
use std::alloc::Global;
use std::thread::Threads;
use watching::{Caller, Halt, Watch, stopped_by};

/// What a search finds: the value over the root moves, one of them that attains it, and the greatest count of nodes of
/// one worker.
#[derive(Clone, Copy)]
pub struct Found {
    pub value: i32,
    pub best: Move,
    pub nodes: u64,
}

/// What a search over ports answers.
#[derive(Drop)]
pub enum Searched {
    /// The value over the root moves, one of them that attains it, and the greatest count of nodes of one worker.
    Done { value: i32, best: Move, nodes: u64 },
    /// It was cut.
    Stopped(Stopped),
}

/// The best of the root moves: the first one is searched, the workers race over the others, and those that seem better
/// are searched as the first was.
fn best_root<R: Threads + Sync, W: Watch, G: Gate + Sync>(
    rt: &R,
    team: &Team<G>,
    line: &mut Line,
    state: &mut SearchState,
    jobs: &mut [Job],
    watch: &mut W,
    depth: u8,
    moves: &[Move],
) -> Result<Best, Halt>
    requires least { 1 ≤ depth }
    requires most { depth ≤ 64 }
    requires room { length line.old.moves + depth + 4 ≤ line.old.room }
    requires legal { All (λ m. Member m (legal_in line.old)) moves.now }
    requires some { 0 < length moves.now }
    requires count { length jobs.old ≤ 63 }
    ensures value { IfOk result (λ best.
        best.value ≡ value_of line.old.rules depth (story_of_line line.old) moves.now) }
    ensures attains { IfOk result (λ best.
        Attains line.old.rules depth (story_of_line line.old) moves.now best.value best.chosen) }
    ensures within { IfOk result (λ best. Within best.value) }
    ensures few { OnOk result (most_nodes 0 jobs.new
        ≤ most_nodes 0 jobs.old + 2 * root_lines line.old.rules depth (story_of_line line.old) moves.now) }
    ensures count { OnOk result (length jobs.new ≡ length jobs.old) }
    ensures gone { OnOk result (W.gone watch.old watch.new
        (3 * root_lines line.old.rules depth (story_of_line line.old) moves.now)) }
    ensures ended { (why : Halt) → IsErrOf result why → W.ended watch.old watch.new
        (3 * root_lines line.old.rules depth (story_of_line line.old) moves.now) why }
    ensures kept { OnOk result (line.new ≡ line.old) }
{
    let chosen = moves[0];
    let window = Window::open();
    let value = score_root(rt, team, line, state, jobs, watch, depth, &chosen, window)?;
    let first = Best { value, chosen };
    let rest = &moves[1..];
    let asked = window.above(value).null();
    let found = facts_of(rt, team, line, state, jobs, watch, depth, 0, rest, asked)?;
    let facts = found.as_slice();
    let best = settle_all(
        rt, team, line, state, jobs, watch, depth, rest, facts, first,
    )?;
    state.leave_best(line.key(), depth, &best);
    Ok(best)
}

/// The search of all workers, and the greatest count of nodes of one of them.
fn search_by<R: Threads + Sync, W: Watch, G: Gate + Sync>(
    rt: &R,
    team: &Team<G>,
    game: &Game,
    jobs: &mut [Job],
    watch: &mut W,
    depth: u8,
    moves: &[Move],
) -> Result<Found, Halt>
    requires least { 1 ≤ depth }
    requires most { depth ≤ 64 }
    requires legal { AreLegal game.now.rules (story game.now) moves.now }
    requires some { 0 < length moves.now }
    requires ready { All IsNew jobs.old }
    requires count { length jobs.old ≤ 63 }
    ensures best { IfOk result (λ found. IsBest game.now depth moves.now found.value found.best) }
    ensures few { IfOk result (λ found. found.nodes ≤ 3 * lines_of game.now depth moves.now) }
    ensures counted { IfOk result (λ found.
        IsCount (length jobs.old + 1) (W.entered watch.old) (W.entered watch.new) found.nodes) }
    ensures gone { OnOk result (W.gone watch.old watch.new (3 * lines_of game.now depth moves.now)) }
    ensures ended { (why : Halt) → IsErrOf result why
        → W.ended watch.old watch.new (3 * lines_of game.now depth moves.now) why }
{
    let before = watch.nodes();
    let mut line = Line::new(team.alloc, game, depth as usize + 4)?;
    let mut state = SearchState::new(team.alloc, team.hints)?;
    let best = best_root(rt, team, &mut line, &mut state, jobs, watch, depth, moves)?;
    let nodes = watch.nodes().saturating_sub(before);
    Ok(Found {
        value: best.value,
        best: best.chosen,
        nodes: greatest_count(nodes, jobs),
    })
}

/// The value of the game at a depth from 1 to 64 over root moves, at least one and all legal, and one of them that
/// attains it; by 1 to 64 workers, or by fewer where there is no memory for all. Hints change the time that it takes,
/// and nothing else.
///
/// The first worker runs in the caller and asks the watch at each node; the others run beside it, each for at most as
/// many nodes as the quota says, and what they do is heard by nobody. No worker enters more nodes than four times the
/// lines of at most as many legal moves as the depth and four. The count of nodes is at least what the watch counted
/// here; with one worker it is that.
///
/// # Errors
///
/// What ended the watch; or no memory.
pub fn search_watched<R: Threads + Sync, W: Watch, G: Gate + Sync>(
    rt: &R,
    alloc: Global,
    game: &Game,
    depth: u8,
    roots: &[Move],
    hints: &HintTable,
    quota: Option<u64>,
    workers: u32,
    gate: &G,
    watch: &mut W,
) -> Result<Found, Halt>
    requires least { 1 ≤ depth }
    requires most { depth ≤ 64 }
    requires legal { AreLegal game.now.rules (story game.now) roots.now }
    requires some { 0 < length roots.now }
    requires workers { (0 < workers) × (workers ≤ 64) }
    ensures best { IfOk result (λ found. IsBest game.now depth roots.now found.value found.best) }
    ensures few { IfOk result (λ found. found.nodes ≤ bound_of game.now depth) }
    ensures counted { IfOk result (λ found.
        IsCount workers (W.entered watch.old) (W.entered watch.new) found.nodes) }
    ensures gone { OnOk result (W.gone watch.old watch.new (bound_of game.now depth)) }
    ensures ended { (why : Halt) → IsErrOf result why → W.ended watch.old watch.new (bound_of game.now depth) why }
{
    let tried = ordered(alloc, game, roots, hints)?;
    let team = Team {
        alloc,
        hints,
        gate,
        quota,
    };
    let mut jobs = jobs_for(alloc, hints, workers - 1);
    search_by(rt, &team, game, &mut jobs, watch, depth, tried.as_slice())
}

/// As `search_watched`, over ports. The first worker polls the source each 1,024 nodes, answers the lines that it
/// hears, and is cut by a line that stops the search, by the end of the lines, by the deadline, or once it has entered
/// as many nodes as the quota says; a quota of four times the lines of at most as many legal moves as the depth and
/// four never cuts it.
///
/// The contract says that there is a count of nodes that explains the answer; that this is the count of nodes entered,
/// `search_watched` says.
///
/// # Errors
///
/// A fault of the source or the sink, whose count of faults has risen; or no memory.
pub fn search<R: Threads + Sync, S: Source, K: Sink, C: Clock, G: Gate + Sync>(
    rt: &R,
    alloc: Global,
    game: &Game,
    depth: u8,
    roots: &[Move],
    hints: &HintTable,
    limits: Limits,
    workers: u32,
    ports: &mut Ports<S, K, C, G>,
) -> Result<Searched, SearchFault>
    requires least { 1 ≤ depth }
    requires most { depth ≤ 64 }
    requires legal { AreLegal game.now.rules (story game.now) roots.now }
    requires some { 0 < length roots.now }
    requires workers { (0 < workers) × (workers ≤ 64) }
    ensures finds { IfOk result (Finds game.now depth roots.now) }
    ensures heard { IfOk result (Heard
        (world S.left S.owed S.faults K.taken K.faults C.given C.count C.last) ports.entry.now.dialect limits
        (moment ports.entry.now.source.now ports.entry.now.sink.now ports.entry.now.clock.now 0)
        ports.exit.now.source.now ports.exit.now.sink.now ports.exit.now.clock.now (bound_of game.now depth)) }
    ensures fails { (why : SearchFault) → IsErrOf result why → Fails
        (world S.left S.owed S.faults K.taken K.faults C.given C.count C.last) ports.entry.now.dialect
        (moment ports.entry.now.source.now ports.entry.now.sink.now ports.entry.now.clock.now 0)
        ports.exit.now.source.now ports.exit.now.sink.now ports.exit.now.clock.now (bound_of game.now depth) why }
    ensures same { AreSamePorts ports.entry.now ports.exit.now }
{
    let mut line = LineBuf::new(alloc)?;
    let mut watch = Caller {
        source: ports.source,
        sink: ports.sink,
        clock: ports.clock,
        line: &mut line,
        dialect: ports.dialect,
        limits,
        nodes: 0,
    };
    let outcome = search_watched(
        rt,
        alloc,
        game,
        depth,
        roots,
        hints,
        limits.quota,
        workers,
        ports.gate,
        &mut watch,
    );
    match outcome {
        Ok(Found { value, best, nodes }) => Ok(Searched::Done { value, best, nodes }),
        Err(Halt::Cut(why)) => Ok(Searched::Stopped(stopped_by(why, line))),
        Err(Halt::Fault(why)) => Err(why),
    }
}
