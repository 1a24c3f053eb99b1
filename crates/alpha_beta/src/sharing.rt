//! The moves of a position but the first, shared by all workers.
ghost use Rattle.std.specs.Prelude.{◌≡◌, ◌*◌, ◌+◌, ◌≤◌, ℤ, length, IfOk, OnOk, IsErrOf};
ghost use Rattle.std.specs.List.{All};
ghost use Rattle.foundation.specs.Member.{Member};
ghost use Rattle.game_line.specs.Lined.{legal_in, story_of_line};
ghost use Rattle.evaluation.specs.Laws.{Within};
ghost use Rattle.evaluation.specs.Values.{greatest};
ghost use Rattle.negamax.specs.RootFacts.{Chooses, IsTrueFact, score_of};
ghost use Rattle.negamax.specs.Windows.{Bounds};
ghost use Rattle.watching.specs.declared.halt.Halt.{Halt};
ghost use Rattle.alpha_beta.specs.Roots.{root_lines};
ghost use Rattle.alpha_beta.specs.Workers.{AreTrueFacts, IsSound, most_nodes};

use crate::jobs::Job;
use crate::plan::{Plan, Team};
use crate::race::race;
use crate::shared::SharedMoves;
use foundation::Memory;
use game_line::Line;
use io_ports::Gate;
use negamax::{Best, Fact, SearchState, Window, combine};
use rules_model::Move;
use std::thread::Threads;
use watching::{Halt, Watch};

/// Adds what the others found.
fn gather<G>(plan: &Plan<G>, jobs: &[Job], facts: &mut Vec<Fact>) -> Result<(), Memory>
    requires known { AreTrueFacts plan.now facts.old.items }
    requires sound { All (IsSound plan.now) jobs.now }
    ensures { OnOk result (AreTrueFacts plan.now facts.new.items) }
{
    for job in jobs {
        facts.extend_from_slice(job.facts.as_slice())?;
    }
    Ok(())
}

/// What the workers find of the moves within the null window above the best: they race over them, each move once.
pub(crate) fn facts_of<R: Threads + Sync, W: Watch, G: Gate + Sync>(
    rt: &R,
    team: &Team<G>,
    line: &mut Line,
    state: &mut SearchState,
    jobs: &mut [Job],
    watch: &mut W,
    depth: u8,
    ply: u8,
    moves: &[Move],
    window: Window,
) -> Result<Vec<Fact>, Halt>
    requires least { 1 ≤ depth }
    requires plies { ply + depth ≤ 64 }
    requires room { length line.old.moves + depth + 4 ≤ line.old.room }
    requires legal { All (λ m. Member m (legal_in line.old)) moves.now }
    requires count { length jobs.old ≤ 63 }
    ensures known { IfOk result (λ facts.
        All (IsTrueFact line.old.rules depth ply (story_of_line line.old)) facts.items) }
    ensures few { OnOk result (most_nodes 0 jobs.new
        ≤ most_nodes 0 jobs.old + root_lines line.old.rules depth (story_of_line line.old) moves.now) }
    ensures count { OnOk result (length jobs.new ≡ length jobs.old) }
    ensures gone { OnOk result (W.gone watch.old watch.new
        (root_lines line.old.rules depth (story_of_line line.old) moves.now)) }
    ensures ended { (why : Halt) → IsErrOf result why → W.ended watch.old watch.new
        (root_lines line.old.rules depth (story_of_line line.old) moves.now) why }
    ensures kept { OnOk result (line.new ≡ line.old) }
{
    let base = line.copied(team.alloc)?;
    let shared = SharedMoves::new(team.alloc, moves.len())?;
    let plan = Plan {
        team,
        line: &base,
        depth,
        ply,
        moves,
        window,
        shared: &shared,
    };
    let mut facts = Vec::new(team.alloc);
    race(rt, &plan, line, state, jobs, &mut facts, watch)?;
    gather(&plan, jobs, &mut facts)?;
    Ok(facts)
}

/// The best of the moves and of a best before them, as far as the window asks: the workers race over the moves with one
/// null window above the best, and the one in the caller searches those that seem better.
pub(crate) fn share<R: Threads + Sync, W: Watch, G: Gate + Sync>(
    rt: &R,
    team: &Team<G>,
    line: &mut Line,
    state: &mut SearchState,
    jobs: &mut [Job],
    watch: &mut W,
    depth: u8,
    ply: u8,
    moves: &[Move],
    window: Window,
    first: Best,
) -> Result<Best, Halt>
    requires least { 1 ≤ depth }
    requires plies { ply + depth ≤ 64 }
    requires room { length line.old.moves + depth + 4 ≤ line.old.room }
    requires legal { All (λ m. Member m (legal_in line.old)) moves.now }
    requires count { length jobs.old ≤ 63 }
    requires within { Within first.value }
    ensures bounds { IfOk result (λ best. (v : ℤ) → Bounds window.alpha window.beta first.value v
        → Bounds window.alpha window.beta best.value
        (greatest v (score_of line.old.rules depth ply (story_of_line line.old)) moves.now)) }
    ensures within { IfOk result (λ best. Within best.value) }
    ensures chosen { IfOk result
        (Chooses line.old.rules depth ply (story_of_line line.old) window.alpha moves.now first) }
    ensures few { OnOk result (most_nodes 0 jobs.new
        ≤ most_nodes 0 jobs.old + root_lines line.old.rules depth (story_of_line line.old) moves.now) }
    ensures count { OnOk result (length jobs.new ≡ length jobs.old) }
    ensures gone { OnOk result (W.gone watch.old watch.new
        (2 * root_lines line.old.rules depth (story_of_line line.old) moves.now)) }
    ensures ended { (why : Halt) → IsErrOf result why → W.ended watch.old watch.new
        (2 * root_lines line.old.rules depth (story_of_line line.old) moves.now) why }
    ensures kept { OnOk result (line.new ≡ line.old) }
{
    if first.value >= window.beta {
        return Ok(first);
    }
    let asked = window.above(first.value).null();
    let found = facts_of(rt, team, line, state, jobs, watch, depth, ply, moves, asked)?;
    let facts = found.as_slice();
    combine(line, state, watch, depth, ply, moves, facts, window, first)
}
