//! The worker in the caller, and the others beside it.
ghost use Rattle.std.specs.Prelude.{◌≡◌, ℕ, ◌≤◌, ◌<◌, [], get_or, length, OnOk, IsErrOf};
ghost use Rattle.std.specs.List.{All};
ghost use Rattle.watching.specs.declared.halt.Halt.{Halt};
ghost use Rattle.alpha_beta.specs.declared.jobs.Job.{Job};
ghost use Rattle.alpha_beta.specs.Workers.{AreTrueFacts, HasEntered, HasHelped, IsPlan, IsSound, lines_in};

use crate::jobs::Job;
use crate::plan::Plan;
use crate::taking::{help, take_all};
use game_line::Line;
use io_ports::Gate;
use negamax::{Fact, SearchState};
use std::thread::Threads;
use watching::{Halt, Watch};

/// The worker in the caller. When it ends, whatever the reason, the others are told to stop.
fn lead<'g, W: Watch, G: Gate>(
    plan: &Plan<'_, 'g, G>,
    line: &mut Line<'g>,
    state: &mut SearchState,
    facts: &mut Vec<Fact>,
    watch: &mut W,
) -> Result<(), Halt>
    requires plan { IsPlan plan.now }
    requires line { line.old ≡ plan.now.line.now }
    requires none { facts.old.items ≡ [] }
    ensures known { AreTrueFacts plan.now facts.new.items }
    ensures gone { OnOk result (W.gone watch.old watch.new (lines_in plan.now)) }
    ensures ended { (why : Halt) → IsErrOf result why → W.ended watch.old watch.new (lines_in plan.now) why }
    ensures kept { OnOk result (line.new ≡ plan.now.line.now) }
{
    let end = take_all(plan, line, state, facts, watch);
    plan.shared.flag.raise();
    end
}

/// On how many threads beside the caller's a race is run: one over few moves, or with few plies left, is over soon, and
/// more would cost more than they bring.
fn threads_for(depth: u8, moves: usize) -> usize {
    moves.min((1usize << depth.min(7)) / 2)
}

/// The worker in the caller and the others, each with a line and a search state of its own. It returns once all have
/// ended.
pub(crate) fn race<'g, R: Threads + Sync, W: Watch, G: Gate + Sync>(
    rt: &R,
    plan: &Plan<'_, 'g, G>,
    line: &mut Line<'g>,
    state: &mut SearchState,
    jobs: &mut [Job],
    facts: &mut Vec<Fact>,
    watch: &mut W,
) -> Result<(), Halt>
    requires plan { IsPlan plan.now }
    requires line { line.old ≡ plan.now.line.now }
    requires none { facts.old.items ≡ [] }
    requires count { length jobs.old ≤ 63 }
    ensures sound { All (IsSound plan.now) jobs.new }
    ensures entered { (i : ℕ) (d : Job) → i < length jobs.old
        → HasEntered (lines_in plan.now) (get_or jobs.old i d) (get_or jobs.new i d) }
    ensures count { length jobs.new ≡ length jobs.old }
    ensures known { AreTrueFacts plan.now facts.new.items }
    ensures gone { OnOk result (W.gone watch.old watch.new (lines_in plan.now)) }
    ensures ended { (why : Halt) → IsErrOf result why → W.ended watch.old watch.new (lines_in plan.now) why }
    ensures kept { OnOk result (line.new ≡ plan.now.line.now) }
{
    let threads = threads_for(plan.depth, plan.moves.len());
    watching::race(
        rt,
        jobs,
        threads,
        &|k: usize, job: &mut Job|
            requires { IsPlan plan.now × (k < 63) }
            ensures { HasHelped plan.entry.now job.entry.now job.exit.now }
        { help(plan, k as u32 + 1, job) },
        &mut || lead(plan, line, state, facts, watch),
    )
}
