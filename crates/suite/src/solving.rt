//! All problems, by workers beside each other.
ghost use Rattle.std.specs.Prelude.{◌<◌, ◌≤◌, length, vec_len, IfOk};
ghost use Rattle.std.specs.List.{All};
ghost use Rattle.suite.specs.Answers.{AreAnswers};
ghost use Rattle.suite.specs.Problems.{IsFair};
ghost use Rattle.suite.specs.Workers.{AreFound, AreSlots, HasFound, HasNone, HaveFound, IsAnswerAt};

use crate::problem::{Answer, Problem, Solved};
use crate::queue::Queue;
use crate::race::race;
use crate::settling::solve;
use crate::work::{Found, Job};
use io_ports::Gate;
use rules_model::Memory;
use std::alloc::Global;
use std::sync::Wait;
use std::thread::Threads;

// So many workers that found nothing yet, or fewer where there is no memory for more.
fn jobs_for(alloc: Global, count: u32) -> Vec<Job>
    ensures none { All HasNone result.items }
    ensures count { vec_len result ≤ count }
{
    let mut jobs = Vec::new(alloc);
    for _job in 0..count {
        let job = Job {
            found: Vec::new(alloc),
        };
        if jobs.push(job).is_err() {
            return jobs;
        }
    }
    jobs
}

// A place for the answer to each problem.
fn slots_for(alloc: Global, problems: &[Problem]) -> Result<Vec<Option<Answer>>, Memory>
    ensures { IfOk result (λ slots. AreSlots problems.now slots.items) }
{
    let mut slots = Vec::with_capacity(alloc, problems.len())?;
    for _problem in 0..problems.len() {
        slots.push(None)?;
    }
    Ok(slots)
}

// Puts each answer at the place of its problem.
fn put_all(slots: &mut Vec<Option<Answer>>, mut found: Vec<Found>, problems: &[Problem])
    requires slots { AreSlots problems.now slots.old.items }
    requires found { AreFound problems.now found.items }
    ensures { AreSlots problems.now slots.new.items }
{
    while let Some(one) = found.pop() {
        let Found { at, answer } = one;
        if at < slots.len() {
            slots[at] = Some(answer);
        }
    }
}

// Puts the answers of all workers in the order of the problems.
fn gather(slots: &mut Vec<Option<Answer>>, mine: Job, mut jobs: Vec<Job>, problems: &[Problem])
    requires slots { AreSlots problems.now slots.old.items }
    requires mine { HasFound problems.now mine }
    requires found { HaveFound problems.now jobs.items }
    ensures { AreSlots problems.now slots.new.items }
{
    put_all(slots, mine.found, problems);
    while let Some(job) = jobs.pop() {
        put_all(slots, job.found, problems);
    }
}

// The answer that was found for the problem at the place; else the problem is solved now.
fn answer_at<R: Wait, G: Gate>(
    rt: &R,
    alloc: Global,
    slots: &mut Vec<Option<Answer>>,
    gate: &G,
    problems: &[Problem],
    at: usize,
) -> Result<Answer, Memory>
    requires fair { All IsFair problems.now }
    requires within { at < length problems.now }
    requires slots { AreSlots problems.now slots.old.items }
    ensures slots { AreSlots problems.now slots.new.items }
    ensures answer { IfOk result (IsAnswerAt problems.now at) }
{
    match slots[at].take() {
        Some(answer) => Ok(answer),
        None => {
            gate.pass(0, at as u64);
            let answer = solve(rt, alloc, &problems[at])?;
            Ok(answer)
        }
    }
}

// The answers in their order.
fn complete<R: Wait, G: Gate>(
    rt: &R,
    alloc: Global,
    slots: &mut Vec<Option<Answer>>,
    gate: &G,
    problems: &[Problem],
) -> Result<Solved, Memory>
    requires fair { All IsFair problems.now }
    requires slots { AreSlots problems.now slots.old.items }
    ensures { IfOk result (AreAnswers problems.now) }
{
    let mut answers = Vec::with_capacity(alloc, problems.len())?;
    for at in 0..problems.len() {
        let answer = answer_at(rt, alloc, slots, gate, problems, at)?;
        answers.push(answer)?;
    }
    Ok(Solved { items: answers })
}

/// The answers to at most 1,000 problems, in their order, by 1 to 64 workers, or by fewer where there is no memory for
/// all: for each, the least number of moves within which the side that is to move wins, up to the problem's own number,
/// and how it wins.
///
/// The first worker runs in the caller and the others beside it. Each takes the next problem that nobody has taken, and
/// passes the gate with its own number and the problem's before it. So the answers are the same for every number of
/// workers. A problem that no worker solved, since memory ran out, is solved by the caller in the end.
///
/// # Errors
///
/// `Memory` where there is none.
pub fn solve_all<R: Threads + Wait + Sync, G: Gate + Sync>(
    rt: &R,
    alloc: Global,
    problems: &[Problem],
    workers: u32,
    gate: &G,
) -> Result<Solved, Memory>
    requires fair { All IsFair problems.now }
    requires few { length problems.now ≤ 1000 }
    requires workers { (0 < workers) × (workers ≤ 64) }
    ensures { IfOk result (AreAnswers problems.now) }
{
    let queue = Queue::new();
    let mut slots = slots_for(alloc, problems)?;
    let mut mine = Job {
        found: Vec::new(alloc),
    };
    let mut jobs = jobs_for(alloc, workers - 1);
    race(rt, alloc, &mut mine, &mut jobs, &queue, gate, problems);
    gather(&mut slots, mine, jobs, problems);
    complete(rt, alloc, &mut slots, gate, problems)
}
