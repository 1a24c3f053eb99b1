//! What a worker does: it takes problem after problem.
ghost use Rattle.std.specs.Prelude.{◌<◌, length};
ghost use Rattle.std.specs.List.{All};
ghost use Rattle.suite.specs.Problems.{IsFair};
ghost use Rattle.suite.specs.Workers.{AreFound};

use crate::problem::{Answer, Problem};
use crate::queue::Queue;
use crate::settling::solve;
use io_ports::Gate;
use rules_model::Memory;
use std::alloc::Global;
use std::sync::Wait;

/// The answer to the problem at a place.
#[derive(Drop)]
pub(crate) struct Found {
    pub at: usize,
    pub answer: Answer,
}

/// What a worker hands back: the answers that it found.
#[derive(Drop)]
pub(crate) struct Job {
    pub found: Vec<Found>,
}

// Solves the problem at the place.
fn settle<R: Wait>(
    rt: &R,
    alloc: Global,
    found: &mut Vec<Found>,
    problems: &[Problem],
    at: usize,
) -> Result<(), Memory>
    requires fair { All IsFair problems.now }
    requires within { at < length problems.now }
    requires found { AreFound problems.now found.old.items }
    ensures found { AreFound problems.now found.new.items }
{
    let answer = solve(rt, alloc, &problems[at])?;
    found.push(Found { at, answer })?;
    Ok(())
}

/// Takes problems while there are any. A worker that finds no memory stops, and what it found stays.
pub(crate) fn work<R: Wait, G: Gate>(
    rt: &R,
    alloc: Global,
    job: &mut Job,
    queue: &Queue,
    gate: &G,
    worker: u32,
    problems: &[Problem],
)
    requires fair { All IsFair problems.now }
    requires found { AreFound problems.now job.old.found.items }
    ensures found { AreFound problems.now job.new.found.items }
{
    for _turn in 0..problems.len() {
        let at = queue.take();
        if at >= problems.len() {
            return;
        }
        gate.pass(worker, at as u64);
        if settle(rt, alloc, &mut job.found, problems, at).is_err() {
            return;
        }
    }
}
