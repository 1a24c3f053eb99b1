//! The worker in the caller, and the others beside it.
ghost use Rattle.std.specs.Prelude.{◌<◌, ◌≤◌, length};
ghost use Rattle.std.specs.List.{All};
ghost use Rattle.suite.specs.Problems.{IsFair};
ghost use Rattle.suite.specs.Workers.{HasFound, HaveFound};

use crate::problem::Problem;
use crate::queue::Queue;
use crate::work::{Job, work};
use io_ports::Gate;
use std::alloc::Global;
use std::sync::Wait;
use std::thread::Threads;

/// The worker in the caller, whose job is the first one, and the others beside it. It returns once all have ended.
pub(crate) fn race<R: Threads + Wait + Sync, G: Gate + Sync>(
    rt: &R,
    alloc: Global,
    mine: &mut Job,
    jobs: &mut [Job],
    queue: &Queue,
    gate: &G,
    problems: &[Problem],
)
    requires fair { All IsFair problems.now }
    requires mine { HasFound problems.now mine.old }
    requires found { HaveFound problems.now jobs.old }
    requires count { length jobs.old ≤ 63 }
    ensures mine { HasFound problems.now mine.new }
    ensures found { HaveFound problems.now jobs.new }
{
    let threads = jobs.len();
    watching::race(
        rt,
        jobs,
        threads,
        &|k: usize, job: &mut Job|
            requires { HasFound problems.now job.now × All IsFair problems.now × (k < 63) }
            ensures { HasFound problems.entry.now job.exit.now }
        { work(rt, alloc, job, queue, gate, k as u32 + 1, problems) },
        &mut ||
            requires { HasFound problems.now mine.now × All IsFair problems.now }
            ensures { HasFound problems.entry.now mine.exit.now }
        { work(rt, alloc, mine, queue, gate, 0, problems) },
    );
}
