//! The workers beside the first.
ghost use Rattle.std.specs.Prelude.{◌≡◌, ◌≤◌, vec_len};
ghost use Rattle.std.specs.List.{All};
ghost use Rattle.alpha_beta.specs.Workers.{IsNew, most_nodes};

use foundation::Memory;
use hint_table::HintTable;
use negamax::{Fact, SearchState};
use std::alloc::Global;

/// What a worker beside the first keeps from one race to the next, once it has found a move to search; what it found in
/// the last one; and how many nodes it has entered in all.
#[derive(Drop)]
pub(crate) struct Job<'h> {
    hints: &'h HintTable,
    pub state: Option<SearchState<'h>>,
    pub facts: Vec<Fact>,
    pub nodes: u64,
}

impl<'h> Job<'h> {
    /// It has entered no node.
    fn new(alloc: Global, hints: &'h HintTable) -> Job<'h>
        ensures { IsNew result }
    {
        Job {
            hints,
            state: None,
            facts: Vec::new(alloc),
            nodes: 0,
        }
    }

    /// Has a search state, or there is no memory for one.
    pub fn prepare(&mut self, alloc: Global) -> Result<(), Memory>
        ensures facts { self.new.facts ≡ self.old.facts }
        ensures nodes { self.new.nodes ≡ self.old.nodes }
    {
        if self.state.is_none() {
            self.state = Some(SearchState::new(alloc, self.hints)?);
        }
        Ok(())
    }
}

/// N workers beside the first, or fewer where there is no memory for more.
pub(crate) fn jobs_for<'h>(alloc: Global, hints: &'h HintTable, count: u32) -> Vec<Job<'h>>
    ensures none { All IsNew result.items }
    ensures count { vec_len result ≤ count }
{
    let mut jobs = Vec::new(alloc);
    for _job in 0..count {
        if jobs.push(Job::new(alloc, hints)).is_err() {
            return jobs;
        }
    }
    jobs
}

/// The greatest of a count and those of the workers.
pub(crate) fn greatest_count(nodes: u64, jobs: &[Job]) -> u64
    ensures { result ≡ most_nodes nodes jobs.now }
{
    let mut most = nodes;
    for job in jobs {
        most = most.max(job.nodes);
    }
    most
}
