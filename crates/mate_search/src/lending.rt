//! Passes that are cut off for the other workers and joined again, and what the workers found.
ghost use Rattle.std.specs.Prelude.{◌≡◌, ◌+◌, ◌-◌, ◌<◌, ◌≤◌, ℕ, [], vec_len, vec_capacity, IfOk};
ghost use Rattle.std.specs.List.{All};
ghost use Rattle.mate_shards.specs.Grown.{HaveGrown, HaveParts};
ghost use Rattle.mate_shards.specs.Views.{ArePassesOf};
ghost use Rattle.mate_search.specs.Handed.{AreHandedBack};
ghost use Rattle.mate_search.specs.Races.{IsLent, IsReady};

use crate::job::Worker;
use crate::race::{Race, RootTask};
use mate_settle::FactTable;
use mate_shards::{Passes, Shards};
use playing::Board;
use rules_model::{Memory, Move, repeat_of};
use std::alloc::Global;
use std::sync::Wait;

/// Room for N workers beside the first.
pub(crate) fn room_for_jobs(alloc: Global, count: u32) -> Result<Vec<Worker>, Memory>
    ensures none { IfOk result (λ jobs. jobs.items ≡ []) }
    ensures room { IfOk result (λ jobs. count ≤ vec_capacity jobs) }
{
    Ok(Vec::with_capacity(alloc, count as usize)?)
}

/// Cuts passes for N workers off the given ones, or for fewer where there is no memory for their lists.
pub(crate) fn share_out(
    shards: &Shards,
    passes: Passes,
    jobs: &mut Vec<Worker>,
    count: u32,
) -> Passes
    requires passes { ArePassesOf shards.now passes }
    requires parts { (n : ℕ) × HaveParts n passes × (count < n) }
    requires none { jobs.old.items ≡ [] }
    requires room { count ≤ vec_capacity jobs.old }
    ensures passes { ArePassesOf shards.now result }
    ensures lent { All (IsLent shards.now) jobs.new.items }
    ensures count { vec_len jobs.new ≤ count }
    ensures parts { (n : ℕ) → HaveParts n passes → count < n → HaveParts (n - vec_len jobs.new) result }
    ensures grown { HaveGrown passes result }
{
    let mut kept = passes;
    for k in 0..count {
        match shards.split(kept) {
            Err(back) => return back,
            Ok((first, second)) => {
                kept = first;
                jobs.push_reserved(Worker {
                    passes: second,
                    number: k + 1,
                    step: 0,
                });
            }
        }
    }
    kept
}

/// Joins the passes of all workers.
pub(crate) fn join_all(shards: &Shards, mine: Passes, mut jobs: Vec<Worker>) -> Passes
    requires passes { ArePassesOf shards.now mine }
    requires lent { All (IsLent shards.now) jobs.items }
    ensures passes { ArePassesOf shards.now result }
    ensures parts { (n : ℕ) → HaveParts n mine → HaveParts (n + vec_len jobs) result }
    ensures grown { HaveGrown mine result }
{
    let mut all = mine;
    while let Some(worker) = jobs.pop() {
        all = shards.join(all, worker.passes);
    }
    all
}

fn move_if(chosen: Move, decides: bool) -> Option<Move> {
    if decides { Some(chosen) } else { None }
}

/// Keeps what the shards know of the position after a root move. It answers the move, where this decides the root.
fn learn<R: Wait>(
    rt: &R,
    next: &Board,
    task: RootTask,
    chosen: Move,
    shards: &Shards,
    passes: &mut Passes,
    facts: &mut FactTable,
) -> Option<Move>
    requires facts { facts.old ≡ shards.now.frame }
    requires passes { ArePassesOf shards.now passes.old }
    ensures facts { facts.new ≡ facts.old }
    ensures handed { AreHandedBack shards.now passes.old passes.new }
{
    let p = next.position();
    let Some(known) = shards.look_by_key(rt, passes, p, next.board_key(), task.left) else {
        return None;
    };
    facts.keep(next, known.with(repeat_of(p)));
    move_if(chosen, known.wins == task.attacking)
}

/// Keeps what the shards know of the positions after the root moves. It answers a move that decides the root, if they
/// know one.
pub(crate) fn gather<R: Wait, G>(
    rt: &R,
    race: &Race<G>,
    passes: &mut Passes,
    facts: &mut FactTable,
) -> Option<Move>
    requires ready { IsReady race.now }
    requires facts { facts.old ≡ race.now.shards.now.frame }
    requires passes { ArePassesOf race.now.shards.now passes.old }
    ensures facts { facts.new ≡ facts.old }
    ensures handed { AreHandedBack race.now.shards.now passes.old passes.new }
{
    let board = race.board();
    let task = race.task();
    let mut decides = None;
    for i in 0..race.roots.len() {
        let chosen = race.roots[i];
        let next = board.after(&chosen);
        decides = learn(rt, &next, task, chosen, race.shards, passes, facts).or(decides);
    }
    decides
}
