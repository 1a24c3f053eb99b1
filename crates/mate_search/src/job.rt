//! A worker's state, and how it goes over the root moves.
ghost use Rattle.std.specs.Prelude.{◌≡◌, ◌*◌, ◌≤◌, OnOk, IsErrOf};
ghost use Rattle.mate_settle.specs.Lines.{lines_within, seen_in};
ghost use Rattle.mate_shards.specs.Views.{ArePassesOf};
ghost use Rattle.watching.specs.declared.halt.Halt.{Halt};
ghost use Rattle.mate_search.specs.Handed.{AreHandedBack};
ghost use Rattle.mate_search.specs.Races.{IsLent, IsReady, race_lines, root_lines};

use crate::race::{Race, RootTask};
use crate::shared::RootFinding;
use crate::shared_root::claim_on;
use crate::solving::room_for;
use crate::tree_round::grow_tree;
use io_ports::Gate;
use mate_settle::{FactTable, settle};
use mate_shards::{Passes, Published};
use playing::Board;
use std::sync::Wait;
use watching::{Halt, Helper, Round, Watch};

/// The state of a worker: its passes for the shards, its number, and how many root moves it has taken. The worker in
/// the caller has the number 0.
#[derive(Drop)]
pub(crate) struct Worker {
    pub passes: Passes,
    pub number: u32,
    pub step: u64,
}

/// Settles the position after a root move: by a fact of the shards, or by a search, and what that tells is published.
fn settle_next<R: Wait, W: Watch, G>(
    rt: &R,
    race: &Race<G>,
    next: &Board,
    task: RootTask,
    passes: &mut Passes,
    facts: &mut FactTable,
    watch: &mut W,
) -> Result<RootFinding, Halt>
    requires rules { next.now.rules ≡ facts.old.rules }
    requires frame { facts.old ≡ race.now.shards.now.frame }
    requires passes { ArePassesOf race.now.shards.now passes.old }
    requires small { task.left ≤ 1000 }
    ensures frame { facts.new ≡ facts.old }
    ensures handed { AreHandedBack race.now.shards.now passes.old passes.new }
    ensures gone { OnOk result
        (W.gone watch.old watch.new (lines_within (seen_in facts.old) task.left next.now.position)) }
    ensures ended { (why : Halt) → IsErrOf result why →
        W.ended watch.old watch.new (lines_within (seen_in facts.old) task.left next.now.position) why }
{
    let shards = race.shards;
    let p = next.position();
    if let Some(known) = shards.look_by_key(rt, passes, p, next.board_key(), task.left) {
        return Ok(RootFinding {
            decides: known.wins == task.attacking,
            published: true,
        });
    }
    let told = settle(race.alloc, next, task.left, facts, watch)?;
    let claim = claim_on(shards.frame(), p, told);
    let published = shards.publish_by_key(rt, passes, p, next.board_key(), claim);
    Ok(RootFinding {
        decides: told.wins == task.attacking,
        published: !matches!(published, Published::Full),
    })
}

/// Takes root moves in a round. What is shared may hold anything.
fn take_roots<R: Wait, W: Watch, G: Gate>(
    rt: &R,
    race: &Race<G>,
    round: Round,
    worker: &mut Worker,
    facts: &mut FactTable,
    watch: &mut W,
) -> Result<(), Halt>
    requires ready { IsReady race.now }
    requires facts { facts.old ≡ race.now.shards.now.frame }
    requires passes { ArePassesOf race.now.shards.now worker.old.passes }
    ensures facts { facts.new ≡ facts.old }
    ensures handed { AreHandedBack race.now.shards.now worker.old.passes worker.new.passes }
    ensures gone { OnOk result (W.gone watch.old watch.new (root_lines race.now)) }
    ensures ended { (why : Halt) → IsErrOf result why → W.ended watch.old watch.new (root_lines race.now) why }
{
    let board = race.board();
    let task = race.task();
    for i in 0..race.roots.len() {
        if race.shared.takes(i, round) {
            race.gate.pass(worker.number, worker.step);
            worker.step = worker.step.saturating_add(1);
            let chosen = race.roots[i];
            let next = board.after(&chosen);
            let finding = settle_next(rt, race, &next, task, &mut worker.passes, facts, watch)?;
            race.shared.tell(i, finding, worker.number);
        }
    }
    Ok(())
}

/// Takes the root moves that are free, and then those that no worker has settled.
fn take_rounds<R: Wait, W: Watch, G: Gate>(
    rt: &R,
    race: &Race<G>,
    worker: &mut Worker,
    facts: &mut FactTable,
    watch: &mut W,
) -> Result<(), Halt>
    requires ready { IsReady race.now }
    requires facts { facts.old ≡ race.now.shards.now.frame }
    requires passes { ArePassesOf race.now.shards.now worker.old.passes }
    ensures facts { facts.new ≡ facts.old }
    ensures handed { AreHandedBack race.now.shards.now worker.old.passes worker.new.passes }
    ensures gone { OnOk result (W.gone watch.old watch.new (2 * root_lines race.now)) }
    ensures ended { (why : Halt) → IsErrOf result why → W.ended watch.old watch.new (2 * root_lines race.now) why }
{
    take_roots(rt, race, Round::Free, worker, facts, watch)?;
    take_roots(rt, race, Round::Unfinished, worker, facts, watch)
}

/// Grows a tree, and then takes the root moves that are free, and those that no worker has settled: so it waits for
/// nobody.
pub(crate) fn take_all<R: Wait, W: Watch, G: Gate>(
    rt: &R,
    race: &Race<G>,
    worker: &mut Worker,
    facts: &mut FactTable,
    watch: &mut W,
) -> Result<(), Halt>
    requires ready { IsReady race.now }
    requires facts { facts.old ≡ race.now.shards.now.frame }
    requires passes { ArePassesOf race.now.shards.now worker.old.passes }
    ensures facts { facts.new ≡ facts.old }
    ensures handed { AreHandedBack race.now.shards.now worker.old.passes worker.new.passes }
    ensures gone { OnOk result (W.gone watch.old watch.new (race_lines race.now)) }
    ensures ended { (why : Halt) → IsErrOf result why → W.ended watch.old watch.new (race_lines race.now) why }
{
    let board = race.board();
    let grown = grow_tree(
        rt,
        race.alloc,
        race.shards,
        &board,
        race.n,
        race.tree_nodes,
        &mut worker.passes,
        facts,
        watch,
    )?;
    if let Some(best) = grown {
        race.favour(&best);
        return Ok(());
    }
    take_rounds(rt, race, worker, facts, watch)
}

/// Takes the root moves that are free, with a table of its own.
fn take_free<R: Wait, W: Watch, G: Gate>(
    rt: &R,
    race: &Race<G>,
    worker: &mut Worker,
    watch: &mut W,
) -> Result<(), Halt>
    requires ready { IsReady race.now }
    requires passes { ArePassesOf race.now.shards.now worker.old.passes }
    ensures handed { AreHandedBack race.now.shards.now worker.old.passes worker.new.passes }
    ensures gone { OnOk result (W.gone watch.old watch.new (root_lines race.now)) }
    ensures ended { (why : Halt) → IsErrOf result why → W.ended watch.old watch.new (root_lines race.now) why }
{
    let mut facts = FactTable::new(race.alloc, race.shards.frame(), room_for(race.n))?;
    take_roots(rt, race, Round::Free, worker, &mut facts, watch)
}

/// What a worker beside the first does. Where it reaches its quota, finds no memory or is told to stop, what it found
/// stays.
pub(crate) fn help<R: Wait, G: Gate>(rt: &R, race: &Race<G>, worker: &mut Worker)
    requires ready { IsReady race.now }
    requires lent { IsLent race.now.shards.now worker.old }
    ensures lent { IsLent race.now.shards.now worker.new }
{
    let mut watch = Helper::new(&race.shared.over, race.quota);
    let _ = take_free(rt, race, worker, &mut watch);
}
