//! The worker in the caller, and the others beside it.
ghost use denote.Param.Send.{IsSend, IsSync};
ghost use Rattle.std.specs.Prelude.{◌≡◌, length, OnOk, IsErrOf};
ghost use Rattle.std.specs.List.{All};
ghost use Rattle.mate_shards.specs.contracts.shards.Passes as PassesRow;
ghost use Rattle.mate_shards.specs.contracts.shards.Shards as ShardsRow;
ghost use Rattle.mate_shards.specs.Views.{ArePassesOf};
ghost use Rattle.watching.specs.declared.halt.Halt.{Halt};
ghost use Rattle.mate_search.specs.Handed.{AreHandedBack};
ghost use Rattle.mate_search.specs.Races.{IsLent, IsReady, race_lines};

use crate::job::{Worker, help, take_all};
use crate::race::Race;
use io_ports::Gate;
use mate_settle::FactTable;
use std::sync::Wait;
use std::thread::Threads;
use watching::{Halt, Watch, WorkWatch};

/// The worker in the caller. When it ends, whatever the reason, the others are told to stop. That it was told so itself
/// is no error.
fn lead<R: Wait, W: Watch, G: Gate>(
    rt: &R,
    race: &Race<G>,
    worker: &mut Worker,
    facts: &mut FactTable,
    watch: &mut W,
) -> Result<(), Halt>
    requires ready { IsReady race.now }
    requires facts { facts.old ≡ race.now.shards.now.frame }
    requires passes { ArePassesOf race.now.shards.now worker.old.passes }
    ensures facts { facts.new ≡ facts.old }
    ensures handed { AreHandedBack race.now.shards.now worker.old.passes worker.new.passes }
    ensures gone { OnOk result (W.gone watch.old watch.new (race_lines race.now)) }
    ensures ended { (why : Halt) → IsErrOf result why → W.ended watch.old watch.new (race_lines race.now) why }
{
    let mut racer = WorkWatch {
        watch,
        work: &race.shared.over,
        told: false,
    };
    let end = take_all(rt, race, worker, facts, &mut racer);
    race.shared.over.raise();
    if racer.told {
        return Ok(());
    }
    end
}

/// The worker in the caller and the others, beside each other. It returns once all have ended.
pub(crate) fn run_all<R: Threads + Wait + Sync, W: Watch, G: Gate + Sync>(
    rt: &R,
    race: &Race<G>,
    jobs: &mut [Worker],
    mine: &mut Worker,
    facts: &mut FactTable,
    watch: &mut W,
) -> Result<(), Halt>
    requires crosses { IsSync ShardsRow.the_row × IsSend PassesRow.the_row }
    requires ready { IsReady race.now }
    requires facts { facts.old ≡ race.now.shards.now.frame }
    requires passes { ArePassesOf race.now.shards.now mine.old.passes }
    requires lent { All (IsLent race.now.shards.now) jobs.old }
    ensures facts { facts.new ≡ facts.old }
    ensures handed { AreHandedBack race.now.shards.now mine.old.passes mine.new.passes }
    ensures lent { All (IsLent race.now.shards.now) jobs.new }
    ensures count { length jobs.new ≡ length jobs.old }
    ensures gone { OnOk result (W.gone watch.old watch.new (race_lines race.now)) }
    ensures ended { (why : Halt) → IsErrOf result why → W.ended watch.old watch.new (race_lines race.now) why }
{
    let threads = jobs.len();
    watching::race(
        rt,
        jobs,
        threads,
        &|_, worker: &mut Worker|
            requires { IsLent race.now.shards.now worker.now × IsReady race.now }
            ensures { IsLent race.entry.now.shards.now worker.exit.now }
        { help(rt, race, worker) },
        &mut || lead(rt, race, mine, facts, watch),
    )
}
