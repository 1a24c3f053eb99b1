//! What a solve takes for its workers, their race, and what the caller makes of it.
ghost use denote.Param.Send.{IsSend, IsSync};
ghost use Rattle.std.specs.Prelude.{◌≡◌, ◌<◌, ◌≤◌, ◌-◌, ℕ, [], vec_capacity, IfOk, OnOk, IsErrOf};
ghost use Rattle.foundation.specs.Member.{Lists, Member};
ghost use Rattle.forced_wins.specs.Wins.{IsInLimit};
ghost use Rattle.game_play.specs.Played.{story};
ghost use Rattle.mate_shards.specs.contracts.shards.Passes as PassesRow;
ghost use Rattle.mate_shards.specs.contracts.shards.Shards as ShardsRow;
ghost use Rattle.mate_shards.specs.Grown.{HaveParts};
ghost use Rattle.mate_shards.specs.Views.{ArePassesOf};
ghost use Rattle.legality.specs.Stance.{legal_in};
ghost use Rattle.watching.specs.declared.halt.Halt.{Halt};
ghost use Rattle.mate_showing.specs.Answers.{IsDecided, IsRight};
ghost use Rattle.mate_search.specs.Handed.{AreHandedBack, RootIsShared};
ghost use Rattle.mate_search.specs.Races.{IsReady, race_lines, raced_lines};

use crate::job::Worker;
use crate::lending::{gather, join_all, room_for_jobs, share_out};
use crate::ordering::hinted_moves;
use crate::race::Race;
use crate::racing::run_all;
use crate::shared::Shared;
use crate::solving::{conclude, room_for};
use game_play::Game;
use hint_table::HintTable;
use io_ports::Gate;
use mate_settle::FactTable;
use mate_shards::{Passes, Shards};
use mate_showing::Settled;
use playing::Board;
use rules_model::{Memory, Move};
use std::alloc::Global;
use std::sync::Wait;
use std::thread::Threads;
use watching::{Halt, Watch};

/// All that the workers of a solve have beside their passes.
#[derive(Drop)]
pub(crate) struct SolveMemory<'s> {
    pub roots: Vec<Move>,
    pub shared: Shared,
    pub jobs: Vec<Worker>,
    pub facts: FactTable<'s>,
}

/// The root moves in the order of the hints, and room for all workers.
pub(crate) fn prepare<'s>(
    alloc: Global,
    game: &Game,
    n: u16,
    shards: &'s Shards,
    hints: &HintTable,
    workers: u32,
) -> Result<SolveMemory<'s>, Memory>
    requires workers { 0 < workers }
    ensures roots { IfOk result (λ h. Lists (λ m. Member m (legal_in
        (record { rules = game.now.rules; position = (story game.now).last }))) h.roots.items) }
    ensures none { IfOk result (λ h. h.jobs.items ≡ []) }
    ensures room { IfOk result (λ h. workers - 1 ≤ vec_capacity h.jobs) }
    ensures facts { IfOk result (λ h. h.facts ≡ shards.now.frame) }
{
    let board = Board::new(game.tables(), game.position());
    let facts = FactTable::new(alloc, shards.frame(), room_for(n))?;
    let roots = hinted_moves(alloc, &board, n, &facts, hints)?;
    let shared = Shared::new(alloc, roots.len())?;
    let jobs = room_for_jobs(alloc, workers - 1)?;
    Ok(SolveMemory {
        roots,
        shared,
        jobs,
        facts,
    })
}

/// What a race leaves: all passes, and how the worker in the caller ended.
#[derive(Drop)]
struct Raced {
    passes: Passes,
    end: Result<(), Halt>,
}

/// The race of all workers. Their passes are joined again, however it ended.
fn race_all<R: Threads + Wait + Sync, W: Watch, G: Gate + Sync>(
    rt: &R,
    race: &Race<G>,
    passes: Passes,
    mut jobs: Vec<Worker>,
    workers: u32,
    facts: &mut FactTable,
    watch: &mut W,
) -> Raced
    requires crosses { IsSync ShardsRow.the_row × IsSend PassesRow.the_row }
    requires ready { IsReady race.now }
    requires facts { facts.old ≡ race.now.shards.now.frame }
    requires passes { ArePassesOf race.now.shards.now passes }
    requires parts { (k : ℕ) × HaveParts k passes × (workers ≤ k) }
    requires workers { 0 < workers }
    requires none { jobs.items ≡ [] }
    requires room { workers - 1 ≤ vec_capacity jobs }
    ensures handed { AreHandedBack race.now.shards.now passes result.passes }
    ensures facts { facts.new ≡ facts.old }
    ensures gone { OnOk result.end (W.gone watch.old watch.new (race_lines race.now)) }
    ensures ended { (why : Halt) → IsErrOf result.end why → W.ended watch.old watch.new (race_lines race.now) why }
{
    let kept = share_out(race.shards, passes, &mut jobs, workers - 1);
    let mut mine = Worker {
        passes: kept,
        number: 0,
        step: 0,
    };
    let end = run_all(rt, race, &mut jobs, &mut mine, facts, watch);
    Raced {
        passes: join_all(race.shards, mine.passes, jobs),
        end,
    }
}

/// The race of all workers, and what the game comes to after it.
pub(crate) fn run<R: Threads + Wait + Sync, W: Watch, G: Gate + Sync>(
    rt: &R,
    race: &Race<G>,
    passes: Passes,
    jobs: Vec<Worker>,
    workers: u32,
    facts: &mut FactTable,
    watch: &mut W,
) -> (Passes, Result<Settled, Halt>)
    requires crosses { IsSync ShardsRow.the_row × IsSend PassesRow.the_row }
    requires ready { IsReady race.now }
    requires facts { facts.old ≡ race.now.shards.now.frame }
    requires passes { ArePassesOf race.now.shards.now passes }
    requires parts { (k : ℕ) × HaveParts k passes × (workers ≤ k) }
    requires workers { 0 < workers }
    requires none { jobs.items ≡ [] }
    requires room { workers - 1 ≤ vec_capacity jobs }
    ensures handed { AreHandedBack race.now.shards.now passes result.0 }
    ensures shared { OnOk result.1 (RootIsShared race.now.shards.now result.0 race.now.game.now race.now.n) }
    ensures right { IfOk result.1
        (IsRight race.now.game.now.rules (story race.now.game.now) race.now.shards.now.frame.attacker race.now.n) }
    ensures decided { IfOk result.1
        (λ s. IsInLimit race.now.game.now.rules race.now.n (story race.now.game.now) → IsDecided s) }
    ensures gone { OnOk result.1 (W.gone watch.old watch.new (raced_lines race.now)) }
    ensures ended { (why : Halt) → IsErrOf result.1 why → W.ended watch.old watch.new (raced_lines race.now) why }
{
    let raced = race_all(rt, race, passes, jobs, workers, facts, watch);
    let mut all = raced.passes;
    match raced.end {
        Err(why) => (all, Err(why)),
        Ok(()) => {
            let decides = gather(rt, race, &mut all, facts);
            let first = decides.or(race.first());
            let end = conclude(
                rt,
                race.alloc,
                race.game,
                race.n,
                first,
                race.shards,
                &mut all,
                facts,
                watch,
            );
            (all, end)
        }
    }
}
