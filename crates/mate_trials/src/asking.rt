//! What the solver says of a game.
ghost use Rattle.std.specs.Prelude.{◌<◌, ◌≤◌, IfOk};
ghost use Rattle.mate_search.specs.Solves.{IsFrameFor};
ghost use Rattle.mate_showing.specs.Answers.{IsFrameOf};
ghost use Rattle.mate_shards.specs.Grown.{HaveParts};
ghost use Rattle.mate_shards.specs.Views.{ArePassesOf};

use foundation::Memory;
use game_play::Game;
use hint_table::HintTable;
use io_ports::OpenGate;
use mate_search::{Settled, settle, solve_watched};
use mate_shards::{Passes, Shards};
use rules_model::Side;
use std::alloc::Global;
use std::sync::Wait;
use std::thread::Threads;
use watching::Unwatched;

/// Which call is asked.
#[derive(Clone, Copy)]
pub enum Call {
    /// Where each word of the hints is `hint`.
    Settle { hint: u64 },
    /// By this number of workers, with such hints.
    Solve { workers: u32, hint: u64 },
}

/// Whether a side wins a game within n of its moves.
#[derive(Clone, Copy)]
pub struct Asked<'g> {
    pub game: &'g Game,
    pub attacker: Side,
    pub n: u16,
}

/// What the solver says of a win within some number of moves.
#[derive(Clone, Copy, PartialEq, Eq)]
pub enum Said {
    Won,
    NotWon,
    Unsettled,
}

fn said_of(settled: &Settled) -> Said {
    match settled {
        Settled::Shown(_) => Said::Won,
        Settled::NoMate => Said::NotWon,
        Settled::Unsettled { .. } => Said::Unsettled,
    }
}

/// What `settle` says, and the passes again.
fn by_settle<R: Wait>(
    rt: &R,
    alloc: Global,
    asked: Asked,
    hint: u64,
    shards: &Shards,
    passes: Passes,
) -> Result<(Passes, Said), Memory>
    requires frame { IsFrameFor asked.game.now asked.attacker shards.now.frame }
    requires passes { ArePassesOf shards.now passes }
    requires parts { HaveParts 65536 passes }
    requires some { 0 < asked.n }
    requires small { asked.n ≤ 100 }
    ensures passes { IfOk result (λ told. ArePassesOf shards.now told.0) }
    ensures parts { IfOk result (λ told. HaveParts 65536 told.0) }
{
    let hints = HintTable::new(alloc, 1024)?;
    hints.fill(hint);
    let (passes, answer) = settle(
        rt,
        alloc,
        asked.game,
        asked.attacker,
        asked.n,
        shards,
        passes,
        &hints,
    );
    let settled = answer?;
    Ok((passes, said_of(&settled)))
}

/// What `solve_watched` says by this number of workers that nothing disturbs, and the passes again.
fn by_solve<R: Threads + Wait + Sync>(
    rt: &R,
    alloc: Global,
    asked: Asked,
    workers: u32,
    hint: u64,
    shards: &Shards,
    passes: Passes,
) -> Result<(Passes, Said), Memory>
    requires frame { IsFrameOf asked.game.now shards.now.frame }
    requires passes { ArePassesOf shards.now passes }
    requires parts { HaveParts 65536 passes }
    requires some { 0 < asked.n }
    requires small { asked.n ≤ 100 }
    requires workers { (0 < workers) × (workers ≤ 64) }
    ensures passes { IfOk result (λ told. ArePassesOf shards.now told.0) }
    ensures parts { IfOk result (λ told. HaveParts 65536 told.0) }
{
    let hints = HintTable::new(alloc, 1024)?;
    hints.fill(hint);
    let mut watch = Unwatched::new();
    let (passes, answer) = solve_watched(
        rt, alloc, asked.game, asked.n, shards, passes, &hints, None, workers, &OpenGate,
        &mut watch,
    );
    match answer {
        Ok(settled) => Ok((passes, said_of(&settled))),
        // Nothing disturbs the watch: a solve fails for memory alone.
        Err(_) => Err(Memory),
    }
}

/// What the call says of what is asked, and the passes again. A solve has at least 1 worker and at most 64.
pub fn ask<R: Threads + Wait + Sync>(
    rt: &R,
    alloc: Global,
    asked: Asked,
    call: Call,
    shards: &Shards,
    passes: Passes,
) -> Result<(Passes, Said), Memory>
    requires frame { IsFrameFor asked.game.now asked.attacker shards.now.frame }
    requires passes { ArePassesOf shards.now passes }
    requires parts { HaveParts 65536 passes }
    requires some { 0 < asked.n }
    requires small { asked.n ≤ 100 }
    ensures passes { IfOk result (λ told. ArePassesOf shards.now told.0) }
    ensures parts { IfOk result (λ told. HaveParts 65536 told.0) }
{
    match call {
        Call::Settle { hint } => by_settle(rt, alloc, asked, hint, shards, passes),
        Call::Solve { workers, hint } => {
            // A solve has from 1 to 64 workers, and the type of a call does not say so.
            let workers = workers.max(1).min(64);
            by_solve(rt, alloc, asked, workers, hint, shards, passes)
        }
    }
}
