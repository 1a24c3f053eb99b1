//! A search that nothing disturbs.
ghost use Rattle.std.specs.Prelude.{◌≡◌, ◌<◌, ◌≤◌, length, IfOk};
ghost use Rattle.game_play.specs.Played.{story};
ghost use Rattle.alpha_beta.specs.Bests.{IsBest};
ghost use Rattle.alpha_beta.specs.Roots.{AreLegal};
ghost use Rattle.alpha_beta.specs.Searches.{bound_of};

use crate::searching::{Found, search_watched};
use foundation::Memory;
use game_play::Game;
use hint_table::HintTable;
use io_ports::OpenGate;
use rules_model::Move;
use std::alloc::Global;
use std::thread::Threads;
use watching::Unwatched;

/// As `search_watched`, by workers that hear nothing and have no quota.
///
/// # Errors
///
/// There was no memory.
pub fn search_unwatched<R: Threads + Sync>(
    rt: &R,
    alloc: Global,
    game: &Game,
    depth: u8,
    roots: &[Move],
    hints: &HintTable,
    workers: u32,
) -> Result<Found, Memory>
    requires least { 1 ≤ depth }
    requires most { depth ≤ 64 }
    requires legal { AreLegal game.now.rules (story game.now) roots.now }
    requires some { 0 < length roots.now }
    requires workers { (0 < workers) × (workers ≤ 64) }
    ensures best { IfOk result (λ found. IsBest game.now depth roots.now found.value found.best) }
    ensures few { IfOk result (λ found. found.nodes ≤ bound_of game.now depth) }
{
    let mut watch = Unwatched::new();
    let found = search_watched(
        rt, alloc, game, depth, roots, hints, None, workers, &OpenGate, &mut watch,
    );
    match found {
        Ok(found) => Ok(found),
        // Nothing disturbs the watch: a search fails for memory alone.
        Err(_) => Err(Memory),
    }
}
