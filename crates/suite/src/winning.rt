//! Within how many moves a side wins a game, by one worker.
ghost use Rattle.std.specs.Prelude.{◌≤◌, IfOk};
ghost use Rattle.forced_wins.specs.Wins.{IsInLimit};
ghost use Rattle.game_play.specs.Played.{story};
ghost use Rattle.mate_search.specs.Solves.{IsFrameFor};
ghost use Rattle.mate_shards.specs.Views.{ArePassesOf};
ghost use Rattle.suite.specs.Winning.{IsLeastWin, IsSettledBy};

use forced_wins::by_rules::good_strategies_win;
use game_play::Game;
use hint_table::HintTable;
use mate_search::{Settled, frame_of, settle};
use mate_shards::{Passes, Shards, USUAL_FACTS};
use rules_model::{Memory, Side};
use std::alloc::Global;
use std::sync::Wait;
use strategy::{Edge, Node, Strategy};

/// How many hints: one, on its root.
const HINTS: usize = 1;

/// How a side wins a game.
#[derive(Drop)]
pub struct LeastWin {
    /// The least number of its moves within which the side wins.
    pub moves: u16,
    /// How it wins within that number.
    pub strategy: Strategy,
}

// How the side wins within k moves, where it does. The passes are handed back.
fn settled_within<R: Wait>(
    rt: &R,
    alloc: Global,
    game: &Game,
    side: Side,
    k: u16,
    shards: &Shards,
    passes: Passes,
    hints: &HintTable,
) -> (Passes, Result<Option<Strategy>, Memory>)
    requires frame { IsFrameFor game.now side shards.now.frame }
    requires passes { ArePassesOf shards.now passes }
    requires some { 1 ≤ k }
    requires few { k ≤ 20 }
    requires uncounted { IsInLimit game.now.rules k (story game.now) }
    ensures passes { ArePassesOf shards.now result.0 }
    ensures settled { IfOk result.1 (IsSettledBy game.now.rules (story game.now) side k) }
{
    let (passes, settled) = settle(rt, alloc, game, side, k, shards, passes, hints);
    match settled {
        Ok(Settled::Shown(strategy)) => (passes, Ok(Some(strategy))),
        Ok(Settled::NoMate) => (passes, Ok(None)),
        Ok(Settled::Unsettled { .. }) => unreachable!(),
        Err(memory) => (passes, Err(memory)),
    }
}

// The least number of moves and the strategy: the game is settled within 1 move, 2 and so on, over these facts.
fn least_over<R: Wait>(
    rt: &R,
    alloc: Global,
    game: &Game,
    side: Side,
    n: u16,
    shards: &Shards,
    mut passes: Passes,
) -> Result<Option<LeastWin>, Memory>
    requires frame { IsFrameFor game.now side shards.now.frame }
    requires passes { ArePassesOf shards.now passes }
    requires few { n ≤ 20 }
    requires uncounted { IsInLimit game.now.rules n (story game.now) }
    ensures { IfOk result (IsLeastWin game.now.rules (story game.now) side n) }
{
    // Tells the prover that a good strategy wins. Nothing is done.
    good_strategies_win::<Node, Edge>();
    let hints = HintTable::new(alloc, HINTS)?;
    for k in 1..n + 1 {
        let (handed_back, settled) = settled_within(
            rt, alloc, game, side, k, shards, passes, &hints,
        );
        passes = handed_back;
        match settled {
            Ok(None) => {}
            Ok(Some(strategy)) => return Ok(Some(LeastWin { moves: k, strategy })),
            Err(memory) => return Err(memory),
        }
    }
    Ok(None)
}

/// The least number of its moves, from 1 to `n`, within which the side wins the game by force, and how it wins; None
/// where it wins within none of them. `n` is at most 20, and the move-count rule cannot end the game within so many
/// moves. Facts are kept for this game alone.
///
/// # Errors
///
/// `Memory` where there is none.
pub fn least_win<R: Wait>(
    rt: &R,
    alloc: Global,
    game: &Game,
    side: Side,
    n: u16,
) -> Result<Option<LeastWin>, Memory>
    requires few { n ≤ 20 }
    requires uncounted { IsInLimit game.now.rules n (story game.now) }
    ensures { IfOk result (IsLeastWin game.now.rules (story game.now) side n) }
{
    let frame = frame_of(alloc, game, side)?;
    let (shards, passes) = Shards::new(alloc, frame, 1, USUAL_FACTS)?;
    least_over(rt, alloc, game, side, n, &shards, passes)
}
