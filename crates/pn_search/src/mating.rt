//! The least number of moves within which a game is won.
ghost use Rattle.std.specs.Prelude.{◌≡◌, ◌<◌, ◌≤◌, IfOk};
ghost use Rattle.rules_model.specs.declared.moves.Outcome.TheVariants.{Ongoing};
ghost use Rattle.rules_model.specs.Games as Games;
ghost use Rattle.forced_wins.specs.Wins.{IsInLimit};
ghost use Rattle.game_play.specs.Played.{story};
ghost use Rattle.mate_search.specs.Least.{least};
ghost use Rattle.mate_search.specs.Solves.{IsFrameFor};
ghost use Rattle.pn_search.specs.MateCount.{mate_count};

use crate::fault::PnFault;
use crate::finding::find_in;
use game_play::Game;
use mate_core::Frame;
use mate_search::{frame_of, is_counted};
use rules_model::{Memory, Outcome};
use std::alloc::Global;

// The least number of moves from 1 to n within which the side that is to move wins the ongoing game.
fn least_won(alloc: Global, game: &Game, n: u16) -> Result<Option<u16>, Memory>
    requires some { 0 < n }
    requires small { n ≤ 100 }
    requires ongoing { Games.result game.now.rules (story game.now) ≡ Ongoing }
    requires in_limit { IsInLimit game.now.rules n (story game.now) }
    ensures { IfOk result (λ k. k ≡ least game.now.rules n (story game.now)) }
{
    let attacker = game.position().side;
    let frame = frame_of(alloc, game, attacker)?;
    least_in(alloc, game, n, &frame)
}

// The same in the frame of the side that is to move.
fn least_in(alloc: Global, game: &Game, n: u16, frame: &Frame) -> Result<Option<u16>, Memory>
    requires frame { IsFrameFor game.now (story game.now).last.side frame.now }
    requires some { 0 < n }
    requires small { n ≤ 100 }
    requires ongoing { Games.result game.now.rules (story game.now) ≡ Ongoing }
    requires in_limit { IsInLimit game.now.rules n (story game.now) }
    ensures { IfOk result (λ k. k ≡ least game.now.rules n (story game.now)) }
{
    for k in 1..n + 1 {
        let found = find_in(alloc, game, frame, k)?;
        if found.won {
            return Ok(Some(k));
        }
    }
    Ok(None)
}

/// The least number of moves from 1 to n within which the side that is to move wins the game by force, n from 1 to 100;
/// None where it wins within none of them; or why the game is not asked.
///
/// # Errors
///
/// `Memory` where there is none, or where a tree would have 2^32 nodes or more.
pub fn least_mate(
    alloc: Global,
    game: &Game,
    n: u16,
) -> Result<Result<Option<u16>, PnFault>, Memory>
    requires some { 0 < n }
    requires small { n ≤ 100 }
    ensures { IfOk result (λ r. r ≡ mate_count game.now.rules n (story game.now)) }
{
    if game.outcome() != Outcome::Ongoing {
        return Ok(Err(PnFault::Ended));
    }
    if is_counted(game.rules(), n, game.position()) {
        return Ok(Err(PnFault::NearCount));
    }
    let least = least_won(alloc, game, n)?;
    Ok(Ok(least))
}
