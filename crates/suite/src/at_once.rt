//! Whether a side has won a game without another move of its own.
ghost use Rattle.std.specs.Prelude.{◌≡◌, ◌<◌, false, length, IfOk};
ghost use Rattle.std.specs.List.{All};
ghost use Rattle.foundation.specs.Member.{Member};
ghost use Rattle.rules_model.specs.Games.{played};
ghost use Rattle.rules_model.specs.Sides.{same_side};
ghost use Rattle.forced_wins.specs.Wins.{wins};
ghost use Rattle.game_play.specs.Played.{legal_in, story};
ghost use Rattle.game_play.specs.declared.game.TheConstants.{MOST_PLIES};
ghost use Rattle.suite.specs.AtOnce as AtOnce;

use crate::playing_on::{play_on, take_back};
use game_play::Game;
use legality::legal_moves;
use mate_fact::won_by;
use rules_model::{Memory, Move, Side};
use std::alloc::Global;

// Whether the reply ends the game, and the side has won it.
fn ends_won(game: &mut Game, reply: &Move, side: Side) -> Result<bool, Memory>
    requires legal { Member reply.now (legal_in game.old) }
    requires room { length game.old.moves < MOST_PLIES }
    ensures same { game.new ≡ game.old }
    ensures is { IfOk result (λ won.
        won ≡ AtOnce.is_won game.old.rules (played game.old.rules (story game.old) reply.now) side) }
{
    play_on(game, reply)?;
    let won = won_by(side, game.outcome()).unwrap_or(false);
    take_back(game);
    Ok(won)
}

// Whether each of the replies does.
fn all_end_won(game: &mut Game, replies: &[Move], side: Side) -> Result<bool, Memory>
    requires legal { All (λ m. Member m (legal_in game.old)) replies.now }
    requires room { length game.old.moves < MOST_PLIES }
    ensures same { game.new ≡ game.old }
    ensures is { IfOk result (λ all. all ≡ AtOnce.all_end_won game.old.rules (story game.old) side replies.now) }
{
    for reply in replies {
        if !ends_won(game, reply, side)? {
            return Ok(false);
        }
    }
    Ok(true)
}

// Whether all legal moves do.
fn each_end_won(alloc: Global, game: &mut Game, side: Side) -> Result<bool, Memory>
    requires room { length game.old.moves < MOST_PLIES }
    ensures same { game.new ≡ game.old }
    ensures is { IfOk result (λ all.
        all ≡ AtOnce.all_end_won game.old.rules (story game.old) side (legal_in game.old)) }
{
    game.prove_played();
    let replies = legal_moves(alloc, game.rules(), game.tables(), game.position())?;
    all_end_won(game, replies.items.as_slice(), side)
}

/// Whether the side, which is not to move, wins the game without another move of its own: the game has ended and the
/// side has won it, or each reply ends it so. The game has room for a reply. It is what it was, also after an error.
///
/// # Errors
///
/// `Memory` where there is none.
pub(crate) fn wins_at_once(alloc: Global, game: &mut Game, side: Side) -> Result<bool, Memory>
    requires turn { same_side (story game.old).last.side side ≡ false }
    requires room { length game.old.moves < MOST_PLIES }
    ensures same { game.new ≡ game.old }
    ensures is { IfOk result (λ won. won ≡ wins game.old.rules 0 (story game.old) side) }
{
    match won_by(side, game.outcome()) {
        Some(won) => Ok(won),
        None => each_end_won(alloc, game, side),
    }
}
