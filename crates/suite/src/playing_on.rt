//! A move that is played on a game and taken back.
ghost use Rattle.std.specs.Prelude.{◌≡◌, ◌<◌, length, OnErr, OnOk};
ghost use Rattle.foundation.specs.Member.{Member};
ghost use Rattle.game_play.specs.Played.{legal_in, longer, shorter};
ghost use Rattle.game_play.specs.declared.game.TheConstants.{MOST_PLIES};

use game_play::{Game, PlayFault};
use rules_model::{Memory, Move};

/// Plays a legal move on a game that has room for it. After an error the game is what it was.
///
/// # Errors
///
/// `Memory` where there is none.
pub(crate) fn play_on(game: &mut Game, m: &Move) -> Result<(), Memory>
    requires legal { Member m.now (legal_in game.old) }
    requires room { length game.old.moves < MOST_PLIES }
    ensures played { OnOk result (game.new ≡ longer game.old m.now) }
    ensures refused { OnErr result (game.new ≡ game.old) }
{
    match game.play(m) {
        Ok(()) => Ok(()),
        Err(PlayFault::Memory) => Err(Memory),
        Err(PlayFault::Illegal | PlayFault::TooLong) => unreachable!(),
    }
}

/// Takes the last move back, of which there is one.
pub(crate) fn take_back(game: &mut Game)
    requires { 0 < length game.old.moves }
    ensures { game.new ≡ shorter game.old }
{
    match game.undo() {
        Ok(()) => {}
        Err(_) => unreachable!(),
    }
}
