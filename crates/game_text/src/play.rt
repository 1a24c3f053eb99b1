//! Plays the moves of a line of a game text.
ghost use Rattle.std.specs.Prelude.{◌≡◌, ◌+◌, ◌∷◌, [], filter, length, IfOk, OnErr};
ghost use Rattle.game_text.specs.declared.unmade.Unmade.TheVariants as NoGame;
ghost use Rattle.game_text.specs.Playing.{is_word, play, play_all, words_of};
ghost use Rattle.game_text.specs.ReadView.{Plays};

use crate::copies::text_of;
use crate::fault::{GameFault, NoGame};
use foundation::cut_word;
use game_play::{Game, PlayFault};
use move_text::read_move;
use std::alloc::{AllocError, Global};

// The text is not that of a legal move of the game.
fn bad_move(alloc: Global, game: &Game, text: &[u8]) -> Result<NoGame, AllocError>
    ensures { IfOk result (λ why. why ≡ NoGame.Faulty (GameFault.BadMove (length game.now.moves + 1) text.now)) }
{
    // Tells the prover that the game's rules are fit and that it has at most 8,192 plies. Nothing is done.
    game.prove_played();
    let number = game.moves().len() as u64 + 1;
    let text = text_of(alloc, text)?;
    Ok(NoGame::Faulty(GameFault::BadMove { number, text }))
}

/// Plays the legal move with this text, which is all of the text.
///
/// # Errors
///
/// `Faulty` with `TooManyMoves` behind 8,192 plies, or with `BadMove` where the text names no legal move; or `Memory`.
/// The game is then what it was.
pub fn play_move(alloc: Global, game: &mut Game, text: &[u8]) -> Result<(), NoGame>
    ensures plays { Plays (play game.old text.now) game.new result }
    ensures refused { OnErr result (game.new ≡ game.old) }
{
    // Tells the prover that the game's rules are fit and that it has at most 8,192 plies. Nothing is done.
    game.prove_played();
    let Some(m) = read_move(game.rules(), game.position(), text) else {
        return Err(bad_move(alloc, game, text)?);
    };
    match game.play(&m) {
        Ok(()) => Ok(()),
        Err(PlayFault::Illegal) => Err(bad_move(alloc, game, text)?),
        Err(PlayFault::TooLong) => Err(NoGame::Faulty(GameFault::TooManyMoves)),
        Err(PlayFault::Memory) => Err(NoGame::Memory),
    }
}

// Plays the move of a part of a line, where the part is not empty.
fn play_part(alloc: Global, game: &mut Game, part: &[u8]) -> Result<(), NoGame>
    ensures { Plays (play_all game.old (filter is_word (part.now ∷ []))) game.new result }
{
    if part.is_empty() {
        Ok(())
    } else {
        play_move(alloc, game, part)
    }
}

/// Plays the moves of a line, one after another, up to the first faulty one.
pub(crate) fn play_line(alloc: Global, game: &mut Game, text: &[u8]) -> Result<(), NoGame>
    ensures { Plays (play_all game.old (words_of text.now)) game.new result }
{
    let mut left = Some(text);
    while let Some(rest) = left {
        let (part, after) = cut_word(rest);
        play_part(alloc, game, part)?;
        left = after;
    }
    Ok(())
}
