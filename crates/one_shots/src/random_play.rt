//! Plays random legal moves.
ghost use Rattle.std.specs.Prelude.{◌≡◌, ◌+◌, ◌≤◌, ◌<◌, length, true, IfOk, OnOk};
ghost use Rattle.rules_model.specs.Fit.{IsFit};
ghost use Rattle.rules_model.specs.Sound.{is_sound};
ghost use Rattle.one_shots.specs.Generate as Generate;
ghost use Rattle.game_play.specs.Played.{story};
ghost use Rattle.game_play.specs.declared.game.TheConstants.{MOST_PLIES};
ghost use Rattle.rules_model.specs.Games.{result as result_of};
ghost use Rattle.one_shots.specs.Steps.{IsPicked, PlaysOne};

use foundation::Memory;
use game_play::Game;
use legality::legal_moves;
use rand_core::utils::NextWord;
use rand_pcg::Pcg32;
use rules_model::{Move, Outcome, Rules};
use std::alloc::Global;

// The move that the next word of the generator picks; none of no moves.
fn picked(moves: &[Move], generator: &mut Pcg32) -> Option<Move>
    ensures { IsPicked moves.now generator.old generator.new result }
{
    let count = moves.len();
    if count == 0 {
        return None;
    }
    let place = generator.next_word() as usize % count;
    Some(moves[place])
}

// Plays the move that the next word of the generator picks. Says whether one was played.
fn play_picked(alloc: Global, game: &mut Game, generator: &mut Pcg32) -> Result<bool, Memory>
    requires room { length game.old.moves < MOST_PLIES }
    requires ongoing { result_of game.old.rules (story game.old) ≡ Outcome.Ongoing }
    ensures plays { IfOk result (PlaysOne generator.old generator.new game.old game.new) }
    ensures longer { OnOk result (length game.new.moves ≤ length game.old.moves + 1) }
{
    game.prove_played();
    let moves = legal_moves(alloc, game.rules(), game.tables(), game.position())?;
    match picked(moves.items.as_slice(), generator) {
        Some(m) => match game.play(&m) {
            Ok(()) => Ok(true),
            // The move is legal, and the game has room for it: it fails for memory alone.
            Err(_) => Err(Memory),
        },
        None => Ok(false),
    }
}

// Plays one move more, where the game is ongoing. Says whether it was.
fn play_one(alloc: Global, game: &mut Game, generator: &mut Pcg32) -> Result<bool, Memory>
    requires room { length game.old.moves < MOST_PLIES }
    ensures plays { IfOk result (PlaysOne generator.old generator.new game.old game.new) }
    ensures longer { OnOk result (length game.new.moves ≤ length game.old.moves + 1) }
{
    match game.outcome() {
        Outcome::Ongoing => play_picked(alloc, game, generator),
        _ => Ok(false),
    }
}

// Plays up to this many more moves, while the game is ongoing.
fn play_on(alloc: Global, game: &mut Game, generator: &mut Pcg32, plies: u16) -> Result<(), Memory>
    requires room { length game.old.moves + plies ≤ MOST_PLIES }
    ensures { OnOk result (game.new ≡ Generate.random_game plies generator.old game.old) }
{
    for ply in 0..plies {
        if !play_one(alloc, game, generator)? {
            return Ok(());
        }
    }
    Ok(())
}

/// The game of this number by these rules: from their start, up to this many moves, while the game is ongoing. Each
/// move is picked from the list of the legal moves by a word of a generator that begins with the number.
///
/// # Errors
///
/// `Memory`.
pub(crate) fn random_game(
    alloc: Global,
    rules: &Rules,
    number: u64,
    plies: u16,
) -> Result<Game, Memory>
    requires fit { IsFit rules.now }
    requires start { is_sound rules.now rules.now.start ≡ true }
    requires plies { plies ≤ MOST_PLIES }
    ensures { IfOk result (λ game. game ≡ Generate.generated rules.now number plies) }
{
    let mut game = Game::new(alloc, rules, &rules.start)?;
    let mut generator = Pcg32::new(number, 0);
    play_on(alloc, &mut game, &mut generator, plies)?;
    Ok(game)
}
