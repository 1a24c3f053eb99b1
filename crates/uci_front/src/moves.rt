//! The game that the words of a position come to.
ghost use Rattle.std.specs.Prelude.{◌≡◌, true, IfOk};
ghost use Rattle.rules_model.specs.Sound.{is_sound};
ghost use Rattle.game_text.specs.GameText.{started};
ghost use Rattle.game_text.specs.Playing.{play_all};
ghost use Rattle.game_text.specs.ReadView.{Plays};
ghost use Rattle.uci_lines.specs.View.{texts};
ghost use Rattle.session_model.specs.UciState.{State, after_moves};
ghost use Rattle.session_model.specs.UciState as UciState;
ghost use Rattle.uci_lines.specs.SettingView.{placing_seen};
ghost use Rattle.uci_front.specs.Outcomes.{Leads};

use crate::refusal::{Refusal, bad_fen, bad_move, no_position};
use game_play::Game;
use game_text::{NoGame, play_move};
use rules_model::Position;
use std::alloc::Global;
use uci_lines::Placing;
use variant_fen::read_fen;

// Plays the moves of these words, one after another, up to the first faulty one.
fn play_words(alloc: Global, game: &mut Game, words: &[&[u8]]) -> Result<(), NoGame>
    ensures { Plays (play_all game.old (texts words.now)) game.new result }
{
    for word in words {
        play_move(alloc, game, word)?;
    }
    Ok(())
}

// The game from this position, by the rules of the old one, with the moves of these words.
fn game_of(alloc: Global, old: &Game, start: &Position, words: &[&[u8]]) -> Result<Game, Refusal>
    requires sound { is_sound old.now.rules start.now ≡ true }
    ensures leads { (state : State)
        → Leads state (after_moves state (play_all (started old.now.rules start.now) (texts words.now))) result }
    ensures rules { IfOk result (λ game. game.rules ≡ old.now.rules) }
{
    let mut game = old.another(alloc, start)?;
    match play_words(alloc, &mut game, words) {
        Ok(()) => Ok(game),
        Err(NoGame::Faulty(fault)) => Err(bad_move(alloc, &fault)),
        Err(NoGame::Unread | NoGame::Memory) => Err(Refusal::Memory),
    }
}

/// The game that `position` places, by the rules of the old one.
#[tactic(auto, unfolding(session_model::specs::UciState::place))]
pub(crate) fn placed(alloc: Global, old: &Game, placing: &Placing) -> Result<Game, Refusal>
    requires start { is_sound old.now.rules old.now.rules.start ≡ true }
    ensures leads { (state : State) → state.game.rules ≡ old.now.rules
        → Leads state (UciState.place state (placing_seen placing.now)) result }
    ensures rules { IfOk result (λ game. game.rules ≡ old.now.rules) }
{
    old.prove_played();
    let rules = old.rules();
    match placing {
        Placing::Startpos(words) => game_of(alloc, old, &rules.start, words),
        Placing::Fen(text, words) => match read_fen(rules, text.items.as_slice()) {
            Ok(start) => game_of(alloc, old, &start, words),
            Err(fault) => Err(bad_fen(alloc, fault)),
        },
        Placing::NoPosition => Err(no_position(alloc)),
    }
}
