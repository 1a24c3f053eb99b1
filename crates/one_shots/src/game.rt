//! The game that a command reads.
ghost use Rattle.io_ports.specs.Cause.{HasCause};
ghost use Rattle.variant_rules.specs.Entries.{entries};
ghost use Rattle.game_text.specs.GameText.{game_of, lines_of_game};
ghost use Rattle.game_text.specs.HeardLines.{HeardLines};
ghost use Rattle.one_shots.specs.GameView.{SaysGame};
ghost use Rattle.one_shot_checks.specs.NoAnswerView.{IsUnheard};

use game_play::Game;
use game_text::read_game;
use io_ports::Source;
use one_shot_checks::NoAnswer;
use std::alloc::Global;
use variant_ini::Sections;
use variant_rules::load;

/// The game that the game text of the input says, of a variant of these sections.
///
/// # Errors
///
/// The game text's first fault; or the source failed, or there was no memory.
pub fn game_in<S: Source>(
    alloc: Global,
    sections: &Sections,
    source: &mut S,
) -> Result<Game, NoAnswer<'static>>
    ensures heard { HeardLines (S.left source.old) (S.left source.new) (lines_of_game (entries sections.now))
        (λ lines. SaysGame (game_of (entries sections.now) lines) result) }
    ensures cause { HasCause (S.faults source.old) (S.faults source.new) (IsUnheard result) }
{
    let variants = load(alloc, sections)?;
    Ok(read_game(alloc, &variants, source)?)
}
