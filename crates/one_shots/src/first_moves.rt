//! The first moves that win the game of the input.
ghost use Rattle.std.specs.Prelude.{◌≤◌};
ghost use Rattle.io_ports.specs.Cause.{HasCause};
ghost use Rattle.variant_rules.specs.Entries.{entries};
ghost use Rattle.game_text.specs.GameText.{lines_of_game};
ghost use Rattle.game_text.specs.HeardLines.{HeardLines};
ghost use Rattle.suite.specs.FirstMoves.{mate_keys};
ghost use Rattle.one_shot_checks.specs.NoAnswerView.{Answers, IsUnheard};
ghost use Rattle.one_shots.specs.FirstMoves.{SaysKeyList, SaysKeys};

use crate::game::game_in;
use foundation::Text;
use game_play::Game;
use io_ports::Source;
use one_shot_checks::{Fault, NoAnswer};
use std::alloc::Global;
use std::sync::Wait;
use suite::{mate_keys, write_keys};
use variant_ini::Sections;

// The moves of a game, or why it is not asked.
fn keys_of<R: Wait>(
    rt: &R,
    alloc: Global,
    moves: u16,
    mut game: Game,
) -> Result<Text, NoAnswer<'static>>
    requires least { 1 ≤ moves }
    requires most { moves ≤ 20 }
    ensures prints { Answers result (SaysKeyList (mate_keys moves game)) }
    ensures heard { ¬ (IsUnheard result) }
{
    match mate_keys(rt, alloc, &mut game, moves)? {
        Ok(keys) => Ok(write_keys(alloc, &keys)?),
        Err(fault) => Err(NoAnswer::Fault(Fault::Keys(fault))),
    }
}

/// The text of `keys N`: the first moves with which the side that is to move wins the game of the input within N moves,
/// which is of a variant of these sections.
///
/// # Errors
///
/// The game text's first fault, or why no first moves are looked for; or the source failed, or there was no memory.
pub(crate) fn keys_text<R: Wait, S: Source>(
    rt: &R,
    alloc: Global,
    moves: u16,
    sections: &Sections,
    source: &mut S,
) -> Result<Text, NoAnswer<'static>>
    requires least { 1 ≤ moves }
    requires most { moves ≤ 20 }
    ensures heard { HeardLines (S.left source.old) (S.left source.new) (lines_of_game (entries sections.now))
        (λ lines. Answers result (SaysKeys moves (entries sections.now) lines)) }
    ensures cause { HasCause (S.faults source.old) (S.faults source.new) (IsUnheard result) }
{
    let game = game_in(alloc, sections, source)?;
    keys_of(rt, alloc, moves, game)
}
