//! Within how many moves the game of the input is won.
ghost use Rattle.std.specs.Prelude.{◌≡◌, ◌≤◌, IfOk};
ghost use Rattle.io_ports.specs.Cause.{HasCause};
ghost use Rattle.variant_rules.specs.Entries.{entries};
ghost use Rattle.game_text.specs.GameText.{lines_of_game};
ghost use Rattle.game_text.specs.HeardLines.{HeardLines};
ghost use Rattle.one_shot_checks.specs.NoAnswerView.{Answers, IsUnheard};
ghost use Rattle.one_shots.specs.PnMates.{SaysMateCount, SaysPnMate, mate_line};

use crate::game::game_in;
use foundation::Text;
use io_ports::Source;
use one_shot_checks::{Fault, NoAnswer};
use pn_search::{PnFault, least_mate};
use std::alloc::{AllocError, Global};
use variant_ini::Sections;

// A number of moves, or that there is none.
fn mate_line(alloc: Global, least: Option<u16>) -> Result<Text, AllocError>
    ensures { IfOk result (λ text. text ≡ mate_line least) }
{
    let items = match least {
        Some(k) => format!(in alloc; "mate {k}\n")?.into_bytes(),
        None => b"none\n".to_vec(alloc)?,
    };
    Ok(Text { items })
}

// The least number of moves, or why the game is not asked.
fn print(alloc: Global, count: Result<Option<u16>, PnFault>) -> Result<Text, NoAnswer<'static>>
    ensures prints { Answers result (SaysMateCount count) }
    ensures heard { ¬ (IsUnheard result) }
{
    match count {
        Ok(least) => Ok(mate_line(alloc, least)?),
        Err(fault) => Err(NoAnswer::Fault(Fault::PnMate(fault))),
    }
}

/// The text of `pnmate N`: within how many moves, up to N, the side that is to move wins the game of the input, which
/// is of a variant of these sections.
///
/// # Errors
///
/// The game text's first fault, or why no mate is looked for; or the source failed, or there was no memory.
pub(crate) fn pn_mate_text<S: Source>(
    alloc: Global,
    moves: u16,
    sections: &Sections,
    source: &mut S,
) -> Result<Text, NoAnswer<'static>>
    requires least { 1 ≤ moves }
    requires most { moves ≤ 100 }
    ensures heard { HeardLines (S.left source.old) (S.left source.new) (lines_of_game (entries sections.now))
        (λ lines. Answers result (SaysPnMate moves (entries sections.now) lines)) }
    ensures cause { HasCause (S.faults source.old) (S.faults source.new) (IsUnheard result) }
{
    let game = game_in(alloc, sections, source)?;
    let count = least_mate(alloc, &game, moves)?;
    print(alloc, count)
}
