//! What `generate` prints: a game of random moves.
ghost use Rattle.std.specs.Prelude.{◌≤◌};
ghost use Rattle.game_play.specs.declared.game.TheConstants.{MOST_PLIES};
ghost use Rattle.one_shots.specs.Generate.{SaysGenerate, SaysGenerated};
ghost use Rattle.variant_rules.specs.Playable.{IsPlayable};
ghost use Rattle.variant_rules.specs.View.{IfRules, found_view};
ghost use Rattle.one_shot_checks.specs.NoAnswerView.{Answers, IsUnheard};

use crate::no_variant::{refused_variant, unknown_variant};
use crate::random_play::random_game;
use crate::report::report_of;
use foundation::Text;
use one_shot_checks::NoAnswer;
use std::alloc::Global;
use std::thread::Threads;
use variant_ini::Sections;
use variant_rules::{Found, load};

// The report of the game, by what is found of the variant's name.
fn generate_in<R: Threads + Sync>(
    rt: &R,
    alloc: Global,
    found: Found,
    name: &str,
    number: u64,
    plies: u16,
) -> Result<Text, NoAnswer<'static>>
    requires playable { IfRules found IsPlayable }
    requires plies { plies ≤ MOST_PLIES }
    ensures answers { Answers result (SaysGenerated name.now number plies (found_view found.entry)) }
    ensures reads_nothing { ¬ (IsUnheard result) }
{
    match found {
        Found::Rules(rules) => {
            let game = random_game(alloc, rules, number, plies)?;
            Ok(report_of(rt, alloc, name, number, &game)?)
        }
        Found::Refused(fault) => Err(refused_variant(alloc, fault)?),
        Found::Unknown => Err(unknown_variant(alloc, name)?),
    }
}

/// The text of `generate`: the report of the random game of this number in the variant of this name.
///
/// # Errors
///
/// No variant has the name, or it is refused; or there was no memory.
pub(crate) fn generate<R: Threads + Sync>(
    rt: &R,
    alloc: Global,
    sections: &Sections,
    name: &str,
    number: u64,
    plies: u16,
) -> Result<Text, NoAnswer<'static>>
    requires plies { plies ≤ MOST_PLIES }
    ensures answers { Answers result (SaysGenerate sections.now name.now number plies) }
    ensures reads_nothing { ¬ (IsUnheard result) }
{
    let variants = load(alloc, sections)?;
    generate_in(
        rt,
        alloc,
        variants.find(name.as_bytes()),
        name,
        number,
        plies,
    )
}
