//! What `rules` prints: the lines that a variant tells of its rules.
ghost use Rattle.std.specs.Prelude.{◌≡◌};
ghost use Rattle.variant_ini.specs.OptionValue.{first_named};
ghost use Rattle.variant_rules.specs.Entries.{entries, found};
ghost use Rattle.variant_rules.specs.View.{found_view};
ghost use Rattle.one_shot_checks.specs.NoAnswerView.{Answers, IsUnheard};
ghost use Rattle.one_shots.specs.RulesTold.{SaysRules, SaysTold};

use crate::no_variant::{refused_variant, unknown_variant};
use foundation::Text;
use one_shot_checks::NoAnswer;
use proof_text::write_rules;
use session_model::laws::variants_have_places;
use std::alloc::Global;
use variant_ini::Sections;
use variant_rules::{Found, load};

// The lines, by what is found of the variant's name.
fn rules_in(
    alloc: Global,
    sections: &Sections,
    variant: Found,
    name: &str,
) -> Result<Text, NoAnswer<'static>>
    requires { found_view variant ≡ found (entries sections.now) name.now }
    ensures answers { Answers result
        (SaysTold sections.now name.now (found_view variant.entry) (first_named sections.now name.now)) }
    ensures reads_nothing { ¬ (IsUnheard result) }
{
    // Tells the prover that a variant that is found has a place.
    variants_have_places();
    match variant {
        Found::Rules(_) => match sections.place_of(name.as_bytes()) {
            Some(place) => Ok(write_rules(alloc, sections, place)?),
            None => unreachable!(),
        },
        Found::Refused(fault) => Err(refused_variant(alloc, fault)?),
        Found::Unknown => Err(unknown_variant(alloc, name)?),
    }
}

/// The text of `rules`: the lines `key = value` of the rules of the variant of this name, those that it inherits too.
///
/// # Errors
///
/// No variant has the name, or it is refused; or there was no memory.
pub(crate) fn rules_text(
    alloc: Global,
    sections: &Sections,
    name: &str,
) -> Result<Text, NoAnswer<'static>>
    ensures answers { Answers result (SaysRules sections.now name.now) }
    ensures reads_nothing { ¬ (IsUnheard result) }
{
    let variants = load(alloc, sections)?;
    rules_in(alloc, sections, variants.find(name.as_bytes()), name)
}
