//! What `variants` prints: each section with its verdict.
ghost use Rattle.std.specs.Prelude.{◌≡◌, ◌<◌, ◌++◌, IfOk, OnOk, length};
ghost use Rattle.variant_rules.specs.Entries.{entries};
ghost use Rattle.variant_rules.specs.View.{lent};
ghost use Rattle.one_shots.specs.VariantsText.{line_at, variants_text, verdict_text};

use foundation::{Memory, Text};
use rules_model::Rules;
use std::alloc::{AllocError, Global};
use variant_ini::Sections;
use variant_model::SectionFault;
use variant_rules::{Variants, load};

// Appends whether a section is accepted, or its fault.
fn push_verdict(
    alloc: Global,
    text: &mut Vec<u8>,
    entry: Result<&Rules, &SectionFault>,
) -> Result<(), AllocError>
    ensures { OnOk result (text.new.items ≡ text.old.items ++ verdict_text (lent entry.entry)) }
{
    match entry {
        Ok(_) => text.extend_from_slice(b" ok\n"),
        Err(fault) => {
            let line = format!(in alloc; " {fault}\n")?;
            text.extend_from_slice(line.as_bytes())
        }
    }
}

// Appends the line of the section at a place.
fn push_variant(
    alloc: Global,
    text: &mut Vec<u8>,
    variants: &Variants,
    place: usize,
) -> Result<(), AllocError>
    requires { place < length variants.now }
    ensures { OnOk result (text.new.items ≡ text.old.items ++ line_at variants.now place) }
{
    let (name, entry) = variants.entry(place);
    text.extend_from_slice(name)?;
    push_verdict(alloc, text, entry)
}

// Appends a line for each section.
fn push_variants(alloc: Global, text: &mut Vec<u8>, variants: &Variants) -> Result<(), AllocError>
    ensures { OnOk result (text.new.items ≡ text.old.items ++ variants_text variants.now) }
{
    for place in 0..variants.len() {
        push_variant(alloc, text, variants, place)?;
    }
    Ok(())
}

/// A line for each section: its name, and `ok` or its first fault.
///
/// # Errors
///
/// `Memory`.
pub(crate) fn variants_of(alloc: Global, sections: &Sections) -> Result<Text, Memory>
    ensures { IfOk result (λ text. text ≡ variants_text (entries sections.now)) }
{
    let variants = load(alloc, sections)?;
    let mut items = Vec::new(alloc);
    push_variants(alloc, &mut items, &variants)?;
    Ok(Text { items })
}
