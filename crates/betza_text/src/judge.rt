//! The first fault of a part.
ghost use Rattle.std.specs.Prelude.{◌≡◌, ◌≤◌, ◌<◌, length};
ghost use Rattle.betza_text.specs.SplitPart.{IsWithin, part_of, modifiers_of};
ghost use Rattle.betza_text.specs.PartFault as Faults;

use crate::fault::BetzaFault;
use crate::letters::{is_atom, is_direction, is_once};
use crate::part::Part;
use crate::read::{direction_place, has, is_bad_number, place_of};
use crate::split_part::{SplitPart, byte_at};
use crate::steps::{has_clear_directions, part_steps};

/// The most terms of a word.
const MOST_TERMS: usize = 64;

#[tactic(auto, unfolding(crate::specs::PartFault::modifier_fault))]
fn modifier_fault(at: usize, modifiers: &[u8], k: usize) -> Option<BetzaFault>
    requires at { at ≤ 64 }
    requires short { length modifiers.now ≤ 64 }
    requires within { k < length modifiers.now }
    ensures { result ≡ Faults.modifier_fault at modifiers.now k }
{
    let letter = modifiers[k];
    if !is_once(letter) && !is_direction(letter) {
        Some(BetzaFault::UnsupportedModifier(at + k))
    } else if is_once(letter) && place_of(letter, modifiers) != k {
        Some(BetzaFault::DoubledModifier(at + k))
    } else {
        None
    }
}

#[tactic(auto, using(crate::proofs::FaultLemmas::faults))]
fn modifiers_fault(at: usize, modifiers: &[u8]) -> Option<BetzaFault>
    requires at { at ≤ 64 }
    requires short { length modifiers.now ≤ 64 }
    ensures { result ≡ Faults.modifiers_fault at modifiers.now (length modifiers.now) }
{
    for k in 0..modifiers.len() {
        if let Some(fault) = modifier_fault(at, modifiers, k) {
            return Some(fault);
        }
    }
    None
}

#[tactic(auto, unfolding(crate::specs::PartFault::is_bad_count))]
fn is_bad_count(text: &[u8], cut: SplitPart) -> bool
    requires { cut.modifiers ≤ 64 }
    ensures { result ≡ Faults.is_bad_count text.now cut }
{
    let place = cut.number_place();
    is_bad_number(cut.digits, byte_at(text, place), byte_at(text, place + 1))
}

#[tactic(auto, unfolding(crate::specs::PartFault::is_bad_lame, crate::specs::Steps::can_be_lame))]
fn is_bad_lame(part: &Part) -> bool
    ensures { result ≡ Faults.is_bad_lame part.now }
{
    let can_be = matches!(part.atom, b'N' | b'A' | b'D' | b'H' | b'G')
        && !part.doubled
        && part.number.is_none();
    part.lame && !can_be
}

#[tactic(auto, unfolding(crate::specs::PartFault::is_bad_hopper))]
fn is_bad_hopper(modifiers: &[u8], part: &Part) -> bool
    ensures { result ≡ Faults.is_bad_hopper modifiers.now part.now }
{
    let over = has(b'p', modifiers);
    let behind = has(b'g', modifiers);
    (over && behind) || ((over || behind) && !part.is_far())
}

#[tactic(auto, unfolding(crate::specs::PartFault::hopper_place))]
fn hopper_place(modifiers: &[u8]) -> usize
    ensures is { result ≡ Faults.hopper_place modifiers.now }
    ensures within { result ≤ length modifiers.now }
{
    place_of(b'p', modifiers).max(place_of(b'g', modifiers))
}

#[tactic(auto, unfolding(crate::specs::PartFault::atom_fault))]
fn atom_fault(
    at: usize,
    before: usize,
    text: &[u8],
    modifiers: &[u8],
    cut: SplitPart,
    part: &Part,
) -> Option<BetzaFault>
    requires at { at ≤ 64 }
    requires before { before ≤ 64 }
    requires short { length modifiers.now ≤ 64 }
    requires within { cut.modifiers ≤ 64 }
    ensures { result ≡ Faults.atom_fault at before text.now modifiers.now cut part.now }
{
    if !is_atom(part.atom) {
        Some(BetzaFault::UnknownAtom(at + cut.modifiers))
    } else if is_bad_count(text, cut) {
        Some(BetzaFault::BadNumber(at + cut.number_place()))
    } else if !has_clear_directions(part) {
        Some(BetzaFault::AmbiguousDirection(at + direction_place(modifiers)))
    } else if is_bad_lame(part) {
        Some(BetzaFault::BadLame(at + place_of(b'n', modifiers)))
    } else if is_bad_hopper(modifiers, part) {
        Some(BetzaFault::BadHopper(at + hopper_place(modifiers)))
    } else if before + part_steps(part).items.len() > MOST_TERMS {
        Some(BetzaFault::TooManyTerms(at + cut.modifiers))
    } else {
        None
    }
}

/// The first fault of the part with which a text begins, cut so: the text stands at the place `at` of its word,
/// behind so many terms.
#[tactic(auto, unfolding(crate::specs::PartFault::cut_fault))]
pub(crate) fn first_fault(
    at: usize,
    before: usize,
    text: &[u8],
    cut: SplitPart,
    part: &Part,
) -> Option<BetzaFault>
    requires at { at ≤ 64 }
    requires before { before ≤ 64 }
    requires short { length text.now ≤ 64 }
    requires within { IsWithin cut text.now }
    requires part { part.now ≡ part_of text.now cut }
    ensures { result ≡ Faults.cut_fault at before text.now cut }
{
    let modifiers = &text[..cut.modifiers];
    match modifiers_fault(at, modifiers) {
        Some(fault) => Some(fault),
        None => atom_fault(at, before, text, modifiers, cut, part),
    }
}
