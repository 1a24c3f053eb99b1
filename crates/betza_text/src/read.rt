//! What the text of a part says.
ghost use Rattle.std.specs.Prelude.{◌≡◌, ◌≤◌, ◌-◌, ◌==◌, length, filter, position};
ghost use Rattle.betza_text.specs.SplitPart as Cuts;
ghost use Rattle.betza_text.specs.SplitPart.{IsWithin};
ghost use Rattle.betza_text.specs.Letters as Letters;

use crate::letters::is_direction;
use crate::part::{Dirs, HopKind, Part};
use crate::split_part::{SplitPart, byte_at};
use arrayvec::ArrayVec;

fn digit(byte: u8) -> u16
    ensures is { result ≡ byte - 48 }
    ensures small { result ≤ 207 }
{
    u16::from(byte.saturating_sub(b'0'))
}

#[tactic(auto, unfolding(crate::specs::SplitPart::number_value))]
fn number_value(count: usize, first: u8, second: u8) -> u16
    ensures { result ≡ Cuts.number_value count first second }
{
    if count == 1 {
        digit(first)
    } else {
        10 * digit(first) + digit(second)
    }
}

/// Whether so many digits, of which these are the first two, say no number that a part can have.
#[tactic(auto, unfolding(crate::specs::SplitPart::is_bad_number))]
pub(crate) fn is_bad_number(count: usize, first: u8, second: u8) -> bool
    ensures is { result ≡ Cuts.is_bad_number count first second }
{
    count != 0
        && (count > 2 || (count == 2 && first == b'0') || number_value(count, first, second) > 11)
}

#[tactic(auto, unfolding(crate::specs::SplitPart::number_said, crate::specs::SplitPart::is_bad_number))]
fn number(count: usize, first: u8, second: u8) -> Option<u8>
    ensures { result ≡ Cuts.number_said count first second }
{
    if count == 0 || is_bad_number(count, first, second) {
        None
    } else {
        Some(number_value(count, first, second) as u8)
    }
}

#[tactic(auto, unfolding(crate::specs::SplitPart::has))]
pub(crate) fn has(letter: u8, modifiers: &[u8]) -> bool
    ensures { result ≡ Cuts.has letter modifiers.now }
{
    modifiers.iter().any(|byte| *byte == letter)
}

fn letter_position(letter: u8, modifiers: &[u8]) -> Option<usize>
    ensures { result ≡ position (λ c. c == letter) modifiers.now }
{
    modifiers.iter().position(|byte| *byte == letter)
}

/// The first place of a letter, or 0.
#[tactic(auto, unfolding(crate::specs::SplitPart::place_of), using(crate::proofs::PlaceLemmas::places))]
pub(crate) fn place_of(letter: u8, modifiers: &[u8]) -> usize
    ensures is { result ≡ Cuts.place_of letter modifiers.now }
    ensures within { result ≤ length modifiers.now }
{
    letter_position(letter, modifiers).unwrap_or(0)
}

fn direction_position(modifiers: &[u8]) -> Option<usize>
    ensures { result ≡ position Letters.is_direction modifiers.now }
{
    modifiers.iter().position(|byte| is_direction(*byte))
}

/// The first place of a direction letter, or 0.
#[tactic(auto, unfolding(crate::specs::SplitPart::direction_place), using(crate::proofs::PlaceLemmas::places))]
pub(crate) fn direction_place(modifiers: &[u8]) -> usize
    ensures is { result ≡ Cuts.direction_place modifiers.now }
    ensures within { result ≤ length modifiers.now }
{
    direction_position(modifiers).unwrap_or(0)
}

fn directions(modifiers: &[u8]) -> Dirs
    requires { length modifiers.now ≤ 64 }
    ensures { result ≡ filter Letters.is_direction modifiers.now }
{
    let mut items = ArrayVec::new();
    for byte in modifiers {
        if is_direction(*byte) {
            items.push(*byte);
        }
    }
    Dirs { items }
}

#[tactic(auto, unfolding(crate::specs::SplitPart::hop_of))]
fn hop(modifiers: &[u8]) -> HopKind
    ensures { result ≡ Cuts.hop_of modifiers.now }
{
    if has(b'p', modifiers) {
        HopKind::Over
    } else if has(b'g', modifiers) {
        HopKind::Behind
    } else {
        HopKind::No
    }
}

/// The part that a text says, cut so. A number that no part can have is left out.
#[tactic(auto, unfolding(crate::specs::SplitPart::part_of))]
pub(crate) fn read(text: &[u8], cut: SplitPart) -> Part
    requires short { length text.now ≤ 64 }
    requires within { IsWithin cut text.now }
    ensures { result ≡ Cuts.part_of text.now cut }
{
    let modifiers = &text[..cut.modifiers];
    let place = cut.number_place();
    Part {
        quiet: has(b'm', modifiers) || !has(b'c', modifiers),
        takes: has(b'c', modifiers) || !has(b'm', modifiers),
        lame: has(b'n', modifiers),
        hop: hop(modifiers),
        dirs: directions(modifiers),
        atom: byte_at(text, cut.modifiers),
        doubled: cut.doubled,
        number: number(cut.digits, byte_at(text, place), byte_at(text, place + 1)),
    }
}
