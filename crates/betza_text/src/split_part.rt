//! Where the text of a part is cut.
ghost use Rattle.std.specs.Prelude.{◌≡◌, ◌≤◌, ◌+◌, length, slice_index};
ghost use Rattle.betza_text.specs.SplitPart as Cuts;
ghost use Rattle.betza_text.specs.SplitPart.{IsWithin};

use crate::letters::is_prefix;
use foundation::is_digit;

/// How the text of a part is cut.
#[derive(Clone, Copy)]
pub struct SplitPart {
    /// How many bytes stand before the atom.
    pub modifiers: usize,
    /// The letter of the atom stands twice.
    pub doubled: bool,
    /// How many digits stand behind it.
    pub digits: usize,
}

/// The byte at the place, or 0 past the end.
pub(crate) fn byte_at(text: &[u8], place: usize) -> u8
    ensures { result ≡ slice_index text.now place }
{
    text.get(place).copied().unwrap_or(0)
}

#[tactic(auto, unfolding(crate::specs::SplitPart::modifier_count))]
fn modifier_count(text: &[u8]) -> usize
    ensures is { result ≡ Cuts.modifier_count text.now }
    ensures within { result ≤ length text.now }
{
    text.iter().take_while(|byte| is_prefix(**byte)).count()
}

#[tactic(auto, unfolding(crate::specs::SplitPart::is_doubled))]
fn is_doubled(text: &[u8], modifiers: usize) -> bool
    requires { modifiers ≤ 64 }
    ensures { result ≡ Cuts.is_doubled text.now modifiers }
{
    byte_at(text, modifiers + 1) == byte_at(text, modifiers)
}

#[tactic(auto, unfolding(crate::specs::SplitPart::digit_place))]
fn digit_place(modifiers: usize, doubled: bool) -> usize
    requires { modifiers ≤ 64 }
    ensures is { result ≡ Cuts.digit_place modifiers doubled }
    ensures near { result ≤ modifiers + 2 }
    ensures behind { 1 ≤ result }
{
    modifiers + if doubled { 2 } else { 1 }
}

#[tactic(auto, unfolding(crate::specs::SplitPart::digit_count))]
fn digit_count(text: &[u8], place: usize) -> usize
    ensures is { result ≡ Cuts.digit_count text.now place }
    ensures within { result ≤ length text.now }
{
    text.iter()
        .skip(place)
        .take_while(|byte| is_digit(**byte))
        .count()
}

impl SplitPart {
    /// Cuts off the part with which a text begins.
    #[tactic(auto, unfolding(crate::specs::SplitPart::cut_of))]
    pub(crate) fn of(text: &[u8]) -> SplitPart
        requires { length text.now ≤ 64 }
        ensures is { result ≡ Cuts.cut_of text.now }
        ensures within { IsWithin result text.now }
    {
        let modifiers = modifier_count(text);
        let doubled = is_doubled(text, modifiers);
        SplitPart {
            modifiers,
            doubled,
            digits: digit_count(text, digit_place(modifiers, doubled)),
        }
    }

    /// The place of the number.
    #[tactic(auto, unfolding(crate::specs::SplitPart::number_place))]
    pub(crate) fn number_place(self) -> usize
        requires { self.modifiers ≤ 64 }
        ensures is { result ≡ Cuts.number_place self }
        ensures near { result ≤ 66 }
        ensures behind { 1 ≤ result }
    {
        digit_place(self.modifiers, self.doubled)
    }

    /// How long the text of the part is.
    #[tactic(auto, unfolding(crate::specs::SplitPart::cut_length))]
    pub(crate) fn len(self) -> usize
        requires modifiers { self.modifiers ≤ 64 }
        requires digits { self.digits ≤ 64 }
        ensures is { result ≡ Cuts.cut_length self }
        ensures near { result ≤ 130 }
        ensures some { 1 ≤ result }
    {
        self.number_place() + self.digits
    }
}
