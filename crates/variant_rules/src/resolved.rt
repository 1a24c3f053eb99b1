//! A section with what it inherits.
ghost use Rattle.std.specs.Prelude.{◌≡◌, ◌<◌, length};
ghost use Rattle.std.specs.Option.{option_copied};
ghost use Rattle.variant_model.specs.Made.{start_text};
ghost use Rattle.variant_rules.specs.Said.{letters_in, resolved_at};

use crate::lettered::LetteredSections;
use crate::letters::Letters;
use std::marker::Model;
use variant_ini::Sections;

/// A section with what it inherits: the values of its keys, and the letters of its pieces. A contract sees the sections
/// and the place of this one among them, of which `resolved_at` says what the section says.
#[derive(Drop)]
pub struct Resolved<'a> {
    sections: &'a Sections,
    place: usize,
    letters: Letters,
}

impl<'a> Model for Resolved<'a> {
    ghost use Rattle.std.specs.Prelude.{◌≡◌, ◌<◌, ℕ, List, length};
    ghost use Rattle.variant_ini.specs.Section.{Section};
    ghost use Rattle.variant_rules.specs.Letters.{letters_of};

    ghost Value = { List Section × ℕ };

    ghost view = { λ s. (s.sections.now, s.place) };

    ghost invariant = { λ s. (s.place < length s.sections.now) × (s.letters ≡ letters_of s.sections.now s.place) };
}

impl<'a> Resolved<'a> {
    /// What the section at a place says.
    pub fn new(sections: &LetteredSections<'a>, place: usize) -> Resolved<'a>
        requires { place < length sections.now }
        ensures { result ≡ (sections.now, place) }
    {
        Resolved {
            sections: sections.sections(),
            place,
            letters: sections.letters(place),
        }
    }

    /// The value of a key, where the section or a parent has one.
    pub(crate) fn value(&self, key: &[u8]) -> Option<&[u8]>
        ensures { option_copied result ≡ (resolved_at self.now).value key.now }
    {
        self.sections.resolve(self.place, key)
    }

    /// The text of the start: a FEN, which may be none of the section's rules.
    pub fn start_text(&self) -> &[u8]
        ensures { result.now ≡ start_text (resolved_at self.now) }
    {
        self.value(b"startFen").unwrap_or(
            b"rnbqkbnr/pppppppp/8/8/8/8/PPPPPPPP/RNBQKBNR w KQkq - 0 1",
        )
    }

    /// The letter of each piece of the table, in its order.
    pub(crate) fn letters(&self) -> &Letters
        ensures { result.now ≡ letters_in (resolved_at self.now) }
    {
        &self.letters
    }
}
