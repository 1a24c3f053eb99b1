//! Sections with the letters of their pieces.
ghost use Rattle.std.specs.Prelude.{◌≡◌, ◌<◌, IfOk, is_none, length, slice_index_or};
ghost use Rattle.variant_model.specs.Told.{lacks_piece};
ghost use Rattle.variant_options.specs.declared.pieces.TheConstants.{PIECE_COUNT};
ghost use Rattle.variant_rules.specs.Letters as table;

use crate::letters::{Letters, all_letters};
use crate::lines::piece_place;
use rules_model::Memory;
use std::alloc::Global;
use std::marker::Model;
use variant_ini::Sections;

/// Sections with the letters of the pieces of each, so that no chain of parents is walked for them. A contract sees the
/// sections.
#[derive(Drop)]
pub struct LetteredSections<'a> {
    sections: &'a Sections,
    letters: Vec<Letters>,
}

impl<'a> Model for LetteredSections<'a> {
    ghost use Rattle.std.specs.Prelude.{◌≡◌, List, length};
    ghost use Rattle.variant_ini.specs.Section.{Section};
    ghost use Rattle.variant_rules.specs.Letters.{letters_before};

    ghost Value = { List Section };

    ghost view = { λ s. s.sections.now };

    ghost invariant = { λ s. s.letters.items ≡ letters_before s.sections.now (length s.sections.now) };
}

/// Whether letters have none for the piece at a place of the table.
fn is_absent(letters: &Letters, place: usize) -> bool
    requires { place < PIECE_COUNT }
    ensures { result ≡ is_none (slice_index_or letters.now place None) }
{
    letters[place].is_none()
}

impl<'a> LetteredSections<'a> {
    /// Finds the letters of the pieces of all sections, in time that grows with the lines.
    pub fn new(alloc: Global, sections: &'a Sections) -> Result<LetteredSections<'a>, Memory>
        ensures { IfOk result (λ lettered. lettered ≡ sections.now) }
    {
        let letters = all_letters(alloc, sections)?;
        Ok(LetteredSections { sections, letters })
    }

    /// The sections without the letters.
    pub fn sections(&self) -> &'a Sections
        ensures { result.now ≡ self.now }
    {
        self.sections
    }

    /// The letters of the pieces of a section.
    pub(crate) fn letters(&self, place: usize) -> Letters
        requires { place < length self.now }
        ensures { result ≡ table.letters_of self.now place }
    {
        self.letters[place]
    }

    /// Whether a key is that of a piece that the section does not have.
    pub fn lacks_piece(&self, section: usize, key: &[u8]) -> bool
        requires { section < length self.now }
        ensures { result ≡ lacks_piece self.now section key.now }
    {
        match piece_place(key) {
            Some(place) => is_absent(&self.letters(section), place),
            None => false,
        }
    }
}
