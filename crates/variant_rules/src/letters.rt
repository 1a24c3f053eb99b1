//! The letters of the pieces of sections, each by the letters of its parent.
ghost use Rattle.std.specs.Prelude.{◌≡◌, ◌<◌, IfOk, length};
ghost use Rattle.variant_rules.specs.Letters as table;

use crate::lines::{OwnLetters, letter_given, own_letters};
use rules_model::{Kind, Memory};
use std::alloc::Global;
use variant_ini::Sections;
use variant_options::pieces::PIECE_COUNT;

/// The letter of each piece of the table, in its order, where the section has the piece.
pub(crate) type Letters = [Option<Kind>; PIECE_COUNT];

/// The letter of a piece, by what the section's lines say of it, by the letter in the parent, and by the letters that
/// the lines give.
fn letter_by(said: Option<Option<Kind>>, inherited: Option<Kind>, own: &OwnLetters) -> Option<Kind>
    ensures { result ≡ table.letter_by said inherited own.now }
{
    match (said, inherited) {
        (Some(letter), _) => letter,
        (None, Some(kind)) if !letter_given(own, kind) => Some(kind),
        _ => None,
    }
}

/// The letters of the pieces, by what a section's lines say and by the letters in its parent.
fn letters_by(own: &OwnLetters, inherited: &Letters) -> Letters
    ensures { result ≡ table.letters_by own.now inherited.now }
{
    let mut letters = [None; PIECE_COUNT];
    for i in 0..PIECE_COUNT {
        letters[i] = letter_by(own[i], inherited[i], own);
    }
    letters
}

/// The letters in the parent of a section, none without a parent.
fn inherited(sections: &Sections, above: &[Letters], place: usize) -> Letters
    requires place { place < length sections.now }
    requires above { above.now ≡ table.letters_before sections.now place }
    ensures { result ≡ table.inherited sections.now place }
{
    match sections.parent_place(place) {
        Some(parent) => above[parent],
        None => [None; PIECE_COUNT],
    }
}

/// The letters of a section, by those of the sections above it.
fn letters_of(sections: &Sections, above: &[Letters], place: usize) -> Letters
    requires place { place < length sections.now }
    requires above { above.now ≡ table.letters_before sections.now place }
    ensures { result ≡ table.letters_of sections.now place }
{
    let own = own_letters(sections, place);
    letters_by(&own, &inherited(sections, above, place))
}

/// The letters of all sections.
pub(crate) fn all_letters(alloc: Global, sections: &Sections) -> Result<Vec<Letters>, Memory>
    ensures { IfOk result (λ letters. letters.items ≡ table.letters_before sections.now (length sections.now)) }
{
    let mut letters = Vec::with_capacity(alloc, sections.len())?;
    for place in 0..sections.len() {
        letters.push(letters_of(sections, letters.as_slice(), place))?;
    }
    Ok(letters)
}
