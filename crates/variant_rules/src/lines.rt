//! What the own lines of a section say, and their faults.
ghost use Rattle.std.specs.Prelude.{◌≡◌, ◌<◌, IfOk, IfSome, map, length};
ghost use Rattle.std.specs.Option.{option_map};
ghost use Rattle.variant_ini.specs.Section.{section_at};
ghost use Rattle.variant_options.specs.LineFaults.{piece_named};
ghost use Rattle.variant_options.specs.PieceTable.{pieces};
ghost use Rattle.variant_options.specs.PieceView.{piece_view};
ghost use Rattle.variant_model.specs.PieceRules.{piece_row};
ghost use Rattle.variant_model.specs.Entry as Entry;
ghost use Rattle.variant_model.specs.PieceLetters as PieceLetters;
ghost use Rattle.variant_options.specs.declared.pieces.TheConstants.{PIECE_COUNT};
ghost use Rattle.variant_rules.specs.Own.{own_value, letter_count, letter_given};

use rules_model::kinds::names;
use rules_model::{Kind, Memory, Text};
use std::alloc::Global;
use variant_ini::{KeyLine, Sections};
use variant_model::SectionFault;
use variant_options::LineFault;
use variant_options::letters::KINDS;
use variant_options::line::{PieceValue, line_fault, read_piece};
use variant_options::pieces::{PIECE_COUNT, Piece, pieces};

/// What the lines of a section say of each piece of the table, in its order: None without a line for it, else the
/// letter that its last line gives, where it gives one.
pub(crate) type OwnLetters = [Option<Option<Kind>>; PIECE_COUNT];

/// The letter that a piece's value gives.
fn letter_in(value: &[u8]) -> Option<Kind>
    ensures { result ≡ PieceLetters.letter_in value.now }
{
    match read_piece(value) {
        Some(PieceValue::Lettered(kind)) => Some(kind),
        Some(PieceValue::Spelled(kind, _)) => Some(kind),
        _ => None,
    }
}

/// What the lines of the section at a place say of a piece.
fn own_value(sections: &Sections, section: usize, piece: &[u8]) -> Option<Option<Kind>>
    requires { section < length sections.now }
    ensures { result ≡ own_value (section_at sections.now section).lines piece.now }
{
    match sections.own_value(section, piece) {
        Some(value) => Some(letter_in(value)),
        None => None,
    }
}

/// The piece at a place of the table.
pub(crate) fn piece_at(place: usize) -> &'static Piece
    requires { place < PIECE_COUNT }
    ensures { piece_view result.now ≡ piece_row place }
{
    let table = pieces();
    &table[place]
}

/// The place in the table of the piece of the key.
pub(crate) fn piece_place(key: &[u8]) -> Option<usize>
    ensures is { option_map piece_row result ≡ piece_named key.now }
    ensures below { IfSome result (λ place. place < PIECE_COUNT) }
{
    for place in 0..PIECE_COUNT {
        let piece = piece_at(place);
        if piece.0 == key {
            return Some(place);
        }
    }
    None
}

/// What the lines of a section say of the piece at a place of the table.
fn own_at(sections: &Sections, section: usize, place: usize) -> Option<Option<Kind>>
    requires section { section < length sections.now }
    requires place { place < PIECE_COUNT }
    ensures { result ≡ own_value (section_at sections.now section).lines (piece_row place).key }
{
    let piece = piece_at(place);
    own_value(sections, section, piece.0)
}

/// What the lines of a section say of each piece: each is looked up by its key.
pub(crate) fn own_letters(sections: &Sections, section: usize) -> OwnLetters
    requires { section < length sections.now }
    ensures { result ≡ map (λ piece. own_value (section_at sections.now section).lines piece.key) pieces }
{
    let mut letters = [None; PIECE_COUNT];
    for i in 0..PIECE_COUNT {
        letters[i] = own_at(sections, section, i);
    }
    letters
}

/// How many pieces the lines give the letter to.
fn letter_count(letters: &OwnLetters, kind: Kind) -> usize
    ensures { result ≡ letter_count letters.now kind }
{
    letters
        .iter()
        .filter(|letter| names(letter.flatten(), kind))
        .count()
}

/// Whether the lines give the letter to some piece.
pub(crate) fn letter_given(letters: &OwnLetters, kind: Kind) -> bool
    ensures { result ≡ letter_given letters.now kind }
{
    letters.iter().any(|letter| names(letter.flatten(), kind))
}

/// The smallest letter that the lines of a section give to more than one piece.
#[tactic(auto, using(foundation::proofs::CountLemmas::first), unfolding(variant_model::specs::PieceLetters::letter_twice))]
fn letter_twice(sections: &Sections, section: usize) -> Option<u8>
    requires { section < length sections.now }
    ensures { result ≡ PieceLetters.letter_twice (section_at sections.now section).lines }
{
    let letters = own_letters(sections, section);
    for k in 0..KINDS {
        if letter_count(&letters, Kind(k)) > 1 {
            return Some(k);
        }
    }
    None
}

fn copy(alloc: Global, bytes: &[u8]) -> Result<Text, Memory>
    ensures { IfOk result (λ text. text ≡ bytes.now) }
{
    Ok(Text {
        items: Vec::from_slice(alloc, bytes)?,
    })
}

/// The fault of a line, with its key.
fn with_key(alloc: Global, key: &[u8], fault: LineFault) -> Result<SectionFault, Memory>
    ensures { IfOk result (λ found. found ≡ Entry.with_key key.now fault) }
{
    let key = copy(alloc, key)?;
    Ok(match fault {
        LineFault::UnsupportedOption => SectionFault::UnsupportedOption(key),
        LineFault::BadValue => SectionFault::BadValue(key),
        LineFault::BadPiece(word) => SectionFault::BadPiece(key, word),
    })
}

/// The fault of the first faulty line.
#[tactic(auto, unfolding(variant_model::specs::Entry::lines_fault))]
fn lines_fault(alloc: Global, lines: &[KeyLine]) -> Result<Option<SectionFault>, Memory>
    ensures { IfOk result (λ fault. fault ≡ Entry.lines_fault lines.now) }
{
    for line in lines {
        let key = &line.key;
        let value = &line.value;
        if let Some(fault) = line_fault(alloc, key.items.as_slice(), value.items.as_slice())? {
            return Ok(Some(with_key(alloc, key.items.as_slice(), fault)?));
        }
    }
    Ok(None)
}

/// The fault of a section's own lines, where they have one: that of the first faulty line, else the smallest letter
/// that they give to two pieces.
pub fn own_fault(
    alloc: Global,
    sections: &Sections,
    place: usize,
) -> Result<Option<SectionFault>, Memory>
    requires { place < length sections.now }
    ensures { IfOk result (λ fault. fault ≡ Entry.own_fault (section_at sections.now place).lines) }
{
    if let Some(fault) = lines_fault(alloc, sections.lines(place))? {
        return Ok(Some(fault));
    }
    Ok(match letter_twice(sections, place) {
        Some(letter) => Some(SectionFault::LetterTwice(Kind(letter))),
        None => None,
    })
}
