//! Judges the lines of a section.
ghost use Rattle.std.specs.Prelude.{◌≡◌, IfOk};
ghost use Rattle.std.specs.Option.{option_map};
ghost use Rattle.variant_ini.specs.Section.{key_line};
ghost use Rattle.variant_options.specs.BetzaWords.{terms_in};
ghost use Rattle.variant_options.specs.LineFaults as LineFaults;
ghost use Rattle.variant_options.specs.PieceTable as PieceTable;
ghost use Rattle.variant_options.specs.PieceView.{piece_view};
ghost use Rattle.variant_options.specs.PieceValueView.{value_view};

use crate::fault::LineFault;
use crate::letters::letter;
use crate::options::{is_of_kind, is_skipped, option_kind};
use crate::pieces::{Movement, Piece, piece_named};
use crate::value::ValueKind;
use crate::words::read_word;
use rules_model::{Kind, Memory};
use std::alloc::Global;

/// What the value of a piece says.
#[derive(Clone, Copy)]
pub enum PieceValue<'a> {
    /// The variant has no such piece.
    Removed,
    /// Its letter.
    Lettered(Kind),
    /// Its letter and its word.
    Spelled(Kind, &'a [u8]),
}

/// `-`, a letter, or `letter:word`.
pub fn read_piece(text: &[u8]) -> Option<PieceValue<'_>>
    ensures { option_map value_view result ≡ PieceTable.read_piece text.now }
{
    match text {
        [b'-'] => Some(PieceValue::Removed),
        [byte] => Some(PieceValue::Lettered(letter(*byte)?)),
        [byte, b':', word @ ..] => Some(PieceValue::Spelled(letter(*byte)?, word)),
        _ => None,
    }
}

/// The fault of a piece's word.
fn word_fault(alloc: Global, word: &[u8]) -> Result<Option<LineFault>, Memory>
    ensures { IfOk result (λ fault. fault ≡ LineFaults.word_fault (terms_in word.now)) }
{
    Ok(read_word(alloc, word)?.err().map(LineFault::BadPiece))
}

/// The fault of a piece's value.
fn piece_fault(alloc: Global, piece: &Piece, text: &[u8]) -> Result<Option<LineFault>, Memory>
    ensures { IfOk result (λ fault. fault
        ≡ LineFaults.piece_fault (piece_view piece.now) (PieceTable.read_piece text.now)) }
{
    match (read_piece(text), piece.1) {
        (Some(PieceValue::Removed), _) => Ok(None),
        (Some(PieceValue::Lettered(_)), Movement::Custom) => Ok(Some(LineFault::BadValue)),
        (Some(PieceValue::Lettered(_)), _) => Ok(None),
        (Some(PieceValue::Spelled(_, word)), Movement::Default(_) | Movement::Custom) => {
            word_fault(alloc, word)
        }
        _ => Ok(Some(LineFault::BadValue)),
    }
}

/// The fault of a value, by the kind that its option has.
fn option_fault(alloc: Global, kind: ValueKind, text: &[u8]) -> Result<Option<LineFault>, Memory>
    ensures { IfOk result (λ fault. fault ≡ LineFaults.option_fault kind text.now) }
{
    let is_good = is_of_kind(alloc, kind, text)?;
    Ok(if is_good {
        None
    } else {
        Some(LineFault::BadValue)
    })
}

/// The fault of a line, where it has one: its key is none of the pieces, of the options and of the keys that are
/// skipped, or its value is not of the key's kind.
#[tactic(auto, unfolding(crate::specs::LineFaults::line_fault))]
pub fn line_fault(alloc: Global, key: &[u8], value: &[u8]) -> Result<Option<LineFault>, Memory>
    ensures { IfOk result (λ fault. fault ≡ LineFaults.line_fault (key_line key.now value.now)) }
{
    if let Some(piece) = piece_named(key) {
        return piece_fault(alloc, piece, value);
    }
    if let Some(kind) = option_kind(key) {
        return option_fault(alloc, kind, value);
    }
    Ok(if is_skipped(key) {
        None
    } else {
        Some(LineFault::UnsupportedOption)
    })
}
