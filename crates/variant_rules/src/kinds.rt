//! The kinds of pieces that a section has.
ghost use Rattle.std.specs.Prelude.{◌≡◌, ◌<◌, [], IfOk, IfSome, map, length};
ghost use Rattle.std.specs.List.{range_with_len};
ghost use Rattle.std.specs.Option.{option_map, option_copied};
ghost use Rattle.variant_model.specs.PieceRules as PieceRules;
ghost use Rattle.variant_model.specs.PieceRules.{kind_rule_of, piece_row};
ghost use Rattle.variant_options.specs.PieceTable as PieceTable;
ghost use Rattle.variant_options.specs.PieceView.{piece_view, key_pair};
ghost use Rattle.variant_options.specs.Options.{promoted_piece_type, region_keys};
ghost use Rattle.variant_options.specs.declared.pieces.TheConstants.{PIECE_COUNT};
ghost use Rattle.rules_model.specs.declared.board.Side.TheVariants.{White, Black};
ghost use Rattle.variant_rules.specs.Said.{IsKeyOf, board_of, held_at, held_by, holds_pair, own_word, resolved_at, rule_at, terms_by};

use crate::lines::piece_at;
use crate::regions::{Keys, regions};
use crate::resolved::Resolved;
use arrayvec::ArrayVec;
use rules_model::kinds::{masks, names};
use rules_model::{BoardSize, Kind, KindRule, Memory, Terms};
use std::alloc::Global;
use variant_options::letters::{KINDS, mask_of};
use variant_options::line::{PieceValue, read_piece};
use variant_options::pieces::{PIECE_COUNT, Piece, RegionKeys, region_keys};
use variant_options::readings::{ALL_SQUARES, read_pairs};
use variant_options::words::read_word;

/// Pairs of a kind and of what it is promoted to.
pub(crate) type Pairs = Vec<(Kind, Kind)>;

/// The letter of the piece at a place of the table.
pub(crate) fn letter_at(section: &Resolved<'_>, place: usize) -> Option<Kind>
    requires { place < PIECE_COUNT }
    ensures { result ≡ (resolved_at section.now).letter (PieceRules.piece_row place).key }
{
    let letters = section.letters();
    letters[place]
}

/// The place in the table of the piece that has the letter.
fn holder(section: &Resolved<'_>, kind: Kind) -> Option<usize>
    ensures is { option_map PieceRules.piece_row result ≡ PieceRules.holder (resolved_at section.now) kind }
    ensures below { IfSome result (λ place. place < PIECE_COUNT) }
{
    for place in 0..PIECE_COUNT {
        if names(letter_at(section, place), kind) {
            return Some(place);
        }
    }
    None
}

/// Whether a piece has the letter.
pub(crate) fn has_piece(section: &Resolved<'_>, kind: Kind) -> bool
    ensures { result ≡ PieceRules.has_piece (resolved_at section.now) kind }
{
    holder(section, kind).is_some()
}

/// Whether a mask has the letter of a piece.
#[tactic(auto, unfolding(crate::specs::Said::held_at))]
fn is_held(section: &Resolved<'_>, mask: &[bool; 26], kind: Kind) -> bool
    ensures { result ≡ held_at (resolved_at section.now) mask.now kind }
{
    masks(mask, kind) && has_piece(section, kind)
}

/// The letters of a mask that pieces have.
pub(crate) fn held_letters(section: &Resolved<'_>, mask: &[bool; 26]) -> [bool; 26]
    ensures { result ≡ PieceRules.held_letters (resolved_at section.now) mask.now }
{
    let mut held = [false; 26];
    for k in 0..KINDS {
        held[k as usize] = is_held(section, mask, Kind(k));
    }
    held
}

/// The letters of a key that pieces have; by default the one of a piece.
pub(crate) fn held_by_key(section: &Resolved<'_>, key: &[u8], default: Option<Kind>) -> [bool; 26]
    ensures { result ≡ held_by (resolved_at section.now) key.now default }
{
    held_letters(section, &section.letters_or(key, mask_of(default)))
}

/// A letter, where a piece has it.
pub(crate) fn held_letter(section: &Resolved<'_>, letter: Option<Kind>) -> Option<Kind>
    ensures { result ≡ PieceRules.held_letter (resolved_at section.now) letter }
{
    match letter {
        Some(kind) if has_piece(section, kind) => Some(kind),
        _ => None,
    }
}

/// The pairs of `promotedPieceType`.
fn all_pairs(alloc: Global, section: &Resolved<'_>) -> Result<Pairs, Memory>
    ensures { IfOk result (λ pairs. pairs.items ≡ PieceRules.said (resolved_at section.now) promoted_piece_type) }
{
    if let Some(text) = section.value(b"promotedPieceType")
        && let Some(pairs) = read_pairs(alloc, text)?
    {
        return Ok(pairs);
    }
    Ok(Vec::new(alloc))
}

/// Whether pieces have both letters of a pair.
#[tactic(auto, unfolding(crate::specs::Said::holds_pair))]
fn holds_pair(section: &Resolved<'_>, pair: &(Kind, Kind)) -> bool
    ensures { result ≡ holds_pair (resolved_at section.now) pair.now }
{
    has_piece(section, pair.0) && has_piece(section, pair.1)
}

/// The pairs of which pieces have both letters.
pub(crate) fn held_pairs(alloc: Global, section: &Resolved<'_>) -> Result<Pairs, Memory>
    ensures { IfOk result (λ pairs. pairs.items ≡ PieceRules.held_pairs (resolved_at section.now)) }
{
    let mut pairs = all_pairs(alloc, section)?;
    pairs.retain(|pair| holds_pair(section, pair));
    Ok(pairs)
}

/// What the pairs make of a kind.
fn promoted_by(pairs: &[(Kind, Kind)], kind: Kind) -> Option<Kind>
    ensures { result ≡ PieceRules.promoted_by pairs.now kind }
{
    let pair = pairs.iter().find(|pair| pair.0.0 == kind.0)?;
    Some(pair.1)
}

/// The word that a piece's value has.
fn value_word(value: &[u8]) -> Option<&[u8]>
    ensures { option_copied result ≡ PieceTable.value_word (PieceTable.read_piece value.now) }
{
    match read_piece(value) {
        Some(PieceValue::Spelled(_, word)) => Some(word),
        _ => None,
    }
}

/// The word that a section says for a piece.
fn own_word<'a>(section: &'a Resolved<'_>, piece: &Piece) -> Option<&'a [u8]>
    ensures { option_copied result ≡ own_word (resolved_at section.now) (piece_view piece.now).key }
{
    match section.value(piece.0) {
        Some(value) => value_word(value),
        None => None,
    }
}

/// The word of a piece: that of its value, else its own.
fn piece_word<'a>(section: &'a Resolved<'_>, piece: &Piece) -> Option<&'a [u8]>
    ensures { option_copied result ≡ PieceRules.piece_word (resolved_at section.now) (piece_view piece.now) }
{
    match own_word(section, piece) {
        Some(word) => Some(word),
        None => piece.word(),
    }
}

fn no_terms() -> Terms
    ensures { result ≡ [] }
{
    Terms {
        items: ArrayVec::new(),
    }
}

/// The terms of a piece: those of its word, none where it has none.
fn terms(alloc: Global, section: &Resolved<'_>, piece: &Piece) -> Result<Terms, Memory>
    ensures { IfOk result (λ terms. terms ≡ terms_by (resolved_at section.now) (piece_view piece.now)) }
{
    let Some(word) = piece_word(section, piece) else {
        return Ok(no_terms());
    };
    Ok(match read_word(alloc, word)? {
        Ok(terms) => terms,
        Err(_) => no_terms(),
    })
}

/// The keys of the regions of the piece at a place of the table.
fn keys_at(place: usize) -> RegionKeys
    requires { place < PIECE_COUNT }
    ensures { key_pair result ≡ region_keys (PieceRules.piece_row place) }
{
    let table = region_keys();
    table[place]
}

/// The keys of a piece's regions. No section that has those of the pawn is accepted.
fn keys_of(keys: RegionKeys) -> Keys<'static>
    ensures white { IsKeyOf keys White result.0.now }
    ensures black { IsKeyOf keys Black result.1.now }
{
    match keys {
        RegionKeys::Keys(white, black) => (white, black),
        RegionKeys::Everywhere => (b"mobilityRegionWhitePawn", b"mobilityRegionBlackPawn"),
    }
}

/// The rule of the piece at a place of the table.
fn kind_rule(
    alloc: Global,
    section: &Resolved<'_>,
    board: BoardSize,
    pairs: &[(Kind, Kind)],
    kind: Kind,
    place: usize,
) -> Result<KindRule, Memory>
    requires place { place < PIECE_COUNT }
    requires board { board ≡ board_of (resolved_at section.now) }
    requires pairs { pairs.now ≡ PieceRules.held_pairs (resolved_at section.now) }
    ensures { IfOk result (λ rule. rule ≡ kind_rule_of (resolved_at section.now) kind (piece_row place)) }
{
    let piece = piece_at(place);
    let keys = keys_of(keys_at(place));
    Ok(KindRule {
        terms: terms(alloc, section, piece)?,
        mobility: regions(alloc, section, board, keys, [ALL_SQUARES, ALL_SQUARES])?,
        pawn: piece.is_pawn(),
        promoted: promoted_by(pairs, kind),
    })
}

/// The rule of a kind, where a piece has its letter.
fn kind_at(
    alloc: Global,
    section: &Resolved<'_>,
    board: BoardSize,
    pairs: &[(Kind, Kind)],
    kind: Kind,
) -> Result<Option<KindRule>, Memory>
    requires board { board ≡ board_of (resolved_at section.now) }
    requires pairs { pairs.now ≡ PieceRules.held_pairs (resolved_at section.now) }
    ensures { IfOk result (λ rule. rule ≡ rule_at (resolved_at section.now) kind.0) }
{
    match holder(section, kind) {
        Some(place) => Ok(Some(kind_rule(alloc, section, board, pairs, kind, place)?)),
        None => Ok(None),
    }
}

/// A kind for no letter.
fn no_kinds() -> [Option<KindRule>; 26]
    ensures { length result ≡ 26 }
{
    [
        None, None, None, None, None, None, None, None, None, None, None, None, None, None, None,
        None, None, None, None, None, None, None, None, None, None, None,
    ]
}

/// The rules of the kinds, by letter.
pub(crate) fn kinds(
    alloc: Global,
    section: &Resolved<'_>,
    board: BoardSize,
) -> Result<[Option<KindRule>; 26], Memory>
    requires board { board ≡ board_of (resolved_at section.now) }
    ensures { IfOk result (λ kinds. kinds ≡ map (PieceRules.kind_at (resolved_at section.now)) (range_with_len 0 26)) }
{
    let pairs = held_pairs(alloc, section)?;
    let mut kinds = no_kinds();
    for k in 0..KINDS {
        kinds[k as usize] = kind_at(alloc, section, board, pairs.as_slice(), Kind(k))?;
    }
    Ok(kinds)
}
