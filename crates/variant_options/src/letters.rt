//! The letters of pieces, and masks of kinds.
ghost use Rattle.std.specs.Prelude.{◌≡◌, ◌<◌, IfSome};
ghost use Rattle.std.specs.List.{list_any};
ghost use Rattle.rules_model.specs.Kinds.{names};
ghost use Rattle.variant_options.specs.Letters as Letters;

use rules_model::Kind;
use rules_model::kinds::names;

/// How many letters there are.
pub const KINDS: u8 = 26;

/// The kind that a letter of either case names.
pub fn letter(byte: u8) -> Option<Kind>
    ensures is { result ≡ Letters.letter_of byte }
    ensures below { IfSome result (λ kind. kind.0 < 26) }
{
    match byte {
        b'a'..=b'z' => Some(Kind(byte - b'a')),
        b'A'..=b'Z' => Some(Kind(byte - b'A')),
        _ => None,
    }
}

/// Whether the letter of the kind is among the bytes.
fn has_letter(bytes: &[u8], kind: Kind) -> bool
    ensures { result ≡ list_any (λ b. names (Letters.letter_of b) kind) bytes.now }
{
    bytes.iter().any(|byte| names(letter(*byte), kind))
}

/// The kinds whose letters are among the bytes.
pub fn mask_in(bytes: &[u8]) -> [bool; 26]
    ensures { result ≡ Letters.mask_in bytes.now }
{
    let mut mask = [false; 26];
    for k in 0..KINDS {
        mask[k as usize] = has_letter(bytes, Kind(k));
    }
    mask
}

/// The kind that is named, or none.
pub fn mask_of(named: Option<Kind>) -> [bool; 26]
    ensures { result ≡ Letters.mask_of named }
{
    let mut mask = [false; 26];
    for k in 0..KINDS {
        mask[k as usize] = names(named, Kind(k));
    }
    mask
}
