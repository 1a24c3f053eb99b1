//! What follows the two squares of a move.
ghost use Rattle.std.specs.Prelude.{◌≡◌};
ghost use Rattle.move_text.specs.Read as Read;

use rules_model::kinds::{names, promoted_of};
use rules_model::{Kind, Promo, Rules};

/// What a piece becomes, and the kind that is gated.
#[derive(Clone, Copy)]
pub(crate) struct Ending {
    pub promo: Promo,
    pub gate: Option<Kind>,
}

/// The kind of a lower-case letter.
pub(crate) fn named_kind(byte: u8) -> Option<Kind>
    ensures { result ≡ Read.named_kind byte }
{
    match byte {
        b'a'..=b'z' => Some(Kind(byte - b'a')),
        _ => None,
    }
}

/// Nothing, or the letter of a gated kind.
pub(crate) fn gate_ending(promo: Promo, text: &[u8]) -> Option<Ending>
    ensures { result ≡ Read.gate_ending promo text.now }
{
    match text {
        [] => Some(Ending { promo, gate: None }),
        [letter] => {
            let gate = named_kind(*letter)?;
            Some(Ending {
                promo,
                gate: Some(gate),
            })
        }
        _ => None,
    }
}

/// Nothing, a promoted letter, or a promoted letter and a gated one.
fn pawn_ending(text: &[u8]) -> Option<Ending>
    ensures { result ≡ Read.pawn_ending text.now }
{
    match text.split_first() {
        None => gate_ending(Promo::Stays, text),
        Some((letter, gate)) => gate_ending(Promo::Pawn(named_kind(*letter)?), gate),
    }
}

/// `+` where the kind has a promoted kind, or nothing, and then a gated letter or nothing.
fn piece_ending(rules: &Rules, kind: Kind, text: &[u8]) -> Option<Ending>
    ensures { result ≡ Read.piece_ending rules.now kind text.now }
{
    match text.split_first() {
        Some((b'+', gate)) => {
            promoted_of(rules, kind)?;
            gate_ending(Promo::Plus, gate)
        }
        _ => gate_ending(Promo::Stays, text),
    }
}

/// What follows the squares of a move of the kind.
pub(crate) fn kind_ending(rules: &Rules, kind: Kind, text: &[u8]) -> Option<Ending>
    ensures { result ≡ Read.kind_ending rules.now kind text.now }
{
    if names(rules.pawn, kind) {
        pawn_ending(text)
    } else {
        piece_ending(rules, kind, text)
    }
}
