//! The pocket.
ghost use Rattle.std.specs.Prelude.{◌≡◌, ◌≤◌, ◌==◌, ◌&&◌, ◌||◌, count_by, length, min};
ghost use Rattle.std.specs.List.{list_all};
ghost use Rattle.std.specs.Option.{option_copied};
ghost use Rattle.fen_model.specs.Fields as Fields;
ghost use Rattle.fen_model.specs.Pocket as Pocket;
ghost use Rattle.rules_model.specs.Sound as Sound;
ghost use Rattle.variant_fen.specs.Hands.{capped_counts, capped_result};

use fen_model::FenFault;
use rules_model::kinds::{has_kind, names};
use rules_model::{Kind, Rules};

/// The pieces in the hands: for each side, how many of each kind.
type Hands = [[u8; 26]; 2];

/// What stands between the brackets of a pocket. One that is not there is empty.
fn inside(pocket: &[u8]) -> Option<&[u8]>
    ensures { Pocket.inside_of pocket.now ≡ option_copied result }
{
    let Some((first, rest)) = pocket.split_first() else {
        return Some(pocket);
    };
    let (last, inside) = rest.split_last()?;
    if *first == b'[' && *last == b']' {
        Some(inside)
    } else {
        None
    }
}

pub(crate) fn says_none(text: &[u8]) -> bool
    ensures { result ≡ Fields.says_none text.now }
{
    matches!(text, [b'-'])
}

pub(crate) fn has_hands(rules: &Rules) -> bool
    ensures { result ≡ Sound.has_hands rules.now }
{
    rules.drops || rules.to_hand || rules.gating
}

/// Whether the byte is a letter of a kind that hands may hold.
fn is_hand_letter(rules: &Rules, byte: u8) -> bool
    ensures { result ≡ Pocket.is_hand_letter rules.now byte }
{
    let letter = match byte {
        b'A'..=b'Z' => byte - b'A',
        b'a'..=b'z' => byte - b'a',
        _ => return false,
    };
    let kind = Kind(letter);
    has_kind(rules, kind) && !names(rules.king, kind)
}

/// How often the letter stands there, or 255 where it is more often.
fn count(letters: &[u8], letter: u8) -> u8
    ensures { result ≡ min 255 (count_by (λ c. c == letter) letters.now) }
{
    letters
        .iter()
        .filter(|byte| **byte == letter)
        .count()
        .min(255) as u8
}

/// How often each of 26 letters stands there, from this one on.
fn hand(letters: &[u8], first: u8) -> [u8; 26]
    requires { first ≤ 97 }
    ensures { result ≡ capped_counts first letters.now }
{
    let mut hand = [0; 26];
    for kind in 0..26 {
        hand[kind as usize] = count(letters, first + kind);
    }
    hand
}

fn has_hand_letters_alone(rules: &Rules, letters: &[u8]) -> bool
    ensures { result ≡ list_all (Pocket.is_hand_letter rules.now) letters.now }
{
    letters.iter().all(|byte| is_hand_letter(rules, *byte))
}

/// Whether hands may hold the pieces of these letters.
fn may_be_held(rules: &Rules, letters: &[u8]) -> bool
    ensures { result ≡ (Sound.has_hands rules.now && list_all (Pocket.is_hand_letter rules.now) letters.now) }
{
    has_hands(rules) && has_hand_letters_alone(rules, letters)
}

fn holds_nothing(inside: &[u8]) -> bool
    ensures { result ≡ (length inside.now == 0 || Fields.says_none inside.now) }
{
    inside.is_empty() || says_none(inside)
}

/// Reads the hands of a pocket. A number of pieces above 255 counts as 255: no sound position has so many.
pub(crate) fn read_pocket(rules: &Rules, pocket: &[u8]) -> Result<Hands, FenFault>
    ensures { result ≡ capped_result (Pocket.hands_of rules.now pocket.now) }
{
    let Some(letters) = inside(pocket) else {
        return Err(FenFault::Pocket);
    };
    if holds_nothing(letters) {
        return Ok([[0; 26]; 2]);
    }
    if may_be_held(rules, letters) {
        Ok([hand(letters, b'A'), hand(letters, b'a')])
    } else {
        Err(FenFault::Pocket)
    }
}
