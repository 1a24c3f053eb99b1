//! Numbers in the lines of a session.
ghost use Rattle.std.specs.Prelude.{◌≡◌, min};
ghost use Rattle.foundation.specs.Numbers.{value_of};
ghost use Rattle.session_model.specs.Numbers.{number_read};

use foundation::are_digits;

// The number that the digits write, or 2^64 where it is greater.
#[tactic(auto, using(foundation::proofs::NumberLemmas::counting))]
fn value_to_limit(digits: &[u8]) -> u128
    ensures { result ≡ min 18446744073709551616 (value_of digits.now) }
{
    let mut value: u128 = 0;
    for digit in digits {
        value = (10 * value + u128::from(digit.saturating_sub(b'0'))).min(
            18_446_744_073_709_551_616,
        );
    }
    value
}

/// The number that a word is: digits alone, with leading zeros allowed, up to 2^64 - 1.
#[tactic(auto, unfolding(session_model::specs::Numbers::number_read))]
pub fn number(word: &[u8]) -> Option<u64>
    ensures { result ≡ number_read word.now }
{
    let value = value_to_limit(word);
    if are_digits(word) && value <= u128::from(u64::MAX) {
        Some(value as u64)
    } else {
        None
    }
}
