//! Numbers of command words.
ghost use Rattle.std.specs.Prelude.{◌≡◌, ◌≤◌, ◌<◌, ◌^◌, IfSome, IsNone, length, true};
ghost use Rattle.std.specs.Char.{is_ascii_digit};
ghost use Rattle.std.specs.List.{list_all};
ghost use Rattle.std.specs.Str.{all_ascii_digits};
ghost use Rattle.std.specs.Str.Parse.{digits_value};
ghost use Rattle.words.specs.Number.{number_in};

const MOST_DIGITS: usize = 20;

fn has_digits_alone(text: &[u8]) -> bool
    ensures { result ≡ list_all is_ascii_digit text.now }
{
    text.iter().all(|byte| byte.is_ascii_digit())
}

// The number that digits write, where it is below 2 ^ 64.
fn number_of(digits: &str) -> Option<u64>
    requires digits { all_ascii_digits digits.now ≡ true }
    requires some { 0 < length digits.now }
    ensures some { IfSome result (λ number. number ≡ digits_value 10 digits.now) }
    ensures none { IsNone result → 2 ^ 64 ≤ digits_value 10 digits.now }
{
    digits.parse::<u64>().ok()
}

/// The number that a text writes, from `least` to `most`: decimal digits alone, at most 20 of them. Zeros may lead.
#[tactic(auto, using(crate::proofs::NumberLemmas::same_digits))]
pub(crate) fn number_in(least: u64, most: u64, text: &str) -> Option<u64>
    ensures is { result ≡ number_in least most text.now }
    ensures least { IfSome result (λ number. least ≤ number) }
    ensures most { IfSome result (λ number. number ≤ most) }
{
    if text.is_empty() || text.len() > MOST_DIGITS || !has_digits_alone(text.as_bytes()) {
        return None;
    }
    let number = number_of(text)?;
    if least <= number && number <= most {
        Some(number)
    } else {
        None
    }
}
