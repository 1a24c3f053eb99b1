//! Numbers up to 10,000.
ghost use Rattle.std.specs.Prelude.{◌≡◌, min};
ghost use Rattle.std.specs.Option.{option_map};
ghost use Rattle.foundation.specs.Numbers as Numbers;
ghost use Rattle.fen_model.specs.Counts.{count_of};

use fen_model::FenFault;

/// Numbers from here on count as this one: no number of a text may be as great.
const MOST: u64 = 10_000;

/// The number that the digits write, or 10,000 where it is greater.
pub(crate) fn value(digits: &[u8]) -> u16
    ensures { result ≡ min 10000 (Numbers.value_of digits.now) }
{
    foundation::value(digits).min(MOST) as u16
}

/// The number that a text writes, or 10,000 where it is greater.
pub(crate) fn read_number(text: &[u8]) -> Option<u16>
    ensures { result ≡ option_map (min 10000) (Numbers.number_of text.now) }
{
    let number = foundation::read_number(text)?;
    Some(number.min(MOST) as u16)
}

/// Reads a number up to 9,999.
#[tactic(auto, unfolding(fen_model::specs::Counts::count_of))]
pub(crate) fn read_count(text: &[u8]) -> Result<u16, FenFault>
    ensures { result ≡ count_of text.now }
{
    match read_number(text) {
        Some(n) if n < 10_000 => Ok(n),
        _ => Err(FenFault::Counter),
    }
}
