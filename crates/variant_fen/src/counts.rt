//! The side to move, and the checks left.
ghost use Rattle.std.specs.Prelude.{◌≡◌};
ghost use Rattle.fen_model.specs.Counts as Counts;

use crate::number::read_number;
use fen_model::FenFault;
use foundation::cut_at;
use rules_model::Side;

#[tactic(auto, unfolding(fen_model::specs::Counts::side_of))]
pub(crate) fn read_side(text: &[u8]) -> Result<Side, FenFault>
    ensures { result ≡ Counts.side_of text.now }
{
    match text {
        [b'w'] => Ok(Side::White),
        [b'b'] => Ok(Side::Black),
        _ => Err(FenFault::Side),
    }
}

/// The checks that two numbers say, where both are up to 99.
fn checks(white: Option<u16>, black: Option<u16>) -> Result<[u8; 2], FenFault>
    ensures { result ≡ Counts.two_checks white black }
{
    match (white, black) {
        (Some(white), Some(black)) if white <= 99 && black <= 99 => Ok([white as u8, black as u8]),
        _ => Err(FenFault::Checks),
    }
}

/// Reads how many checks White and then Black has still to give: two numbers up to 99 with a `+` between them.
pub(crate) fn read_checks(text: &[u8]) -> Result<[u8; 2], FenFault>
    ensures { result ≡ Counts.checks_of text.now }
{
    let (white, rest) = cut_at(text, b'+');
    let Some(rest) = rest else {
        return Err(FenFault::Checks);
    };
    let (black, rest) = cut_at(rest, b'+');
    if rest.is_some() {
        return Err(FenFault::Checks);
    }
    checks(read_number(white), read_number(black))
}
