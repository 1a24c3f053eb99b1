//! The lines of the header.
ghost use Rattle.std.specs.Prelude.{◌≡◌};
ghost use Rattle.std.specs.Option.{option_map};
ghost use Rattle.strategy.specs.Said.{attacker_said, count_said};
ghost use Rattle.foundation.specs.Numbers.{capped};

use foundation::{cut_at, read_number};
use rules_model::Side;

/// Reads `attacker white` or `attacker black`.
#[tactic(auto, unfolding(crate::specs::Said::attacker_said))]
pub(crate) fn read_attacker(text: &[u8]) -> Option<Side>
    ensures { result ≡ attacker_said text.now }
{
    if text == b"attacker white".as_slice() {
        Some(Side::White)
    } else if text == b"attacker black".as_slice() {
        Some(Side::Black)
    } else {
        None
    }
}

/// Reads `nodes N`.
#[tactic(auto, unfolding(crate::specs::Said::count_said))]
pub(crate) fn read_count(text: &[u8]) -> Option<u64>
    ensures { result ≡ option_map capped (count_said text.now) }
{
    let (word, number) = cut_at(text, b' ');
    let number = number?;
    if word == b"nodes".as_slice() {
        read_number(number)
    } else {
        None
    }
}
