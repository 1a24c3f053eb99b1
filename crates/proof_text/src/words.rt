//! Reads the lines of the head.
ghost use Rattle.std.specs.Prelude.{◌≡◌, ◌≤◌, IfSome};
ghost use Rattle.std.specs.Option.{option_copied};
ghost use Rattle.game_play.specs.declared.game.TheConstants.{MOST_PLIES};
ghost use Rattle.game_text.specs.Goal.{after_words};
ghost use Rattle.proof_text.specs.Reading.{version_said};
ghost use Rattle.proof_text.specs.Words as Words;

use foundation::number_within;
use game_play::MOST_PLIES;
use game_text::{Goal, read_goal_after};

/// What stands after these words, where the text begins with them.
fn after_words<'a>(words: &[u8], text: &'a [u8]) -> Option<&'a [u8]>
    ensures { option_copied result ≡ after_words words.now text.now }
{
    text.strip_prefix(words)
}

/// These words and a number of a range.
fn read_number_after(words: &[u8], low: u16, high: u16, text: &[u8]) -> Option<u16>
    ensures said { result ≡ Words.number_said words.now low high text.now }
    ensures within { IfSome result (λ n. n ≤ high) }
{
    number_within(low, high, after_words(words, text)?)
}

/// Whether the text is `strategy 2`.
pub fn is_version(text: &[u8]) -> bool
    ensures { result ≡ Words.is_version text.now }
{
    text == b"strategy 2".as_slice()
}

/// Reads `strategy 2`.
pub(crate) fn read_version(text: &[u8]) -> Option<()>
    ensures { result ≡ version_said text.now }
{
    is_version(text).then_some(())
}

/// Reads `rules K`, K from 1 to 512.
#[tactic(auto, unfolding(crate::specs::Words::rules_said))]
pub(crate) fn read_rules(text: &[u8]) -> Option<u16>
    ensures said { result ≡ Words.rules_said text.now }
    ensures within { IfSome result (λ count. count ≤ 512) }
{
    read_number_after(b"rules ", 1, 512, text)
}

/// Reads `start FEN`: the FEN.
#[tactic(auto, unfolding(crate::specs::Words::start_said))]
pub(crate) fn read_start(text: &[u8]) -> Option<&[u8]>
    ensures { option_copied result ≡ Words.start_said text.now }
{
    after_words(b"start ", text)
}

/// Reads `history N`, N up to 8,192.
#[tactic(auto, unfolding(crate::specs::Words::history_said))]
pub(crate) fn read_history(text: &[u8]) -> Option<u16>
    ensures said { result ≡ Words.history_said text.now }
    ensures within { IfSome result (λ count. count ≤ MOST_PLIES) }
{
    read_number_after(b"history ", 0, MOST_PLIES as u16, text)
}

/// Reads `goal white N` or `goal black N`, N from 1 to 100.
#[tactic(auto, unfolding(crate::specs::Words::goal_said))]
pub(crate) fn read_goal(text: &[u8]) -> Option<Goal>
    ensures { result ≡ Words.goal_said text.now }
{
    read_goal_after(b"goal white ", b"goal black ", text)
}
