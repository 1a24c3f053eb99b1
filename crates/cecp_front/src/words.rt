//! The first word of a line, and the numbers of others.
ghost use Rattle.std.specs.Prelude.{◌≡◌, ◌∷◌, [], MatchOption};
ghost use Rattle.std.specs.List.{filter};
ghost use Rattle.std.specs.Option.{option_copied};
ghost use Rattle.foundation.specs.Cuts.{is_blank, parts_after};
ghost use Rattle.game_text.specs.Playing.{is_word, words_of};
ghost use Rattle.session_model.specs.CecpLines as CecpLines;
ghost use Rattle.session_model.specs.Numbers.{number_read};
ghost use Rattle.session_model.specs.UciWords as UciWords;
ghost use Rattle.uci_lines.specs.View.{texts};

use foundation::{cut_at, cut_word};
use uci_lines::number;

/// The first word of a text, and the text after it, where the text goes on. Spaces and tabs separate words.
pub(crate) fn find_word(text: &[u8]) -> Option<(&[u8], Option<&[u8]>)>
    ensures { MatchOption result (words_of text.now ≡ [])
        (λ found. words_of text.now ≡ found.0.now ∷ filter is_word (parts_after is_blank (option_copied found.1))) }
{
    let mut left = Some(text);
    while let Some(rest) = left {
        let (word, after) = cut_word(rest);
        if !word.is_empty() {
            return Some((word, after));
        }
        left = after;
    }
    None
}

// The first of the words, or an empty one.
pub(crate) fn first_word<'a>(words: &[&'a [u8]]) -> &'a [u8]
    ensures { result.now ≡ UciWords.first_word (texts words.now) }
{
    match words {
        [first, ..] => first,
        [] => b"",
    }
}

/// The number that the first of the words is.
pub(crate) fn first_number(words: &[&[u8]]) -> Option<u64>
    ensures { result ≡ number_read (UciWords.first_word (texts words.now)) }
{
    number(first_word(words))
}

/// Whether the word is minutes, or minutes and seconds with a colon between.
pub(crate) fn is_base(word: &[u8]) -> bool
    ensures { result ≡ CecpLines.is_base word.now }
{
    let (minutes, after) = cut_at(word, b':');
    let Some(rest) = after else {
        return number(minutes).is_some();
    };
    let (seconds, more) = cut_at(rest, b':');
    if more.is_some() {
        return false;
    }
    number(minutes).is_some() && number(seconds).is_some()
}
