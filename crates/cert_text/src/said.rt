//! The lines of a text, one by one.
ghost use Rattle.std.specs.Prelude.{◌≡◌};
ghost use Rattle.std.specs.Option.{option_map};
ghost use Rattle.cert_text.specs.Said as Said;
ghost use Rattle.cert_text.specs.View.{said_view};

use foundation::{cut_at, number_within};

/// The most that a line 1 says: half the greatest ply that a search looks at.
const MOST_MOVES: u16 = 6;

/// What a line after the first one says.
#[derive(Clone, Copy)]
pub(crate) enum SaidText<'a> {
    /// The ply of a step, and the text of its move.
    Step { ply: u16, chosen: &'a [u8] },
    End,
}

fn is_title_word(word: &[u8]) -> bool
    ensures { result ≡ Said.is_title_word word.now }
{
    word == b"selfmate".as_slice() || word == b"helpmate".as_slice()
}

/// Whether the text is `selfmate K` or `helpmate K`, K from 0 to 6.
#[tactic(auto, unfolding(crate::specs::Said::is_title))]
pub(crate) fn is_title(text: &[u8]) -> bool
    ensures { result ≡ Said.is_title text.now }
{
    let (word, number) = cut_at(text, b' ');
    match number {
        Some(number) => is_title_word(word) && number_within(0, MOST_MOVES, number).is_some(),
        None => false,
    }
}

/// Reads a line after the first one, where it has a form.
#[tactic(auto, unfolding(crate::specs::Said::said))]
pub(crate) fn read_said(text: &[u8]) -> Option<SaidText<'_>>
    ensures { option_map said_view result ≡ Said.said text.now }
{
    let (word, chosen) = cut_at(text, b' ');
    match chosen {
        None if word == b"end".as_slice() => Some(SaidText::End),
        None => None,
        Some(chosen) => {
            let ply = number_within(0, u16::MAX, word)?;
            Some(SaidText::Step { ply, chosen })
        }
    }
}
