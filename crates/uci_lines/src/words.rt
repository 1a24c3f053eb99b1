//! The words of a line.
ghost use Rattle.std.specs.Prelude.{◌≡◌, ◌∷◌, ◌++◌, IfOk, OnOk};
ghost use Rattle.std.specs.List.{filter, join_with_byte};
ghost use Rattle.std.specs.Option.{option_copied};
ghost use Rattle.foundation.specs.Cuts.{is_blank, parts_after};
ghost use Rattle.game_text.specs.Playing.{is_word};
ghost use Rattle.session_model.specs.UciWords as UciWords;
ghost use Rattle.session_model.specs.UciWords.{words_before, words_behind};
ghost use Rattle.std.specs.Str.{bytes_eq};
ghost use Rattle.std.specs.Option.{option_map};
ghost use Rattle.uci_lines.specs.View.{texts};

use foundation::{Memory, Text, cut_word};
use std::alloc::Global;

/// The words of a text, which spaces and tabs separate. No text has none.
pub fn words_in<'a>(alloc: Global, text: Option<&'a [u8]>) -> Result<Vec<&'a [u8]>, Memory>
    ensures { IfOk result (λ words. texts words.items
        ≡ filter is_word (parts_after is_blank (option_copied text.entry))) }
{
    let mut words = Vec::new(alloc);
    let mut left = text;
    while let Some(rest) = left {
        let (word, after) = cut_word(rest);
        if !word.is_empty() {
            words.push(word)?;
        }
        left = after;
    }
    Ok(words)
}

fn append_word(text: &mut Text, byte: u8, word: &[u8]) -> Result<(), Memory>
    ensures { OnOk result (text.new ≡ text.old ++ byte ∷ word.now) }
{
    text.items.push(byte)?;
    text.items.extend_from_slice(word)?;
    Ok(())
}

// Appends the byte and a word for each.
fn append_others(items: Vec<u8>, byte: u8, words: &[&[u8]]) -> Result<Text, Memory>
    ensures { IfOk result (λ text. text ≡ join_with_byte byte (items.items ∷ texts words.now)) }
{
    let mut text = Text { items };
    for word in words {
        append_word(&mut text, byte, word)?;
    }
    Ok(text)
}

/// The words, with this byte between them.
pub fn joined_by(alloc: Global, byte: u8, words: &[&[u8]]) -> Result<Text, Memory>
    ensures { IfOk result (λ text. text ≡ join_with_byte byte (texts words.now)) }
{
    let mut items = Vec::new(alloc);
    let Some((first, others)) = words.split_first() else {
        return Ok(Text { items });
    };
    items.extend_from_slice(first)?;
    append_others(items, byte, others)
}

/// The words, joined by single blanks.
pub fn joined(alloc: Global, words: &[&[u8]]) -> Result<Text, Memory>
    ensures { IfOk result (λ text. text ≡ UciWords.joined (texts words.now)) }
{
    joined_by(alloc, b' ', words)
}

// Whether a word is this text.
pub(crate) fn is_text(word: &[u8], text: &[u8]) -> bool
    ensures { result ≡ bytes_eq word.now text.now }
{
    word == text
}

// The words before the first of this word, or all.
pub(crate) fn before<'b, 'a>(words: &'b [&'a [u8]], word: &[u8]) -> &'b [&'a [u8]]
    ensures { texts result.now ≡ words_before word.now (texts words.now) }
{
    for place in 0..words.len() {
        if is_text(words[place], word) {
            return &words[..place];
        }
    }
    words
}

// The words after the first of this word, where it is there.
pub(crate) fn behind<'b, 'a>(words: &'b [&'a [u8]], word: &[u8]) -> Option<&'b [&'a [u8]]>
    ensures { option_map (λ ws. texts ws.now) result ≡ words_behind word.now (texts words.now) }
{
    for place in 0..words.len() {
        if is_text(words[place], word) {
            return Some(&words[place + 1..]);
        }
    }
    None
}
