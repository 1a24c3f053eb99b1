//! The words of a command, from one text.
ghost use Rattle.std.specs.Prelude.{◌≡◌, ◌==◌, IfOk, map, string_bytes};
ghost use Rattle.std.specs.List.{slice_split};
ghost use Rattle.referee.specs.Refereed.{words_of};

use std::alloc::{AllocError, Global};

// The lines of a text, which a line feed ends.
fn lines_in<'t>(alloc: Global, text: &'t str) -> Result<Vec<&'t str>, AllocError>
    ensures { IfOk result (λ lines. map (λ line. line.now) lines.items ≡ slice_split (λ byte. byte == 10) text.now) }
{
    text.split('\n').collect(alloc)
}

// A text of its own for each word.
fn owned_words(alloc: Global, words: &[&str]) -> Result<Vec<String>, AllocError>
    ensures { IfOk result (λ owned. map string_bytes owned.items ≡ map (λ word. word.now) words.now) }
{
    let mut owned = Vec::with_capacity(alloc, words.len())?;
    for i in 0..words.len() {
        owned.push(String::from_str(alloc, words[i])?)?;
    }
    Ok(owned)
}

/// The words of a text, in which each line is a word. Bytes that are no UTF-8 are replaced, as `from_utf8_lossy` does.
pub(crate) fn word_list(alloc: Global, text: &[u8]) -> Result<Vec<String>, AllocError>
    ensures { IfOk result (λ words. map string_bytes words.items ≡ words_of text.now) }
{
    let text = String::from_utf8_lossy(alloc, text)?;
    let lines = lines_in(alloc, text.as_str())?;
    owned_words(alloc, lines.as_slice())
}
