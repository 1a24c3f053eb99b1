//! Reads the words of a run.
ghost use Rattle.std.specs.Prelude.{◌≡◌, ◌<◌, ◌≤◌, ◌^◌, IfOk, IfSome, length, map, option_map, string_bytes, true};
ghost use Rattle.std.specs.List.{list_all, list_any};
ghost use Rattle.clap.specs.Words.{app_of, kind_of};
ghost use Rattle.words.specs.Asked.{are_sound, asked, asked_after, asked_by, is_sound, threads_in};
ghost use Rattle.words.specs.Options.{has_no_dash, is_stray, is_value};
ghost use Rattle.words.specs.Reader.{reader};
ghost use Rattle.words.specs.View.{HasPlies, asked_seen, text_in, texts};

use crate::command::{Command, command_in, flag_in};
use crate::number::number_in;
use crate::reader::reader;
use clap::error::ErrorKind;
use foundation::Memory;
use std::alloc::Global;

const MOST_THREADS: u64 = 64;

/// What the words of a run ask.
#[derive(Clone, Copy, PartialEq, Eq)]
pub struct Asked<'a> {
    /// The name of the file of variants.
    pub variants: Option<&'a str>,
    /// How many threads may work, from 1 to 64.
    pub threads: u64,
    pub command: Command<'a>,
}

fn has_no_dash(text: &str) -> bool
    ensures { result ≡ has_no_dash text.now }
{
    !text.as_bytes().starts_with(b"-")
}

// Whether a word begins with a dash and names no option: `-`, `--` or `-x`.
fn is_stray(word: &str) -> bool
    ensures { result ≡ is_stray word.now }
{
    !has_no_dash(word) && !(word.len() > 2 && word.as_bytes().starts_with(b"--"))
}

// `clap` would take such a word for a value, a mark or short options.
fn has_stray(words: &[String]) -> bool
    ensures stray { result ≡ list_any is_stray (map string_bytes words.now) }
    ensures fits { length words.now < 2 ^ 64 }
{
    let _count = words.len();
    words.iter().any(|word| is_stray(word.as_str()))
}

// Whether an option's value, where it is given, is not empty and does not begin with a dash.
fn is_sound(value: Option<&str>) -> bool
    ensures { result ≡ is_sound (text_in value.entry) }
{
    match value {
        Some(text) => !text.is_empty() && has_no_dash(text),
        None => true,
    }
}

fn all_without_dash(words: &[&str]) -> bool
    ensures { result ≡ list_all has_no_dash (texts words.now) }
{
    words.iter().all(|word| has_no_dash(word))
}

fn threads_in(text: Option<&str>) -> Option<u64>
    ensures is { result ≡ threads_in (text_in text.entry) }
    ensures least { IfSome result (λ threads. 1 ≤ threads) }
    ensures most { IfSome result (λ threads. threads ≤ 64) }
{
    match text {
        Some(text) => number_in(1, MOST_THREADS, text),
        None => Some(1),
    }
}

// What options of these values and the words after them ask.
fn asked_by<'a>(
    variants: Option<&'a str>,
    threads: Option<&str>,
    words: &[&'a str],
) -> Option<Asked<'a>>
    ensures is { option_map asked_seen result
        ≡ asked_by (text_in variants.entry) (text_in threads.entry) (texts words.now) }
    ensures least { IfSome result (λ a. 1 ≤ a.threads) }
    ensures most { IfSome result (λ a. a.threads ≤ 64) }
    ensures plies { IfSome result (λ a. HasPlies a.command) }
{
    if is_sound(variants) && is_sound(threads) && all_without_dash(words) {
        let threads = threads_in(threads)?;
        let command = command_in(words)?;
        Some(Asked {
            variants,
            threads,
            command,
        })
    } else {
        None
    }
}

// What options and the words after them ask.
fn read_options<'a>(alloc: Global, words: &'a [String]) -> Result<Option<Asked<'a>>, Memory>
    ensures is { IfOk result (λ given. option_map asked_seen given ≡ asked_after (map string_bytes words.now)) }
    ensures least { IfOk result (λ given. IfSome given (λ a. 1 ≤ a.threads)) }
    ensures most { IfOk result (λ given. IfSome given (λ a. a.threads ≤ 64)) }
    ensures plies { IfOk result (λ given. IfSome given (λ a. HasPlies a.command)) }
{
    if has_stray(words) {
        return Ok(None);
    }
    match reader(alloc)?.try_get_matches_from(words) {
        Ok(matches) => Ok(asked_by(
            matches.get_str("variants"),
            matches.get_str("threads"),
            matches.get_strs("words").unwrap_or(&[]),
        )),
        Err(error) => match error.kind() {
            ErrorKind::OutOfMemory => Err(Memory),
            _ => Ok(None),
        },
    }
}

/// What the words of a run ask, the program's name left out. None exactly where they are not of the command set.
pub fn read_words<'a>(alloc: Global, words: &'a [String]) -> Result<Option<Asked<'a>>, Memory>
    ensures is { IfOk result (λ given. option_map asked_seen given ≡ asked (map string_bytes words.now)) }
    ensures least { IfOk result (λ given. IfSome given (λ a. 1 ≤ a.threads)) }
    ensures most { IfOk result (λ given. IfSome given (λ a. a.threads ≤ 64)) }
    ensures plies { IfOk result (λ given. IfSome given (λ a. HasPlies a.command)) }
{
    match flag_in(words) {
        Some(command) => Ok(Some(Asked {
            variants: None,
            threads: 1,
            command,
        })),
        None => read_options(alloc, words),
    }
}
