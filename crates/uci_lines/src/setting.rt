//! What `setoption` sets, and where `position` begins.
ghost use Rattle.std.specs.Prelude.{◌≡◌, IfOk, unwrap_or, []};
ghost use Rattle.std.specs.Option.{option_map};
ghost use Rattle.std.specs.Str.{str_eq_ignore_ascii_case};
ghost use Rattle.session_model.specs.UciLines as UciLines;
ghost use Rattle.session_model.specs.UciLines.{placing_of, setting_of, value_text};
ghost use Rattle.session_model.specs.UciWords.{words_behind};
ghost use Rattle.uci_lines.specs.SettingView.{placing_seen, setting_seen};
ghost use Rattle.uci_lines.specs.View.{texts};

use crate::words::{before, behind, is_text, joined};
use foundation::{Memory, Text};
use session_model::options::{HASH, MATE_FACTS, THREADS, UCI_VARIANT, VARIANT_PATH};
use std::alloc::Global;

/// An option, and its value where one is given.
#[derive(Drop)]
pub enum Setting {
    Threads(Option<Text>),
    Hash(Option<Text>),
    MateFacts(Option<Text>),
    VariantPath(Option<Text>),
    Variant(Option<Text>),
    /// No option has the name.
    Unknown,
}

/// Where a game starts, and the words of its moves.
#[derive(Drop)]
pub enum Placing<'b, 'a> {
    Startpos(&'b [&'a [u8]]),
    Fen(Text, &'b [&'a [u8]]),
    /// The next word is neither `startpos` nor `fen`.
    NoPosition,
}

// No words are no value.
fn value_of(alloc: Global, words: Option<&[&[u8]]>) -> Result<Option<Text>, Memory>
    ensures { IfOk result (λ value. value ≡ value_text (option_map (λ ws. texts ws.now) words.entry)) }
{
    let Some(words) = words else {
        return Ok(None);
    };
    if words.is_empty() {
        Ok(None)
    } else {
        Ok(Some(joined(alloc, words)?))
    }
}

// Whether a name is that of an option, in small letters or capitals.
fn is_option(name: &[u8], option: &[u8]) -> bool
    ensures { result ≡ str_eq_ignore_ascii_case name.now option.now }
{
    name.eq_ignore_ascii_case(option)
}

fn setting_named(name: &[u8], value: Option<Text>) -> Setting
    ensures { setting_seen result ≡ UciLines.setting_named name.now value }
{
    if is_option(name, THREADS) {
        Setting::Threads(value)
    } else if is_option(name, HASH) {
        Setting::Hash(value)
    } else if is_option(name, MATE_FACTS) {
        Setting::MateFacts(value)
    } else if is_option(name, VARIANT_PATH) {
        Setting::VariantPath(value)
    } else if is_option(name, UCI_VARIANT) {
        Setting::Variant(value)
    } else {
        Setting::Unknown
    }
}

// The words after the first of this word, or none.
fn behind_or_none<'b, 'a>(words: &'b [&'a [u8]], word: &[u8]) -> &'b [&'a [u8]]
    ensures { texts result.now ≡ unwrap_or (words_behind word.now (texts words.now)) [] }
{
    behind(words, word).unwrap_or(&words[..0])
}

/// What the words after `setoption` set: the name is what stands between `name` and `value`, in any case, and the value
/// all that follows.
#[tactic(auto, unfolding(session_model::specs::UciLines::setting_of))]
pub fn read_setting(alloc: Global, words: &[&[u8]]) -> Result<Setting, Memory>
    ensures { IfOk result (λ setting. setting_seen setting ≡ setting_of (texts words.now)) }
{
    let said = behind_or_none(words, b"name");
    let name = joined(alloc, before(said, b"value"))?;
    let value = value_of(alloc, behind(said, b"value"))?;
    Ok(setting_named(name.items.as_slice(), value))
}

/// Where the words after `position` place the game.
#[tactic(auto, unfolding(session_model::specs::UciLines::placing_of))]
pub fn read_placing<'b, 'a>(alloc: Global, words: &'b [&'a [u8]]) -> Result<Placing<'b, 'a>, Memory>
    ensures { IfOk result (λ placing. placing_seen placing ≡ placing_of (texts words.now)) }
{
    let Some((first, others)) = words.split_first() else {
        return Ok(Placing::NoPosition);
    };
    let moves = behind_or_none(others, b"moves");
    if is_text(first, b"startpos") {
        Ok(Placing::Startpos(moves))
    } else if is_text(first, b"fen") {
        let fen = joined(alloc, before(others, b"moves"))?;
        Ok(Placing::Fen(fen, moves))
    } else {
        Ok(Placing::NoPosition)
    }
}
