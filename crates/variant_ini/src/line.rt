//! What one line of a variants file says.

ghost use Rattle.std.specs.Prelude.{◌≡◌, nat_le, None, option_map};
ghost use Rattle.std.specs.Option.{option_copied};
ghost use Rattle.std.specs.List.{list_all, list_any};
ghost use Rattle.variant_ini.specs.LineKind.{is_comment, is_name_byte, is_name, bracketed, header_of, pair_of, kind_from, text_kind, line_kind};
ghost use Rattle.variant_ini.specs.LineView.{header_view, pair_view, line_view};

use crate::cuts::trim;
use foundation::cut_at;

const LONGEST_NAME: usize = 64;

/// A section's name, and its parent's where it names one.
#[derive(Clone, Copy)]
pub struct Header<'a> {
    pub name: &'a [u8],
    pub parent: Option<&'a [u8]>,
}

/// A key and its value, as a line has them.
#[derive(Clone, Copy)]
pub struct Pair<'a> {
    pub key: &'a [u8],
    pub value: &'a [u8],
}

/// What a line says.
#[derive(Clone, Copy)]
pub enum Line<'a> {
    Comment,
    /// A byte above 127 stands outside a comment.
    Foreign,
    Header(Header<'a>),
    Pair(Pair<'a>),
    Bad,
}

fn is_comment(text: &[u8]) -> bool
    ensures { result ≡ is_comment text.now }
{
    match text {
        [] => true,
        [first, ..] => *first == b'#' || *first == b';',
    }
}

fn has_foreign_byte(text: &[u8]) -> bool
    ensures { result ≡ list_any (nat_le 128) text.now }
{
    text.iter().any(|byte| *byte >= 128)
}

fn is_name_byte(byte: u8) -> bool
    ensures { result ≡ is_name_byte byte }
{
    byte.is_ascii_graphic() && !matches!(byte, b'[' | b']' | b'(' | b')' | b'{' | b'}' | b':')
}

fn has_name_bytes(bytes: &[u8]) -> bool
    ensures { result ≡ list_all is_name_byte bytes.now }
{
    bytes.iter().all(|byte| is_name_byte(*byte))
}

fn is_name(bytes: &[u8]) -> bool
    ensures { result ≡ is_name bytes.now }
{
    !bytes.is_empty() && bytes.len() <= LONGEST_NAME && has_name_bytes(bytes)
}

fn bracketed(text: &[u8]) -> Option<&[u8]>
    ensures { option_copied result ≡ bracketed text.now }
{
    match text {
        [b'[', inside @ .., b']'] => Some(inside),
        _ => None,
    }
}

#[tactic(auto, unfolding(crate::specs::LineKind::header_of))]
fn header_of(text: &[u8]) -> Option<Header<'_>>
    ensures { option_map header_view result ≡ header_of text.now }
{
    let inside = bracketed(text)?;
    let (name, parent) = cut_at(inside, b':');
    if is_name(name) && parent.is_none_or(is_name) {
        Some(Header { name, parent })
    } else {
        None
    }
}

/// Reads `key = value`: the text is cut at its first `=`, blanks at the ends of both parts are left out, and the key is
/// not empty.
#[tactic(auto, unfolding(crate::specs::LineKind::pair_of))]
pub fn pair_of(text: &[u8]) -> Option<Pair<'_>>
    ensures { option_map pair_view result ≡ pair_of text.now }
{
    let (before, behind) = cut_at(text, b'=');
    let value = trim(behind?);
    let key = trim(before);
    if key.is_empty() {
        return None;
    }
    Some(Pair { key, value })
}

fn pair_line(text: &[u8]) -> Line<'_>
    ensures { line_view result ≡ kind_from None (pair_of text.now) }
{
    match pair_of(text) {
        Some(pair) => Line::Pair(pair),
        None => Line::Bad,
    }
}

fn content_of(text: &[u8]) -> Line<'_>
    ensures { line_view result ≡ kind_from (header_of text.now) (pair_of text.now) }
{
    match header_of(text) {
        Some(header) => Line::Header(header),
        None => pair_line(text),
    }
}

#[tactic(auto, unfolding(crate::specs::LineKind::text_kind))]
fn kind_of(text: &[u8]) -> Line<'_>
    ensures { line_view result ≡ text_kind text.now }
{
    if is_comment(text) {
        Line::Comment
    } else if has_foreign_byte(text) {
        Line::Foreign
    } else {
        content_of(text)
    }
}

/// What a line says, its line feed left out.
#[tactic(auto, unfolding(crate::specs::LineKind::line_kind))]
pub fn read_line(line: &[u8]) -> Line<'_>
    ensures { line_view result ≡ line_kind line.now }
{
    let text = match line {
        [before @ .., b'\r'] => before,
        _ => line,
    };
    kind_of(trim(text))
}
