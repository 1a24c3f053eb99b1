//! What values say.
ghost use Rattle.std.specs.Prelude.{◌≡◌, ◌+◌, ◌<◌, ℕ, IfOk, IfSome, List, Option, map};
ghost use Rattle.std.specs.List.{list_all, list_any};
ghost use Rattle.std.specs.Option.{option_map};
ghost use Rattle.variant_options.specs.Options as Options;
ghost use Rattle.variant_options.specs.Readings as Readings;
ghost use Rattle.variant_options.specs.Words as Words;

use crate::letters::{letter, mask_in};
use crate::value::{Area, Listed};
use foundation::number_within;
use rules_model::{FILES, Kind, Region, Value};
use std::alloc::{AllocError, Global};

/// How many squares the largest board has.
pub const SQUARES: u8 = 120;

pub const ALL_SQUARES: Region = Region {
    squares: [true; 120],
};

/// `true` or `false`.
pub fn read_flag(text: &[u8]) -> Option<bool>
    ensures { result ≡ Readings.read_flag text.now }
{
    match text {
        b"true" => Some(true),
        b"false" => Some(false),
        _ => None,
    }
}

/// 0, or a number from 2 to 100.
pub fn read_fold(text: &[u8]) -> Option<u16>
    ensures { result ≡ Readings.read_fold text.now }
{
    number_within(0, 0, text).or(number_within(2, 100, text))
}

/// A letter from a to l.
fn file_of_letter(byte: u8) -> Option<u8>
    ensures is { result ≡ Readings.file_of_letter byte }
    ensures below { IfSome result (λ file. file < 12) }
{
    let Kind(file) = letter(byte)?;
    (file < FILES).then_some(file)
}

/// A letter from a to l or a number from 1 to 12, as the file counted from 0.
pub fn read_file(text: &[u8]) -> Option<u8>
    ensures is { result ≡ Readings.read_file text.now }
    ensures below { IfSome result (λ file. file < 12) }
{
    if let [byte] = text
        && let Some(file) = file_of_letter(*byte)
    {
        return Some(file);
    }
    let number = number_within(1, u16::from(FILES), text)?;
    Some(number as u8 - 1)
}

/// `win`, `loss` or `draw`.
pub fn read_result(text: &[u8]) -> Option<Value>
    ensures { result ≡ Readings.read_result text.now }
{
    match text {
        b"win" => Some(Value::Win),
        b"loss" => Some(Value::Loss),
        b"draw" => Some(Value::Draw),
        _ => None,
    }
}

/// One of these, or `none`.
pub fn read_result_or_none(text: &[u8]) -> Option<Option<Value>>
    ensures { result ≡ Readings.read_result_or_none text.now }
{
    match text {
        b"none" => Some(None),
        _ => Some(Some(read_result(text)?)),
    }
}

/// One letter, or `-`.
pub fn read_letter(text: &[u8]) -> Option<Option<Kind>>
    ensures { result ≡ Readings.read_letter text.now }
{
    match text {
        [b'-'] => Some(None),
        [byte] => Some(Some(letter(*byte)?)),
        _ => None,
    }
}

fn is_hyphen(text: &[u8]) -> bool
    ensures { result ≡ Words.is_hyphen text.now }
{
    matches!(text, [b'-'])
}

fn is_letter_or_space(byte: u8) -> bool
    ensures { result ≡ Readings.is_letter_or_space byte }
{
    matches!(byte, b'a'..=b'z' | b'A'..=b'Z' | b' ')
}

fn has_letters_and_spaces(text: &[u8]) -> bool
    ensures { result ≡ list_all Readings.is_letter_or_space text.now }
{
    text.iter().all(|byte| is_letter_or_space(*byte))
}

/// Letters with or without spaces, or `-`.
pub fn read_letters(text: &[u8]) -> Option<[bool; 26]>
    ensures { result ≡ Readings.read_letters text.now }
{
    if is_hyphen(text) {
        Some(mask_in(&[]))
    } else if !text.is_empty() && has_letters_and_spaces(text) {
        Some(mask_in(text))
    } else {
        None
    }
}

/// Letters, or `*`.
pub fn read_letters_or_all(text: &[u8]) -> Option<Listed>
    ensures { result ≡ Readings.read_letters_or_all text.now }
{
    if matches!(text, [b'*']) {
        return Some(Listed::All);
    }
    Some(Listed::Only(read_letters(text)?))
}

/// The words of a value, which runs of spaces separate.
fn words(alloc: Global, text: &[u8]) -> Result<Vec<&[u8]>, AllocError>
    ensures { IfOk result (λ words. map (λ word. word.now) words.items ≡ Words.words_of text.now) }
{
    text.split(|byte| *byte == b' ')
        .filter(|word| !word.is_empty())
        .collect(alloc)
}

/// `p:g`.
fn pair(word: &[u8]) -> Option<(Kind, Kind)>
    ensures { result ≡ Readings.pair_of_kinds word.now }
{
    match word {
        [left, b':', right] => Some((letter(*left)?, letter(*right)?)),
        _ => None,
    }
}

/// What a word says of a value that lists words.
trait ReadWord: Sized {
    ghost said: { List ℕ → Option Self };

    /// What a word says, where it has the form.
    fn read_word(word: &[u8]) -> Option<Self>
        ensures { result ≡ said word.now };
}

impl ReadWord for (Kind, Kind) {
    ghost said = { Readings.pair_of_kinds };

    fn read_word(word: &[u8]) -> Option<(Kind, Kind)> {
        pair(word)
    }
}

impl ReadWord for Area {
    ghost said = { Readings.area_of };

    fn read_word(word: &[u8]) -> Option<Area> {
        area(word)
    }
}

/// What each word says, or `-`.
fn read_listed<T: ReadWord + Drop>(alloc: Global, text: &[u8]) -> Result<Option<Vec<T>>, AllocError>
    ensures { IfOk result (λ found. option_map (λ v. v.items) found ≡ Words.listed T.said text.now) }
{
    let mut found = Vec::new(alloc);
    if is_hyphen(text) {
        return Ok(Some(found));
    }
    let words = words(alloc, text)?;
    for word in &words {
        match T::read_word(word) {
            Some(one) => found.push(one)?,
            None => return Ok(None),
        }
    }
    Ok(if found.is_empty() { None } else { Some(found) })
}

/// Pairs, or `-`.
pub fn read_pairs(alloc: Global, text: &[u8]) -> Result<Option<Vec<(Kind, Kind)>>, AllocError>
    ensures { IfOk result (λ pairs. option_map (λ v. v.items) pairs ≡ Readings.read_pairs text.now) }
{
    read_listed(alloc, text)
}

/// A square as `d4`, or a rank as `*8`.
fn area(word: &[u8]) -> Option<Area>
    ensures { result ≡ Readings.area_of word.now }
{
    let (first, digits) = word.split_first()?;
    let rank = number_within(1, 10, digits)? as u8 - 1;
    if *first == b'*' {
        return Some(Area::Rank(rank));
    }
    Some(Area::Square(FILES * rank + file_of_letter(*first)?))
}

fn covers(area: Area, square: u8) -> bool
    ensures { result ≡ Readings.covers area square }
{
    match area {
        Area::Square(at) => square == at,
        Area::Rank(rank) => square / FILES == rank,
    }
}

fn is_covered(areas: &[Area], square: u8) -> bool
    ensures { result ≡ list_any (λ area. Readings.covers area square) areas.now }
{
    areas.iter().any(|area| covers(*area, square))
}

/// The squares that some area covers.
pub fn region_of(areas: &[Area]) -> Region
    ensures { result ≡ Readings.region_of areas.now }
{
    let mut squares = [false; 120];
    for s in 0..SQUARES {
        squares[s as usize] = is_covered(areas, s);
    }
    Region { squares }
}

/// The squares of a rank, counted from 0.
pub fn rank_alone(rank: u8) -> Region
    requires { rank < 10 }
    ensures { result ≡ Options.rank_alone (rank + 1) }
{
    region_of(&[Area::Rank(rank)])
}

/// Squares and ranks, or `-`.
pub fn read_region(alloc: Global, text: &[u8]) -> Result<Option<Region>, AllocError>
    ensures { IfOk result (λ region. region ≡ Readings.read_region text.now) }
{
    let areas: Option<Vec<Area>> = read_listed(alloc, text)?;
    Ok(areas.map(|areas| region_of(areas.as_slice())))
}
