//! Reads the lines of a variants file into sections.

ghost use Rattle.std.specs.Prelude.{◌≡◌, ◌≤◌, None, length, MatchResult};
ghost use Rattle.std.specs.Option.{option_copied};
ghost use Rattle.variant_ini.specs.LineKind.{header, pair, line_kind};
ghost use Rattle.variant_ini.specs.Reading.{kind_fault, numbered_fault, fault_of, sections_in, IsFaultOrMemory};
ghost use Rattle.variant_ini.specs.Steps.{TakesLine};

use crate::fault::IniFault;
use crate::line::{Header, Line, Pair, read_line};
use crate::section::IndexedSection;
use foundation::cut_at;
use std::alloc::Global;

const LARGEST_FILE: usize = 1_048_576;

/// The most bytes of a line of a variants file.
pub const LONGEST_LINE: usize = 1_024;

const MOST_SECTIONS: usize = 512;

fn open_section(
    alloc: Global,
    sections: &mut Vec<IndexedSection>,
    number: usize,
    names: Header<'_>,
) -> Result<(), IniFault>
    ensures { let kind = header names.entry.name.now (option_copied names.entry.parent) in
        TakesLine (kind_fault number (length sections.old.items) kind) kind
        sections.old.items sections.new.items result }
{
    if sections.len() >= MOST_SECTIONS {
        return Err(IniFault::TooManySections(number));
    }
    sections.push(IndexedSection::new(alloc, names.name, names.parent)?)?;
    Ok(())
}

fn push_pair(
    alloc: Global,
    sections: &mut Vec<IndexedSection>,
    number: usize,
    words: Pair<'_>,
) -> Result<(), IniFault>
    ensures { let kind = pair words.entry.key.now words.entry.value.now in
        TakesLine (kind_fault number (length sections.old.items) kind) kind
        sections.old.items sections.new.items result }
{
    if sections.is_empty() {
        return Err(IniFault::NoSection(number));
    }
    let last = sections.len() - 1;
    let section = &mut sections[last];
    section.push(alloc, words.key, words.value)?;
    Ok(())
}

fn take_line(
    alloc: Global,
    sections: &mut Vec<IndexedSection>,
    number: usize,
    line: &[u8],
) -> Result<(), IniFault>
    ensures { TakesLine (numbered_fault number (length sections.old.items) line.now)
        (line_kind line.now) sections.old.items sections.new.items result }
{
    if line.len() > LONGEST_LINE {
        return Err(IniFault::LineTooLong(number));
    }
    match read_line(line) {
        Line::Comment => Ok(()),
        Line::Foreign => Err(IniFault::NotAscii(number)),
        Line::Header(header) => open_section(alloc, sections, number, header),
        Line::Pair(pair) => push_pair(alloc, sections, number, pair),
        Line::Bad => Err(IniFault::BadLine(number)),
    }
}

/// The sections of a variants file, or its first fault.
pub(crate) fn read_sections(alloc: Global, bytes: &[u8]) -> Result<Vec<IndexedSection>, IniFault>
    ensures { MatchResult result (λ sections. (fault_of bytes.now ≡ None) × (sections.items ≡ sections_in bytes.now))
        (IsFaultOrMemory (fault_of bytes.now)) }
{
    if bytes.len() > LARGEST_FILE {
        return Err(IniFault::TooLarge);
    }
    let mut sections = Vec::new(alloc);
    let mut number: usize = 0;
    let mut rest = Some(bytes);
    while let Some(text) = rest {
        let (line, behind) = cut_at(text, b'\n');
        number += 1;
        take_line(alloc, &mut sections, number, line)?;
        rest = behind;
    }
    Ok(sections)
}
