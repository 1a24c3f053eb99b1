//! Judges the sections of variants files, in their order.
ghost use Rattle.std.specs.Prelude.{◌≡◌, ◌<◌, ◌≤◌, ◌+◌, IfOk, None, is_err, length, take};
ghost use Rattle.rules_model.specs.Fit.{IsFit};
ghost use Rattle.fen_model.specs.Reading.{fen_of};
ghost use Rattle.variant_ini.specs.OptionValue.{first_named};
ghost use Rattle.variant_model.specs.Entry as section;
ghost use Rattle.variant_rules.specs.Entries.{entries, entries_before, entry_at};
ghost use Rattle.variant_rules.specs.View.{unboxed};

use crate::named::{Entry, NamedEntry};
use crate::variants::Variants;
use crate::{LetteredSections, Resolved, bare_rules, own_fault, rules_fault};
use foundation::Memory;
use rules_model::Rules;
use std::alloc::Global;
use variant_fen::read_fen;
use variant_ini::Sections;
use variant_model::SectionFault;

/// The place of the first section of a name among those above a place.
fn first_named(sections: &Sections, place: usize, name: &[u8]) -> Option<usize>
    requires { place ≤ length sections.now }
    ensures { result ≡ first_named (take place sections.now) name.now }
{
    let first = sections.place_of(name)?;
    if first < place { Some(first) } else { None }
}

fn fault_where(is_faulty: bool, fault: SectionFault) -> Option<SectionFault>
    ensures { result ≡ section.fault_where is_faulty fault }
{
    if is_faulty { Some(fault) } else { None }
}

/// Whether a section above is refused.
fn is_refused(above: &[NamedEntry], place: usize) -> bool
    requires { place < length above.now }
    ensures { result ≡ is_err (entry_at above.now place) }
{
    let named = &above[place];
    named.entry().is_err()
}

/// The fault of the parent that a section names.
fn parent_fault(sections: &Sections, above: &[NamedEntry], place: usize) -> Option<SectionFault>
    requires place { place < length sections.now }
    requires above { above.now ≡ entries_before sections.now place }
    ensures { result ≡ section.parent_fault sections.now place (section.is_refused sections.now) }
{
    sections.parent(place)?;
    match sections.parent_place(place) {
        None => Some(SectionFault::UnknownParent),
        Some(parent) => fault_where(is_refused(above, parent), SectionFault::RefusedParent),
    }
}

/// The fault of a section's name or of its parent.
fn header_fault(sections: &Sections, above: &[NamedEntry], place: usize) -> Option<SectionFault>
    requires place { place < length sections.now }
    requires above { above.now ≡ entries_before sections.now place }
    ensures { result ≡ section.header_fault sections.now place (section.is_refused sections.now) }
{
    if first_named(sections, place, sections.name(place)).is_some() {
        return Some(SectionFault::DuplicateName);
    }
    parent_fault(sections, above, place)
}

/// The rules with the start that a text says in them.
fn started(alloc: Global, rules: Rules, text: &[u8]) -> Result<Entry, Memory>
    requires { IsFit rules }
    ensures { IfOk result (λ entry. unboxed entry ≡ section.started_by rules (fen_of rules text.now)) }
{
    let mut rules = Box::new(alloc, rules)?;
    match read_fen(&rules, text) {
        Ok(start) => {
            rules.start = start;
            Ok(Ok(rules))
        }
        Err(fault) => Ok(Err(SectionFault::BadStart(fault))),
    }
}

/// The entry of a section whose name and parent have no fault.
fn headed_entry(
    alloc: Global,
    sections: &LetteredSections<'_>,
    place: usize,
) -> Result<Entry, Memory>
    requires place { place < length sections.now }
    requires headed { section.header_fault sections.now place (section.is_refused sections.now) ≡ None }
    ensures { IfOk result (λ entry. unboxed entry ≡ section.entry sections.now place) }
{
    if let Some(fault) = own_fault(alloc, sections.sections(), place)? {
        return Ok(Err(fault));
    }
    let section = Resolved::new(sections, place);
    let rules = bare_rules(alloc, &section)?;
    if let Some(fault) = rules_fault(alloc, &section, &rules)? {
        return Ok(Err(fault));
    }
    started(alloc, rules, section.start_text())
}

/// The entry of a section, by those above it.
fn entry_of(
    alloc: Global,
    sections: &LetteredSections<'_>,
    above: &[NamedEntry],
    place: usize,
) -> Result<Entry, Memory>
    requires place { place < length sections.now }
    requires above { above.now ≡ entries_before sections.now place }
    ensures { IfOk result (λ entry. unboxed entry ≡ section.entry sections.now place) }
{
    match header_fault(sections.sections(), above, place) {
        Some(fault) => Ok(Err(fault)),
        None => headed_entry(alloc, sections, place),
    }
}

/// Judges each section, in their order. A section that is refused leaves the others as they are.
pub fn load(alloc: Global, sections: &Sections) -> Result<Variants, Memory>
    ensures { IfOk result (λ variants. variants ≡ entries sections.now) }
{
    let lettered = LetteredSections::new(alloc, sections)?;
    let mut made = Vec::with_capacity(alloc, sections.len())?;
    for place in 0..sections.len() {
        let entry = entry_of(alloc, &lettered, made.as_slice(), place)?;
        made.push(NamedEntry::new(alloc, sections.name(place), entry)?)?;
    }
    Ok(Variants::new(made))
}
