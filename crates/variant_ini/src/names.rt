//! Finds sections by their names.

ghost use Rattle.std.specs.Prelude.{◌≡◌, ◌<◌, ◌^◌, ◌∷◌, ◌++◌, [], List, length, take, IfOk, OnOk};
ghost use Rattle.variant_ini.specs.FirstPlaces.{FindsFirst};
ghost use Rattle.variant_ini.specs.OptionValue.{first_named};
ghost use Rattle.variant_ini.specs.Section.{Section};

use crate::section::IndexedSection;
use std::alloc::{AllocError, Global};
use std::collections::BTreeMap;

/// The place of the first section of each name.
pub(crate) type Names = BTreeMap<Vec<u8>, usize>;

/// Adds the name of the section at the place, unless a section before it has the name.
fn add_name(
    alloc: Global,
    names: &mut Names,
    place: usize,
    section: &IndexedSection,
) -> Result<(), AllocError>
    ensures { (before : List Section) → length before ≡ place → FindsFirst names.old before
        → OnOk result (FindsFirst names.new (before ++ section.now ∷ [])) }
{
    if let Some(_first) = names.get(section.name()) {
        return Ok(());
    }
    let name = Vec::from_slice(alloc, section.name())?;
    names.insert(name, place)?;
    Ok(())
}

/// Adds the names of the sections, the first of which is at the place.
fn add_names(
    alloc: Global,
    names: &mut Names,
    place: usize,
    sections: &[IndexedSection],
) -> Result<(), AllocError>
    requires small { place < 2 ^ 63 }
    ensures { (before : List Section) → length before ≡ place → FindsFirst names.old before
        → OnOk result (FindsFirst names.new (before ++ sections.now)) }
{
    for (i, section) in sections.iter().enumerate() {
        add_name(alloc, names, place + i, section)?;
    }
    Ok(())
}

/// The names of sections that are kept and of new ones after them.
pub(crate) fn names_of(
    alloc: Global,
    kept: &[IndexedSection],
    new: &[IndexedSection],
) -> Result<Names, AllocError>
    ensures { IfOk result (λ names. FindsFirst names (kept.now ++ new.now)) }
{
    let mut names = BTreeMap::new(alloc);
    add_names(alloc, &mut names, 0, kept)?;
    add_names(alloc, &mut names, kept.len(), new)?;
    Ok(names)
}

/// The place of the first section of a name above a place.
pub(crate) fn first_above(names: &Names, name: &[u8], place: usize) -> Option<usize>
    ensures { (sections : List Section) → FindsFirst names.now sections
        → result ≡ first_named (take place sections) name.now }
{
    let first = *names.get(name)?;
    if first < place { Some(first) } else { None }
}
