//! Finds the parent of each section once, when the section is added.

ghost use Rattle.std.specs.Prelude.{◌≡◌, ◌+◌, ◌<◌, ◌++◌, length, IfOk};
ghost use Rattle.variant_ini.specs.FirstPlaces.{FindsFirst};
ghost use Rattle.variant_ini.specs.OptionValue.{parent_place};
ghost use Rattle.variant_ini.specs.Parents.{HasParentsFrom};

use crate::names::{Names, first_above};
use crate::section::IndexedSection;
use std::alloc::{AllocError, Global};

fn parent_place(
    kept: &[IndexedSection],
    new: &[IndexedSection],
    names: &Names,
    place: usize,
) -> Option<usize>
    requires names { FindsFirst names.now (kept.now ++ new.now) }
    requires place { place < length new.now }
    ensures { result ≡ parent_place (kept.now ++ new.now) (length kept.now + place) }
{
    let section = &new[place];
    first_above(names, section.parent()?, kept.len() + place)
}

/// The places of the parents of new sections, which are to stand behind those that are kept.
pub(crate) fn parent_places(
    alloc: Global,
    kept: &[IndexedSection],
    new: &[IndexedSection],
    names: &Names,
) -> Result<Vec<Option<usize>>, AllocError>
    requires { FindsFirst names.now (kept.now ++ new.now) }
    ensures { IfOk result (λ places. HasParentsFrom (length kept.now) (kept.now ++ new.now) places.items) }
{
    let mut places = Vec::with_capacity(alloc, new.len())?;
    for place in 0..new.len() {
        places.push(parent_place(kept, new, names, place))?;
    }
    Ok(places)
}
