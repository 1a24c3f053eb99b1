//! A section of a variants file, as the reader fills it.

ghost use Rattle.std.specs.Prelude.{◌≡◌, ◌<◌, ◌∷◌, ◌++◌, [], IfOk, OnOk, OnErr};
ghost use Rattle.std.specs.Option.{option_copied};
ghost use Rattle.variant_ini.specs.Classes.{class_of};
ghost use Rattle.variant_ini.specs.LastPlaces.{FindsLast};
ghost use Rattle.variant_ini.specs.Section.{key_line, last_value};

use crate::class::{CLASSES, class_of};
use crate::key_line::KeyLine;
use foundation::Text;
use std::alloc::{AllocError, Global};
use std::collections::BTreeMap;
use std::marker::Model;

/// A section, with the place of the last line of each of its keys, and a mark for each class of keys that its lines
/// have.
#[derive(Drop)]
pub(crate) struct IndexedSection {
    name: Text,
    parent: Option<Text>,
    lines: Vec<KeyLine>,
    last_places: BTreeMap<Vec<u8>, usize>,
    marks: [bool; CLASSES],
}

impl Model for IndexedSection {
    ghost use Rattle.variant_ini.specs.Section.{Section};
    ghost use Rattle.variant_ini.specs.Classes.{MarksClasses};
    ghost use Rattle.variant_ini.specs.LastPlaces.{FindsLast};

    ghost Value = { Section };

    ghost view = { λ s. record { name = s.name; parent = s.parent; lines = s.lines.items } };

    ghost invariant = { λ s. FindsLast s.last_places s.lines.items × MarksClasses s.marks s.lines.items };
}

fn line_of(alloc: Global, key: &[u8], value: &[u8]) -> Result<KeyLine, AllocError>
    ensures { IfOk result (λ line. line ≡ key_line key.now value.now) }
{
    Ok(KeyLine {
        key: Text {
            items: Vec::from_slice(alloc, key)?,
        },
        value: Text {
            items: Vec::from_slice(alloc, value)?,
        },
    })
}

// Room is made first, so that the line is added to both or to none.
fn push_line(
    alloc: Global,
    lines: &mut Vec<KeyLine>,
    last_places: &mut BTreeMap<Vec<u8>, usize>,
    key: &[u8],
    value: &[u8],
) -> Result<(), AllocError>
    requires { FindsLast last_places.old lines.old.items }
    ensures ok { OnOk result (lines.new.items ≡ lines.old.items ++ key_line key.now value.now ∷ []) }
    ensures err { OnErr result (lines.new.items ≡ lines.old.items) }
    ensures finds { FindsLast last_places.new lines.new.items }
{
    let line = line_of(alloc, key, value)?;
    let index_key = Vec::from_slice(alloc, key)?;
    lines.reserve(1)?;
    let place = lines.len();
    last_places.insert(index_key, place)?;
    lines.push(line).unwrap();
    Ok(())
}

impl IndexedSection {
    /// A section without lines.
    pub(crate) fn new(
        alloc: Global,
        name: &[u8],
        parent: Option<&[u8]>,
    ) -> Result<IndexedSection, AllocError>
        ensures { IfOk result (λ s. s ≡ record { name = name.now; parent = option_copied parent.entry; lines = [] }) }
    {
        let name = Text {
            items: Vec::from_slice(alloc, name)?,
        };
        let parent = match parent {
            Some(parent) => Some(Text {
                items: Vec::from_slice(alloc, parent)?,
            }),
            None => None,
        };
        Ok(IndexedSection {
            name,
            parent,
            lines: Vec::new(alloc),
            last_places: BTreeMap::new(alloc),
            marks: [false; CLASSES],
        })
    }

    pub(crate) fn name(&self) -> &[u8]
        ensures { result.now ≡ self.now.name }
    {
        self.name.items.as_slice()
    }

    pub(crate) fn parent(&self) -> Option<&[u8]>
        ensures { option_copied result ≡ self.now.parent }
    {
        match &self.parent {
            Some(parent) => Some(parent.items.as_slice()),
            None => None,
        }
    }

    pub(crate) fn lines(&self) -> &[KeyLine]
        ensures { result.now ≡ self.now.lines }
    {
        self.lines.as_slice()
    }

    /// The value of the last line with this key, whose class is given.
    pub(crate) fn last_value(&self, key: &[u8], class: usize) -> Option<&[u8]>
        requires class { class ≡ class_of key.now }
        requires below { class < 1024 }
        ensures { option_copied result ≡ last_value self.now.lines key.now }
    {
        if !self.marks[class] {
            return None;
        }
        let place = *self.last_places.get(key)?;
        let line = &self.lines[place];
        let value = &line.value;
        Some(value.items.as_slice())
    }

    /// Adds a line at the end.
    pub(crate) fn push(&mut self, alloc: Global, key: &[u8], value: &[u8]) -> Result<(), AllocError>
        ensures ok { OnOk result (self.new
            ≡ record self.old { lines = self.old.lines ++ key_line key.now value.now ∷ [] }) }
        ensures err { OnErr result (self.new ≡ self.old) }
    {
        self.marks[class_of(key)] = true;
        push_line(alloc, &mut self.lines, &mut self.last_places, key, value)
    }
}
