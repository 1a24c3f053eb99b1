//! The sections of variants files, one file after another.

ghost use Rattle.std.specs.Prelude.{◌≡◌, ◌<◌, ◌++◌, ◌∷◌, ℕ, List, None, [], length, IfErr, IfOk, IfSome, OnOk, OnErr};
ghost use Rattle.std.specs.Option.{option_copied};
ghost use Rattle.variant_ini.specs.Section.{last_value, section_at};
ghost use Rattle.variant_ini.specs.FileLines.{AreFileLines};
ghost use Rattle.variant_ini.specs.Lone.{lone_section};
ghost use Rattle.variant_ini.specs.Reading.{fault_of, sections_in, IsFaultOrMemory};
ghost use Rattle.variant_ini.specs.FirstPlaces.{FindsFirst};
ghost use Rattle.variant_ini.specs.OptionValue.{first_named, option_value, parent_place};
ghost use Rattle.variant_ini.specs.Parents.{HasParents};

use crate::class::class_of;
use crate::fault::IniFault;
use crate::key_line::KeyLine;
use crate::names::{Names, names_of};
use crate::parents::parent_places;
use crate::reading::read_sections;
use crate::section::IndexedSection;
use foundation::Memory;
use std::alloc::{AllocError, Global};
use std::collections::BTreeMap;
use std::marker::Model;

/// Sections in the order in which their files have them. A contract sees the list of the sections, each with its name,
/// its parent's name where it has one, and its lines.
#[derive(Drop)]
pub struct Sections {
    sections: Vec<IndexedSection>,
    parent_places: Vec<Option<usize>>,
    names: Names,
}

impl Model for Sections {
    ghost use Rattle.std.specs.Prelude.{List};
    ghost use Rattle.variant_ini.specs.Section.{Section};
    ghost use Rattle.variant_ini.specs.FirstPlaces.{FindsFirst};
    ghost use Rattle.variant_ini.specs.Parents.{HasParents};

    ghost Value = { List Section };

    ghost view = { λ s. s.sections.items };

    ghost invariant = { λ s. HasParents s.sections.items s.parent_places.items × FindsFirst s.names s.sections.items };
}

// What can fail is done before anything grows.
fn append_file(
    sections: &mut Vec<IndexedSection>,
    places: &mut Vec<Option<usize>>,
    names: &mut Names,
    bytes: &[u8],
) -> Result<(), IniFault>
    requires parents { HasParents sections.old.items places.old.items }
    requires names { FindsFirst names.old sections.old.items }
    ensures parents { HasParents sections.new.items places.new.items }
    ensures names { FindsFirst names.new sections.new.items }
    ensures added { OnOk result (sections.new.items ≡ sections.old.items ++ sections_in bytes.now) }
    ensures accepted { OnOk result (fault_of bytes.now ≡ None) }
    ensures fault { IfErr result (IsFaultOrMemory (fault_of bytes.now)) }
    ensures err { OnErr result (sections.new.items ≡ sections.old.items) }
{
    let alloc = *sections.allocator();
    let mut read = read_sections(alloc, bytes)?;
    let all = names_of(alloc, sections.as_slice(), read.as_slice())?;
    let mut found = parent_places(alloc, sections.as_slice(), read.as_slice(), &all)?;
    places.reserve(found.len())?;
    sections.append(&mut read)?;
    places.append(&mut found).unwrap();
    *names = all;
    Ok(())
}

// A section without a parent, with these lines.
fn section_with(alloc: Global, name: &[u8], lines: &[KeyLine]) -> Result<IndexedSection, AllocError>
    ensures { IfOk result (λ section. section ≡ lone_section name.now lines.now) }
{
    let mut section = IndexedSection::new(alloc, name, None)?;
    for line in lines {
        let key = &line.key;
        let value = &line.value;
        section.push(alloc, key.items.as_slice(), value.items.as_slice())?;
    }
    Ok(section)
}

impl Sections {
    /// No sections. Takes no memory.
    #[tactic(auto, unfolding(crate::specs::OptionValue::first_named))]
    pub fn new(alloc: Global) -> Sections
        ensures { result ≡ [] }
    {
        Sections {
            sections: Vec::new(alloc),
            parent_places: Vec::new(alloc),
            names: BTreeMap::new(alloc),
        }
    }

    /// One section, of this name, without a parent and with these lines.
    pub fn of_one(alloc: Global, name: &[u8], lines: &[KeyLine]) -> Result<Sections, Memory>
        ensures { IfOk result (λ sections. sections ≡ lone_section name.now lines.now ∷ []) }
    {
        let mut sections = Vec::new(alloc);
        sections.push(section_with(alloc, name, lines)?)?;
        let mut parent_places = Vec::new(alloc);
        parent_places.push(None)?;
        let names = names_of(alloc, sections.as_slice(), &[])?;
        Ok(Sections {
            sections,
            parent_places,
            names,
        })
    }

    /// Adds the sections of a variants file behind those that are there.
    ///
    /// A file has at most 1,048,576 bytes, 1,024 bytes a line and 512 sections. The answer to any other is its first
    /// fault: its size, and then the first faulty line, whose length is tested before its bytes, and its bytes before
    /// what it says. After an error the sections are what they were.
    pub fn add(&mut self, bytes: &[u8]) -> Result<(), IniFault>
        ensures added { OnOk result (self.new ≡ self.old ++ sections_in bytes.now) }
        ensures accepted { OnOk result (fault_of bytes.now ≡ None) }
        ensures lines { AreFileLines self.old → OnOk result (AreFileLines self.new) }
        ensures fault { IfErr result (IsFaultOrMemory (fault_of bytes.now)) }
        ensures err { OnErr result (self.new ≡ self.old) }

        // No section's options change.
        ensures kept { (section : ℕ) (key : List ℕ) → section < length self.old
            → option_value self.new section key ≡ option_value self.old section key }
    {
        append_file(
            &mut self.sections,
            &mut self.parent_places,
            &mut self.names,
            bytes,
        )
    }

    /// How many sections there are.
    pub fn len(&self) -> usize
        ensures { result ≡ length self.now }
    {
        self.sections.len()
    }

    /// The name of a section, 1 to 64 printable bytes.
    pub fn name(&self, section: usize) -> &[u8]
        requires { section < length self.now }
        ensures { result.now ≡ (section_at self.now section).name }
    {
        let section = &self.sections[section];
        section.name()
    }

    /// The place of the first section of a name. Takes no memory, and time that grows with the logarithm of the names.
    pub fn place_of(&self, name: &[u8]) -> Option<usize>
        ensures { result ≡ first_named self.now name.now }
    {
        Some(*self.names.get(name)?)
    }

    /// The name of a section's parent, where it has one. Whether there is such a section is not said.
    pub fn parent(&self, section: usize) -> Option<&[u8]>
        requires { section < length self.now }
        ensures { option_copied result ≡ (section_at self.now section).parent }
    {
        let section = &self.sections[section];
        section.parent()
    }

    /// The place of a section's parent: the first section above it that has its parent's name. None where it names no
    /// parent, and where no section above has that name. It was found when the section was added.
    pub fn parent_place(&self, section: usize) -> Option<usize>
        requires { section < length self.now }
        ensures is { result ≡ parent_place self.now section }
        ensures above { IfSome result (λ parent. parent < section) }
    {
        self.parent_places[section]
    }

    /// A section's own lines, in their order.
    pub fn lines(&self, section: usize) -> &[KeyLine]
        requires { section < length self.now }
        ensures { result.now ≡ (section_at self.now section).lines }
    {
        let section = &self.sections[section];
        section.lines()
    }

    /// The value of a section's own last line for a key. Takes no memory, and time that grows with the logarithm of its
    /// lines.
    pub fn own_value(&self, section: usize, key: &[u8]) -> Option<&[u8]>
        requires { section < length self.now }
        ensures { option_copied result ≡ last_value (section_at self.now section).lines key.now }
    {
        let section = &self.sections[section];
        section.last_value(key, class_of(key))
    }

    /// The value of a key in a section: that of its own last line for the key, else the value of the key in the first
    /// section above it that has its parent's name, else none. Takes no memory.
    ///
    /// Each section of the chain of parents is asked once. Most that have no line with the key answer at once, by the
    /// class of the key; the others take time that grows with the logarithm of their lines.
    pub fn resolve(&self, section: usize, key: &[u8]) -> Option<&[u8]>
        requires { section < length self.now }
        ensures { option_copied result ≡ option_value self.now section key.now }
    {
        let class = class_of(key);
        let mut next = Some(section);
        while let Some(place) = next {
            let section = &self.sections[place];
            if let Some(value) = section.last_value(key, class) {
                return Some(value);
            }
            next = self.parent_places[place];
        }
        None
    }
}
