//! The sections of variants: those that are built in, and those of a file.
ghost use Rattle.std.specs.Prelude.{◌≡◌, ◌∷◌, [], ℕ, List, IfOk};
ghost use Rattle.io_ports.specs.Files.{Bytes};
ghost use Rattle.io_ports.specs.Trace.{Reads};
ghost use Rattle.variant_rules.specs.Looked.{HasFile, HasSections, Looked};
ghost use Rattle.variant_rules.specs.declared.fault.NoSections.TheVariants as no_sections;
ghost use Rattle.variant_rules.specs.declared.fault.LoadFault.TheVariants as load_fault;

use crate::builtin;
use crate::fault::{FileFault, LoadFault, NoSections};
use foundation::Text;
use io_ports::{Files, Given, MAX_FILE};
use std::alloc::Global;
use variant_ini::Sections;

fn unread(why: FileFault) -> NoSections
    ensures { result ≡ no_sections.Fault (load_fault.File why) }
{
    NoSections::Fault(LoadFault::File(why))
}

// The bytes of a file, where they are not too many. Files that do not tell what they have may give too many.
fn within_limit(bytes: Vec<u8>) -> Result<Text, NoSections>
    ensures { (name : List ℕ) → HasFile name (record { name = name; found = Bytes bytes.items } ∷ []) result }
{
    if bytes.len() <= MAX_FILE {
        Ok(Text { items: bytes })
    } else {
        Err(unread(FileFault::TooLarge))
    }
}

// The bytes of the file of this name.
fn read_file<F: Files>(alloc: Global, files: &mut F, name: &[u8]) -> Result<Text, NoSections>
    ensures { Looked (Reads F.contents F.faults files.old files.new) (λ reads. HasFile name.now reads result) }
{
    let mut bytes = Vec::new(alloc);
    match files.read(name, &mut bytes) {
        Given::Bytes => within_limit(bytes),
        Given::TooLarge => Err(unread(FileFault::TooLarge)),
        Given::Missing => Err(unread(FileFault::Missing)),
        Given::Failed => Err(unread(FileFault::Failed)),
        Given::Memory => Err(NoSections::Memory),
    }
}

/// The sections that are built in, and after them those of the file of this name.
///
/// # Errors
///
/// Why the file was not read, or the first fault of its text; or `Memory`.
pub fn read_sections<F: Files>(
    alloc: Global,
    files: &mut F,
    name: &[u8],
) -> Result<Sections, NoSections>
    ensures { Looked (Reads F.contents F.faults files.old files.new) (λ reads. HasSections name.now reads result) }
{
    let bytes = read_file(alloc, files, name)?;
    let mut sections = builtin(alloc)?;
    sections.add(bytes.items.as_slice())?;
    Ok(sections)
}
