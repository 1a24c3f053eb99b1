//! The sections of variants: those that are built in, and those of the file of variants.
ghost use Rattle.std.specs.Prelude.{◌≡◌, IsNone};
ghost use Rattle.io_ports.specs.Trace.{Reads};
ghost use Rattle.variant_rules.specs.Looked.{Looked};
ghost use Rattle.one_shots.specs.OpeningView.{HasSections};
ghost use Rattle.words.specs.View.{text_in};

use io_ports::Files;
use one_shot_checks::NoAnswer;
use std::alloc::Global;
use variant_ini::Sections;
use variant_rules::{builtin, read_sections};

/// The sections that are built in, and after them those of the file of variants of this name, where one is named. Where
/// none is, no file is read.
///
/// # Errors
///
/// Why the file of variants is refused; or there was no memory.
pub fn sections_with<F: Files>(
    alloc: Global,
    files: &mut F,
    name: Option<&str>,
) -> Result<Sections, NoAnswer<'static>>
    ensures has { Looked (Reads F.contents F.faults files.old files.new)
        (λ reads. HasSections (text_in name.entry) reads result) }
    ensures unnamed { IsNone (text_in name.entry) → files.new ≡ files.old }
{
    match name {
        None => Ok(builtin(alloc)?),
        Some(name) => Ok(read_sections(alloc, files, name.as_bytes())?),
    }
}
