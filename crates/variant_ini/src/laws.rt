//! Laws on the definitions that the contracts cite.

ghost use Rattle.std.specs.Prelude.{◌≡◌, ◌<◌, ℕ, List, ◌++◌, None, length, option_and_then};
ghost use Rattle.variant_ini.specs.Section.{Section, section_at, last_value};
ghost use Rattle.variant_ini.specs.FileLines.{AreFileLines};
ghost use Rattle.variant_ini.specs.OptionValue.{own_or, parent_place, option_value};
ghost use Rattle.variant_ini.specs.Reading.{fault_of, sections_in};

/// The value of an option is that of the section's own last line for it, else its value in the section's parent, else
/// none: no chain of parents is cut off.
pub fn options_are_inherited()
    ensures { (sections : List Section) (section : ℕ) (key : List ℕ)
        → option_value sections section key
        ≡ own_or (last_value (section_at sections section).lines key)
        (option_and_then (λ parent. option_value sections parent key) (parent_place sections section)) }
{}

/// No section's options change where later sections are added.
pub fn later_sections_change_no_option()
    ensures { (sections later : List Section) (section : ℕ) (key : List ℕ) → section < length sections
        → option_value (sections ++ later) section key ≡ option_value sections section key }
{}

/// Of the sections of a file without a fault, each value has no blanks at its ends, no line feed and no byte above 127,
/// and has fewer than 1,024 bytes with its key.
pub fn files_give_lines()
    ensures { (bytes : List ℕ) → fault_of bytes ≡ None → AreFileLines (sections_in bytes) }
{}
