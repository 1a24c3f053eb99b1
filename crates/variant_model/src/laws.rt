//! What is known of the entries of sections, for all sections. Each law is the contract of a call that does nothing.
ghost use Rattle.std.specs.Prelude.{◌≡◌, ◌≤◌, ℕ, List, [], ◌∷◌, Some, None, Ok, Err, All, length, true, false};
ghost use Rattle.std.specs.Io.BufRead.{ends_with_byte};
ghost use Rattle.rules_model.specs.declared.rules.Rules.{Rules};
ghost use Rattle.variant_ini.specs.FileLines.{AreFileLines, IsFileLine};
ghost use Rattle.variant_ini.specs.Section.{Section, last_value};
ghost use Rattle.variant_ini.specs.OptionValue.{parent_place};
ghost use Rattle.variant_model.specs.declared.fault.SectionFault.{SectionFault};
ghost use Rattle.variant_model.specs.Entry.{accepted, entry, first_fault, is_refused};
ghost use Rattle.variant_model.specs.Made.{resolved};
ghost use Rattle.variant_model.specs.PieceLetters.{letter_in, own_lines, parent_letter, piece_letter, unless_given};
ghost use Rattle.variant_options.specs.declared.keys.TheConstants.{KEYS};
ghost use Rattle.variant_model.specs.Told.{line_of, told, told_section};

/// The letter of a piece is that of the section's own last line for it, else the one in its parent, unless the section
/// gives that letter to a piece: no chain of parents is cut off.
pub fn letters_are_inherited()
    ensures own { (sections : List Section) (place : ℕ) (piece value : List ℕ)
        → last_value (own_lines sections place) piece ≡ Some value
        → piece_letter sections place piece ≡ letter_in value }
    ensures inherited { (sections : List Section) (place : ℕ) (piece : List ℕ)
        → last_value (own_lines sections place) piece ≡ None
        → piece_letter sections place piece
        ≡ unless_given (own_lines sections place) (parent_letter sections place piece) }
{}

/// A section has its first fault; where it has none, it has the rules that its options make, or the fault of their
/// start.
pub fn first_faults_refuse()
    ensures faulty { (sections : List Section) (place : ℕ) (fault : SectionFault)
        → first_fault sections place (is_refused sections) ≡ Some fault → entry sections place ≡ Err fault }
    ensures faultless { (sections : List Section) (place : ℕ)
        → first_fault sections place (is_refused sections) ≡ None
        → entry sections place ≡ accepted (resolved sections place) }
{}

/// A section that has no parent, and the lines that an accepted section tells, has the rules of that section. It has
/// at least one line, and at most as many as there are keys.
pub fn told_sections_have_the_same_rules()
    ensures same { (sections : List Section) (place : ℕ) (name : List ℕ) (rules : Rules)
        → entry sections place ≡ Ok rules → entry (told_section name sections place ∷ []) 0 ≡ Ok rules }
    ensures some { (sections : List Section) (place : ℕ) (rules : Rules) → entry sections place ≡ Ok rules
        → 1 ≤ length (told sections place) }
    ensures few { (sections : List Section) (place : ℕ) → length (told sections place) ≤ KEYS }
{}

/// The lines that a section tells are lines of files where those of all sections are: no value has blanks at its ends,
/// a line feed or a byte above 127, and each has fewer than 1,024 bytes with its key.
pub fn told_lines_are_lines_of_files()
    ensures { (sections : List Section) (place : ℕ) → AreFileLines sections
        → All (λ pair. IsFileLine (line_of pair)) (told sections place) }
{}

/// No value that an accepted section tells ends in a carriage return, the byte 13.
pub fn told_values_end_in_no_return()
    ensures { (sections : List Section) (place : ℕ) (rules : Rules) → entry sections place ≡ Ok rules
        → All (λ pair. ends_with_byte 13 pair.1 ≡ false) (told sections place) }
{}

/// A section whose parent is refused is refused.
pub fn refusals_are_inherited()
    ensures { (sections : List Section) (place parent : ℕ) → parent_place sections place ≡ Some parent
        → is_refused sections parent ≡ true → is_refused sections place ≡ true }
{}
