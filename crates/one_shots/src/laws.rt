//! What the definition of the program's answers comes to, as laws.
ghost use Rattle.std.specs.Prelude.{◌≡◌, ◌++◌, ◌<◌, ◌≤◌, ℕ, All, List, None, Ok, Some, length, true};
ghost use Rattle.io_ports.specs.Files.{Contents, Read};
ghost use Rattle.io_ports.specs.Lines.{Line};
ghost use Rattle.io_ports.specs.Trace.{faults_in};
ghost use Rattle.rules_model.specs.declared.rules.Rules.{Rules};
ghost use Rattle.variant_ini.specs.FileLines.{AreFileLines};
ghost use Rattle.variant_ini.specs.LineKind.{is_name};
ghost use Rattle.variant_ini.specs.OptionValue.{first_named};
ghost use Rattle.variant_ini.specs.Reading.{fault_of, sections_in};
ghost use Rattle.variant_ini.specs.Section.{Section};
ghost use Rattle.variant_model.specs.Entry.{entry};
ghost use Rattle.variant_rules.specs.Entries.{entries, found};
ghost use Rattle.proof_text.specs.Writing.{section_texts};
ghost use Rattle.variant_rules.specs.declared.fault.FileFault.TheVariants.{Failed};
ghost use Rattle.variant_rules.specs.declared.fault.LoadFault.TheVariants.{File};
ghost use Rattle.one_shot_checks.specs.declared.fault.Fault.TheVariants.{Load};
ghost use Rattle.one_shots.specs.Commands.{IsOneShot};
ghost use Rattle.one_shots.specs.Looked.{TellsReads};
ghost use Rattle.one_shots.specs.RulesTold.{SaysRules, below_header};
ghost use Rattle.one_shots.specs.Sessions.{to_do};
ghost use Rattle.one_shots.specs.Shot.{SaysFault, Shot};
ghost use Rattle.one_shots.specs.Variants.{AreFirstReads};

use proof_text::laws::told_rules_are_read_back;

/// Words of a one-shot command, or of none, have exactly one answer by the input and the reads of the file of variants,
/// where they name one: one status and one text. Where files tell their contents and do not fail, it goes by the
/// contents. Where they fail, the answer says so.
pub fn words_have_one_answer()
    ensures some { (words : List (List ℕ)) (reads : List Read) (input : List Line) → IsOneShot (to_do words)
        → AreFirstReads (to_do words) reads → (status : ℕ) × (text : List ℕ) × Shot words reads input status text }
    ensures once { (words : List (List ℕ)) (reads : List Read) (input : List Line) (s s' : ℕ) (t t' : List ℕ)
        → Shot words reads input s t → Shot words reads input s' t' → (s ≡ s') × (t ≡ t') }
    ensures told { (words : List (List ℕ)) (files : Contents) (reads reads' : List Read) (input : List Line)
        (s s' : ℕ) (t t' : List ℕ) → TellsReads (Some files) reads → TellsReads (Some files) reads'
        → Shot words reads input s t → Shot words reads' input s' t' → (s ≡ s') × (t ≡ t') }
    ensures failing { (words : List (List ℕ)) (reads : List Read) (input : List Line) (status : ℕ) (text : List ℕ)
        → 0 < faults_in reads → Shot words reads input status text → SaysFault (Load (File Failed)) status text }
{}

/// What `rules` prints of a variant of sections of files is, below a header of any name that a header can have, a file
/// of variants without a fault, where no line of it has more than 1,024 bytes. Loaded after sections that do not have
/// its name, the file has the rules of that variant.
pub fn printed_rules_are_read_back()
    ensures faultless { (sections : List Section) (variant name text : List ℕ) → AreFileLines sections
        → SaysRules sections variant 0 text → is_name name ≡ true
        → ((place : ℕ) → first_named sections variant ≡ Some place
        → All (λ line. length line ≤ 1024) (section_texts sections place))
        → fault_of (below_header name text) ≡ None }
    ensures rules { (sections earlier : List Section) (variant name text : List ℕ) (rules : Rules)
        → AreFileLines sections → found (entries sections) variant ≡ Some (Ok rules)
        → SaysRules sections variant 0 text → is_name name ≡ true → first_named earlier name ≡ None
        → entry (earlier ++ sections_in (below_header name text)) (length earlier) ≡ Ok rules }
{
    told_rules_are_read_back();
}
