//! What is known of proof texts, and of the lines of their rules. Each law is the contract of a call that does nothing.
ghost use Rattle.std.specs.Prelude.{◌≡◌, ◌<◌, ◌≤◌, ◌^◌, ◌++◌, ◌∷◌, [], ℕ, All, List, length, None, Ok, true};
ghost use Rattle.io_ports.specs.Lines.{lines_of};
ghost use Rattle.rules_model.specs.declared.rules.Rules.{Rules};
ghost use Rattle.variant_ini.specs.FileLines.{AreFileLines};
ghost use Rattle.variant_ini.specs.LineKind.{is_name};
ghost use Rattle.variant_ini.specs.OptionValue.{first_named};
ghost use Rattle.variant_ini.specs.Reading.{fault_of, sections_in};
ghost use Rattle.variant_ini.specs.Section.{Section};
ghost use Rattle.variant_model.specs.Entry.{entry};
ghost use Rattle.variant_model.specs.Told.{told_section};
ghost use Rattle.game_play.specs.Played.{IsPlayed, Played};
ghost use Rattle.strategy.specs.declared.nodes.Strategy.{Strategy};
ghost use Rattle.strategy.specs.Reading.{AreSound};
ghost use Rattle.strategy.specs.Writing.{AreReadable};
ghost use Rattle.proof_text.specs.Reading.{proof_of};
ghost use Rattle.proof_text.specs.Writing.{proof_text, proof_with, section_texts, told_file};

use variant_model::laws::{
    told_lines_are_lines_of_files, told_sections_have_the_same_rules, told_values_end_in_no_return,
};

/// Reading a written proof text gives back the game, the goal and the strategy: of an accepted section among sections
/// of files, a game that was played by its rules, a goal within 1 to 100 moves, and a strategy whose positions are
/// sound and have the number 1, whose ranks are at most 65,535, whose edges lead to its nodes and whose moves are read
/// back as themselves. `Sections::add` and `variant_rules::builtin` give sections of files.
pub fn written_proofs_are_read_back()
    ensures { (sections : List Section) (place : ℕ) (g : Played) (n : ℕ) (s : Strategy)
        → AreFileLines sections → entry sections place ≡ Ok g.rules → IsPlayed g → 1 ≤ n → n ≤ 100
        → AreSound g.rules s.nodes → AreReadable g.rules s.nodes → length s.nodes < 2 ^ 64
        → proof_of (lines_of (proof_text sections place g n s))
        ≡ Ok (proof_with g n s) }
{
    told_sections_have_the_same_rules();
    told_lines_are_lines_of_files();
    told_values_end_in_no_return();
}

/// A variants file of one header and the lines that an accepted section among sections of files tells has no fault,
/// and one section: without a parent, of the name in the header, and with those lines. Loaded after sections that do
/// not have its name, it has the rules of the section that told it. The name is one that a header can have. For
/// `faultless` no line has more than the 1,024 bytes that a line of a variants file may have: `key = value` has two
/// bytes more than `key=value`.
pub fn told_rules_are_read_back()
    ensures faultless { (sections : List Section) (place : ℕ) (name : List ℕ) (rules : Rules) → AreFileLines sections
        → entry sections place ≡ Ok rules → is_name name ≡ true
        → All (λ text. length text ≤ 1024) (section_texts sections place)
        → fault_of (told_file name sections place) ≡ None }
    ensures section { (sections : List Section) (place : ℕ) (name : List ℕ) (rules : Rules) → AreFileLines sections
        → entry sections place ≡ Ok rules → is_name name ≡ true
        → sections_in (told_file name sections place) ≡ told_section name sections place ∷ [] }
    ensures rules { (sections earlier : List Section) (place : ℕ) (name : List ℕ) (rules : Rules)
        → AreFileLines sections → entry sections place ≡ Ok rules → is_name name ≡ true
        → first_named earlier name ≡ None
        → entry (earlier ++ sections_in (told_file name sections place)) (length earlier) ≡ Ok rules }
{
    told_sections_have_the_same_rules();
    told_lines_are_lines_of_files();
    told_values_end_in_no_return();
}
