//! What is known of the entries of sections, for all sections. Each law is the contract of a call that does nothing.
ghost use Rattle.std.specs.Prelude.{◌≡◌, ℕ, List, Ok, length, true};
ghost use Rattle.std.specs.List.{list_all};
ghost use Rattle.rules_model.specs.declared.rules.Rules.{Rules};
ghost use Rattle.variant_ini.specs.Section.{Section};
ghost use Rattle.variant_model.specs.Builtin.{builtin_sections};
ghost use Rattle.variant_model.specs.Entry.{entry};
ghost use Rattle.variant_rules.specs.Entries.{entries, is_accepted};
ghost use Rattle.variant_rules.specs.Playable.{IsPlayable};

/// The rules of an accepted section fit, and a game may start from their start.
pub fn accepted_rules_are_playable()
    ensures { (sections : List Section) (place : ℕ) (rules : Rules) → entry sections place ≡ Ok rules
        → IsPlayable rules }
{}

/// The ten sections that are built in are accepted.
pub fn builtin_sections_are_accepted()
    ensures ten { length builtin_sections ≡ 10 }
    ensures accepted { list_all is_accepted (entries builtin_sections) ≡ true }
{}
