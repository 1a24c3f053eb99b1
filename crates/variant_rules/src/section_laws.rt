//! What is known of the rules of sections, for all sections. Each law is the contract of a call that does nothing.
ghost use Rattle.std.specs.Prelude.{◌≡◌, ℕ, List, Ok};
ghost use Rattle.rules_model.specs.declared.rules.Rules.{Rules};
ghost use Rattle.rules_model.specs.Fit.{IsFit};
ghost use Rattle.variant_ini.specs.Section.{Section};
ghost use Rattle.variant_model.specs.Entry.{bare_rules, entry};
ghost use Rattle.variant_rules.specs.Faultless.{IsFaultless};
ghost use Rattle.variant_model.specs.Made.{resolved};

/// The rules of a section whose header, lines and options have no fault fit, whatever the start; so do those of an
/// accepted section.
pub fn accepted_rules_fit()
    ensures faultless { (sections : List Section) (at : ℕ) → IsFaultless sections at
        → IsFit (bare_rules (resolved sections at)) }
    ensures accepted { (sections : List Section) (at : ℕ) (rules : Rules) → entry sections at ≡ Ok rules → IsFit rules }
{}
