//! What is known of the definitions of FEN, for all fit rules. Each law is the contract of a call that does nothing.
ghost use Rattle.std.specs.Prelude.{◌≡◌, ◌⊎◌, List, ℕ, true};
ghost use Rattle.rules_model.specs.declared.board.Position.{Position};
ghost use Rattle.rules_model.specs.declared.rules.Rules.{Rules};
ghost use Rattle.rules_model.specs.Fit.{IsFit};
ghost use Rattle.rules_model.specs.Sound.{is_sound};
ghost use Rattle.fen_model.specs.declared.fault.FenFault.{FenFault};
ghost use Rattle.fen_model.specs.Printing.{fen_text};
ghost use Rattle.fen_model.specs.Reading.{Fen, FenBad};
ghost use Rattle.fen_model.specs.Says.{TextSays};

/// Every text says a position or has a fault, and not both; there is one such position or fault.
pub fn one_answer()
    ensures some { (rules : Rules) (text : List ℕ)
        → ((p : Position) × Fen rules text p) ⊎ ((f : FenFault) × FenBad rules text f) }
    ensures not_both { (rules : Rules) (text : List ℕ) (p : Position) (f : FenFault) → Fen rules text p
        → FenBad rules text f → ⊥ }
    ensures one_position { (rules : Rules) (text : List ℕ) (p q : Position) → Fen rules text p → Fen rules text q
        → p ≡ q }
    ensures one_fault { (rules : Rules) (text : List ℕ) (f g : FenFault) → FenBad rules text f → FenBad rules text g
        → f ≡ g }
{}

/// A text says a position exactly where the position is sound and each field of the text says its part of it.
pub fn fields_say_the_position()
    ensures sound { (rules : Rules) (text : List ℕ) (p : Position) → IsFit rules → Fen rules text p
        → is_sound rules p ≡ true }
    ensures parts { (rules : Rules) (text : List ℕ) (p : Position) → Fen rules text p → TextSays rules text p }
    ensures whole { (rules : Rules) (text : List ℕ) (p : Position) → is_sound rules p ≡ true → TextSays rules text p
        → Fen rules text p }
{}

/// Reading the text of a sound position gives the position back.
pub fn reading_gives_back()
    ensures { (rules : Rules) (p : Position) → IsFit rules → is_sound rules p ≡ true → Fen rules (fen_text rules p) p }
{}
