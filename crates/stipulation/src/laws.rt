//! What is known of selfmates without opening a definition. The law is the contract of a call that does nothing.
ghost use Rattle.std.specs.Prelude.{ℕ};
ghost use Rattle.rules_model.specs.declared.board.Side.{Side};
ghost use Rattle.rules_model.specs.declared.rules.Rules.{Rules};
ghost use Rattle.rules_model.specs.Games.{Story};
ghost use Rattle.stipulation.specs.Sentences.{SelfSentences};

/// The sentences on selfmates: a game that has ended is one exactly by a checkmate that the other side wins; with no
/// move left the side forces none in an ongoing game where it is to move; else it needs some legal move; and each legal
/// move of the other side must do.
pub fn selfmates_are_a_bounded_recursion()
    ensures { (rules : Rules) (n : ℕ) (g : Story) (a : Side) → SelfSentences rules n g a }
{}
