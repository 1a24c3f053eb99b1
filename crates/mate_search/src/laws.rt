//! What the least number of moves is, as a law.
ghost use Rattle.std.specs.Prelude.{ℕ};
ghost use Rattle.rules_model.specs.declared.rules.Rules.{Rules};
ghost use Rattle.rules_model.specs.Games.{Story};
ghost use Rattle.mate_search.specs.Least.{IsFirstWithin, least, mover_wins};

/// The least number of moves is from 1 to n and wins, and no smaller one from 1 on does; there is none exactly where
/// none from 1 to n wins.
pub fn the_least_number_wins_first()
    ensures law { (rules : Rules) (n : ℕ) (g : Story) → IsFirstWithin (mover_wins rules g) n (least rules n g) }
{}
