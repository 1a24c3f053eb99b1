//! What the layers above know of games without opening a definition. Each law is the contract of a call that does
//! nothing.
ghost use Rattle.std.specs.Prelude.{◌≡◌, ℕ, ◌<◌, true, false, List, length};
ghost use Rattle.foundation.specs.Member.{Lists};
ghost use Rattle.rules_model.specs.declared.board.Position.{Position};
ghost use Rattle.rules_model.specs.declared.rules.Rules.{Rules};
ghost use Rattle.rules_model.specs.Ends.{is_ongoing};
ghost use Rattle.rules_model.specs.Legal.{own_end};
ghost use Rattle.rules_model.specs.Repeats.{repeat_of};
ghost use Rattle.game_play.specs.Perft.{lines, perft, IsLine};

/// What `perft` counts: the lists of so many moves, each legal in its turn. `lines` has every one of them, once. Where
/// a position is ended by itself there is none of a move or more.
pub fn perft_counts_lines()
    ensures lines { (rules : Rules) (n : ℕ) (p : Position) → Lists (IsLine rules n p) (lines rules n p) }
    ensures count { (rules : Rules) (n : ℕ) (p : Position) → perft rules n p ≡ length (lines rules n p) }
    ensures ended { (rules : Rules) (n : ℕ) (p : Position) → 0 < n → is_ongoing (own_end rules (repeat_of p)) ≡ false
        → perft rules n p ≡ 0 }
{}
