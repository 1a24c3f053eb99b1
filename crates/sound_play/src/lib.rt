//! What stays sound along a game: laws about positions, each the contract of a call that does nothing.
#![tactic(auto)]

ghost use Rattle.std.specs.Prelude.{◌≡◌, ◌≤◌, ℕ, true};
ghost use Rattle.rules_model.specs.declared.board.Position.{Position};
ghost use Rattle.rules_model.specs.declared.board.Repeat.{Repeat};
ghost use Rattle.rules_model.specs.declared.board.Side.{Side};
ghost use Rattle.rules_model.specs.declared.board.Wing.{Wing};
ghost use Rattle.rules_model.specs.declared.moves.Move.{Move};
ghost use Rattle.rules_model.specs.declared.rules.Rules.{Rules};
ghost use Rattle.rules_model.specs.Castling.{holds_right};
ghost use Rattle.rules_model.specs.Fit.{IsFit};
ghost use Rattle.rules_model.specs.Gates.{has_gate};
ghost use Rattle.rules_model.specs.Next.{next, next_repeat};
ghost use Rattle.rules_model.specs.Promised.{NextKeepsSound};
ghost use Rattle.rules_model.specs.Repeats.{repeat_of};
ghost use Rattle.rules_model.specs.Sizes.{HasSizes};

/// Every move, in every variant, keeps the lengths of a position's lists and the range of its gates.
pub fn moves_keep_sizes()
    ensures repeats { (rules : Rules) (r : Repeat) (m : Move) → HasSizes r → HasSizes (next_repeat rules r m) }
    ensures positions { (rules : Rules) (p : Position) (m : Move) → HasSizes (repeat_of p)
        → HasSizes (repeat_of (next rules p m)) }
{}

/// Every move, in every variant, keeps the counter and the number of the move in their ranges.
pub fn moves_keep_counts_in_range()
    ensures counter { (rules : Rules) (p : Position) (m : Move) → p.counter ≤ 9999 → (next rules p m).counter ≤ 9999 }
    ensures number_least { (rules : Rules) (p : Position) (m : Move) → 1 ≤ p.number → 1 ≤ (next rules p m).number }
    ensures number_most { (rules : Rules) (p : Position) (m : Move) → p.number ≤ 9999 → (next rules p m).number ≤ 9999 }
{}

/// No move, in any variant, gives a castling right or opens a gate.
pub fn rights_and_gates_only_go()
    ensures rights { (rules : Rules) (r : Repeat) (m : Move) (side : Side) (wing : Wing)
        → holds_right (next_repeat rules r m).rights side wing ≡ true → holds_right r.rights side wing ≡ true }
    ensures gates { (rules : Rules) (r : Repeat) (m : Move) (side : Side) (file : ℕ)
        → has_gate (next_repeat rules r m).gates side file ≡ true → has_gate r.gates side file ≡ true }
{}

/// In every variant that fits, the position after a legal move of a sound position is sound.
pub fn legal_moves_keep_soundness()
    ensures { (rules : Rules) → IsFit rules → NextKeepsSound rules }
{}
