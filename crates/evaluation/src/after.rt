//! The sums after a move.
ghost use Rattle.std.specs.Prelude.{◌≡◌, true};
ghost use Rattle.rules_model.specs.Fit.{IsFit};
ghost use Rattle.rules_model.specs.Moves.{IsFitMove};
ghost use Rattle.rules_model.specs.Next.{next};
ghost use Rattle.rules_model.specs.Sound.{is_sound};
ghost use Rattle.evaluation.specs.Tallies.{IsTally};

use crate::piece_values::PieceValues;
use crate::tally::Tally;
use rules_model::{Move, Position, Rules};

impl Tally {
    /// The sums of the position after the move, of those before it. It looks at the squares and the hand that the
    /// move writes, and takes no memory. The move need not be legal. `PieceValues::tally_after` is the same for a
    /// caller who keeps the piece values.
    pub fn after(&self, rules: &Rules, p: &Position, m: &Move) -> Tally
        requires fit { IsFit rules.now }
        requires sound { is_sound rules.now p.now ≡ true }
        requires move_fits { IsFitMove m.now }
        requires tally { IsTally rules.now p.now self.now }
        ensures { IsTally rules.now (next rules.now p.now m.now) result }
    {
        PieceValues::of(rules).tally_after(*self, rules, p, m)
    }
}

impl PieceValues {
    /// The sums of the position after the move, of those before it. It looks at the squares and the hand that the
    /// move writes, and takes no memory. The move need not be legal.
    pub fn tally_after(&self, tally: Tally, rules: &Rules, p: &Position, m: &Move) -> Tally
        requires fit { IsFit rules.now }
        requires values { self.now ≡ rules.now }
        requires sound { is_sound rules.now p.now ≡ true }
        requires move_fits { IsFitMove m.now }
        requires tally { IsTally rules.now p.now tally }
        ensures { IsTally rules.now (next rules.now p.now m.now) result }
    {
        tally
            .with_pieces(self, rules, p, m)
            .with_hands(self, rules, p, m)
    }
}
