//! The ends that the position has by itself, and checks.
ghost use Rattle.std.specs.Prelude.{◌≡◌, not};
ghost use Rattle.foundation.specs.Member.{Member};
ghost use Rattle.rules_model.specs.Attacks as Attacks;
ghost use Rattle.rules_model.specs.Ends as Ends;
ghost use Rattle.rules_model.specs.Legal as Legal;
ghost use Rattle.legality.specs.Stance as Stance;

use crate::board::Board;
use legality::{early_end_with, end_where, gives_check_with, king_attacked_with};
use rules_model::{Move, Outcome};

impl Board<'_> {
    /// Whether the king of the side to move is attacked.
    pub fn in_check(&self) -> bool
        ensures { result ≡ Attacks.king_attacked self.now.rules self.now.position.cells self.now.position.side }
    {
        king_attacked_with(self.tables, &self.position, &self.sets)
    }

    /// Whether the legal move attacks the other side's king.
    pub fn gives_check(&self, m: &Move) -> bool
        requires { Member m.now (Stance.legal_in self.now) }
        ensures { result ≡ Legal.gives_check self.now.rules (Stance.repeat_in self.now) m.now }
    {
        gives_check_with(self.tables, &self.position, &self.sets, m)
    }

    /// The end before its moves are looked at: flag, checks or extinction; `Outcome::Ongoing` where there is none.
    pub fn early_end(&self) -> Outcome
        ensures { result ≡ Ends.early_end self.now.rules (Stance.repeat_in self.now) }
    {
        early_end_with(self.tables, &self.position, &self.sets)
    }

    /// The end by itself: an early end, or that no move is legal; `Outcome::Ongoing` where there is none. No memory is
    /// taken.
    pub fn own_end(&self) -> Outcome
        ensures { result ≡ Legal.own_end self.now.rules (Stance.repeat_in self.now) }
    {
        self.known().own_end()
    }

    /// The same, for a caller who knows whether some move is legal.
    pub fn end_where(&self, any: bool) -> Outcome
        requires { any ≡ not (Legal.is_stuck self.now.rules (Stance.repeat_in self.now)) }
        ensures { result ≡ Legal.own_end self.now.rules (Stance.repeat_in self.now) }
    {
        end_where(self.tables, &self.position, &self.sets, any)
    }
}
