//! A position with what is known of it for all that is asked of its moves.
ghost use Rattle.std.specs.Prelude.{◌≡◌, true};
ghost use Rattle.rules_model.specs.Ends as Ends;
ghost use Rattle.rules_model.specs.Ready.{IsReady};
ghost use Rattle.rules_model.specs.Sound.{is_sound};
ghost use Rattle.board_sets.specs.Sets.{AreSets};
ghost use Rattle.legality.specs.Stance.{repeat_in};

use crate::early_end::{early_end_with, is_ongoing};
use crate::pin_info::PinInfo;
use attack_tables::Tables;
use board_sets::BoardSets;
use rules_model::{Outcome, Position};
use std::marker::Model;

/// A position with what is known of it for all that is asked of its moves: how it is ended before they are looked at,
/// and from which squares and to which its pieces may go, or evade no check, without a look at the board. It is made
/// once, and every answer costs less by it. Contracts see the rules and the position.
#[derive(Drop)]
pub struct MoveGen<'a> {
    pub(crate) early: Outcome,
    pub(crate) pin_info: PinInfo<'a>,
}

impl<'a> Model for MoveGen<'a> {
    ghost use Rattle.legality.specs.Stance.{Stance, IsKnown};

    ghost Value = { Stance };

    ghost view = { λ k. record { rules = k.pin_info.tables.now; position = k.pin_info.p.now } };

    ghost invariant = { λ k. IsKnown k.pin_info.tables.now k.pin_info.p.now k.early };
}

impl<'a> MoveGen<'a> {
    /// What is known of the position, by the sets of its board.
    pub fn of(tables: &'a Tables, p: &'a Position, sets: &BoardSets) -> MoveGen<'a>
        requires sound { is_sound tables.now p.now ≡ true }
        requires sets { AreSets tables.now p.now.side p.now.cells sets.now }
        ensures { result ≡ record { rules = tables.now; position = p.now } }
    {
        MoveGen {
            early: early_end_with(tables, p, sets),
            pin_info: PinInfo::of_all(tables, p, sets),
        }
    }

    /// The rules fit, and the position is sound by them. Nothing is done: the call tells a proof.
    pub(crate) fn prove_ready(&self)
        ensures { IsReady self.now.rules self.now.rules self.now.position }
    {
        let _rules = self.pin_info.tables.rules();
    }

    /// The end before its moves are looked at: flag, checks or extinction; `Outcome::Ongoing` where there is none.
    pub fn early_end(&self) -> Outcome
        ensures { result ≡ Ends.early_end self.now.rules (repeat_in self.now) }
    {
        self.early
    }

    /// Whether there is no early end.
    pub(crate) fn goes_on(&self) -> bool
        ensures { result ≡ Ends.is_ongoing (Ends.early_end self.now.rules (repeat_in self.now)) }
    {
        is_ongoing(self.early)
    }
}
