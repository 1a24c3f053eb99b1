//! The list of the candidates that are chosen.
ghost use Rattle.std.specs.Prelude.{◌≡◌, true, List, [], ◌∷◌, OnOk, OnErr};
ghost use Rattle.std.specs.Bool.{OnTrue};
ghost use Rattle.legality.specs.Choices.{chosen_by};
ghost use Rattle.legality.specs.Sinks.{Kept, keeper_is_sink};

use crate::move_filter::MoveFilter;
use foundation::Memory;
use piece_moves::MoveSink;
use rules_model::{Kind, Move, MoveList, Promo, Square};
use square_set::{Set, Shift};

/// Puts the candidates that are chosen at the end of a list.
#[derive(Drop)]
pub(crate) struct ListSink<'a> {
    pub move_filter: MoveFilter<'a>,
    pub list: MoveList,
}

impl<'a> ListSink<'a> {
    ghost use Rattle.legality.specs.Keeps.{Keeps};

    /// Puts the move on the list where it is chosen. It is not looked at where it is known to be chosen. Without
    /// memory the list is as it was.
    fn keep(&mut self, m: Move, chosen: bool) -> Result<(), Memory>
        requires { OnTrue chosen (chosen_by self.old.move_filter m ≡ true) }
        ensures ok { OnOk result (Keeps self.old (m ∷ []) self.new) }
        ensures err { OnErr result (Keeps self.old [] self.new) }
    {
        if chosen || self.move_filter.holds(&m) {
            self.list.take(m)?;
        }
        Ok(())
    }
}

impl<'a> MoveSink for ListSink<'a> {
    ghost takes = { Kept (λ keeper. keeper.move_filter) (λ keeper. keeper.list) chosen_by };

    ghost stops = { Kept (λ keeper. keeper.move_filter) (λ keeper. keeper.list) chosen_by };

    ghost law = { keeper_is_sink (λ keeper. keeper.move_filter) (λ keeper. keeper.list) chosen_by };

    type Full = Memory;

    fn take(&mut self, m: Move) -> Result<(), Memory> {
        self.keep(m, false)
    }

    /// A move is looked at only where the sets do not say whether it is chosen.
    fn take_all(&mut self, from: Square, gate: Option<Kind>, targets: Set) -> Result<(), Memory> {
        let told = self.move_filter.told_from(from, gate, targets);
        let mut left = told.worth(targets);
        while let Some(to) = left.take_first() {
            let m = Move::Go {
                from,
                to: Square(to),
                promo: Promo::Stays,
                gate,
            };
            self.keep(m, told.chosen.has(to))?;
        }
        Ok(())
    }

    /// A move is looked at only where the sets do not say whether it is chosen.
    fn take_shifted(&mut self, shift: Shift, targets: Set) -> Result<(), Memory> {
        let told = self.move_filter.told_by(shift, targets);
        let mut left = told.worth(targets);
        while let Some(to) = left.take_first() {
            let m = Move::Go {
                from: Square(shift.origin(to)),
                to: Square(to),
                promo: Promo::Stays,
                gate: None,
            };
            self.keep(m, told.chosen.has(to))?;
        }
        Ok(())
    }

    /// A move is looked at only where the sets do not say whether it is chosen.
    fn take_drops(&mut self, kind: Kind, targets: Set) -> Result<(), Memory> {
        let told = self.move_filter.told_drops(kind, targets);
        let mut left = told.worth(targets);
        while let Some(to) = left.take_first() {
            let m = Move::Drop {
                kind,
                to: Square(to),
            };
            self.keep(m, told.chosen.has(to))?;
        }
        Ok(())
    }
}
