//! Whether some candidate is chosen.
ghost use Rattle.std.specs.Prelude.{◌≡◌, true, [], ◌∷◌, OnOk, OnErr};
ghost use Rattle.std.specs.Bool.{OnTrue};
ghost use Rattle.piece_moves.specs.Taking.{TakesSome};
ghost use Rattle.legality.specs.Choices.{chosen_by};
ghost use Rattle.legality.specs.Sinks.{NonePassed, SomePassed, seeker_is_sink};

use crate::move_filter::MoveFilter;
use piece_moves::MoveSink;
use rules_model::{Kind, Move, Promo, Square};
use square_set::{Set, Shift};

/// Looks at candidates until one is chosen.
#[derive(Drop)]
pub(crate) struct AnySink<'a> {
    pub move_filter: MoveFilter<'a>,
}

/// One was chosen.
#[derive(Drop)]
pub(crate) struct Found;

impl<'a> AnySink<'a> {
    ghost use Rattle.legality.specs.Seeks.{SeesNone, SeesOne};

    /// Answers `Err` where the move is chosen. It is not looked at where it is known to be chosen.
    fn see(&mut self, m: Move, chosen: bool) -> Result<(), Found>
        requires { OnTrue chosen (chosen_by self.old.move_filter m ≡ true) }
        ensures ok { OnOk result (SeesNone self.old (m ∷ []) self.new) }
        ensures err { OnErr result (TakesSome SeesOne (λ x. x ≡ m) self.old self.new) }
    {
        if chosen || self.move_filter.holds(&m) {
            Err(Found)
        } else {
            Ok(())
        }
    }
}

impl<'a> MoveSink for AnySink<'a> {
    ghost takes = { NonePassed (λ seeker. chosen_by seeker.move_filter) };

    ghost stops = { SomePassed (λ seeker. chosen_by seeker.move_filter) };

    ghost law = { seeker_is_sink (λ seeker. chosen_by seeker.move_filter) };

    type Full = Found;

    fn take(&mut self, m: Move) -> Result<(), Found> {
        self.see(m, false)
    }

    /// A move is looked at only where the sets do not say whether it is chosen.
    fn take_all(&mut self, from: Square, gate: Option<Kind>, targets: Set) -> Result<(), Found> {
        let told = self.move_filter.told_from(from, gate, targets);
        let mut left = told.worth(targets);
        while let Some(to) = left.take_first() {
            let m = Move::Go {
                from,
                to: Square(to),
                promo: Promo::Stays,
                gate,
            };
            self.see(m, told.chosen.has(to))?;
        }
        Ok(())
    }

    /// A move is looked at only where the sets do not say whether it is chosen.
    fn take_shifted(&mut self, shift: Shift, targets: Set) -> Result<(), Found> {
        let told = self.move_filter.told_by(shift, targets);
        let mut left = told.worth(targets);
        while let Some(to) = left.take_first() {
            let m = Move::Go {
                from: Square(shift.origin(to)),
                to: Square(to),
                promo: Promo::Stays,
                gate: None,
            };
            self.see(m, told.chosen.has(to))?;
        }
        Ok(())
    }

    /// A move is looked at only where the sets do not say whether it is chosen.
    fn take_drops(&mut self, kind: Kind, targets: Set) -> Result<(), Found> {
        let told = self.move_filter.told_drops(kind, targets);
        let mut left = told.worth(targets);
        while let Some(to) = left.take_first() {
            let m = Move::Drop {
                kind,
                to: Square(to),
            };
            self.see(m, told.chosen.has(to))?;
        }
        Ok(())
    }
}
