//! How many candidates are chosen.
ghost use Rattle.std.specs.Prelude.{◌≡◌, ◌<◌, ◌^◌, ◌-◌, ℕ, true, OnOk, OnErr};
ghost use Rattle.square_set.specs.Members.{has, HasOrigin};
ghost use Rattle.piece_moves.specs.InTurn.{GoesBy};
ghost use Rattle.legality.specs.Choices.{chosen_by};
ghost use Rattle.legality.specs.Chosen.{AreTargetsBy};
ghost use Rattle.legality.specs.Counts.{CountsAll, IsFull};
ghost use Rattle.legality.specs.Sinks.{Counted, Never, counter_is_sink};

use crate::move_filter::{MoveFilter, ToldTargets};
use piece_moves::MoveSink;
use rules_model::{Kind, Move, Promo, Square};
use square_set::{Set, Shift};

/// Counts the candidates that are chosen, up to 2^128 - 1.
#[derive(Drop)]
pub(crate) struct CountSink<'a> {
    pub move_filter: MoveFilter<'a>,
    pub count: u128,
}

impl<'a> CountSink<'a> {
    /// Counts the moves by the shift to the squares of which it is told which are chosen.
    fn count_told(&mut self, shift: Shift, told: ToldTargets)
        requires targets { (s : ℕ) → has told.targets s ≡ true → s < 120 }
        requires chosen { AreTargetsBy (chosen_by self.old.move_filter) shift told.targets told.chosen }
        ensures { CountsAll (GoesBy shift told.targets) self.old self.new }
    {
        self.count = self.count.saturating_add(u128::from(told.chosen.count()));
    }

    /// Looks at the moves by the shift to these squares one by one.
    fn take_each(&mut self, shift: Shift, targets: Set) -> Result<(), ()>
        requires targets { (s : ℕ) → has targets s ≡ true → s < 120 }
        requires starts { (s : ℕ) → has targets s ≡ true → HasOrigin shift 120 s }
        ensures ok { OnOk result (CountsAll (GoesBy shift targets) self.old self.new) }
        ensures err { OnErr result (IsFull (GoesBy shift targets) self.old self.new) }
    {
        let mut left = targets;
        while let Some(to) = left.take_first() {
            self.take(Move::Go {
                from: Square(shift.origin(to)),
                to: Square(to),
                promo: Promo::Stays,
                gate: None,
            })?;
        }
        Ok(())
    }
}

impl<'a> MoveSink for CountSink<'a> {
    ghost takes = { Counted (λ counter. counter.move_filter) (λ counter. counter.count) chosen_by (2 ^ 128 - 1) };

    /// It is never full.
    ghost stops = { Never };

    ghost law = { counter_is_sink (λ counter. counter.move_filter) (λ counter. counter.count) chosen_by (2 ^ 128 - 1) };

    type Full = ();

    fn take(&mut self, m: Move) -> Result<(), ()> {
        if self.move_filter.holds(&m) {
            self.count = self.count.saturating_add(1);
        }
        Ok(())
    }

    /// Where the sets say which of them are chosen, these are counted at once.
    fn take_all(&mut self, from: Square, gate: Option<Kind>, targets: Set) -> Result<(), ()> {
        if let Some(chosen) = self.move_filter.chosen_at_once(from, gate, targets) {
            self.count = self.count.saturating_add(u128::from(chosen.count()));
            return Ok(());
        }
        let mut left = targets;
        while let Some(to) = left.take_first() {
            self.take(Move::Go {
                from,
                to: Square(to),
                promo: Promo::Stays,
                gate,
            })?;
        }
        Ok(())
    }

    /// Those of which the sets say whether they are chosen are counted at once.
    fn take_shifted(&mut self, shift: Shift, targets: Set) -> Result<(), ()> {
        let told = self.move_filter.told_by(shift, targets);
        self.count_told(shift, told);
        self.take_each(shift, targets.minus(told.targets))
    }

    /// Those of which the sets say whether they are chosen are counted at once.
    fn take_drops(&mut self, kind: Kind, targets: Set) -> Result<(), ()> {
        let told = self.move_filter.told_drops(kind, targets);
        self.count = self.count.saturating_add(u128::from(told.chosen.count()));
        let mut left = targets.minus(told.targets);
        while let Some(to) = left.take_first() {
            self.take(Move::Drop {
                kind,
                to: Square(to),
            })?;
        }
        Ok(())
    }
}
