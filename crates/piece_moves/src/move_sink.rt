//! What takes the moves of a generator: a list, or whatever else uses each of them at once.
ghost use Rattle.std.specs.Prelude.{◌≡◌, ◌<◌, ℕ, true, List, [], ◌∷◌, ◌++◌, OnOk, OnErr};
ghost use Rattle.rules_model.specs.declared.moves.Move.{Move};
ghost use Rattle.square_set.specs.Members.{has, length_of, HasOrigin, OnSquares};
ghost use Rattle.piece_moves.specs.InTurn.{DropsOf, GoesTo, GoesBy};
ghost use Rattle.piece_moves.specs.Taking.{IsChosen, IsSink, TakesAll, TakesSome};
ghost use Rattle.piece_moves.specs.Listed.{list_is_sink};

use foundation::Memory;
use rules_model::{Kind, Move, MoveList, Promo, Square};
use square_set::{Set, Shift};

/// What takes moves. A generator gives it each move in turn, until it has no more or the sink is full.
pub trait MoveSink {
    /// The sink took these moves in this order, and was then as the second.
    ghost takes: { Self → List Move → Self → Type 0 };

    /// It took these, and was full at the end.
    ghost stops: { Self → List Move → Self → Type 0 };

    /// Why it takes no more.
    type Full: Drop;

    /// Gives it a move. After `Err` it may have taken the move or not, and takes no more.
    fn take(&mut self, m: Move) -> Result<(), Self::Full>
        ensures ok { OnOk result (takes self.old (m ∷ []) self.new) }
        ensures err { OnErr result (TakesSome stops (λ x. x ≡ m) self.old self.new) };

    /// Gives it the moves of the piece on a square to each of these squares, which become nothing else and place `gate`
    /// on the square. A sink that need not see each of them may do better than to take them one by one.
    fn take_all(&mut self, from: Square, gate: Option<Kind>, targets: Set) -> Result<(), Self::Full>
        requires from { from.0 < 120 }
        requires targets { OnSquares targets }
        ensures ok { OnOk result (TakesAll takes (GoesTo from gate targets) self.old self.new) }
        ensures err { OnErr result (TakesSome stops (GoesTo from gate targets) self.old self.new) }
    {
        let mut left = targets;
        while let Some(to) = left.take_first() {
            self.take(Move::Go {
                from,
                to: Square(to),
                promo: Promo::Stays,
                gate,
            })?;
        }
        Ok(())
    }

    /// Gives it the moves by the shift to each of these squares: each is of the piece on the square from which the
    /// shift leads there, which becomes nothing else and places nothing. A sink that need not see each of them may do
    /// better than to take them one by one.
    fn take_shifted(&mut self, shift: Shift, targets: Set) -> Result<(), Self::Full>
        requires length { length_of shift < 128 }
        requires targets { OnSquares targets }
        requires starts { (s : ℕ) → has targets s ≡ true → HasOrigin shift 120 s }
        ensures ok { OnOk result (TakesAll takes (GoesBy shift targets) self.old self.new) }
        ensures err { OnErr result (TakesSome stops (GoesBy shift targets) self.old self.new) }
    {
        let mut left = targets;
        while let Some(to) = left.take_first() {
            self.take(Move::Go {
                from: Square(shift.origin(to)),
                to: Square(to),
                promo: Promo::Stays,
                gate: None,
            })?;
        }
        Ok(())
    }

    /// Gives it the drops of the kind on each of these squares. A sink that need not see each of them may do better
    /// than to take them one by one.
    fn take_drops(&mut self, kind: Kind, targets: Set) -> Result<(), Self::Full>
        requires kind { kind.0 < 26 }
        requires targets { OnSquares targets }
        ensures ok { OnOk result (TakesAll takes (DropsOf kind targets) self.old self.new) }
        ensures err { OnErr result (TakesSome stops (DropsOf kind targets) self.old self.new) }
    {
        let mut left = targets;
        while let Some(to) = left.take_first() {
            self.take(Move::Drop {
                kind,
                to: Square(to),
            })?;
        }
        Ok(())
    }

    /// What it takes in turn it takes.
    ghost law: { IsSink takes stops };
}

impl MoveSink for MoveList {
    /// The moves are at the end of the list.
    ghost takes = { λ old ms new. new ≡ old ++ ms };

    ghost stops = { λ old ms new. new ≡ old ++ ms };

    ghost law = { list_is_sink };

    type Full = Memory;

    /// Without memory the list is as it was.
    fn take(&mut self, m: Move) -> Result<(), Memory>
        ensures ok { OnOk result (self.new ≡ self.old ++ m ∷ []) }
        ensures err { OnErr result (self.new ≡ self.old) }
    {
        self.items.push(m)?;
        Ok(())
    }
}

/// Gives the sink the move where it is wanted.
pub fn push_if<S: MoveSink>(wanted: bool, m: Move, out: &mut S) -> Result<(), S::Full>
    ensures ok { OnOk result (TakesAll S.takes (IsChosen wanted m) out.old out.new) }
    ensures err { OnErr result (TakesSome S.stops (IsChosen wanted m) out.old out.new) }
{
    if wanted { out.take(m) } else { Ok(()) }
}
