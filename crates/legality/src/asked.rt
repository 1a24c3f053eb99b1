//! Moves that are asked for by the square that is left, and by the kind that comes to another.
ghost use Rattle.std.specs.Prelude.{◌≡◌, ◌<◌, ℕ, true, ◌&&◌, ◌||◌, not};
ghost use Rattle.square_set.specs.Members.{has, length_of, HasOrigin, OnSquares};
ghost use Rattle.board_sets.specs.Sets.{AreSets};
ghost use Rattle.rules_model.specs.Moves.{IsFitMove};
ghost use Rattle.rules_model.specs.Repeats.{repeat_of};
ghost use Rattle.legality.specs.Asking as Asking;

use attack_tables::{Tables, cell_on};
use board_sets::BoardSets;
use rules_model::{KINDS, Kind, Move, Position, Promo, Square};
use square_set::{EMPTY, Set, Shift};

/// Which moves are asked for: of those that leave a square of `shut`, or are dropped on one, and place nothing there,
/// only those to the squares of their kind, a pawn's promotion to those of its new kind; castles and all other moves.
#[derive(Clone, Copy)]
pub struct Asked {
    /// Squares from which not all moves are asked for.
    pub shut: Set,
    /// For each kind the squares to which its moves are asked for all the same.
    pub to: [Set; KINDS],
}

impl Asked {
    /// Of the targets, those of the kind. A kind above 25 has none of its own: all are asked for.
    fn of_kind(&self, kind: Kind, targets: Set) -> Set
        ensures { (s : ℕ) → has result s ≡ (has targets s && Asking.is_to self.now kind s) }
    {
        if kind.0 < 26 {
            targets.and(self.to[kind.0 as usize])
        } else {
            targets
        }
    }

    /// Of the targets of the piece that goes from the square and stays what it is, those that are asked for.
    pub(crate) fn of_targets(
        &self,
        p: &Position,
        from: Square,
        gate: Option<Kind>,
        targets: Set,
    ) -> Set
        requires from { from.0 < 120 }
        ensures { (s : ℕ) → has result s ≡ (has targets s && Asking.is_asked_to self.now (repeat_of p.now) from gate s) }
    {
        if gate.is_some() {
            return targets;
        }
        if !self.shut.has(from.0) {
            return targets;
        }
        match cell_on(&p.cells, from.0) {
            None => targets,
            Some(piece) => {
                if piece.side.is(p.side) {
                    self.of_kind(piece.kind, targets)
                } else {
                    targets
                }
            }
        }
    }

    /// Of the targets to which the shift leads, those to which a move by it is asked for, one after the other.
    fn of_each(&self, p: &Position, shift: Shift, targets: Set) -> Set
        requires length { length_of shift < 128 }
        requires starts { (s : ℕ) → has targets s ≡ true → HasOrigin shift 120 s }
        ensures { (s : ℕ) → has result s ≡ (has targets s && Asking.is_asked_by self.now (repeat_of p.now) shift s) }
    {
        let mut asked = EMPTY;
        let mut left = targets;
        while let Some(to) = left.take_first() {
            let one = EMPTY.with(to);
            asked = asked.or(self.of_targets(p, Square(shift.origin(to)), None, one));
        }
        asked
    }

    /// Of the targets, those outside of the one set, and those of the kind.
    fn of_open(&self, shut: Set, kind: Kind, targets: Set) -> Set
        ensures { (s : ℕ) → has result s ≡ (has targets s && (not (has shut s) || Asking.is_to self.now kind s)) }
    {
        targets.minus(shut).or(self.of_kind(kind, targets))
    }

    /// Of the targets to which the shift leads, those to which a move by it is asked for: of pawns all at once.
    pub(crate) fn of_shift(
        &self,
        tables: &Tables,
        p: &Position,
        sets: &BoardSets,
        shift: Shift,
        targets: Set,
    ) -> Set
        requires sets { AreSets tables.now p.now.side p.now.cells sets.now }
        requires length { length_of shift < 128 }
        requires targets { OnSquares targets }
        requires starts { (s : ℕ) → has targets s ≡ true → HasOrigin shift 120 s }
        ensures { (s : ℕ) → has result s ≡ (has targets s && Asking.is_asked_by self.now (repeat_of p.now) shift s) }
    {
        match tables.rules().pawn {
            None => self.of_each(p, shift, targets),
            Some(kind) => {
                let shut = self.shut.shifted(shift);
                let pawns = sets.own_pawns().shifted(shift);
                let by_pawns = self.of_open(shut, kind, targets.and(pawns));
                let others = self.of_each(p, shift, targets.minus(pawns));
                by_pawns.or(others)
            }
        }
    }

    /// Of the targets, those on which a drop of the kind is asked for.
    pub(crate) fn of_drops(&self, kind: Kind, targets: Set) -> Set
        requires { kind.0 < 26 }
        ensures { (s : ℕ) → has result s ≡ (has targets s && Asking.is_drop_asked self.now kind s) }
    {
        self.of_open(self.shut, kind, targets)
    }

    /// Whether the square is one of the kind's. A kind above 25 has none of its own: all are asked for.
    fn is_to(&self, kind: Kind, to: Square) -> bool
        requires { to.0 < 120 }
        ensures { result ≡ Asking.is_to self.now kind to.0 }
    {
        if kind.0 < 26 {
            self.to[kind.0 as usize].has(to.0)
        } else {
            true
        }
    }

    /// Whether the move is asked for by which the piece on the square becomes one of the kind.
    fn asks_promoted(
        &self,
        p: &Position,
        from: Square,
        to: Square,
        kind: Kind,
        gate: Option<Kind>,
    ) -> bool
        requires from { from.0 < 120 }
        requires to { to.0 < 120 }
        ensures { result ≡ Asking.is_asked_as self.now (repeat_of p.now) from kind gate to.0 }
    {
        if gate.is_some() {
            return true;
        }
        if !self.shut.has(from.0) {
            return true;
        }
        match cell_on(&p.cells, from.0) {
            None => true,
            Some(piece) => {
                if piece.side.is(p.side) {
                    self.is_to(kind, to)
                } else {
                    true
                }
            }
        }
    }

    /// Whether the fit move is asked for.
    pub(crate) fn asks(&self, p: &Position, m: &Move) -> bool
        requires { IsFitMove m.now }
        ensures { result ≡ Asking.is_asked self.now (repeat_of p.now) m.now }
    {
        match *m {
            Move::Go {
                from,
                to,
                promo,
                gate,
            } => match promo {
                Promo::Stays => {
                    let one = EMPTY.with(to.0);
                    self.of_targets(p, from, gate, one).has(to.0)
                }
                Promo::Pawn(kind) => self.asks_promoted(p, from, to, kind, gate),
                Promo::Plus => true,
            },
            Move::Castle { .. } => true,
            Move::Drop { kind, to } => self.of_drops(kind, EMPTY.with(to.0)).has(to.0),
        }
    }
}
