//! Sets of squares, and moves, of the names of squares.
ghost use Rattle.rules_model.specs.Moves.{IsFitGate, IsFitMove, IsFitPromo};

use rules_model::{Kind, Move, Placed, Promo};
use sample_rules::{kind, square};
use square_set::{EMPTY, Set};

/// The set of the squares whose names blanks separate; of no name, none.
pub(crate) fn set_of(squares: &str) -> Set {
    let mut set = EMPTY;
    if !squares.is_empty() {
        for text in squares.split(' ') {
            set = set.with(square(text).0);
        }
    }
    set
}

/// The move from one square to the other, with its promotion and the piece from the hand that it leaves on its start.
pub(crate) fn go(from: &str, to: &str, promo: Promo, gate: Option<Kind>) -> Move
    requires promo { IsFitPromo promo }
    requires gate { IsFitGate gate }
    ensures { IsFitMove result }
{
    Move::Go {
        from: square(from),
        to: square(to),
        promo,
        gate,
    }
}

/// A move without a promotion and without a gate.
pub(crate) fn quiet(from: &str, to: &str) -> Move
    ensures { IsFitMove result }
{
    go(from, to, Promo::Stays, None)
}

/// White's short castle, with an elephant placed on the rook's square.
pub(crate) fn castle() -> Move
    ensures { IsFitMove result }
{
    Move::Castle {
        from: square("e1"),
        to: square("g1"),
        rook: square("h1"),
        gate: Some(Placed {
            kind: kind(b'e'),
            at: square("h1"),
        }),
    }
}
