//! What a move may write: squares and hands.
ghost use Rattle.std.specs.Prelude.{◌≡◌, ◌<◌, true, IfSome};
ghost use Rattle.std.specs.Bool.{OnFalse};
ghost use Rattle.rules_model.specs.Castling.{rook_target};
ghost use Rattle.rules_model.specs.Fit.{IsFit};
ghost use Rattle.rules_model.specs.Moves.{IsFitMove, IsFitPlaced};
ghost use Rattle.rules_model.specs.Next as Next;
ghost use Rattle.rules_model.specs.Repeats.{repeat_of};
ghost use Rattle.square_set.specs.Members.{has};
ghost use Rattle.rules_model.specs.Pawns.{passes_by};
ghost use Rattle.next_position.specs.Changed.{AgreeOutside, HasAllOf, Covers, changes_hands};
ghost use Rattle.next_position.specs.Parts as Parts;
ghost use Rattle.next_position.specs.Puts.{IsOnBoard, put_on};

use crate::passing::is_passing;
use crate::pieces::{behind, fresh, promote, taken};
use rules_model::castling::rook_target;
use rules_model::passing::passes_by;
use rules_model::{Cell, Move, Placed, Position, Rules, Square, cell_at};
use square_set::{EMPTY, Set};

/// What a move may write of a board and of what both sides hold.
#[derive(Clone, Copy)]
pub struct Writes {
    /// Every square that it may write.
    pub squares: Set,
    /// Whether it may change a hand.
    pub hands: bool,
}

/// One square that is left, where there is one, and then one on which this stands.
#[derive(Clone, Copy)]
pub struct OnePut {
    /// The square that is left; None for a drop.
    pub left: Option<Square>,
    /// The square on which something stands then.
    pub at: Square,
    /// What stands on it.
    pub cell: Option<Cell>,
}

/// The set with the square, where there is one.
fn with_some(squares: Set, at: Option<u8>) -> Set
    requires { IfSome at (λ s. s < 120) }
    ensures all { HasAllOf squares result }
    ensures also { IfSome at (λ s. has result s ≡ true) }
{
    match at {
        None => squares,
        Some(at) => squares.with(at),
    }
}

/// The set with the square of the pawn that the piece passes by. `passing` says whether it does.
fn with_passed(
    squares: Set,
    rules: &Rules,
    p: &Position,
    passing: bool,
    from: Square,
    to: Square,
) -> Set
    requires fit { IsFit rules.now }
    requires passing { passing ≡ passes_by rules.now (repeat_of p.now) from to.0 }
    ensures all { HasAllOf squares result }
    ensures passed { AgreeOutside result p.now.cells (Next.without_passed rules.now (repeat_of p.now) from to) }
{
    if passing {
        with_some(squares, behind(rules, p.side, to))
    } else {
        squares
    }
}

/// The set with the squares of a castle: those of king and rook before it and after it, and that of its gate.
fn castle_squares(from: Square, to: Square, rook: Square, gate: Option<Placed>) -> Set
    requires from { from.0 < 120 }
    requires to { to.0 < 120 }
    requires rook { rook.0 < 120 }
    requires gate { IsFitPlaced gate }
    ensures king { has result from.0 ≡ true }
    ensures king_to { has result to.0 ≡ true }
    ensures rook { has result rook.0 ≡ true }
    ensures rook_to { has result (rook_target from to rook) ≡ true }
    ensures gate { IfSome gate (λ placed. has result placed.at.0 ≡ true) }
{
    let king = EMPTY.with(from.0).with(to.0);
    let castled = king.with(rook.0).with(rook_target(from, to, rook));
    match gate {
        None => castled,
        Some(placed) => castled.with(placed.at.0),
    }
}

/// Every square that the move may write: where it leaves and where it enters, the pawn that it passes by, and the rook
/// and the gate of a castle. `passing` says whether a pawn is taken in passing.
fn squares_of(rules: &Rules, p: &Position, passing: bool, m: &Move) -> Set
    requires fit { IsFit rules.now }
    requires move_fits { IsFitMove m.now }
    requires passing { passing ≡ Parts.is_passing rules.now (repeat_of p.now) m.now }
    ensures { AgreeOutside result p.now.cells (Next.cells_after rules.now (repeat_of p.now) m.now) }
{
    match *m {
        Move::Go { from, to, .. } => {
            let entered = EMPTY.with(from.0).with(to.0);
            with_passed(entered, rules, p, passing, from, to)
        }
        Move::Castle {
            from,
            to,
            rook,
            gate,
        } => castle_squares(from, to, rook, gate),
        Move::Drop { to, .. } => EMPTY.with(to.0),
    }
}

/// Whether the move takes a piece by rules that put it into a hand, or drops or places one. `taken` is what it takes.
fn changes_hands(rules: &Rules, taken: Option<Cell>, m: &Move) -> bool
    ensures { result ≡ changes_hands rules.now taken m.now }
{
    match *m {
        Move::Go { gate, .. } => rules.to_hand && taken.is_some() || gate.is_some(),
        Move::Castle { gate, .. } => gate.is_some(),
        Move::Drop { .. } => true,
    }
}

/// Every square that the move may write, and whether it may change a hand, by what it takes, and by whether that is a
/// pawn in passing.
pub(crate) fn touched_by(
    rules: &Rules,
    p: &Position,
    passing: bool,
    taken: Option<Cell>,
    m: &Move,
) -> Writes
    requires fit { IsFit rules.now }
    requires move_fits { IsFitMove m.now }
    requires passing { passing ≡ Parts.is_passing rules.now (repeat_of p.now) m.now }
    requires taken { taken ≡ Parts.taken_by rules.now (repeat_of p.now) m.now }
    ensures squares { AgreeOutside result.squares p.now.cells (Next.cells_after rules.now (repeat_of p.now) m.now) }
    ensures hands { OnFalse result.hands (Next.hands_after rules.now (repeat_of p.now) m.now ≡ p.now.hands) }
{
    Writes {
        squares: squares_of(rules, p, passing, m),
        hands: changes_hands(rules, taken, m),
    }
}

/// Every square that the move may write, and whether it may change a hand.
pub fn touched(rules: &Rules, p: &Position, m: &Move) -> Writes
    requires fit { IsFit rules.now }
    requires move_fits { IsFitMove m.now }
    ensures { Covers result p.now (Next.next rules.now p.now m.now) }
{
    let passing = is_passing(rules, p, m);
    let taken = taken(rules, p, passing, m);
    touched_by(rules, p, passing, taken, m)
}

/// What the move does to the board, where it puts one piece at most, and takes none in passing. A castle puts two, and
/// so may a gate. None tells nothing of the move.
pub fn one_put(rules: &Rules, p: &Position, m: &Move) -> Option<OnePut>
    requires fit { IsFit rules.now }
    requires move_fits { IsFitMove m.now }
    ensures on_board { IfSome result (λ put. IsOnBoard put) }
    ensures is { IfSome result (λ put. Next.cells_after rules.now (repeat_of p.now) m.now ≡ put_on put p.now.cells) }
{
    match *m {
        Move::Go {
            from,
            to,
            promo,
            gate,
        } => {
            if gate.is_some() || passes_by(rules, p, from, to) {
                return None;
            }
            Some(OnePut {
                left: Some(from),
                at: to,
                cell: promote(rules, cell_at(&p.cells, from), promo),
            })
        }
        Move::Castle { .. } => None,
        Move::Drop { kind, to } => Some(OnePut {
            left: None,
            at: to,
            cell: Some(fresh(p.side, kind)),
        }),
    }
}
