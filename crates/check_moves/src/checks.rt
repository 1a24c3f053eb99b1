//! Whether a move may give check.
ghost use Rattle.std.specs.Prelude.{◌≡◌, ◌<◌, false, None};
ghost use Rattle.foundation.specs.Member.{Member};
ghost use Rattle.rules_model.specs.declared.moves.Move.TheVariants.{Go};
ghost use Rattle.rules_model.specs.Legal as Legal;
ghost use Rattle.rules_model.specs.Moves.{IsFitMove};
ghost use Rattle.rules_model.specs.Next as Next;
ghost use Rattle.rules_model.specs.Repeats.{repeat_of};
ghost use Rattle.move_tables.specs.Occupied.{IsOccupied};
ghost use Rattle.legality.specs.Stance as Stance;
ghost use Rattle.check_moves.specs.Checks as Spec;

use crate::shut::shut;
use attack_tables::{Mode, Tables, cell_on};
use board_sets::sets_are_on_board;
use playing::Board;
use rules_model::kinds::promoted_of;
use rules_model::passing::is_ep;
use rules_model::sizes::prove_position_sizes;
use rules_model::{Cell, Kind, Move, Position, Promo, Rules, Side, Square};
use square_set::Set;

/// What is known of the checks that the side to move may give.
#[derive(Clone, Copy)]
pub struct Checks {
    /// The squares of the other side's kings.
    pub kings: Set,
    /// Squares that open no line to one of them: no piece that leaves one uncovers a check, and none that is dropped on
    /// one does. A king that flies is not asked.
    pub shut: Set,
}

/// What is known of the checks in a position, found once for all its moves.
pub fn checks_of(board: &Board) -> Checks
    ensures { Spec.AreChecksIn board.now result }
{
    let p = board.position();
    let sets = board.sets();
    prove_position_sizes(p);
    sets_are_on_board();
    let occupied = sets.occupied();
    let shut = shut(
        board.tables(),
        &p.cells,
        sets.enemy_kings,
        sets.own,
        occupied,
        p.side,
    );
    Checks {
        kings: sets.enemy_kings,
        shut,
    }
}

/// Whether a piece of the kind on the square `from` may attack one of the squares `kings`: where the answer is no it
/// attacks none. A kind above 25 has no table and is not asked: the answer is yes.
pub(crate) fn reaches_some(
    tables: &Tables,
    by: Side,
    kind: Kind,
    from: u8,
    occupied: Set,
    kings: Set,
) -> bool
    requires { from < 120 }
    ensures { result ≡ false → Spec.ReachesNone tables.now by kind from occupied kings }
{
    if kind.0 >= 26 {
        return true;
    }
    let spot = tables.spot(by, kind, Square(from), Mode::Take);
    if spot.within.and(kings).is_empty() {
        return false;
    }
    !spot.reach(occupied).and(kings).is_empty()
}

/// Whether a piece of the kind that leaves the one square for the other may give check by it. One that is dropped
/// leaves the square to which it comes.
fn may_come(
    tables: &Tables,
    p: &Position,
    occupied: Set,
    checks: &Checks,
    kind: Kind,
    from: u8,
    to: u8,
) -> bool
    requires occupied { IsOccupied occupied p.now.cells }
    requires checks { Spec.AreChecks tables.now p.now.side p.now.cells checks.now }
    requires from { from < 120 }
    requires to { to < 120 }
    ensures { result ≡ false → Spec.ComesQuietly tables.now p.now.side kind p.now.cells from to }
{
    let rules = tables.rules();
    if rules.flying || !checks.shut.has(from) {
        return true;
    }
    let moved = occupied.without(from).with(to);
    reaches_some(tables, p.side, kind, to, moved, checks.kings)
}

/// The kind of the piece after its move.
pub(crate) fn kind_after(rules: &Rules, piece: Cell, promo: Promo) -> Kind
    ensures { result ≡ (Next.after_promo rules.now piece promo).kind }
{
    match promo {
        Promo::Stays => piece.kind,
        Promo::Pawn(kind) => kind,
        Promo::Plus => match promoted_of(rules, piece.kind) {
            Some(kind) => kind,
            None => piece.kind,
        },
    }
}

/// Whether the piece that goes from the one square to the other, and becomes what the move says, may give check.
fn go_may_check(
    tables: &Tables,
    p: &Position,
    occupied: Set,
    checks: &Checks,
    from: Square,
    to: Square,
    promo: Promo,
) -> bool
    requires occupied { IsOccupied occupied p.now.cells }
    requires checks { Spec.AreChecks tables.now p.now.side p.now.cells checks.now }
    requires from { from.0 < 120 }
    requires to { to.0 < 120 }
    ensures { result ≡ false → Legal.gives_check tables.now (repeat_of p.now) (Go from to promo None) ≡ false }
{
    prove_position_sizes(p);
    match cell_on(&p.cells, from.0) {
        None => true,
        Some(piece) => {
            if !piece.side.is(p.side) || is_ep(p.ep, to) {
                return true;
            }
            let kind = kind_after(tables.rules(), piece, promo);
            may_come(tables, p, occupied, checks, kind, from.0, to.0)
        }
    }
}

/// Whether the move may give check, by the occupied squares.
fn move_may_check(tables: &Tables, p: &Position, occupied: Set, checks: &Checks, m: &Move) -> bool
    requires occupied { IsOccupied occupied p.now.cells }
    requires checks { Spec.AreChecks tables.now p.now.side p.now.cells checks.now }
    requires move_fits { IsFitMove m.now }
    ensures { result ≡ false → Legal.gives_check tables.now (repeat_of p.now) m.now ≡ false }
{
    prove_position_sizes(p);
    match *m {
        Move::Go {
            from,
            to,
            promo,
            gate,
        } => {
            if gate.is_some() {
                return true;
            }
            go_may_check(tables, p, occupied, checks, from, to, promo)
        }
        Move::Castle { .. } => true,
        Move::Drop { kind, to } => may_come(tables, p, occupied, checks, kind, to.0, to.0),
    }
}

/// Whether the move may give check: where the answer is no it gives none. The answer is always yes for castles
/// and gates, for what goes to the square of en passant, and where kings fly.
pub fn may_check(board: &Board, checks: &Checks, m: &Move) -> bool
    requires move_fits { IsFitMove m.now }
    requires checks { Spec.AreChecksIn board.now checks.now }
    ensures { result ≡ false → Legal.gives_check board.now.rules (Stance.repeat_in board.now) m.now ≡ false }
{
    let occupied = board.sets().occupied();
    move_may_check(board.tables(), board.position(), occupied, checks, m)
}

/// Whether the legal move attacks the other side's king. It is made only where it may.
pub fn gives_check(board: &Board, checks: &Checks, m: &Move) -> bool
    requires legal { Member m.now (Stance.legal_in board.now) }
    requires checks { Spec.AreChecksIn board.now checks.now }
    ensures { result ≡ Legal.gives_check board.now.rules (Stance.repeat_in board.now) m.now }
{
    may_check(board, checks, m) && board.gives_check(m)
}
