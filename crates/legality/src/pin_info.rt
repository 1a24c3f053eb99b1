//! What is asked of a candidate: that the own king is safe after it, that it gives no check that the variant forbids,
//! and that the piece can move on.
ghost use Rattle.std.specs.Prelude.{◌≡◌, ℕ, ◌<◌, true, false, IfSome};
ghost use Rattle.std.specs.Bool.{OnTrue};
ghost use Rattle.square_set.specs.Members.{has, length_of, HasOrigin};
ghost use Rattle.rules_model.specs.Kinds.{is_king};
ghost use Rattle.rules_model.specs.Legal as Legal;
ghost use Rattle.rules_model.specs.Moves.{IsFitMove};
ghost use Rattle.rules_model.specs.Next as Next;
ghost use Rattle.rules_model.specs.Repeats.{repeat_of};
ghost use Rattle.rules_model.specs.Attacks.{is_own};
ghost use Rattle.rules_model.specs.Sides.{other};
ghost use Rattle.next_position.specs.Puts.{IsOnBoard};
ghost use Rattle.board_sets.specs.Sets.{AreSets};
ghost use Rattle.legality.specs.Moved as Moved;

use crate::make_move::king_attacked_on;
use crate::mobile::stays_mobile;
use crate::pin_squares::{
    NONE_FREE, NONE_NON_EVADING, NonEvadingSquares, UnpinnedSquares, barred_at_once, free_at_once,
    free_squares, king_at_once, non_evading_unless_free,
};
use attack_tables::Tables;
use board_sets::{BoardSets, sets_are_on_board};
use next_position::{OnePut, move_pieces, one_put, touched};
use rules_model::kinds::names;
use rules_model::passing::{is_ep, is_stays};
use rules_model::sizes::prove_position_sizes;
use rules_model::{Cell, Cells, Kind, Move, Position, Promo, Rules, Side, Square};
use square_set::{EMPTY, Set, Shift};

/// A position, with what tells of its candidates whether they are sane.
#[derive(Clone, Copy)]
pub(crate) struct PinInfo<'a> {
    pub tables: &'a Tables,
    pub p: &'a Position,
    pub sets: BoardSets,
    /// The squares that a piece may leave or enter, and its king stays safe.
    pub free: UnpinnedSquares,
    /// The free squares, where the variant asks of a move no more than a safe king; else none.
    pub at_once: UnpinnedSquares,
    /// The squares of own pieces, and that of en passant: what goes there has to be looked at.
    pub barred: Set,
    /// The squares from which and to which pieces are known to evade no check: to none where no piece attacks a king.
    pub non_evading: NonEvadingSquares,
    ghost are_sets: { AreSets tables.now p.now.side p.now.cells sets },
    ghost go_freely: { Moved.GoFreely tables.now (repeat_of p.now) sets.own free.to_leave },
    ghost drop_freely: { Moved.DropFreely tables.now (repeat_of p.now) free.to_enter },
    ghost go_at_once: { Moved.GoAtOnce tables.now (repeat_of p.now) at_once.to_leave barred },
    ghost gate_at_once: { Moved.GateAtOnce tables.now (repeat_of p.now) sets.own sets.kings at_once.to_enter },
    ghost go_without_evading: { Moved.GoWithoutEvading tables.now (repeat_of p.now) non_evading.to_leave
        non_evading.to_enter },
    ghost drop_without_evading: { Moved.DropWithoutEvading tables.now (repeat_of p.now) non_evading.to_enter },
    ghost gate_without_evading: { Moved.GateWithoutEvading tables.now (repeat_of p.now) sets.own sets.kings
        non_evading.to_enter },
}

fn is_drop(m: &Move) -> bool
    ensures { result ≡ Legal.is_drop m.now }
{
    match *m {
        Move::Go { .. } => false,
        Move::Castle { .. } => false,
        Move::Drop { .. } => true,
    }
}

/// Whether a piece of the side stands there.
fn is_man(side: Side, cell: Option<Cell>) -> bool
    ensures { result ≡ is_own side (λ kind. true) cell }
{
    match cell {
        None => false,
        Some(cell) => cell.side.is(side),
    }
}

/// Whether the piece stays what it is, or is a pawn that becomes a piece other than a king.
fn makes_no_king(rules: &Rules, promo: Promo) -> bool
    ensures { result ≡ Moved.makes_no_king rules.now promo }
{
    match promo {
        Promo::Stays => true,
        Promo::Pawn(kind) => !names(rules.king, kind),
        Promo::Plus => false,
    }
}

impl<'a> PinInfo<'a> {
    /// For all the moves of the position.
    pub fn of_all(tables: &'a Tables, p: &'a Position, sets: &BoardSets) -> PinInfo<'a>
        requires { AreSets tables.now p.now.side p.now.cells sets.now }
        ensures tables { result.tables.now ≡ tables.now }
        ensures p { result.p.now ≡ p.now }
    {
        let free = free_squares(tables, p, sets);
        let barred = barred_at_once(p, sets.own);
        let at_once = free_at_once(tables.rules(), p, sets, barred, free);
        let non_evading = non_evading_unless_free(tables, p, sets, barred, free);
        PinInfo {
            tables,
            p,
            sets: *sets,
            free,
            at_once,
            barred,
            non_evading,
        }
    }

    /// For a few moves: no square is taken to be free, or not to evade.
    pub fn of_few(tables: &'a Tables, p: &'a Position, sets: &BoardSets) -> PinInfo<'a>
        requires { AreSets tables.now p.now.side p.now.cells sets.now }
        ensures tables { result.tables.now ≡ tables.now }
        ensures p { result.p.now ≡ p.now }
    {
        PinInfo {
            tables,
            p,
            sets: *sets,
            free: NONE_FREE,
            at_once: NONE_FREE,
            barred: sets.own,
            non_evading: NONE_NON_EVADING,
        }
    }

    /// Whether the variant asks more of the move than that it leaves the own king safe.
    fn asks_more(&self, m: &Move) -> bool
        ensures { result ≡ Moved.asks_more self.now.tables.now m.now }
    {
        let rules = self.tables.rules();
        rules.immobile_bad || !(rules.checking && (rules.drop_checks || !is_drop(m)))
    }

    /// Whether a free piece goes without a gate and makes no king, to a square without an own piece, and not to that
    /// of en passant.
    fn is_free_go(&self, m: &Move) -> bool
        requires { IsFitMove m.now }
        ensures { result ≡ Moved.is_free_go self.now.tables.now (repeat_of self.now.p.now) self.now.sets.own
            self.now.free.to_leave m.now }
    {
        match *m {
            Move::Go {
                from,
                to,
                promo,
                gate,
            } => {
                makes_no_king(self.tables.rules(), promo)
                    && gate.is_none()
                    && self.free.to_leave.has(from.0)
                    && !self.sets.own.has(to.0)
                    && !is_ep(self.p.ep, to)
            }
            Move::Castle { .. } => false,
            Move::Drop { .. } => false,
        }
    }

    /// Whether a piece other than a king is dropped on a free square.
    fn is_free_drop(&self, m: &Move) -> bool
        requires { IsFitMove m.now }
        ensures { result ≡ Moved.is_free_drop self.now.tables.now self.now.free.to_enter m.now }
    {
        match *m {
            Move::Go { .. } => false,
            Move::Castle { .. } => false,
            Move::Drop { kind, to } => {
                self.free.to_enter.has(to.0) && !names(self.tables.rules().king, kind)
            }
        }
    }

    /// Whether an own piece other than a king goes from the square and leaves a piece of the kind behind, which is no
    /// king.
    fn leaves_another(&self, from: Square, kind: Kind) -> bool
        requires { from.0 < 120 }
        ensures { result ≡ Moved.leaves_another self.now.tables.now self.now.sets.own self.now.sets.kings from kind }
    {
        self.sets.own.has(from.0)
            && !self.sets.kings.has(from.0)
            && !names(self.tables.rules().king, kind)
    }

    /// Whether what goes from the square to any square of `non_evading.to_enter` evades no check: from one of
    /// `non_evading.to_leave`, where it makes no king, or where it stays what it is and leaves another piece behind.
    fn leaves_without_evading(&self, from: Square, promo: Promo, gate: Option<Kind>) -> bool
        requires { from.0 < 120 }
        ensures { result ≡ Moved.leaves_without_evading self.now.tables.now self.now.sets.own self.now.sets.kings
            self.now.non_evading.to_leave from promo gate }
    {
        match gate {
            None => {
                makes_no_king(self.tables.rules(), promo) && self.non_evading.to_leave.has(from.0)
            }
            Some(kind) => is_stays(promo) && self.leaves_another(from, kind),
        }
    }

    /// Whether the sets say that the move leaves a king attacked: a piece goes so, or one other than a king is dropped.
    fn is_no_evasion(&self, m: &Move) -> bool
        requires { IsFitMove m.now }
        ensures { result ≡ Moved.is_no_evasion self.now.tables.now self.now.sets.own self.now.sets.kings
            self.now.non_evading.to_leave self.now.non_evading.to_enter m.now }
    {
        match *m {
            Move::Go {
                from,
                to,
                promo,
                gate,
            } => {
                self.non_evading.to_enter.has(to.0)
                    && self.leaves_without_evading(from, promo, gate)
            }
            Move::Castle { .. } => false,
            Move::Drop { kind, to } => {
                self.non_evading.to_enter.has(to.0) && !names(self.tables.rules().king, kind)
            }
        }
    }

    /// Whether the sets say that a piece that goes from the square, and stays what it is, may go to each of these
    /// squares.
    pub fn lets_go(&self, from: Square, targets: Set) -> bool
        requires from { from.0 < 120 }
        ensures { OnTrue result (Moved.MayGo self.now.tables.now (repeat_of self.now.p.now) from targets) }
    {
        self.at_once.to_leave.has(from.0) && targets.and(self.barred).is_empty()
    }

    /// Whether the sets say that a piece that goes from the square, and stays what it is, may go to none of these
    /// squares.
    #[tactic(auto, using(crate::proofs::PinLaws::not_safe_not_sane))]
    pub fn bars_go(&self, from: Square, targets: Set) -> bool
        requires from { from.0 < 120 }
        ensures { OnTrue result (Moved.MayNotGo self.now.tables.now (repeat_of self.now.p.now) from targets) }
    {
        self.non_evading.to_leave.has(from.0) && targets.minus(self.non_evading.to_enter).is_empty()
    }

    /// Some of the targets, as far as the sets say: a piece that goes to one of them by the shift, and stays what it
    /// is, makes a sane move.
    pub fn lets_shift(&self, shift: Shift, targets: Set) -> Set
        requires length { length_of shift < 128 }
        requires starts { (s : ℕ) → has targets s ≡ true → HasOrigin shift 120 s }
        ensures within { (s : ℕ) → has result s ≡ true → has targets s ≡ true }
        ensures sane { Moved.MayGoBy self.now.tables.now (repeat_of self.now.p.now) shift result }
    {
        let led = self.at_once.to_leave.shifted(shift);
        targets.and(led).minus(self.barred)
    }

    /// Some of the targets, as far as the sets say: a piece that goes to one of them by the shift, and stays what it
    /// is, makes no sane move.
    pub fn bars_shift(&self, shift: Shift, targets: Set) -> Set
        requires length { length_of shift < 128 }
        requires starts { (s : ℕ) → has targets s ≡ true → HasOrigin shift 120 s }
        ensures within { (s : ℕ) → has result s ≡ true → has targets s ≡ true }
        ensures sane { Moved.MayNotGoBy self.now.tables.now (repeat_of self.now.p.now) shift result }
    {
        let led = self.non_evading.to_leave.shifted(shift);
        targets.and(self.non_evading.to_enter).and(led)
    }

    /// Of the targets, those to which the king on the square may go, where the sets say so.
    pub fn lets_king(&self, from: Square, targets: Set) -> Option<Set>
        requires from { from.0 < 120 }
        requires targets { (s : ℕ) → has targets s ≡ true → s < 120 }
        ensures { IfSome result
            (λ sane. Moved.AreSane self.now.tables.now (repeat_of self.now.p.now) from targets sane) }
    {
        king_at_once(self.tables, self.p, &self.sets, from, targets)
    }

    /// Whether the sets say that a piece that goes from the square, stays what it is and leaves a piece of the
    /// kind behind, may go to each of these squares.
    pub fn lets_gate(&self, from: Square, kind: Kind, targets: Set) -> bool
        requires from { from.0 < 120 }
        ensures { OnTrue result (Moved.MayGate self.now.tables.now (repeat_of self.now.p.now) from kind targets) }
    {
        self.leaves_another(from, kind) && targets.minus(self.at_once.to_enter).is_empty()
    }

    /// Whether the sets say that a piece that goes from the square, stays what it is and leaves a piece of the
    /// kind behind, may go to none of these squares.
    pub fn bars_gate(&self, from: Square, kind: Kind, targets: Set) -> bool
        requires from { from.0 < 120 }
        ensures { OnTrue result (Moved.MayNotGate self.now.tables.now (repeat_of self.now.p.now) from kind targets) }
    {
        self.leaves_another(from, kind) && targets.minus(self.non_evading.to_enter).is_empty()
    }

    /// Whether the variant asks no more of a drop than that it leaves the own king safe.
    fn asks_only_safety_of_drops(&self) -> bool
        ensures { result ≡ Moved.asks_only_safety_of_drops self.now.tables.now }
    {
        let rules = self.tables.rules();
        !rules.immobile_bad && rules.checking && rules.drop_checks
    }

    /// Whether the kind is the king's.
    fn is_king(&self, kind: Kind) -> bool
        ensures { result ≡ is_king self.now.tables.now kind }
    {
        names(self.tables.rules().king, kind)
    }

    /// Some of the targets, as far as the sets say: a piece of the kind that is dropped on one of them makes a sane
    /// move.
    pub fn lets_drop(&self, kind: Kind, targets: Set) -> Set
        ensures within { (s : ℕ) → has result s ≡ true → has targets s ≡ true }
        ensures sane { Moved.MayDrop self.now.tables.now (repeat_of self.now.p.now) kind result }
    {
        if self.is_king(kind) || !self.asks_only_safety_of_drops() {
            return EMPTY;
        }
        targets.and(self.free.to_enter)
    }

    /// Some of the targets, as far as the sets say: a piece of the kind that is dropped on one of them makes no sane
    /// move.
    pub fn bars_drop(&self, kind: Kind, targets: Set) -> Set
        ensures within { (s : ℕ) → has result s ≡ true → has targets s ≡ true }
        ensures sane { Moved.MayNotDrop self.now.tables.now (repeat_of self.now.p.now) kind result }
    {
        if self.is_king(kind) {
            return EMPTY;
        }
        targets.and(self.non_evading.to_enter)
    }

    /// The cells after the move.
    fn move_on(&self, m: &Move, cells: &mut Cells)
        requires move_fits { IsFitMove m.now }
        requires copy { cells.old ≡ self.now.p.now.cells }
        ensures { cells.new ≡ Next.cells_after self.now.tables.now (repeat_of self.now.p.now) m.now }
    {
        move_pieces(self.tables.rules(), self.p, m, cells);
    }

    /// The sets of the cells after the move, by the side that made it.
    fn sets_after(&self, m: &Move, cells: &Cells) -> BoardSets
        requires move_fits { IsFitMove m.now }
        requires after { cells.now ≡ Next.cells_after self.now.tables.now (repeat_of self.now.p.now) m.now }
        ensures { AreSets self.now.tables.now self.now.p.now.side cells.now result }
    {
        let rules = self.tables.rules();
        let touched = touched(rules, self.p, m);
        self.sets.after(rules, self.p.side, cells, touched.squares)
    }

    /// Whether the move leaves the own king safe. The cells are those after the move.
    fn is_safe_on(&self, m: &Move, cells: &Cells) -> bool
        requires move_fits { IsFitMove m.now }
        requires after { cells.now ≡ Next.cells_after self.now.tables.now (repeat_of self.now.p.now) m.now }
        ensures { result ≡ Legal.is_safe self.now.tables.now (repeat_of self.now.p.now) m.now }
    {
        let sets = self.sets_after(m, cells);
        !king_attacked_on(self.tables, cells, self.p.side, &sets)
    }

    /// Whether the move leaves the own king safe. It puts this and nothing else, and what it puts is no piece of the
    /// other side. So pieces of the other side that are not taken stand where they stood, and no board is copied.
    fn is_safe_put(&self, m: &Move, put: OnePut) -> bool
        requires on_board { IsOnBoard put }
        requires own { is_own (other self.now.p.now.side) (λ kind. true) put.cell ≡ false }
        requires after { Moved.IsPutBy self.now.tables.now self.now.p.now m.now put }
        ensures { result ≡ Legal.is_safe self.now.tables.now (repeat_of self.now.p.now) m.now }
    {
        prove_position_sizes(self.p);
        sets_are_on_board();
        let side = self.p.side;
        let sets = self.sets.put(self.tables.rules(), side, put);
        let occupied = sets.occupied();
        !self
            .tables
            .king_attacked_by(&self.p.cells, sets.kings, sets.enemies, occupied, side)
    }

    /// Whether the move leaves the own king safe.
    fn is_safe(&self, m: &Move) -> bool
        requires { IsFitMove m.now }
        ensures { result ≡ Legal.is_safe self.now.tables.now (repeat_of self.now.p.now) m.now }
    {
        if self.is_free_go(m) {
            return true;
        }
        if self.is_free_drop(m) {
            return true;
        }
        if let Some(put) = one_put(self.tables.rules(), self.p, m) {
            if !is_man(self.p.side.other(), put.cell) {
                return self.is_safe_put(m, put);
            }
        }
        let mut cells = self.p.cells;
        self.move_on(m, &mut cells);
        self.is_safe_on(m, &cells)
    }

    /// Whether the move attacks the other king. The cells are those after the move.
    fn checks(&self, m: &Move, cells: &Cells) -> bool
        requires move_fits { IsFitMove m.now }
        requires after { cells.now ≡ Next.cells_after self.now.tables.now (repeat_of self.now.p.now) m.now }
        ensures { result ≡ Legal.gives_check self.now.tables.now (repeat_of self.now.p.now) m.now }
    {
        let sets = self.sets_after(m, cells).turned();
        king_attacked_on(self.tables, cells, self.p.side.other(), &sets)
    }

    /// Whether the variant lets the move give check, or it gives none. The cells are those after the move.
    #[tactic(auto, unfolding(rules_model::specs::Legal::may_check))]
    fn may_check(&self, m: &Move, cells: &Cells) -> bool
        requires move_fits { IsFitMove m.now }
        requires after { cells.now ≡ Next.cells_after self.now.tables.now (repeat_of self.now.p.now) m.now }
        ensures { result ≡ Legal.may_check self.now.tables.now (repeat_of self.now.p.now) m.now }
    {
        let rules = self.tables.rules();
        if rules.checking && (rules.drop_checks || !is_drop(m)) {
            return true;
        }
        !self.checks(m, cells)
    }

    /// The same as `is_sane`, by the cells after the move.
    #[tactic(auto, unfolding(rules_model::specs::Legal::is_sane))]
    fn is_sane_after(&self, m: &Move) -> bool
        requires { IsFitMove m.now }
        ensures { result ≡ Legal.is_sane self.now.tables.now (repeat_of self.now.p.now) m.now }
    {
        let mut cells = self.p.cells;
        self.move_on(m, &mut cells);
        self.is_safe_on(m, &cells)
            && self.may_check(m, &cells)
            && (!self.tables.rules().immobile_bad || stays_mobile(self.tables, self.p, m, &cells))
    }

    /// Whether the move leaves the own king safe, gives no check that the variant forbids, and, where the variant asks
    /// it, leaves a piece on its target that can ever move. Whether it is a candidate is not asked. Where the variant
    /// asks no more than a safe king, a free piece, a drop on a free square and what is no evasion need no look at the
    /// board, and only a castle, a gate and a capture in passing a copy of it.
    pub fn is_sane(&self, m: &Move) -> bool
        requires { IsFitMove m.now }
        ensures { result ≡ Legal.is_sane self.now.tables.now (repeat_of self.now.p.now) m.now }
    {
        if self.is_no_evasion(m) {
            return false;
        }
        if self.asks_more(m) {
            self.is_sane_after(m)
        } else {
            self.is_safe(m)
        }
    }

    /// Whether the move attacks the other king.
    pub fn checks_after(&self, m: &Move) -> bool
        requires { IsFitMove m.now }
        ensures { result ≡ Legal.gives_check self.now.tables.now (repeat_of self.now.p.now) m.now }
    {
        let mut cells = self.p.cells;
        self.move_on(m, &mut cells);
        self.checks(m, &cells)
    }
}
