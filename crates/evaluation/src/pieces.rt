//! The sums after a move, by the squares that it writes.
ghost use Rattle.std.specs.Prelude.{◌≡◌, ◌≢◌, ◌<◌, None, false, slice_set};
ghost use Rattle.rules_model.specs.declared.moves.Move.TheVariants.{Castle, Go};
ghost use Rattle.rules_model.specs.Fit.{IsFit};
ghost use Rattle.rules_model.specs.Moves.{IsFitMove};
ghost use Rattle.rules_model.specs.Next as Next;
ghost use Rattle.rules_model.specs.Pawns as Pawns;
ghost use Rattle.rules_model.specs.Repeats.{repeat_of};
ghost use Rattle.evaluation.specs.Writes.{GoesTo};

use crate::piece_values::PieceValues;
use crate::tally::Tally;
use next_position::{behind, fresh, gated, promote};
use rules_model::castling::rook_target;
use rules_model::passing::passes_by;
use rules_model::sizes::{prove_board_size, prove_position_sizes};
use rules_model::{
    Cell, Cells, Kind, Move, Placed, Position, Promo, Rules, SQUARES, Side, Square, cell_at,
};

/// A board of which squares are written one after another, and the sums of a position with it.
#[derive(Drop)]
struct Draft {
    cells: Cells,
    tally: Tally,
}

impl Draft {
    /// Puts this on the square, where there is such a square.
    fn write(&mut self, values: &PieceValues, at: u8, cell: Option<Cell>)
        ensures cells { self.new.cells ≡ slice_set self.old.cells at cell }
        ensures sums { GoesTo values.now self.old.cells self.new.cells self.old.tally self.new.tally }
    {
        prove_board_size(&self.cells);
        if (at as usize) < SQUARES {
            let square = Square(at);
            let before = cell_at(&self.cells, square);
            self.tally = self.tally.put(values, square, before, cell);
            self.cells[at as usize] = cell;
        }
    }

    /// Leaves the square empty, where there is one.
    fn empty(&mut self, values: &PieceValues, at: Option<u8>)
        ensures cells { self.new.cells ≡ Next.emptied self.old.cells at }
        ensures sums { GoesTo values.now self.old.cells self.new.cells self.old.tally self.new.tally }
    {
        if let Some(at) = at {
            self.write(values, at, None);
        }
    }

    /// Places the hand piece of a castle.
    fn place(&mut self, values: &PieceValues, side: Side, gate: Option<Placed>)
        ensures cells { self.new.cells ≡ Next.placed_on side gate self.old.cells }
        ensures sums { GoesTo values.now self.old.cells self.new.cells self.old.tally self.new.tally }
    {
        if let Some(placed) = gate {
            self.write(values, placed.at.0, Some(fresh(side, placed.kind)));
        }
    }

    /// Has king and rook castle.
    fn castle(&mut self, values: &PieceValues, from: Square, to: Square, rook: Square)
        requires from { from.0 < 120 }
        requires to { to.0 < 120 }
        requires rook { rook.0 < 120 }
        ensures cells { self.new.cells ≡ Next.castled self.old.cells from to rook }
        ensures sums { GoesTo values.now self.old.cells self.new.cells self.old.tally self.new.tally }
    {
        let king = cell_at(&self.cells, from);
        let castling_rook = cell_at(&self.cells, rook);
        self.write(values, from.0, None);
        self.write(values, rook.0, None);
        self.write(values, to.0, king);
        self.write(values, rook_target(from, to, rook), castling_rook);
    }
}

/// The square of the pawn that is taken in passing.
fn passed(rules: &Rules, p: &Position, from: Square, to: Square) -> Option<u8>
    requires { IsFit rules.now }
    ensures { Next.emptied p.now.cells result ≡ Next.without_passed rules.now (repeat_of p.now) from to }
{
    if passes_by(rules, p, from, to) {
        behind(rules, p.side, to)
    } else {
        None
    }
}

impl Tally {
    /// The sums once a piece has gone that takes nothing in passing, and nothing was placed where it came from.
    fn gone(
        self,
        values: &PieceValues,
        rules: &Rules,
        p: &Position,
        from: Square,
        to: Square,
        promo: Promo,
    ) -> Tally
        requires values { values.now ≡ rules.now }
        requires from { from.0 < 120 }
        requires to { to.0 < 120 }
        requires apart { from.0 ≢ to.0 }
        requires plain { Pawns.passes_by rules.now (repeat_of p.now) from to.0 ≡ false }
        ensures { GoesTo rules.now p.now.cells
            (Next.cells_after rules.now (repeat_of p.now) (Go from to promo None)) self result }
    {
        prove_position_sizes(p);
        let piece = cell_at(&p.cells, from);
        let target = cell_at(&p.cells, to);
        let left = self.put(values, from, piece, None);
        left.put(values, to, target, promote(rules, piece, promo))
    }

    /// The sums once a piece has gone, whatever it takes and leaves.
    #[tactic(auto, unfolding(rules_model::specs::Next::cells_after))]
    fn gone_anyhow(
        self,
        values: &PieceValues,
        rules: &Rules,
        p: &Position,
        from: Square,
        to: Square,
        promo: Promo,
        gate: Option<Kind>,
    ) -> Tally
        requires fit { IsFit rules.now }
        requires values { values.now ≡ rules.now }
        ensures { GoesTo rules.now p.now.cells
            (Next.cells_after rules.now (repeat_of p.now) (Go from to promo gate)) self result }
    {
        let mut draft = Draft {
            cells: p.cells,
            tally: self,
        };
        let passed = passed(rules, p, from, to);
        let piece = promote(rules, cell_at(&p.cells, from), promo);
        draft.empty(values, passed);
        draft.write(values, from.0, gated(p.side, gate));
        draft.write(values, to.0, piece);
        draft.tally
    }

    /// The sums once king and rook have castled, and a hand piece was placed.
    #[tactic(auto, unfolding(rules_model::specs::Next::cells_after))]
    fn castled(
        self,
        values: &PieceValues,
        p: &Position,
        from: Square,
        to: Square,
        rook: Square,
        gate: Option<Placed>,
    ) -> Tally
        requires from { from.0 < 120 }
        requires to { to.0 < 120 }
        requires rook { rook.0 < 120 }
        ensures { GoesTo values.now p.now.cells
            (Next.cells_after values.now (repeat_of p.now) (Castle from to rook gate)) self result }
    {
        let mut draft = Draft {
            cells: p.cells,
            tally: self,
        };
        draft.castle(values, from, to, rook);
        draft.place(values, p.side, gate);
        draft.tally
    }

    /// The sums with the pieces after the move.
    pub(crate) fn with_pieces(
        self,
        values: &PieceValues,
        rules: &Rules,
        p: &Position,
        m: &Move,
    ) -> Tally
        requires fit { IsFit rules.now }
        requires values { values.now ≡ rules.now }
        requires move_fits { IsFitMove m.now }
        ensures { GoesTo rules.now p.now.cells (Next.cells_after rules.now (repeat_of p.now) m.now) self result }
    {
        match *m {
            Move::Go {
                from,
                to,
                promo,
                gate,
            } => {
                if gate.is_none() && from.0 != to.0 && !passes_by(rules, p, from, to) {
                    self.gone(values, rules, p, from, to, promo)
                } else {
                    self.gone_anyhow(values, rules, p, from, to, promo, gate)
                }
            }
            Move::Castle {
                from,
                to,
                rook,
                gate,
            } => self.castled(values, p, from, to, rook, gate),
            Move::Drop { kind, to } => {
                prove_position_sizes(p);
                let before = cell_at(&p.cells, to);
                self.put(values, to, before, Some(fresh(p.side, kind)))
            }
        }
    }
}
