//! What stands on the squares after a move.
ghost use Rattle.std.specs.Prelude.{◌≡◌, ◌<◌, IfSome, slice_set};
ghost use Rattle.rules_model.specs.Fit.{IsFit};
ghost use Rattle.rules_model.specs.Moves.{IsFitMove};
ghost use Rattle.rules_model.specs.Next as Next;
ghost use Rattle.rules_model.specs.Pawns as Pawns;
ghost use Rattle.rules_model.specs.Repeats.{repeat_of};
ghost use Rattle.next_position.specs.Parts as Parts;

use rules_model::attacks::ahead;
use rules_model::castling::rook_target;
use rules_model::kinds::{board_of, promoted_of};
use rules_model::{Cell, Cells, Kind, Move, Placed, Position, Promo, Rules, Side, Square};

/// A piece from the hand.
pub fn fresh(side: Side, kind: Kind) -> Cell
    ensures { result ≡ Next.fresh side kind }
{
    Cell {
        side,
        kind,
        origin: None,
    }
}

/// What a gate leaves on the start.
pub fn gated(side: Side, gate: Option<Kind>) -> Option<Cell>
    ensures { result ≡ Next.gated side gate }
{
    match gate {
        None => None,
        Some(kind) => Some(fresh(side, kind)),
    }
}

fn plus(piece: Cell, promoted: Option<Kind>) -> Cell
    ensures { result ≡ Next.plus piece promoted }
{
    match promoted {
        None => piece,
        Some(kind) => Cell {
            side: piece.side,
            kind,
            origin: Some(piece.kind),
        },
    }
}

/// What the piece becomes: a promoted pawn has the origin pawn where takings go to hands.
fn after_promo(rules: &Rules, piece: Cell, promo: Promo) -> Cell
    ensures { result ≡ Next.after_promo rules.now piece promo }
{
    match promo {
        Promo::Stays => piece,
        Promo::Pawn(kind) => Cell {
            side: piece.side,
            kind,
            origin: if rules.to_hand {
                Some(piece.kind)
            } else {
                None
            },
        },
        Promo::Plus => plus(piece, promoted_of(rules, piece.kind)),
    }
}

/// What a move places on its target.
pub fn promote(rules: &Rules, cell: Option<Cell>, promo: Promo) -> Option<Cell>
    ensures { result ≡ Next.promote rules.now cell promo }
{
    match cell {
        None => None,
        Some(piece) => Some(after_promo(rules, piece, promo)),
    }
}

/// The square one step behind a square, as the side sees it.
pub fn behind(rules: &Rules, side: Side, to: Square) -> Option<u8>
    requires { IsFit rules.now }
    ensures is { result ≡ Pawns.behind rules.now side to }
    ensures on_board { IfSome result (λ s. s < 120) }
{
    ahead(board_of(rules), side.other(), to, 1)
}

/// Puts the piece on a square, if there is such a square.
fn put(cells: &mut Cells, at: u8, cell: Option<Cell>)
    ensures { cells.new ≡ slice_set cells.old at cell }
{
    if at < 120 {
        cells[at as usize] = cell;
    }
}

fn empty(cells: &mut Cells, at: Option<u8>)
    ensures { cells.new ≡ Next.emptied cells.old at }
{
    if let Some(at) = at {
        put(cells, at, None);
    }
}

fn castle(cells: &mut Cells, from: Square, to: Square, rook: Square)
    requires from { from.0 < 120 }
    requires to { to.0 < 120 }
    requires rook { rook.0 < 120 }
    ensures { cells.new ≡ Next.castled cells.old from to rook }
{
    let king = cells[from.0 as usize];
    let castling_rook = cells[rook.0 as usize];
    cells[from.0 as usize] = None;
    cells[rook.0 as usize] = None;
    cells[to.0 as usize] = king;
    put(cells, rook_target(from, to, rook), castling_rook);
}

fn place(cells: &mut Cells, side: Side, gate: Option<Placed>)
    ensures { cells.new ≡ Next.placed_on side gate cells.old }
{
    if let Some(placed) = gate {
        put(cells, placed.at.0, Some(fresh(side, placed.kind)));
    }
}

/// Moves the pieces. `passing` says whether a pawn is taken in passing.
pub(crate) fn write(rules: &Rules, side: Side, passing: bool, m: &Move, cells: &mut Cells)
    requires fit { IsFit rules.now }
    requires move_fits { IsFitMove m.now }
    ensures { cells.new ≡ Parts.cells_by rules.now side passing m.now cells.old }
{
    match *m {
        Move::Go {
            from,
            to,
            promo,
            gate,
        } => {
            let piece = promote(rules, cells[from.0 as usize], promo);
            if passing {
                empty(cells, behind(rules, side, to));
            }
            cells[from.0 as usize] = gated(side, gate);
            cells[to.0 as usize] = piece;
        }
        Move::Castle {
            from,
            to,
            rook,
            gate,
        } => {
            castle(cells, from, to, rook);
            place(cells, side, gate);
        }
        Move::Drop { kind, to } => {
            cells[to.0 as usize] = Some(fresh(side, kind));
        }
    }
}

fn cell_on(cells: &Cells, at: Option<u8>) -> Option<Cell>
    requires { IfSome at (λ s. s < 120) }
    ensures { result ≡ Next.cell_on cells.now at }
{
    match at {
        None => None,
        Some(at) => cells[at as usize],
    }
}

/// The piece that a piece takes that goes to the square. `passing` says whether it takes a pawn in passing.
fn taken_at(rules: &Rules, p: &Position, passing: bool, to: Square) -> Option<Cell>
    requires fit { IsFit rules.now }
    requires to { to.0 < 120 }
    ensures { result ≡ Parts.taken_at rules.now (repeat_of p.now) passing to }
{
    if passing {
        cell_on(&p.cells, behind(rules, p.side, to))
    } else {
        p.cells[to.0 as usize]
    }
}

/// The piece that the move takes.
#[tactic(auto, unfolding(rules_model::specs::Next::taken))]
pub(crate) fn taken(rules: &Rules, p: &Position, passing: bool, m: &Move) -> Option<Cell>
    requires fit { IsFit rules.now }
    requires move_fits { IsFitMove m.now }
    requires passing { passing ≡ Parts.is_passing rules.now (repeat_of p.now) m.now }
    ensures { result ≡ Parts.taken_by rules.now (repeat_of p.now) m.now }
{
    match *m {
        Move::Go { to, .. } => taken_at(rules, p, passing, to),
        Move::Castle { .. } => None,
        Move::Drop { .. } => None,
    }
}
