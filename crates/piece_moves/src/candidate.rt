//! The test of one move.
ghost use Rattle.std.specs.Prelude.{◌≡◌, Some};
ghost use Rattle.rules_model.specs.Candidates.{own_piece_moves, is_piece_move};
ghost use Rattle.rules_model.specs.Fit.{IsFit};
ghost use Rattle.rules_model.specs.Pieces.{piece_moves};
ghost use Rattle.rules_model.specs.Repeats.{repeat_of};
ghost use Rattle.rules_model.specs.Squares.{cell_at};
ghost use Rattle.board_sets.specs.Sets.{AreSets};
ghost use Rattle.piece_moves.specs.Goals as Goals;

use crate::goal::goes;
use crate::piece::own_piece;
use crate::promotion::{becomes, may_plus, means_castling};
use attack_tables::Tables;
use board_sets::BoardSets;
use rules_model::{Cell, Move, Position, Promo, Rules, Square};

/// Whether the own piece on `from` makes the move.
#[tactic(auto, unfolding(rules_model::specs::Pieces::piece_moves))]
fn makes(
    tables: &Tables,
    p: &Position,
    sets: &BoardSets,
    piece: Cell,
    from: Square,
    to: Square,
    promo: Promo,
) -> bool
    requires sets { AreSets tables.now p.now.side p.now.cells sets.now }
    requires own { Goals.own_piece tables.now p.now.side (cell_at p.now.cells from.0) ≡ Some piece }
    ensures { result ≡ piece_moves tables.now (repeat_of p.now) piece from to promo }
{
    let rules = tables.rules();
    goes(tables, p, sets, piece, from, to)
        && becomes(rules, may_plus(rules, p.side, piece.kind, from, to), promo)
        && !means_castling(rules, p, piece.kind, from, to)
}

fn moves(
    tables: &Tables,
    p: &Position,
    sets: &BoardSets,
    from: Square,
    to: Square,
    promo: Promo,
) -> bool
    requires sets { AreSets tables.now p.now.side p.now.cells sets.now }
    ensures { result ≡ own_piece_moves tables.now (repeat_of p.now) from to promo (cell_at p.now.cells from.0) }
{
    match own_piece(tables.rules(), p, from) {
        None => false,
        Some(piece) => makes(tables, p, sets, piece, from, to, promo),
    }
}

/// Whether the move is an ordinary one of an own piece that is not the pawn, without a gate: to an empty square that it
/// reaches quietly, or to an enemy's that it reaches to take; and with a promotion where it must promote, or may. The
/// king's move that means castling is none. Whether it leaves the king safe is not asked.
#[tactic(auto, unfolding(rules_model::specs::Candidates::is_piece_move))]
pub fn is_candidate(
    rules: &Rules,
    tables: &Tables,
    p: &Position,
    sets: &BoardSets,
    m: &Move,
) -> bool
    requires fit { IsFit rules.now }
    requires tables { tables.now ≡ rules.now }
    requires sets { AreSets rules.now p.now.side p.now.cells sets.now }
    ensures { result ≡ is_piece_move rules.now (repeat_of p.now) m.now }
{
    match *m {
        Move::Go {
            from,
            to,
            promo,
            gate: None,
        } => moves(tables, p, sets, from, to, promo),
        Move::Go { .. } | Move::Castle { .. } | Move::Drop { .. } => false,
    }
}
