//! The way of a castle.
ghost use Rattle.std.specs.Prelude.{◌≡◌, ◌<◌, ◌≤◌, not};
ghost use Rattle.foundation.specs.Count.{any_below};
ghost use Rattle.rules_model.specs.Attacks as Attacks;
ghost use Rattle.rules_model.specs.Castling as Castling;
ghost use Rattle.rules_model.specs.Castling.{IsFitCastle};
ghost use Rattle.rules_model.specs.Sides.{other};
ghost use Rattle.rules_model.specs.Squares.{cell_at};
ghost use Rattle.board_sets.specs.Sets.{AreSets};

use attack_tables::Tables;
use board_sets::BoardSets;
use rules_model::attacks::is_own_king;
use rules_model::castling::CastleSquares;
use rules_model::{Cells, Position, Rules, Square};

/// The lowest of its four squares.
fn lowest(castle: &CastleSquares) -> u8
    ensures { result ≡ Castling.lowest castle.now }
{
    let CastleSquares {
        king,
        king_to,
        rook,
        rook_to,
    } = castle;
    king.0.min(king_to.0).min(rook.0.min(rook_to.0))
}

/// The highest of its four squares.
fn highest(castle: &CastleSquares) -> u8
    ensures { result ≡ Castling.highest castle.now }
{
    let CastleSquares {
        king,
        king_to,
        rook,
        rook_to,
    } = castle;
    king.0.max(king_to.0).max(rook.0.max(rook_to.0))
}

/// Whether a piece other than king and rook stands on the square, which is one from the lowest to the highest.
#[tactic(auto, unfolding(rules_model::specs::Castling::in_the_way))]
fn is_in_the_way(cells: &Cells, castle: &CastleSquares, at: u8) -> bool
    requires board { at < 120 }
    requires low { Castling.lowest castle.now ≤ at }
    requires high { at ≤ Castling.highest castle.now }
    ensures { result ≡ Castling.in_the_way cells.now castle.now at }
{
    at != castle.king.0 && at != castle.rook.0 && cells[at as usize].is_some()
}

/// Whether nothing but king and rook stands from the lowest to the highest of its four squares.
#[tactic(auto, using(foundation::proofs::CountLemmas::any))]
fn is_clear(cells: &Cells, castle: &CastleSquares) -> bool
    requires { IsFitCastle castle.now }
    ensures { result ≡ not (any_below (Castling.in_the_way cells.now castle.now) 120) }
{
    for at in lowest(castle)..highest(castle) + 1 {
        if is_in_the_way(cells, castle, at) {
            return false;
        }
    }
    true
}

/// Whether the king of the side to move stands on the square.
pub(crate) fn holds_own_king(rules: &Rules, p: &Position, at: Square) -> bool
    requires { at.0 < 120 }
    ensures { result ≡ Attacks.is_own_king rules.now p.now.side (cell_at p.now.cells at.0) }
{
    is_own_king(rules, p.side, p.cells[at.0 as usize])
}

/// Whether the other side attacks the square.
fn is_attacked(tables: &Tables, p: &Position, sets: &BoardSets, at: Square) -> bool
    requires sets { AreSets tables.now p.now.side p.now.cells sets.now }
    requires at { at.0 < 120 }
    ensures { result ≡ Attacks.attacks tables.now p.now.cells (other p.now.side) at.0 }
{
    let by = p.side.other();
    let occupied = sets.occupied();
    if holds_own_king(tables.rules(), p, at) {
        tables.attacks_king(&p.cells, sets.enemies, occupied, at, by)
    } else {
        tables.piece_attacks(&p.cells, sets.enemies, occupied, at, by)
    }
}

/// Whether the other side attacks no square of the king's way, its start and its target included.
#[tactic(auto, using(foundation::proofs::CountLemmas::any))]
fn is_safe_way(tables: &Tables, p: &Position, sets: &BoardSets, castle: &CastleSquares) -> bool
    requires sets { AreSets tables.now p.now.side p.now.cells sets.now }
    requires castle { IsFitCastle castle.now }
    ensures { result ≡ not (any_below (Castling.king_passes_attack tables.now p.now.cells p.now.side castle.now) 120) }
{
    let from = castle.king.0;
    let to = castle.king_to.0;
    for at in from.min(to)..from.max(to) + 1 {
        if is_attacked(tables, p, sets, Square(at)) {
            return false;
        }
    }
    true
}

/// Whether the way of the castle is open: nothing but king and rook stands on it, and the king's is not attacked.
#[tactic(auto, unfolding(rules_model::specs::Castling::way_is_open))]
pub(crate) fn way_is_open(
    tables: &Tables,
    p: &Position,
    sets: &BoardSets,
    castle: &CastleSquares,
) -> bool
    requires sets { AreSets tables.now p.now.side p.now.cells sets.now }
    requires castle { IsFitCastle castle.now }
    ensures { result ≡ Castling.way_is_open tables.now p.now.cells p.now.side castle.now }
{
    is_clear(&p.cells, castle) && is_safe_way(tables, p, sets, castle)
}
