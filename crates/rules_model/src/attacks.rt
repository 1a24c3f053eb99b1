//! What a side attacks, by walking the terms of its pieces.
ghost use Rattle.std.specs.Prelude.{◌≡◌, ◌<◌, not, IfSome};
ghost use Rattle.foundation.specs.Count.{any_below};
ghost use Rattle.rules_model.specs.Squares.{cell_at, step_to};
ghost use Rattle.rules_model.specs.Reach.{IsOnBoard};
ghost use Rattle.rules_model.specs.Kinds as Kinds;
ghost use Rattle.rules_model.specs.Sides as Sides;
ghost use Rattle.rules_model.specs.Attacks as Attacks;
ghost use Rattle.rules_model.specs.Fit.{IsFit};

use crate::board::{BoardSize, Cell, Cells, Kind, Position, SQUARES, Side, Square};
use crate::kinds::{board_of, names};
use crate::movement::kind_takes;
use crate::reach::{Ray, is_target, step, turn};
use crate::rules::Rules;

/// The square so many steps forward and `dx` files to the right at each, as the side sees it.
fn pawn_step(board: BoardSize, side: Side, dx: i8, from: Square, k: u8) -> Option<u8>
    requires { IsOnBoard board }
    ensures is { result ≡ step_to (Attacks.pawn_ray board side dx from) k }
    ensures on_board { IfSome result (λ s. s < 120) }
{
    let ray = Ray {
        board,
        from,
        dx: turn(side, dx),
        dy: turn(side, 1),
    };
    step(&ray, k)
}

/// The square so many steps straight forward, where it is on the board.
pub fn ahead(board: BoardSize, side: Side, from: Square, k: u8) -> Option<u8>
    requires { IsOnBoard board }
    ensures is { result ≡ Attacks.ahead board side from k }
    ensures on_board { IfSome result (λ s. s < 120) }
{
    pawn_step(board, side, 0, from, k)
}

/// Whether `to` is a square diagonally one step forward of `from`, as the side sees it.
#[tactic(auto, unfolding(crate::specs::Attacks::is_diagonal))]
pub fn is_diagonal(board: BoardSize, side: Side, from: Square, to: Square) -> bool
    requires { IsOnBoard board }
    ensures { result ≡ Attacks.is_diagonal board side from to.0 }
{
    is_target(pawn_step(board, side, 1, from, 1), to)
        || is_target(pawn_step(board, side, -1, from, 1), to)
}

fn attacks_as(
    rules: &Rules,
    cells: &Cells,
    side: Side,
    kind: Kind,
    from: Square,
    to: Square,
) -> bool
    requires { IsFit rules.now }
    ensures { result ≡ Attacks.attacks_as rules.now cells.now side kind from to.0 }
{
    if names(rules.pawn, kind) {
        is_diagonal(board_of(rules), side, from, to)
    } else {
        kind_takes(rules, cells, side, kind, from, to)
    }
}

#[tactic(auto, unfolding(crate::specs::Attacks::attacks_from))]
fn attacks_from(rules: &Rules, cells: &Cells, by: Side, to: Square, from: u8) -> bool
    requires fit { IsFit rules.now }
    requires from { from < 120 }
    ensures { result ≡ Attacks.attacks_from rules.now cells.now by to.0 from }
{
    match cells[from as usize] {
        None => false,
        Some(cell) => {
            cell.side.is(by) && attacks_as(rules, cells, by, cell.kind, Square(from), to)
        }
    }
}

#[tactic(auto, using(foundation::proofs::CountLemmas::any))]
fn is_attacked_by_piece(rules: &Rules, cells: &Cells, by: Side, at: Square) -> bool
    requires { IsFit rules.now }
    ensures { result ≡ any_below (Attacks.attacks_from rules.now cells.now by at.0) 120 }
{
    for from in 0..SQUARES as u8 {
        if attacks_from(rules, cells, by, at, from) {
            return true;
        }
    }
    false
}

#[tactic(auto, unfolding(crate::specs::Attacks::stands_between))]
fn stands_between(cells: &Cells, a: Square, b: Square, at: u8) -> bool
    requires { at < 120 }
    ensures { result ≡ Attacks.stands_between cells.now a.0 b.0 at }
{
    Square(at).file() == a.file()
        && a.0.min(b.0) < at
        && at < a.0.max(b.0)
        && cells[at as usize].is_some()
}

#[tactic(auto, using(foundation::proofs::CountLemmas::any))]
fn is_open_between(cells: &Cells, a: Square, b: Square) -> bool
    ensures { result ≡ not (any_below (Attacks.stands_between cells.now a.0 b.0) 120) }
{
    for at in 0..SQUARES as u8 {
        if stands_between(cells, a, b, at) {
            return false;
        }
    }
    true
}

#[tactic(auto, unfolding(crate::specs::Attacks::king_faces))]
fn king_faces(rules: &Rules, cells: &Cells, by: Side, to: Square, from: u8) -> bool
    requires { from < 120 }
    ensures { result ≡ Attacks.king_faces rules.now cells.now by to.0 from }
{
    is_own_king(rules, by, cells[from as usize])
        && Square(from).file() == to.file()
        && is_open_between(cells, Square(from), to)
}

#[tactic(auto, using(foundation::proofs::CountLemmas::any))]
fn any_king_faces(rules: &Rules, cells: &Cells, by: Side, to: Square) -> bool
    ensures { result ≡ any_below (Attacks.king_faces rules.now cells.now by to.0) 120 }
{
    for from in 0..SQUARES as u8 {
        if king_faces(rules, cells, by, to, from) {
            return true;
        }
    }
    false
}

fn is_king_on(rules: &Rules, cells: &Cells, side: Side, at: Square) -> bool
    ensures { result ≡ Attacks.is_own_king rules.now side (cell_at cells.now at.0) }
{
    match cells.get(at.0 as usize) {
        Some(cell) => is_own_king(rules, side, *cell),
        None => false,
    }
}

/// Whether the flying king of the side attacks the square: the other king is on it, on the file of the side's own king,
/// and all squares between the two are empty.
#[tactic(auto, unfolding(crate::specs::Attacks::flies_to))]
pub fn flies_to(rules: &Rules, cells: &Cells, by: Side, to: Square) -> bool
    ensures { result ≡ Attacks.flies_to rules.now cells.now by to.0 }
{
    rules.flying && is_king_on(rules, cells, by.other(), to) && any_king_faces(rules, cells, by, to)
}

/// Whether the side attacks the square: a piece of it reaches the square by a term that takes, or a pawn of it has the
/// square diagonally one step forward, or its flying king attacks it. But for that king, what stands on the square does
/// not matter.
#[tactic(auto, unfolding(crate::specs::Attacks::attacks))]
pub fn is_attacked(rules: &Rules, cells: &Cells, by: Side, at: Square) -> bool
    requires { IsFit rules.now }
    ensures { result ≡ Attacks.attacks rules.now cells.now by at.0 }
{
    is_attacked_by_piece(rules, cells, by, at) || flies_to(rules, cells, by, at)
}

/// Whether the side attacks the square in the position, by walking the terms of its pieces.
pub fn attacks_plain(rules: &Rules, p: &Position, by: Side, at: Square) -> bool
    requires { IsFit rules.now }
    ensures { result ≡ Attacks.attacks rules.now p.now.cells by at.0 }
{
    is_attacked(rules, &p.cells, by, at)
}

/// Whether the side's king stands there.
pub fn is_own_king(rules: &Rules, side: Side, cell: Option<Cell>) -> bool
    ensures { result ≡ Attacks.is_own_king rules.now side cell }
{
    match cell {
        None => false,
        Some(cell) => cell.side.is(side) && names(rules.king, cell.kind),
    }
}

/// Whether a pawn of the side stands there.
pub fn is_own_pawn(rules: &Rules, side: Side, cell: Option<Cell>) -> bool
    ensures { result ≡ Attacks.is_own_pawn rules.now side cell }
{
    match cell {
        None => false,
        Some(cell) => cell.side.is(side) && names(rules.pawn, cell.kind),
    }
}

#[tactic(auto, unfolding(crate::specs::Attacks::king_attacked_at))]
fn king_attacked_at(rules: &Rules, cells: &Cells, side: Side, at: u8) -> bool
    requires fit { IsFit rules.now }
    requires at { at < 120 }
    ensures { result ≡ Attacks.king_attacked_at rules.now cells.now side at }
{
    is_own_king(rules, side, cells[at as usize])
        && is_attacked(rules, cells, side.other(), Square(at))
}

/// Whether the side's king stands attacked. In a variant without a king it never does.
#[tactic(auto, using(foundation::proofs::CountLemmas::any), unfolding(crate::specs::Attacks::king_attacked))]
pub fn king_attacked(rules: &Rules, cells: &Cells, side: Side) -> bool
    requires { IsFit rules.now }
    ensures { result ≡ Attacks.king_attacked rules.now cells.now side }
{
    for at in 0..SQUARES as u8 {
        if king_attacked_at(rules, cells, side, at) {
            return true;
        }
    }
    false
}

/// Whether there is such a square, and a pawn of the side stands on it.
pub fn pawn_at(rules: &Rules, cells: &Cells, side: Side, at: Option<u8>) -> bool
    requires { IfSome at (λ s. s < 120) }
    ensures { result ≡ Attacks.pawn_at rules.now cells.now side at }
{
    match at {
        None => false,
        Some(at) => is_own_pawn(rules, side, cells[at as usize]),
    }
}

/// Whether a pawn of the side has the square diagonally one step forward.
#[tactic(auto, unfolding(crate::specs::Attacks::pawn_could_take))]
pub fn pawn_could_take(rules: &Rules, cells: &Cells, side: Side, at: Square) -> bool
    requires { IsFit rules.now }
    ensures { result ≡ Attacks.pawn_could_take rules.now cells.now side at }
{
    let board = board_of(rules);
    pawn_at(rules, cells, side, pawn_step(board, side.other(), 1, at, 1))
        || pawn_at(
            rules,
            cells,
            side,
            pawn_step(board, side.other(), -1, at, 1),
        )
}
