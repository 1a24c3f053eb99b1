//! The squares of the pieces that attack a king, by walking the terms of the pieces.
ghost use Rattle.std.specs.Prelude.{◌≡◌, ◌↔◌, ◌<◌, ℕ, [], false, not, true, IfOk};
ghost use Rattle.foundation.specs.Count.{any_below};
ghost use Rattle.foundation.specs.Member.{Member};
ghost use Rattle.rules_model.specs.Attacks as Attacks;
ghost use Rattle.rules_model.specs.Fit.{IsFit};
ghost use Rattle.checkers.specs.Checkers.{IsAscending, attacks_king_on, checkers, is_checker};

use rules_model::attacks::{is_diagonal, is_own_king};
use rules_model::kinds::{board_of, names};
use rules_model::movement::kind_takes;
use rules_model::{Cells, Kind, Position, Rules, SQUARES, Side, Square};
use std::alloc::{AllocError, Global};

fn attacks_as(
    rules: &Rules,
    cells: &Cells,
    side: Side,
    kind: Kind,
    from: Square,
    to: Square,
) -> bool
    requires { IsFit rules.now }
    ensures { result ≡ Attacks.attacks_as rules.now cells.now side kind from to.0 }
{
    if names(rules.pawn, kind) {
        is_diagonal(board_of(rules), side, from, to)
    } else {
        kind_takes(rules, cells, side, kind, from, to)
    }
}

// Whether a piece of the side stands on `from` and attacks `to`.
#[tactic(auto, unfolding(rules_model::specs::Attacks::attacks_from))]
fn attacks_from(rules: &Rules, cells: &Cells, by: Side, to: Square, from: Square) -> bool
    requires fit { IsFit rules.now }
    requires from { from.0 < 120 }
    ensures { result ≡ Attacks.attacks_from rules.now cells.now by to.0 from.0 }
{
    match cells[from.0 as usize] {
        None => false,
        Some(cell) => cell.side.is(by) && attacks_as(rules, cells, by, cell.kind, from, to),
    }
}

#[tactic(auto, unfolding(rules_model::specs::Attacks::stands_between))]
fn stands_between(cells: &Cells, a: Square, b: Square, at: u8) -> bool
    requires { at < 120 }
    ensures { result ≡ Attacks.stands_between cells.now a.0 b.0 at }
{
    Square(at).file() == a.file()
        && a.0.min(b.0) < at
        && at < a.0.max(b.0)
        && cells[at as usize].is_some()
}

#[tactic(auto, using(foundation::proofs::CountLemmas::any))]
fn is_open_between(cells: &Cells, a: Square, b: Square) -> bool
    ensures { result ≡ not (any_below (Attacks.stands_between cells.now a.0 b.0) 120) }
{
    for at in 0..SQUARES as u8 {
        if stands_between(cells, a, b, at) {
            return false;
        }
    }
    true
}

// Whether the side's king stands on `from`, on the file of `to`, and all squares between the two are empty.
#[tactic(auto, unfolding(rules_model::specs::Attacks::king_faces))]
fn king_faces(rules: &Rules, cells: &Cells, by: Side, to: Square, from: Square) -> bool
    requires { from.0 < 120 }
    ensures { result ≡ Attacks.king_faces rules.now cells.now by to.0 from.0 }
{
    is_own_king(rules, by, cells[from.0 as usize])
        && from.file() == to.file()
        && is_open_between(cells, from, to)
}

// Whether a king of the side stands on `to`, and the other side's piece on `from` attacks it.
#[tactic(auto, unfolding(crate::specs::Checkers::attacks_king_on))]
fn attacks_king_on(rules: &Rules, cells: &Cells, side: Side, from: Square, to: u8) -> bool
    requires fit { IsFit rules.now }
    requires from { from.0 < 120 }
    requires to { to < 120 }
    ensures { result ≡ attacks_king_on rules.now cells.now side from.0 to }
{
    is_own_king(rules, side, cells[to as usize])
        && (attacks_from(rules, cells, side.other(), Square(to), from)
            || (rules.flying && king_faces(rules, cells, side.other(), Square(to), from)))
}

// Whether the other side's piece on `from` attacks a king of the side.
#[tactic(auto, using(foundation::proofs::CountLemmas::any), unfolding(crate::specs::Checkers::is_checker))]
fn is_checker(rules: &Rules, cells: &Cells, side: Side, from: u8) -> bool
    requires fit { IsFit rules.now }
    requires from { from < 120 }
    ensures { result ≡ is_checker rules.now cells.now side from }
{
    for to in 0..SQUARES as u8 {
        if attacks_king_on(rules, cells, side, Square(from), to) {
            return true;
        }
    }
    false
}

fn checkers_on(
    alloc: Global,
    rules: &Rules,
    cells: &Cells,
    side: Side,
) -> Result<Vec<u8>, AllocError>
    requires fit { IsFit rules.now }
    ensures { IfOk result (λ squares. squares.items ≡ checkers rules.now cells.now side) }
{
    (0..120)
        .filter(|from| is_checker(rules, cells, side, *from))
        .collect(alloc)
}

/// The squares of the pieces that attack the king of the side to move, in the order of the squares. A piece attacks the
/// king where it reaches it by a term that takes, a pawn where it has it diagonally one step forward, and a king that
/// flies where it faces it along an open file (FIDE Laws of Chess, article 3.9).
pub fn checkers(alloc: Global, rules: &Rules, p: &Position) -> Result<Vec<u8>, AllocError>
    requires fit { IsFit rules.now }
    ensures is { IfOk result (λ found. found.items ≡ checkers rules.now p.now.cells p.now.side) }

    // Each square listed has such a piece.
    ensures attack { IfOk result (λ found. (s : ℕ) → Member s found.items
        → is_checker rules.now p.now.cells p.now.side s ≡ true) }

    // Each such piece is listed.
    ensures listed { IfOk result (λ found. (s : ℕ) → s < 120
        → is_checker rules.now p.now.cells p.now.side s ≡ true → Member s found.items) }
    ensures ascending { IfOk result (λ found. IsAscending found.items) }

    // None is listed exactly where the king does not stand attacked, as where there is none.
    ensures safe { IfOk result (λ found. (found.items ≡ [])
        ↔ (Attacks.king_attacked rules.now p.now.cells p.now.side ≡ false)) }
{
    let found = checkers_on(alloc, rules, &p.cells, p.side)?;
    Ok(found)
}
