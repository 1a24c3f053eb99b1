//! The squares from which a square may ever be taken on: from the others no piece need be asked.
ghost use Rattle.std.specs.Prelude.{◌≡◌, ℕ, ◌<◌, ◌+◌, ◌*◌, false, IfOk};
ghost use Rattle.rules_model.specs.Sides.{side_index};
ghost use Rattle.square_set.specs.Members.{has};
ghost use Rattle.attack_tables.specs.Masks as Masks;
ghost use Rattle.move_tables.specs.Spots as Spots;

use foundation::Memory;
use move_tables::{Mode, MoveTables};
use rules_model::{Kind, Side, Square};
use square_set::{EMPTY, Set};
use std::alloc::Global;

pub(crate) fn side_of(n: usize) -> Side
    ensures { result ≡ Spots.side_of n }
{
    if n == 0 { Side::White } else { Side::Black }
}

/// The squares on which a piece of the kind may take from the square.
pub(crate) fn range_of_kind(moves: &MoveTables, side: Side, kind: u8, from: u8) -> Set
    requires kind { kind < 26 }
    requires from { from < 120 }
    ensures { (at : ℕ) → at < 120 → has result at ≡ false → Masks.NeverTakes moves.now side kind from at }
{
    moves
        .spot(side, Kind(kind), Square(from), Mode::Take)
        .within
}

/// The squares on which a piece of the side, of whatever kind, may take from the square.
fn range_of(moves: &MoveTables, side: Side, from: u8) -> Set
    requires { from < 120 }
    ensures { Masks.IsRangeOf moves.now side 26 from result }
{
    let mut range = EMPTY;
    for kind in 0..26u8 {
        range = range.or(range_of_kind(moves, side, kind, from));
    }
    range
}

fn ranges(alloc: Global, moves: &MoveTables) -> Result<Vec<Set>, Memory>
    ensures { IfOk result (λ ranges. Masks.AreRanges moves.now ranges.items) }
{
    let mut ranges = Vec::with_capacity(alloc, 240)?;
    for i in 0..240usize {
        ranges.push(range_of(moves, side_of(i / 120), (i % 120) as u8))?;
    }
    Ok(ranges)
}

/// The place of a side's square in a list for each side and square.
pub(crate) fn place_of(side: Side, square: u8) -> usize
    requires { square < 120 }
    ensures is { result ≡ side_index side * 120 + square }
    ensures below { result < 240 }
{
    side.index() * 120 + square as usize
}

/// The squares from which a piece of the side may take on the square, by the ranges of all squares.
fn mask_of(moves: &MoveTables, ranges: &Vec<Set>, side: Side, at: u8) -> Set
    requires ranges { Masks.AreRanges moves.now ranges.now.items }
    requires at { at < 120 }
    ensures { Masks.IsMaskBelow moves.now side 120 at result }
{
    let mut mask = EMPTY;
    for from in 0..120u8 {
        if ranges[place_of(side, from)].has(at) {
            mask = mask.with(from);
        }
    }
    mask
}

/// For each side and square the squares from which a piece of the side may ever take there.
pub(crate) fn masks(alloc: Global, moves: &MoveTables) -> Result<Vec<Set>, Memory>
    ensures { IfOk result (λ masks. Masks.AreMasks moves.now masks.items) }
{
    let ranges = ranges(alloc, moves)?;
    let mut masks = Vec::with_capacity(alloc, 240)?;
    for i in 0..240usize {
        masks.push(mask_of(moves, &ranges, side_of(i / 120), (i % 120) as u8))?;
    }
    Ok(masks)
}
