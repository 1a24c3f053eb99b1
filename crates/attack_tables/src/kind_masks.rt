//! For each kind the squares from which it may ever take on a square.
ghost use Rattle.std.specs.Prelude.{◌≡◌, ◌<◌, ◌+◌, ◌*◌, false, IfOk};
ghost use Rattle.rules_model.specs.Sides.{side_index};
ghost use Rattle.attack_tables.specs.KindMasks as KindMasks;
ghost use Rattle.attack_tables.specs.Masks.{AreMasks, IsMask, NeverTakes};

use crate::masks::{place_of, range_of_kind, side_of};
use foundation::Memory;
use move_tables::MoveTables;
use rules_model::Side;
use square_set::{EMPTY, Set};
use std::alloc::Global;

/// Whether a piece of the kind may take from the one square on the other: where the answer is no it never does. A
/// square above 119 is not asked.
fn may_take(moves: &MoveTables, side: Side, kind: u8, from: u8, at: u8) -> bool
    requires kind { kind < 26 }
    requires at { at < 120 }
    ensures { from < 120 → result ≡ false → NeverTakes moves.now side kind from at }
{
    if from >= 120 {
        return true;
    }
    range_of_kind(moves, side, kind, from).has(at)
}

/// The squares from which a piece of the kind may take on the square, by those from which any piece may.
fn kind_mask_of(moves: &MoveTables, mask: Set, side: Side, kind: u8, at: u8) -> Set
    requires mask { IsMask moves.now side at mask }
    requires kind { kind < 26 }
    requires at { at < 120 }
    ensures { KindMasks.IsKindMask moves.now side kind at result }
{
    let mut takers = EMPTY;
    let mut left = mask;
    while let Some(from) = left.take_first() {
        if may_take(moves, side, kind, from, at) {
            takers = takers.with(from);
        }
    }
    takers
}

/// For each side, square and kind the squares from which a piece of the side and the kind may ever take there.
pub(crate) fn kind_masks(
    alloc: Global,
    moves: &MoveTables,
    masks: &Vec<Set>,
) -> Result<Vec<Set>, Memory>
    requires { AreMasks moves.now masks.now.items }
    ensures { IfOk result (λ masks. KindMasks.AreKindMasks moves.now masks.items) }
{
    let mut all = Vec::with_capacity(alloc, 6240)?;
    for i in 0..6240usize {
        let mask = masks[i / 26];
        let side = side_of(i / 26 / 120);
        all.push(kind_mask_of(moves, mask, side, (i % 26) as u8, (i / 26 % 120) as u8))?;
    }
    Ok(all)
}

/// The place of a kind in a list for each side, square and kind.
pub(crate) fn kind_place_of(side: Side, square: u8, kind: u8) -> usize
    requires square { square < 120 }
    requires kind { kind < 26 }
    ensures is { result ≡ (side_index side * 120 + square) * 26 + kind }
    ensures below { result < 6240 }
{
    place_of(side, square) * 26 + kind as usize
}
