//! The regions of a variant, as sets.
ghost use Rattle.std.specs.Prelude.{◌≡◌, ℕ, ◌<◌, IfOk};
ghost use Rattle.rules_model.specs.Movement.{in_mobility};
ghost use Rattle.square_set.specs.Members.{has};
ghost use Rattle.move_tables.specs.Spots as Spots;

use crate::build::side_of;
use foundation::Memory;
use rules_model::sizes::prove_region_size;
use rules_model::{Kind, Region, Rules, Side};
use square_set::{EMPTY, Set};
use std::alloc::Global;

fn is_of(region: &Region, at: u8) -> bool
    requires { at < 120 }
    ensures { result ≡ Spots.lies_in region.now at }
{
    region.squares[at as usize]
}

/// The squares of the region.
pub fn region_set(region: &Region) -> Set
    ensures { (t : ℕ) → has result t ≡ Spots.lies_in region.now t }
{
    prove_region_size(region);
    let mut set = EMPTY;
    for at in 0..120u8 {
        if is_of(region, at) {
            set = set.with(at);
        }
    }
    set
}

/// The squares that a piece of the kind and the side may reach at all.
fn mobility_set(rules: &Rules, side: Side, kind: Kind) -> Set
    ensures { (t : ℕ) → has result t ≡ in_mobility rules.now side kind t }
{
    match rules.kinds.get(kind.0 as usize) {
        Some(Some(rule)) => region_set(&rule.mobility[side.index()]),
        Some(None) => EMPTY,
        None => EMPTY,
    }
}

/// The regions of each side and kind, in this order.
pub(crate) fn mobility_sets(alloc: Global, rules: &Rules) -> Result<Vec<Set>, Memory>
    ensures { IfOk result (λ sets. Spots.AreRegions rules.now sets.items) }
{
    let mut sets = Vec::with_capacity(alloc, 52)?;
    for i in 0..52usize {
        let kind = Kind((i % 26) as u8);
        sets.push(mobility_set(rules, side_of(i / 26), kind))?;
    }
    Ok(sets)
}
