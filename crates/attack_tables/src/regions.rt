//! The regions of the sides, as sets.
ghost use Rattle.std.specs.Prelude.{List};
ghost use Rattle.rules_model.specs.declared.board.Region.{Region};
ghost use Rattle.attack_tables.specs.RegionSets.{AreSideRegions, IsSideRegion};

use move_tables::region_set;
use rules_model::sizes::prove_region_size;
use rules_model::{Region, Side};
use square_set::Set;

/// A region of each side.
#[derive(Clone, Copy)]
pub(crate) struct RegionSets {
    white: Set,
    black: Set,
}

fn side_region(regions: &[Region; 2], side: Side) -> Set
    ensures { IsSideRegion regions.now side result }
{
    let region = &regions[side.index()];
    prove_region_size(region);
    region_set(region)
}

impl RegionSets {
    pub(crate) fn new(regions: &[Region; 2]) -> RegionSets
        ensures { AreSideRegions regions.now result }
    {
        RegionSets {
            white: side_region(regions, Side::White),
            black: side_region(regions, Side::Black),
        }
    }

    /// The region of the side.
    pub(crate) fn of(&self, side: Side) -> Set
        ensures { (regions : List Region) → AreSideRegions regions self.now → IsSideRegion regions side result }
    {
        match side {
            Side::White => self.white,
            Side::Black => self.black,
        }
    }
}
