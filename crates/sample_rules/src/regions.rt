//! Sets of squares and of kinds.
ghost use Rattle.std.specs.Prelude.{◌≡◌, ◌<◌};
ghost use Rattle.sample_rules.specs.Regions as Regions;

use rules_model::Region;

/// No square.
pub const NOWHERE: Region = Region {
    squares: [false; 120],
};

/// No kind.
pub const NO_KINDS: [bool; 26] = [false; 26];

/// Files and ranks next to one another, counted from 0: from `left` and `low` on, those of `right` and `high` not
/// included.
#[derive(Clone, Copy)]
struct Bounds {
    left: u8,
    right: u8,
    low: u8,
    high: u8,
}

fn is_inside(bounds: Bounds, at: u8) -> bool
    ensures { result ≡ Regions.is_inside bounds at }
{
    bounds.left <= at % 12
        && at % 12 < bounds.right
        && bounds.low <= at / 12
        && at / 12 < bounds.high
}

/// The squares of the files from `left` on and of the ranks from `low` on, counted from 0, up to but not including
/// `right` and `high`.
pub fn area(left: u8, right: u8, low: u8, high: u8) -> Region
    ensures { result ≡ Regions.area left right low high }
{
    area_of(Bounds {
        left,
        right,
        low,
        high,
    })
}

#[tactic(auto, unfolding(crate::specs::Regions::area_of))]
fn area_of(bounds: Bounds) -> Region
    ensures { result ≡ Regions.area_of bounds }
{
    let mut squares = [false; 120];
    for at in 0..120 {
        squares[at] = is_inside(bounds, at as u8);
    }
    Region { squares }
}

/// Whether the letter of the kind is one of these.
pub fn is_listed(letters: &[u8], k: usize) -> bool
    requires { k < 26 }
    ensures { result ≡ Regions.is_listed letters.now k }
{
    let wanted = b'a' as usize + k;
    letters.iter().any(|letter| *letter as usize == wanted)
}

/// The kinds of these letters.
#[tactic(auto, unfolding(crate::specs::Regions::mask_of))]
pub fn mask_of(letters: &[u8]) -> [bool; 26]
    ensures { result ≡ Regions.mask_of letters.now }
{
    let mut mask = [false; 26];
    for k in 0..26 {
        mask[k] = is_listed(letters, k);
    }
    mask
}
