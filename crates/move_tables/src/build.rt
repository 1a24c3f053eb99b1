//! The spots of a variant.
ghost use Rattle.std.specs.Prelude.{◌≡◌, ℕ, ◌<◌, true, IfOk};
ghost use Rattle.std.specs.List.{list_all};
ghost use Rattle.rules_model.specs.Fit.{IsFit, fits_term};
ghost use Rattle.rules_model.specs.Kinds as Kinds;
ghost use Rattle.rules_model.specs.Movement.{in_mobility};
ghost use Rattle.square_set.specs.Members.{has};
ghost use Rattle.move_tables.specs.Spots as Spots;

use crate::make::add_term;
use crate::mode::Mode;
use crate::region::mobility_sets;
use crate::spot::Spot;
use foundation::Memory;
use rules_model::kinds::{board_of, names};
use rules_model::movement::{is_held_back, is_straight};
use rules_model::{Kind, Rules, Side, Square, Term, Way};
use square_set::{ALL, EMPTY, Set};
use std::alloc::Global;

/// Whether a piece goes by the term in the mode: where it is held back, by those along its file alone.
fn is_used(mode: Mode, held: bool, term: &Term) -> bool
    ensures { result ≡ Spots.is_used mode held term.now }
{
    mode.is_of(term) && (!held || is_straight(term))
}

/// The pawn's two diagonals as leaps that take.
fn diagonals() -> [Term; 2]
    ensures { result ≡ Spots.diagonals }
{
    let right = Term {
        dx: 1,
        dy: 1,
        way: Way::Leap,
        limit: 1,
        quiet: false,
        takes: true,
    };
    [right, Term { dx: -1, ..right }]
}

/// A spot with the parts that the terms of the mode reach from the square.
fn spot_of_terms(
    alloc: Global,
    rules: &Rules,
    side: Side,
    terms: &[Term],
    from: Square,
    mode: Mode,
    held: bool,
) -> Result<Spot, Memory>
    requires fit { IsFit rules.now }
    requires fits { list_all fits_term terms.now ≡ true }
    ensures { IfOk result (λ spot. Spots.IsOfTerms rules.now side (Spots.is_used mode held) terms.now from spot) }
{
    let board = board_of(rules);
    let mut spot = Spot {
        within: EMPTY,
        leaps: EMPTY,
        lines: Vec::new(alloc),
        jumps: Vec::new(alloc),
    };
    for term in terms {
        if is_used(mode, held, term) {
            add_term(&mut spot, board, side, term, from)?;
        }
    }
    Ok(spot)
}

/// The terms of the kind: none where the variant has no such kind.
pub fn terms_of(rules: &Rules, kind: Kind) -> &[Term]
    ensures { result.now ≡ Kinds.terms_of rules.now kind }
{
    match rules.kinds.get(kind.0 as usize) {
        Some(Some(rule)) => {
            let terms = &rule.terms;
            terms.items.as_slice()
        }
        Some(None) => &[],
        None => &[],
    }
}

/// What the kind, whose mobility region this is, reaches from the square.
fn spot_of_kind(
    alloc: Global,
    rules: &Rules,
    side: Side,
    kind: Kind,
    from: Square,
    mode: Mode,
    region: Set,
) -> Result<Spot, Memory>
    requires fit { IsFit rules.now }
    requires kind { kind.0 < 26 }
    requires region { (t : ℕ) → has region t ≡ in_mobility rules.now side kind t }
    ensures { IfOk result (λ spot. Spots.IsOfKind rules.now side kind from mode spot) }
{
    if names(rules.pawn, kind) {
        let spot = spot_of_terms(alloc, rules, side, &diagonals(), from, mode, false)?;
        return Ok(spot.cut(ALL));
    }
    let held = is_held_back(rules, side, kind, from);
    let spot = spot_of_terms(alloc, rules, side, terms_of(rules, kind), from, mode, held)?;
    Ok(spot.cut(region))
}

pub(crate) fn side_of(n: usize) -> Side
    ensures { result ≡ Spots.side_of n }
{
    if n == 0 { Side::White } else { Side::Black }
}

fn mode_of(n: usize) -> Mode
    ensures { result ≡ Spots.mode_of n }
{
    if n == 0 { Mode::Quiet } else { Mode::Take }
}

/// The spot at a place of the list of spots.
fn spot_at(alloc: Global, rules: &Rules, regions: &Vec<Set>, place: usize) -> Result<Spot, Memory>
    requires fit { IsFit rules.now }
    requires regions { Spots.AreRegions rules.now regions.now.items }
    requires place { place < 12480 }
    ensures { IfOk result (λ spot. Spots.IsSpotAt rules.now place spot) }
{
    let side = side_of(place / 6240);
    let kind = Kind((place / 240 % 26) as u8);
    let from = Square((place % 120) as u8);
    let mode = mode_of(place / 120 % 2);
    spot_of_kind(alloc, rules, side, kind, from, mode, regions[place / 240])
}

/// The spots of each side, kind, mode and square, in this order.
pub(crate) fn spots_of(alloc: Global, rules: &Rules) -> Result<Vec<Spot>, Memory>
    requires { IsFit rules.now }
    ensures { IfOk result (λ spots. Spots.AreSpots rules.now spots.items) }
{
    let regions = mobility_sets(alloc, rules)?;
    let mut spots = Vec::with_capacity(alloc, 12480)?;
    for i in 0..12480usize {
        spots.push(spot_at(alloc, rules, &regions, i)?)?;
    }
    Ok(spots)
}
