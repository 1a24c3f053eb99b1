//! What a piece of a kind reaches in a variant: by the terms of its kind, within its mobility region.
ghost use Rattle.std.specs.Prelude.{◌≡◌, ◌&&◌};
ghost use Rattle.std.specs.List.{list_any, filter};
ghost use Rattle.rules_model.specs.Fit.{IsFit};
ghost use Rattle.rules_model.specs.Movement as Movement;
ghost use Rattle.rules_model.specs.Regions as Regions;

use crate::board::{Cells, Kind, Side, Square};
use crate::kinds::{board_of, in_region, names};
use crate::reach::reaches_plain;
use crate::rules::{Rules, Term};

/// The rank of the square as the side counts it: 1 for its own first rank.
pub fn rank_for(rules: &Rules, side: Side, at: Square) -> u8
    ensures { result ≡ Regions.rank_for rules.now side at.0 }
{
    match side {
        Side::White => at.rank() + 1,
        Side::Black => rules.ranks.saturating_sub(at.rank()),
    }
}

/// Whether the square lies in the kind's mobility region for the side.
pub fn in_mobility(rules: &Rules, side: Side, kind: Kind, at: Square) -> bool
    ensures { result ≡ Movement.in_mobility rules.now side kind at.0 }
{
    match rules.kinds.get(kind.0 as usize) {
        Some(Some(rule)) => in_region(&rule.mobility, side, at.0),
        Some(None) => false,
        None => false,
    }
}

/// Whether the kind is the soldier and the square lies on a rank below that of its promotion: from there it goes
/// straight forward alone.
pub fn is_held_back(rules: &Rules, side: Side, kind: Kind, from: Square) -> bool
    ensures { result ≡ Movement.is_held_back rules.now side kind from }
{
    names(rules.soldier, kind) && rank_for(rules, side, from) < rules.soldier_rank
}

/// Whether the term goes along the file.
pub fn is_straight(term: &Term) -> bool
    ensures { result ≡ Movement.is_straight term.now }
{
    term.dx == 0
}

fn takes_to(rules: &Rules, cells: &Cells, side: Side, term: &Term, from: Square, to: Square) -> bool
    requires { IsFit rules.now }
    ensures { result ≡ Movement.takes_by rules.now cells.now side from to.0 term.now }
{
    term.takes && reaches_plain(board_of(rules), cells, side, term, from, to)
}

fn any_takes(
    rules: &Rules,
    cells: &Cells,
    side: Side,
    terms: &[Term],
    from: Square,
    to: Square,
) -> bool
    requires { IsFit rules.now }
    ensures { result ≡ list_any (Movement.takes_by rules.now cells.now side from to.0) terms.now }
{
    terms
        .iter()
        .any(|term| takes_to(rules, cells, side, term, from, to))
}

fn any_straight_takes(
    rules: &Rules,
    cells: &Cells,
    side: Side,
    terms: &[Term],
    from: Square,
    to: Square,
) -> bool
    requires { IsFit rules.now }
    ensures { result ≡ list_any (Movement.takes_by rules.now cells.now side from to.0)
        (filter Movement.is_straight terms.now) }
{
    terms
        .iter()
        .filter(|term| is_straight(*term))
        .any(|term| takes_to(rules, cells, side, term, from, to))
}

/// Whether a piece of the kind on `from` reaches `to` by a term that takes. What stands on the two squares does not
/// matter.
#[tactic(auto, unfolding(crate::specs::Movement::kind_reaches))]
pub fn kind_takes(
    rules: &Rules,
    cells: &Cells,
    side: Side,
    kind: Kind,
    from: Square,
    to: Square,
) -> bool
    requires { IsFit rules.now }
    ensures { result ≡ Movement.kind_reaches rules.now cells.now side kind (λ t. t.takes) from to.0 }
{
    match rules.kinds.get(kind.0 as usize) {
        Some(Some(rule)) => {
            let terms = &rule.terms;
            let terms = terms.items.as_slice();
            in_mobility(rules, side, kind, to)
                && if is_held_back(rules, side, kind, from) {
                    any_straight_takes(rules, cells, side, terms, from, to)
                } else {
                    any_takes(rules, cells, side, terms, from, to)
                }
        }
        Some(None) => false,
        None => false,
    }
}
