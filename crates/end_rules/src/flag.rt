//! The flag: a piece that reaches its region wins.
ghost use Rattle.std.specs.Prelude.{◌≡◌, ◌<◌};
ghost use Rattle.rules_model.specs.Attacks as Attacks;
ghost use Rattle.rules_model.specs.Ends as Ends;
ghost use Rattle.rules_model.specs.Kinds as Kinds;

use rules_model::kinds::{in_region, names};
use rules_model::{Cell, Cells, Rules, Side};

/// Whether the cell holds a piece of the side's flag kind.
pub fn is_flag_piece(rules: &Rules, side: Side, cell: Option<Cell>) -> bool
    ensures { result ≡ Attacks.is_own side (Kinds.names rules.now.flag_kind) cell }
{
    match cell {
        None => false,
        Some(cell) => cell.side.is(side) && names(rules.flag_kind, cell.kind),
    }
}

#[tactic(auto, unfolding(rules_model::specs::Ends::flag_at))]
fn is_flag_at(rules: &Rules, cells: &Cells, side: Side, at: u8) -> bool
    requires { at < 120 }
    ensures { result ≡ Ends.flag_at rules.now cells.now side at }
{
    is_flag_piece(rules, side, cells[at as usize]) && in_region(&rules.flag_region, side, at)
}

/// Whether a piece of the side's flag kind stands in its flag region, by a look at each square.
#[tactic(auto, using(foundation::proofs::CountLemmas::any), unfolding(rules_model::specs::Ends::has_flag))]
fn finds_flag(rules: &Rules, cells: &Cells, side: Side) -> bool
    ensures { result ≡ Ends.has_flag rules.now cells.now side }
{
    for at in 0..120 {
        if is_flag_at(rules, cells, side, at) {
            return true;
        }
    }
    false
}

/// Whether a piece of the side's flag kind stands in its flag region. Where the variant has no such kind, no square is
/// looked at.
pub(crate) fn has_flag(rules: &Rules, cells: &Cells, side: Side) -> bool
    ensures { result ≡ Ends.has_flag rules.now cells.now side }
{
    match rules.flag_kind {
        None => false,
        Some(_) => finds_flag(rules, cells, side),
    }
}
