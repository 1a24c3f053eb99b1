//! The end of a position before its moves are looked at.
ghost use Rattle.std.specs.Prelude.{◌≡◌};
ghost use Rattle.rules_model.specs.Ends as Ends;
ghost use Rattle.rules_model.specs.Repeats.{repeat_of};
ghost use Rattle.board_sets.specs.Sets.{AreSets};

use crate::flag::has_flag;
use attack_tables::Tables;
use board_sets::BoardSets;
use end_rules::early_end_by;
use rules_model::{Outcome, Position};

/// The same as `early_end` of `end_rules`, by the sets of the board, which the caller has.
pub fn early_end_with(tables: &Tables, p: &Position, sets: &BoardSets) -> Outcome
    requires { AreSets tables.now p.now.side p.now.cells sets.now }
    ensures { result ≡ Ends.early_end tables.now (repeat_of p.now) }
{
    early_end_by(
        tables.rules(),
        p,
        sets.occupied(),
        has_flag(tables, p, sets),
    )
}

/// Whether there is no end.
pub(crate) fn is_ongoing(end: Outcome) -> bool
    ensures { result ≡ Ends.is_ongoing end }
{
    match end {
        Outcome::Ongoing => true,
        Outcome::Won(_, _) => false,
        Outcome::Drawn(_) => false,
    }
}

/// Whether the position has no end by itself before its moves are looked at.
pub(crate) fn goes_on(tables: &Tables, p: &Position, sets: &BoardSets) -> bool
    requires { AreSets tables.now p.now.side p.now.cells sets.now }
    ensures { result ≡ Ends.is_ongoing (Ends.early_end tables.now (repeat_of p.now)) }
{
    is_ongoing(early_end_with(tables, p, sets))
}
