//! Checks: a side that has given all of them wins.
ghost use Rattle.std.specs.Prelude.{◌≡◌};
ghost use Rattle.rules_model.specs.Ends as Ends;
ghost use Rattle.rules_model.specs.Repeats.{repeat_of};

use rules_model::{Cause, Outcome, Position, Rules, Side};

/// Whether the variant counts checks and the side has none left to give.
fn has_none_left(rules: &Rules, p: &Position, side: Side) -> bool
    ensures { result ≡ Ends.has_none_left rules.now (repeat_of p.now) side }
{
    rules.check_counting && p.checks[side.index()] == 0
}

/// The end by checks, which is looked for first for the side that has moved.
pub(crate) fn checks_end(rules: &Rules, p: &Position) -> Outcome
    ensures { result ≡ Ends.checks_end rules.now (repeat_of p.now) }
{
    let moved = p.side.other();
    if has_none_left(rules, p, moved) {
        Outcome::Won(moved, Cause::Checks)
    } else if has_none_left(rules, p, p.side) {
        Outcome::Won(p.side, Cause::Checks)
    } else {
        Outcome::Ongoing
    }
}
