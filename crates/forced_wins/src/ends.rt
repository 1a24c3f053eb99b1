//! Which side has won by an end.
ghost use Rattle.std.specs.Prelude.{◌≡◌};
ghost use Rattle.forced_wins.specs.Views as Views;

use rules_model::{Cause, Outcome, Side};

fn is_repetition(cause: Cause) -> bool
    ensures { result ≡ Views.is_repetition cause }
{
    match cause {
        Cause::Repetition => true,
        _ => false,
    }
}

/// Whether the side has won by the outcome, if that is an end: no repetition is a win.
pub fn won_by(side: Side, outcome: Outcome) -> Option<bool>
    ensures { result ≡ Views.won_by side outcome }
{
    match outcome {
        Outcome::Ongoing => None,
        Outcome::Won(winner, cause) => Some(winner.is(side) && !is_repetition(cause)),
        Outcome::Drawn(_) => Some(false),
    }
}
