//! How outcomes print.
ghost use Rattle.std.specs.Prelude.{◌≡◌};
ghost use Rattle.game_text.specs.OutcomeText.{cause_name, side_name};

use rules_model::{Cause, Outcome, Side};
use std::fmt;

fn side_name(side: Side) -> &'static str
    ensures { result.now ≡ side_name side }
{
    match side {
        Side::White => "white",
        Side::Black => "black",
    }
}

/// The word of a cause, as `checkmate`.
pub fn cause_name(cause: Cause) -> &'static str
    ensures { result.now ≡ cause_name cause }
{
    match cause {
        Cause::Flag => "flag",
        Cause::Checks => "checks",
        Cause::Extinction => "extinction",
        Cause::Checkmate => "checkmate",
        Cause::Stalemate => "stalemate",
        Cause::Repetition => "repetition",
        Cause::MoveCount => "movecount",
    }
}

/// How an outcome prints.
#[derive(Drop)]
pub struct Printed(pub Outcome);

impl fmt::Display for Printed {
    ghost use Rattle.std.specs.Prelude.{Some};
    ghost use Rattle.game_text.specs.OutcomeText.{outcome_text};

    ghost output = { λ printed. Some (outcome_text printed.0) };

    /// Who has won by what, or what the draw was by, as `won white checkmate`, `drawn stalemate` or `ongoing`.
    fn fmt<W: fmt::Write>(&self, f: &mut fmt::Formatter<W>) -> fmt::Result {
        match self.0 {
            Outcome::Ongoing => f.write_str("ongoing"),
            Outcome::Won(side, cause) => {
                write!(f, "won {} {}", side_name(side), cause_name(cause))
            }
            Outcome::Drawn(cause) => write!(f, "drawn {}", cause_name(cause)),
        }
    }
}
