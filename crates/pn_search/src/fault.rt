//! Why a game is not asked for its least mate.
use std::fmt;

/// Why a game is not asked within how many moves it is won. `Ended` is tested first.
#[derive(Clone, Copy, PartialEq, Eq)]
pub enum PnFault {
    /// 1: the move-count rule could end the game within the moves.
    NearCount,
    /// 2: the game is not ongoing.
    Ended,
}

impl fmt::Display for PnFault {
    ghost use Rattle.std.specs.Prelude.{Some};
    ghost use Rattle.pn_search.specs.MateCount.{pn_fault_text};

    ghost output = { λ fault. Some (pn_fault_text fault) };

    /// The type's name, the fault's number and its name, as `PnFault 1 NearCount`.
    fn fmt<W: fmt::Write>(&self, f: &mut fmt::Formatter<W>) -> fmt::Result {
        f.write_str(match *self {
            PnFault::NearCount => "PnFault 1 NearCount",
            PnFault::Ended => "PnFault 2 Ended",
        })
    }
}
