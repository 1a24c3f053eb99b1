//! Why a game is not asked for the first moves that win it.
use std::fmt;

/// Why a game is not asked which first moves win it. `Ended` is tested first, and `TooLong` last.
#[derive(Clone, Copy, PartialEq, Eq)]
pub enum KeysFault {
    /// 1: the move-count rule could end the game within the moves.
    NearCount,
    /// 2: the game is not ongoing.
    Ended,
    /// 3: the game has more than 8,190 plies, so that a move and a reply cannot be kept after them.
    TooLong,
}

impl fmt::Display for KeysFault {
    ghost use Rattle.std.specs.Prelude.{Some};
    ghost use Rattle.suite.specs.FirstMoves.{keys_fault_text};

    ghost output = { λ fault. Some (keys_fault_text fault) };

    /// The type's name, the fault's number and its name, as `KeysFault 1 NearCount`.
    fn fmt<W: fmt::Write>(&self, f: &mut fmt::Formatter<W>) -> fmt::Result {
        f.write_str(match *self {
            KeysFault::NearCount => "KeysFault 1 NearCount",
            KeysFault::Ended => "KeysFault 2 Ended",
            KeysFault::TooLong => "KeysFault 3 TooLong",
        })
    }
}
