//! The faults of a text.
use std::error::Error;
use std::fmt;

/// The first fault of a text that says no position.
#[derive(Clone, Copy, Debug, PartialEq, Eq)]
pub enum FenFault {
    /// The text has more than 1,024 bytes, or too few or too many fields.
    Length,
    /// The placement has too few or too many ranks.
    Rank,
    /// A byte of the placement is no letter of the variant, or a mark stands where none may.
    Letter,
    /// The squares of a rank are not as many as the files, or a number of empty squares begins with 0.
    Width,
    /// The pocket has a letter that no hand may hold, or lacks a bracket.
    Pocket,
    /// The side to move is neither `w` nor `b`.
    Side,
    /// A castling right or a gate that the side cannot hold.
    Rights,
    /// The en passant square is none that a pawn can have passed.
    EnPassant,
    /// The checks left are not two numbers up to 99.
    Checks,
    /// The plies since the last capture, or the number of the move, is no number up to 9,999.
    Counter,
    /// A side has not exactly one king.
    Kings,
    /// The side to move attacks the king of the other.
    OpponentAttacked,
    /// There are more than 240 pieces.
    TooMany,
}

impl fmt::Display for FenFault {
    ghost use Rattle.std.specs.Prelude.{Some};
    ghost use Rattle.fen_model.specs.Fault.{fault_text};

    ghost output = { λ fault. Some (fault_text fault) };

    /// The type's name, the fault's number and its name, as `FenFault 3 Letter`.
    fn fmt<W: fmt::Write>(&self, f: &mut fmt::Formatter<W>) -> fmt::Result {
        f.write_str(match *self {
            FenFault::Length => "FenFault 1 Length",
            FenFault::Rank => "FenFault 2 Rank",
            FenFault::Letter => "FenFault 3 Letter",
            FenFault::Width => "FenFault 4 Width",
            FenFault::Pocket => "FenFault 5 Pocket",
            FenFault::Side => "FenFault 6 Side",
            FenFault::Rights => "FenFault 7 Rights",
            FenFault::EnPassant => "FenFault 8 EnPassant",
            FenFault::Checks => "FenFault 9 Checks",
            FenFault::Counter => "FenFault 10 Counter",
            FenFault::Kings => "FenFault 11 Kings",
            FenFault::OpponentAttacked => "FenFault 12 OpponentAttacked",
            FenFault::TooMany => "FenFault 13 TooMany",
        })
    }
}

impl Error for FenFault {}
