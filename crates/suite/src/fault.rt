//! The faults of a suite.
use game_text::Unmade;
use std::fmt;
use variant_fen::FenFault;
use variant_model::SectionFault;

/// The first fault of the lines of a suite. Lines are counted from 1. On one line the first of these is told: that it
/// is too long, and then by the number of the fault.
#[derive(Drop)]
pub enum SuiteFault {
    /// 1: the line is not a name, a number from 1 to 20 and a position, separated by single spaces.
    BadLine(u64),
    /// 2: no variant has the line's name.
    UnknownVariant(u64),
    /// 3: the variant of the line's name is refused.
    RefusedVariant { line: u64, why: SectionFault },
    /// 4: the line says no position of the variant.
    BadPosition { line: u64, why: FenFault },
    /// 5: the move-count rule could end the game within the moves that the line asks for.
    NearCount(u64),
    /// 6: the line has the problem after the 1,000th.
    TooMany(u64),
    /// 7: the line has more than 131,072 bytes.
    LineTooLong(u64),
}

/// Why a suite has no report.
pub type NoSuite = Unmade<SuiteFault>;

impl fmt::Display for SuiteFault {
    ghost use Rattle.std.specs.Prelude.{Some};
    ghost use Rattle.suite.specs.Fault.{fault_text};

    ghost output = { λ fault. Some (fault_text fault) };

    /// The type's name, the fault's number, its name and its fields, as `SuiteFault 5 NearCount 1`.
    fn fmt<W: fmt::Write>(&self, f: &mut fmt::Formatter<W>) -> fmt::Result {
        match self {
            SuiteFault::BadLine(line) => write!(f, "SuiteFault 1 BadLine {line}"),
            SuiteFault::UnknownVariant(line) => write!(f, "SuiteFault 2 UnknownVariant {line}"),
            SuiteFault::RefusedVariant { line, why } => {
                write!(f, "SuiteFault 3 RefusedVariant {line} {why}")
            }
            SuiteFault::BadPosition { line, why } => {
                write!(f, "SuiteFault 4 BadPosition {line} {why}")
            }
            SuiteFault::NearCount(line) => write!(f, "SuiteFault 5 NearCount {line}"),
            SuiteFault::TooMany(line) => write!(f, "SuiteFault 6 TooMany {line}"),
            SuiteFault::LineTooLong(line) => write!(f, "SuiteFault 7 LineTooLong {line}"),
        }
    }
}
