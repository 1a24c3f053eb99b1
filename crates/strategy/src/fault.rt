//! The faults of a text.
use fen_model::FenFault;
use foundation::Memory;
use std::alloc::{AllocError, AllocFailed};
use std::error::Error;
use std::fmt;

/// The first fault of a text that says no strategy, with the number of its line, counted from 1. On one line they come
/// in the order `BadLine`, `BadNumber`, `BadPosition`, `BadMove`.
#[derive(Clone, Copy, Debug, PartialEq, Eq)]
pub enum StrategyFault {
    /// One of the first three lines is not `strategy 1`, `attacker white` or `attacker black`, and `nodes N`, in this
    /// order.
    Header(u64),
    /// A later line has more than 2,048 bytes or is not of the form of a node, an edge or the end, or an edge comes
    /// before any node.
    BadLine(u64),
    /// The FEN of a node says no position.
    BadPosition(u64, FenFault),
    /// The text of an edge's move names none in the position of its node.
    BadMove(u64),
    /// The number of a node is not the next one, its rank is above 65,535, an edge leads to no node, the end comes
    /// before the last node, or there are more nodes than announced.
    BadNumber(u64),
    /// The text ends before its end is said, or goes on after it.
    Ended(u64),
    /// There was no memory.
    Memory,
}

impl fmt::Display for StrategyFault {
    ghost use Rattle.std.specs.Prelude.{Some};
    ghost use Rattle.strategy.specs.Fault.{fault_text};

    ghost output = { λ fault. Some (fault_text fault) };

    /// The type's name, the fault's number, its name and its fields, as
    /// `StrategyFault 3 BadPosition 4 FenFault 3 Letter`.
    fn fmt<W: fmt::Write>(&self, f: &mut fmt::Formatter<W>) -> fmt::Result {
        match *self {
            StrategyFault::Header(line) => write!(f, "StrategyFault 1 Header {line}"),
            StrategyFault::BadLine(line) => write!(f, "StrategyFault 2 BadLine {line}"),
            StrategyFault::BadPosition(line, why) => {
                write!(f, "StrategyFault 3 BadPosition {line} {why}")
            }
            StrategyFault::BadMove(line) => write!(f, "StrategyFault 4 BadMove {line}"),
            StrategyFault::BadNumber(line) => write!(f, "StrategyFault 5 BadNumber {line}"),
            StrategyFault::Ended(line) => write!(f, "StrategyFault 6 Ended {line}"),
            StrategyFault::Memory => f.write_str("StrategyFault Memory"),
        }
    }
}

impl Error for StrategyFault {}

impl From<AllocError> for StrategyFault {
    ghost use Rattle.std.specs.Prelude.{◌≡◌};
    ghost use Rattle.strategy.specs.declared.fault.StrategyFault.TheVariants as fault;

    ghost from_gives = { λ _ given. given ≡ fault.Memory };

    fn from(_error: AllocError) -> Self {
        StrategyFault::Memory
    }
}

impl<T: Drop> From<AllocFailed<T>> for StrategyFault {
    ghost use Rattle.std.specs.Prelude.{◌≡◌};
    ghost use Rattle.strategy.specs.declared.fault.StrategyFault.TheVariants as fault;

    ghost from_gives = { λ _ given. given ≡ fault.Memory };

    fn from(_error: AllocFailed<T>) -> Self {
        StrategyFault::Memory
    }
}

impl From<Memory> for StrategyFault {
    ghost use Rattle.std.specs.Prelude.{◌≡◌};
    ghost use Rattle.strategy.specs.declared.fault.StrategyFault.TheVariants as fault;

    ghost from_gives = { λ _ given. given ≡ fault.Memory };

    fn from(_error: Memory) -> Self {
        StrategyFault::Memory
    }
}
