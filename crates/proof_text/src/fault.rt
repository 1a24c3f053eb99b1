//! The faults of a proof text.
use foundation::Memory;
use std::alloc::{AllocError, AllocFailed};
use std::fmt;
use strategy::StrategyFault;
use variant_fen::FenFault;
use variant_model::SectionFault;

/// The first fault of a text that is no proof text, in the order of its lines. Lines are counted from 1.
#[derive(Drop)]
pub enum ProofFault {
    /// A line `strategy 2`, `rules K`, `start FEN`, `history N` or `goal SIDE N` is missing or not of its form.
    Header(u64),
    /// One of the lines of the rules is missing, is no pair `key = value`, or is one that a variants file cannot have.
    BadRules(u64),
    /// The rules are refused.
    RefusedRules(SectionFault),
    /// The start is no position of the rules.
    BadStart(u64, FenFault),
    /// A line of the history is missing, or is not the text of a legal move.
    BadHistory(u64),
    /// The strategy has this fault, whose line counts in the whole text.
    BadBody(StrategyFault),
    /// There was no memory, or the text has 2^64 - 1 lines or more.
    Memory,
}

impl fmt::Display for ProofFault {
    ghost use Rattle.std.specs.Prelude.{Some};
    ghost use Rattle.proof_text.specs.Fault.{fault_text};

    ghost output = { λ fault. Some (fault_text fault) };

    /// The type's name, the fault's number, its name and its fields, as `ProofFault 3 RefusedRules SectionFault 7
    /// LetterTwice q`.
    fn fmt<W: fmt::Write>(&self, f: &mut fmt::Formatter<W>) -> fmt::Result {
        match self {
            ProofFault::Header(line) => write!(f, "ProofFault 1 Header {line}"),
            ProofFault::BadRules(line) => write!(f, "ProofFault 2 BadRules {line}"),
            ProofFault::RefusedRules(why) => write!(f, "ProofFault 3 RefusedRules {why}"),
            ProofFault::BadStart(line, why) => write!(f, "ProofFault 4 BadStart {line} {why}"),
            ProofFault::BadHistory(line) => write!(f, "ProofFault 5 BadHistory {line}"),
            ProofFault::BadBody(why) => write!(f, "ProofFault 6 BadBody {why}"),
            ProofFault::Memory => f.write_str("ProofFault Memory"),
        }
    }
}

impl From<AllocError> for ProofFault {
    ghost use Rattle.std.specs.Prelude.{◌≡◌};
    ghost use Rattle.proof_text.specs.declared.fault.ProofFault.TheVariants as fault;

    ghost from_gives = { λ _ given. given ≡ fault.Memory };

    fn from(_error: AllocError) -> Self {
        ProofFault::Memory
    }
}

impl<T: Drop> From<AllocFailed<T>> for ProofFault {
    ghost use Rattle.std.specs.Prelude.{◌≡◌};
    ghost use Rattle.proof_text.specs.declared.fault.ProofFault.TheVariants as fault;

    ghost from_gives = { λ _ given. given ≡ fault.Memory };

    fn from(_error: AllocFailed<T>) -> Self {
        ProofFault::Memory
    }
}

impl From<Memory> for ProofFault {
    ghost use Rattle.std.specs.Prelude.{◌≡◌};
    ghost use Rattle.proof_text.specs.declared.fault.ProofFault.TheVariants as fault;

    ghost from_gives = { λ _ given. given ≡ fault.Memory };

    fn from(_error: Memory) -> Self {
        ProofFault::Memory
    }
}
