//! The faults of a word.
use std::alloc::{AllocError, AllocFailed};
use std::error::Error;
use std::fmt;

/// The first fault of a word, with its byte place, counted from 0.
#[derive(Clone, Copy, Debug, PartialEq, Eq)]
pub enum BetzaFault {
    /// The word has no byte.
    Empty(usize),
    /// The word has more than 64 bytes; the place is 64.
    TooLong(usize),
    /// A byte that is no atom stands where an atom should, or the word ends there.
    UnknownAtom(usize),
    /// A modifier that this notation does not have.
    UnsupportedModifier(usize),
    /// One of `m`, `c`, `n`, `p` and `g` for the second time in a part.
    DoubledModifier(usize),
    /// Direction letters that have no one meaning for the atom; the place is the first's.
    AmbiguousDirection(usize),
    /// `n` with an atom that is not N, A, D, H or G, or is doubled or numbered.
    BadLame(usize),
    /// `p` or `g` with an atom that goes one step, or both together; the place is the later's.
    BadHopper(usize),
    /// A number over 11, of more than two digits, or with a 0 before another digit.
    BadNumber(usize),
    /// The atom that brings the terms of the word over 64.
    TooManyTerms(usize),
    /// There was no memory for the parts.
    Memory,
}

impl From<AllocError> for BetzaFault {
    ghost use Rattle.std.specs.Prelude.{◌≡◌};
    ghost use Rattle.betza_text.specs.declared.fault.BetzaFault.TheVariants.{Memory};

    ghost from_gives = { λ _ fault. fault ≡ Memory };

    fn from(_error: AllocError) -> Self {
        BetzaFault::Memory
    }
}

impl<T: Drop> From<AllocFailed<T>> for BetzaFault {
    ghost use Rattle.std.specs.Prelude.{◌≡◌};
    ghost use Rattle.betza_text.specs.declared.fault.BetzaFault.TheVariants.{Memory};

    ghost from_gives = { λ _ fault. fault ≡ Memory };

    fn from(_error: AllocFailed<T>) -> Self {
        BetzaFault::Memory
    }
}

impl fmt::Display for BetzaFault {
    ghost use Rattle.std.specs.Prelude.{Some};
    ghost use Rattle.betza_text.specs.Fault.{fault_text};

    ghost output = { λ fault. Some (fault_text fault) };

    /// The type's name, the fault's number, its name and its place, as `BetzaFault 3 UnknownAtom 5`.
    fn fmt<W: fmt::Write>(&self, f: &mut fmt::Formatter<W>) -> fmt::Result {
        match *self {
            BetzaFault::Empty(place) => write!(f, "BetzaFault 1 Empty {place}"),
            BetzaFault::TooLong(place) => write!(f, "BetzaFault 2 TooLong {place}"),
            BetzaFault::UnknownAtom(place) => write!(f, "BetzaFault 3 UnknownAtom {place}"),
            BetzaFault::UnsupportedModifier(place) => {
                write!(f, "BetzaFault 4 UnsupportedModifier {place}")
            }
            BetzaFault::DoubledModifier(place) => {
                write!(f, "BetzaFault 5 DoubledModifier {place}")
            }
            BetzaFault::AmbiguousDirection(place) => {
                write!(f, "BetzaFault 6 AmbiguousDirection {place}")
            }
            BetzaFault::BadLame(place) => write!(f, "BetzaFault 7 BadLame {place}"),
            BetzaFault::BadHopper(place) => write!(f, "BetzaFault 8 BadHopper {place}"),
            BetzaFault::BadNumber(place) => write!(f, "BetzaFault 9 BadNumber {place}"),
            BetzaFault::TooManyTerms(place) => write!(f, "BetzaFault 10 TooManyTerms {place}"),
            BetzaFault::Memory => f.write_str("BetzaFault Memory"),
        }
    }
}

impl Error for BetzaFault {}
