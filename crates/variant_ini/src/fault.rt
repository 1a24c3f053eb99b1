ghost use Rattle.std.specs.Prelude.{◌≡◌};
ghost use Rattle.variant_ini.specs.declared.fault.IniFault.TheVariants.{Memory};

use std::alloc::{AllocError, AllocFailed};

/// Why a variants file was refused. Lines are counted from 1.
#[derive(Clone, Copy, PartialEq, Eq)]
pub enum IniFault {
    /// 1: the file has more than 1,048,576 bytes.
    TooLarge,
    /// 2: a byte above 127 stands outside a comment.
    NotAscii(usize),
    /// 3: the line has more than 1,024 bytes, its end not counted but for a CR.
    LineTooLong(usize),
    /// 4: a pair stands above the file's first section.
    NoSection(usize),
    /// 5: the line is no comment, no section header and no pair.
    BadLine(usize),
    /// 6: the line opens the file's 513th section.
    TooManySections(usize),
    /// No memory was found.
    Memory,
}

impl From<AllocError> for IniFault {
    ghost from_gives = { λ _ fault. fault ≡ Memory };

    fn from(_error: AllocError) -> IniFault {
        IniFault::Memory
    }
}

impl<T: Drop> From<AllocFailed<T>> for IniFault {
    ghost from_gives = { λ _ fault. fault ≡ Memory };

    fn from(_error: AllocFailed<T>) -> IniFault {
        IniFault::Memory
    }
}
