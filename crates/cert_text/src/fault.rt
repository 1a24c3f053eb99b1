//! The faults of the text of a certificate.
use foundation::Memory;
use std::alloc::{AllocError, AllocFailed};
use std::fmt;

/// The first fault of a text that says no certificate for a game, with the number of its line, counted from 1.
#[derive(Clone, Copy, PartialEq, Eq)]
pub enum CertFault {
    /// 1: the line has not its form; or its ply is 0, or more than one above that of the step before, which for the
    /// first step counts as 0; or its move is not the text of a legal move in the position of the parent's game.
    BadLine(u64),
    /// 2: the text ends before its end is said, or goes on after it.
    Ended(u64),
    /// There was no memory, or the text has 2^64 - 1 lines or more.
    Memory,
}

impl fmt::Display for CertFault {
    ghost use Rattle.std.specs.Prelude.{Some};
    ghost use Rattle.cert_text.specs.Fault.{fault_text};

    ghost output = { λ fault. Some (fault_text fault) };

    /// The type's name, the fault's number, its name and its line, as `CertFault 1 BadLine 3`.
    fn fmt<W: fmt::Write>(&self, f: &mut fmt::Formatter<W>) -> fmt::Result {
        match *self {
            CertFault::BadLine(line) => write!(f, "CertFault 1 BadLine {line}"),
            CertFault::Ended(line) => write!(f, "CertFault 2 Ended {line}"),
            CertFault::Memory => f.write_str("CertFault Memory"),
        }
    }
}

impl From<AllocError> for CertFault {
    ghost use Rattle.std.specs.Prelude.{◌≡◌};
    ghost use Rattle.cert_text.specs.declared.fault.CertFault.TheVariants as fault;

    ghost from_gives = { λ _ given. given ≡ fault.Memory };

    fn from(_error: AllocError) -> Self {
        CertFault::Memory
    }
}

impl<T: Drop> From<AllocFailed<T>> for CertFault {
    ghost use Rattle.std.specs.Prelude.{◌≡◌};
    ghost use Rattle.cert_text.specs.declared.fault.CertFault.TheVariants as fault;

    ghost from_gives = { λ _ given. given ≡ fault.Memory };

    fn from(_error: AllocFailed<T>) -> Self {
        CertFault::Memory
    }
}

impl From<Memory> for CertFault {
    ghost use Rattle.std.specs.Prelude.{◌≡◌};
    ghost use Rattle.cert_text.specs.declared.fault.CertFault.TheVariants as fault;

    ghost from_gives = { λ _ given. given ≡ fault.Memory };

    fn from(_error: Memory) -> Self {
        CertFault::Memory
    }
}

/// Why no certificate was read from a source.
#[derive(Clone, Copy, PartialEq, Eq)]
pub enum NoCert {
    /// The lines have this fault, or there was no memory.
    Faulty(CertFault),
    /// The source failed.
    Unread,
}

impl From<CertFault> for NoCert {
    ghost use Rattle.std.specs.Prelude.{◌≡◌};
    ghost use Rattle.cert_text.specs.declared.fault.NoCert.TheVariants as no_cert;

    ghost from_gives = { λ why given. given ≡ no_cert.Faulty why };

    fn from(why: CertFault) -> Self {
        NoCert::Faulty(why)
    }
}

impl From<Memory> for NoCert {
    ghost use Rattle.std.specs.Prelude.{◌≡◌};
    ghost use Rattle.cert_text.specs.declared.fault.CertFault.TheVariants as fault;
    ghost use Rattle.cert_text.specs.declared.fault.NoCert.TheVariants as no_cert;

    ghost from_gives = { λ _ given. given ≡ no_cert.Faulty fault.Memory };

    fn from(_error: Memory) -> Self {
        NoCert::Faulty(CertFault::Memory)
    }
}
