//! Why a file of variants gives no sections.
ghost use Rattle.std.specs.Prelude.{◌≡◌};
ghost use Rattle.variant_rules.specs.declared.fault.NoSections.TheVariants as no_sections;
ghost use Rattle.variant_rules.specs.FaultView.{ini_refusal};

use foundation::Memory;
use std::alloc::AllocError;
use std::fmt;
use variant_ini::IniFault;

/// Why a file was not read.
#[derive(Clone, Copy, PartialEq, Eq)]
pub enum FileFault {
    /// There is no file of this name.
    Missing,
    /// The file has more than 1,048,576 bytes.
    TooLarge,
    /// The files failed.
    Failed,
}

impl fmt::Display for FileFault {
    ghost use Rattle.std.specs.Prelude.{Some};
    ghost use Rattle.variant_rules.specs.Loading.{file_fault_text};

    ghost output = { λ fault. Some (file_fault_text fault) };

    /// The type's name, the fault's number and its name, as `FileFault 1 Missing`.
    fn fmt<W: fmt::Write>(&self, f: &mut fmt::Formatter<W>) -> fmt::Result {
        f.write_str(match *self {
            FileFault::Missing => "FileFault 1 Missing",
            FileFault::TooLarge => "FileFault 2 TooLarge",
            FileFault::Failed => "FileFault 3 Failed",
        })
    }
}

/// How the fault of a file's lines prints.
#[derive(Drop)]
pub struct PrintedIni(pub IniFault);

impl fmt::Display for PrintedIni {
    ghost use Rattle.std.specs.Prelude.{Some};
    ghost use Rattle.variant_rules.specs.Loading.{ini_fault_text};

    ghost output = { λ fault. Some (ini_fault_text fault.0) };

    /// The type's name, the fault's number, its name and its line, as `IniFault 4 NoSection 1`.
    fn fmt<W: fmt::Write>(&self, f: &mut fmt::Formatter<W>) -> fmt::Result {
        match self.0 {
            IniFault::TooLarge => f.write_str("IniFault 1 TooLarge"),
            IniFault::NotAscii(line) => write!(f, "IniFault 2 NotAscii {line}"),
            IniFault::LineTooLong(line) => write!(f, "IniFault 3 LineTooLong {line}"),
            IniFault::NoSection(line) => write!(f, "IniFault 4 NoSection {line}"),
            IniFault::BadLine(line) => write!(f, "IniFault 5 BadLine {line}"),
            IniFault::TooManySections(line) => write!(f, "IniFault 6 TooManySections {line}"),
            IniFault::Memory => f.write_str("IniFault Memory"),
        }
    }
}

/// Why a file of variants is refused.
#[derive(Clone, Copy, PartialEq, Eq)]
pub enum LoadFault {
    /// It was not read.
    File(FileFault),
    /// It is not of its format.
    Ini(IniFault),
}

impl fmt::Display for LoadFault {
    ghost use Rattle.std.specs.Prelude.{Some};
    ghost use Rattle.variant_rules.specs.Loading.{load_fault_text};

    ghost output = { λ fault. Some (load_fault_text fault) };

    /// The fault, as it prints itself.
    fn fmt<W: fmt::Write>(&self, f: &mut fmt::Formatter<W>) -> fmt::Result {
        match *self {
            LoadFault::File(fault) => write!(f, "{fault}"),
            LoadFault::Ini(fault) => write!(f, "{}", PrintedIni(fault)),
        }
    }
}

/// Why a file of variants gives no sections.
#[derive(Clone, Copy, PartialEq, Eq)]
pub enum NoSections {
    /// It is refused.
    Fault(LoadFault),
    /// There was no memory.
    Memory,
}

impl From<Memory> for NoSections {
    ghost from_gives = { λ _ given. given ≡ no_sections.Memory };

    fn from(_error: Memory) -> Self {
        NoSections::Memory
    }
}

impl From<AllocError> for NoSections {
    ghost from_gives = { λ _ given. given ≡ no_sections.Memory };

    fn from(_error: AllocError) -> Self {
        NoSections::Memory
    }
}

impl From<IniFault> for NoSections {
    ghost from_gives = { λ why given. given ≡ ini_refusal why };

    fn from(why: IniFault) -> Self {
        match why {
            IniFault::Memory => NoSections::Memory,
            why => NoSections::Fault(LoadFault::Ini(why)),
        }
    }
}
