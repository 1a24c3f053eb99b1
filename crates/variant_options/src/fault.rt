//! The faults of a line.
use betza_text::BetzaFault;

/// Why a line of a section is refused.
#[derive(Clone, Copy, PartialEq, Eq)]
pub enum LineFault {
    /// The key is none of the options, the pieces and the keys that are skipped.
    UnsupportedOption,
    /// The value is not of the key's kind.
    BadValue,
    /// The word of a piece has this fault.
    BadPiece(BetzaFault),
}
