//! The faults of a section.
use betza_text::BetzaFault;
use fen_model::FenFault;
use rules_model::{Kind, Text};
use std::error::Error;
use std::fmt;

/// A key, which prints as the characters of its bytes. The keys of a variants file are ASCII.
#[derive(Clone, Copy)]
struct Key<'a>(&'a [u8]);

impl fmt::Display for Key<'_> {
    ghost use Rattle.std.specs.Prelude.{Some};
    ghost use Rattle.variant_model.specs.Fault.{key_text};

    ghost output = { λ key. Some (key_text key.0.now) };

    fn fmt<W: fmt::Write>(&self, f: &mut fmt::Formatter<W>) -> fmt::Result {
        for byte in self.0 {
            f.write_char(*byte as char)?;
        }
        Ok(())
    }
}

/// Why a section is refused: its first fault, in this order, but that `Inconsistent` comes before `BadStart`.
#[derive(Drop)]
pub enum SectionFault {
    /// A section above has the same name.
    DuplicateName,
    /// No section above has the name of the parent.
    UnknownParent,
    /// The parent is refused.
    RefusedParent,
    /// The section's first faulty line has this key, which is none of the options, the pieces and the keys that are
    /// skipped.
    UnsupportedOption(Text),
    /// The section's first faulty line has this key, and its value is not of the key's kind.
    BadValue(Text),
    /// The section's first faulty line gives the piece of this key a word with this fault.
    BadPiece(Text, BetzaFault),
    /// The section gives this letter, the smallest such, to two pieces.
    LetterTwice(Kind),
    /// The start is no position of the variant.
    BadStart(FenFault),
    /// The rules contradict each other: 1, there is no piece; 2, `promotionPieceTypes` names the pawn or the king; 3,
    /// `promotedPieceType` names the pawn or the king, or has a left letter twice or on the right; 4, `seirawanGating`
    /// without `gating`; 5, `gating` with more than 10 files, or with castling on another rank than 1 or by pawns. The
    /// smallest such number.
    Inconsistent(u8),
}

impl fmt::Display for SectionFault {
    ghost use Rattle.std.specs.Prelude.{Some};
    ghost use Rattle.variant_model.specs.Fault.{fault_text};

    ghost output = { λ fault. Some (fault_text fault) };

    /// The type's name, the fault's number, its name and its fields, as `SectionFault 5 BadValue nFoldRule`.
    fn fmt<W: fmt::Write>(&self, f: &mut fmt::Formatter<W>) -> fmt::Result {
        match self {
            SectionFault::DuplicateName => f.write_str("SectionFault 1 DuplicateName"),
            SectionFault::UnknownParent => f.write_str("SectionFault 2 UnknownParent"),
            SectionFault::RefusedParent => f.write_str("SectionFault 3 RefusedParent"),
            SectionFault::UnsupportedOption(key) => {
                write!(
                    f,
                    "SectionFault 4 UnsupportedOption {}",
                    Key(key.items.as_slice())
                )
            }
            SectionFault::BadValue(key) => {
                write!(f, "SectionFault 5 BadValue {}", Key(key.items.as_slice()))
            }
            SectionFault::BadPiece(key, fault) => {
                write!(
                    f,
                    "SectionFault 6 BadPiece {} {fault}",
                    Key(key.items.as_slice())
                )
            }
            SectionFault::LetterTwice(kind) => {
                write!(
                    f,
                    "SectionFault 7 LetterTwice {}",
                    (b'a' + kind.0 % 26) as char
                )
            }
            SectionFault::BadStart(fault) => write!(f, "SectionFault 8 BadStart {fault}"),
            SectionFault::Inconsistent(number) => write!(f, "SectionFault 9 Inconsistent {number}"),
        }
    }
}
