//! Copies of what a fault tells.
ghost use Rattle.std.specs.Prelude.{◌≡◌, IfOk};

use foundation::Text;
use std::alloc::{AllocError, Global};
use variant_model::SectionFault;

/// A copy of these bytes.
pub(crate) fn text_of(alloc: Global, bytes: &[u8]) -> Result<Text, AllocError>
    ensures { IfOk result (λ text. text ≡ bytes.now) }
{
    let items = bytes.to_vec(alloc)?;
    Ok(Text { items })
}

/// A copy of the fault of a section.
pub fn copy_of(alloc: Global, fault: &SectionFault) -> Result<SectionFault, AllocError>
    ensures { IfOk result (λ copy. copy ≡ fault.now) }
{
    match fault {
        SectionFault::DuplicateName => Ok(SectionFault::DuplicateName),
        SectionFault::UnknownParent => Ok(SectionFault::UnknownParent),
        SectionFault::RefusedParent => Ok(SectionFault::RefusedParent),
        SectionFault::UnsupportedOption(key) => {
            let key = text_of(alloc, key.items.as_slice())?;
            Ok(SectionFault::UnsupportedOption(key))
        }
        SectionFault::BadValue(key) => {
            let key = text_of(alloc, key.items.as_slice())?;
            Ok(SectionFault::BadValue(key))
        }
        SectionFault::BadPiece(key, why) => {
            let key = text_of(alloc, key.items.as_slice())?;
            Ok(SectionFault::BadPiece(key, *why))
        }
        SectionFault::LetterTwice(letter) => Ok(SectionFault::LetterTwice(*letter)),
        SectionFault::BadStart(why) => Ok(SectionFault::BadStart(*why)),
        SectionFault::Inconsistent(number) => Ok(SectionFault::Inconsistent(*number)),
    }
}
