//! What is found of a name.
use rules_model::Rules;
use variant_model::SectionFault;

/// What is found of a variant's name.
#[derive(Clone, Copy)]
pub enum Found<'a> {
    /// The rules of the first section of this name.
    Rules(&'a Rules),
    /// Why the first section of this name is refused.
    Refused(&'a SectionFault),
    /// No section has this name.
    Unknown,
}
