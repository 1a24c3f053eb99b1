//! The variants of some sections.
ghost use Rattle.std.specs.Prelude.{◌≡◌, ◌<◌, IfOk, Some, length, slice_get};
ghost use Rattle.variant_rules.specs.Entries.{found, has_name};
ghost use Rattle.variant_rules.specs.Playable.{IsPlayable};
ghost use Rattle.variant_rules.specs.View.{IfRules, found_view, lent_named};

use crate::found::Found;
use crate::named::NamedEntry;
use rules_model::Rules;
use std::marker::Model;
use variant_model::SectionFault;

/// The variants of the sections of variants files, in their order, each with its name and with its rules or its first
/// fault. A contract sees the list of these.
#[derive(Drop)]
pub struct Variants {
    entries: Vec<NamedEntry>,
}

impl Model for Variants {
    ghost use Rattle.std.specs.Prelude.{List};
    ghost use Rattle.variant_rules.specs.Entries.{Named};

    ghost Value = { List Named };

    ghost view = { λ v. v.entries.items };
}

// What is found of the name of a section.
fn found_of(named: &NamedEntry) -> Found<'_>
    ensures is { found_view result ≡ Some named.now.entry }
    ensures playable { IfRules result IsPlayable }
{
    match named.entry() {
        Ok(rules) => Found::Rules(rules),
        Err(fault) => Found::Refused(fault),
    }
}

impl Variants {
    pub(crate) fn new(entries: Vec<NamedEntry>) -> Variants
        ensures { result ≡ entries.items }
    {
        Variants { entries }
    }

    /// What the first section of this name is; `Unknown` exactly where no section has it. The rules fit, and their
    /// start is sound. Takes no memory.
    #[tactic(auto, unfolding(crate::specs::Entries::found))]
    pub fn find(&self, name: &[u8]) -> Found<'_>
        ensures is { found_view result ≡ found self.now name.now }
        ensures playable { IfRules result IsPlayable }
    {
        match self.entries.iter().find(|named| named.name() == name) {
            Some(named) => found_of(named),
            None => Found::Unknown,
        }
    }

    /// How many sections there are, the refused ones too.
    pub fn len(&self) -> usize
        ensures { result ≡ length self.now }
    {
        self.entries.len()
    }

    /// The name of a section, with its rules or its first fault. The rules fit, and their start is sound. Takes no
    /// memory.
    pub fn entry(&self, place: usize) -> (&[u8], Result<&Rules, &SectionFault>)
        requires { place < length self.now }
        ensures is { slice_get self.now place ≡ Some (lent_named result) }
        ensures playable { IfOk result.1 (λ rules. IsPlayable rules.now) }
    {
        let named = &self.entries[place];
        (named.name(), named.entry())
    }
}
