//! A section's name, with its rules or its first fault.
ghost use Rattle.std.specs.Prelude.{◌≡◌, IfOk};
ghost use Rattle.variant_rules.specs.Playable.{IsPlayable};
ghost use Rattle.variant_rules.specs.View.{lent, unboxed};

use foundation::{Memory, Text};
use rules_model::Rules;
use std::alloc::Global;
use std::marker::Model;
use variant_model::SectionFault;

/// The rules of a section, which are large, or its first fault.
pub(crate) type Entry = Result<Box<Rules>, SectionFault>;

/// A section's name and its entry.
#[derive(Drop)]
pub(crate) struct NamedEntry {
    name: Text,
    entry: Entry,
}

impl Model for NamedEntry {
    ghost use Rattle.std.specs.Prelude.{IfOk};
    ghost use Rattle.variant_rules.specs.Entries.{Named};
    ghost use Rattle.variant_rules.specs.Playable.{IsPlayable};
    ghost use Rattle.variant_rules.specs.View.{unboxed};

    ghost Value = { Named };

    ghost view = { λ e. record { name = e.name; entry = unboxed e.entry } };

    ghost invariant = { λ e. IfOk (unboxed e.entry) IsPlayable };
}

impl NamedEntry {
    pub(crate) fn new(alloc: Global, name: &[u8], entry: Entry) -> Result<NamedEntry, Memory>
        requires { IfOk (unboxed entry) IsPlayable }
        ensures { IfOk result (λ named. named ≡ record { name = name.now; entry = unboxed entry }) }
    {
        let name = Text {
            items: Vec::from_slice(alloc, name)?,
        };
        Ok(NamedEntry { name, entry })
    }

    pub(crate) fn name(&self) -> &[u8]
        ensures { result.now ≡ self.now.name }
    {
        self.name.items.as_slice()
    }

    pub(crate) fn entry(&self) -> Result<&Rules, &SectionFault>
        ensures is { lent result ≡ self.now.entry }
        ensures playable { IfOk result (λ rules. IsPlayable rules.now) }
    {
        match &self.entry {
            Ok(rules) => Ok(&**rules),
            Err(fault) => Err(fault),
        }
    }
}
