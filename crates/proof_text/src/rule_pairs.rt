//! What a proof text tells of a variant's rules.
ghost use Rattle.std.specs.Prelude.{◌≡◌, ◌++◌, ◌<◌, IfOk, OnOk, length, map};
ghost use Rattle.std.specs.Option.{option_copied};
ghost use Rattle.variant_ini.specs.LineView.{pair_view};
ghost use Rattle.variant_model.specs.Told as Told;

use foundation::Memory;
use std::alloc::Global;
use variant_ini::Pair;
use variant_options::keys::{KEYS, key_at};
use variant_rules::LetteredSections;

/// The value of a key in a section; none of a piece that the section does not have.
fn told_value<'a>(sections: &LetteredSections<'a>, section: usize, key: &[u8]) -> Option<&'a [u8]>
    requires { section < length sections.now }
    ensures { option_copied result ≡ Told.told_value sections.now section key.now }
{
    if sections.lacks_piece(section, key) {
        return None;
    }
    sections.sections().resolve(section, key)
}

/// Adds a key with its value, where it has one.
fn push_rule_pair<'a>(
    pairs: &mut Vec<Pair<'a>>,
    key: &'a [u8],
    value: Option<&'a [u8]>,
) -> Result<(), Memory>
    ensures { let pair = Told.with_value key.now (option_copied value.entry) in
        OnOk result (map pair_view pairs.new.items ≡ map pair_view pairs.old.items ++ pair) }
{
    if let Some(value) = value {
        pairs.push(Pair { key, value })?;
    }
    Ok(())
}

/// The pairs that tell a section's rules, in byte order of their keys.
pub(crate) fn rule_pairs<'a>(
    alloc: Global,
    sections: &LetteredSections<'a>,
    section: usize,
) -> Result<Vec<Pair<'a>>, Memory>
    requires { section < length sections.now }
    ensures { IfOk result (λ pairs. map pair_view pairs.items ≡ Told.told sections.now section) }
{
    let mut pairs = Vec::new(alloc);
    for place in 0..KEYS {
        let key = key_at(place);
        push_rule_pair(&mut pairs, key, told_value(sections, section, key))?;
    }
    Ok(pairs)
}
