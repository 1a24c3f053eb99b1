//! The kinds that take on the squares to which they go quietly: of each such kind one set of squares serves for both.
ghost use Rattle.std.specs.Prelude.{◌≡◌, ℕ, ◌<◌, IfOk};
ghost use Rattle.std.specs.Bool.{OnTrue};
ghost use Rattle.std.specs.List.{list_all};
ghost use Rattle.attack_tables.specs.Goals as Goals;

use foundation::Memory;
use move_tables::terms_of;
use rules_model::kinds::names;
use rules_model::{Kind, Rules, Term};
use std::alloc::Global;

fn have_both(terms: &[Term]) -> bool
    ensures { result ≡ list_all Goals.has_both terms.now }
{
    terms.iter().all(|term| term.quiet && term.takes)
}

/// Whether it is known that a piece of the kind reaches the same squares quietly and to take.
fn is_alike(rules: &Rules, kind: Kind) -> bool
    ensures { OnTrue result (Goals.IsAlike rules.now kind) }
{
    if names(rules.pawn, kind) {
        false
    } else {
        have_both(terms_of(rules, kind))
    }
}

/// What is known of each kind, by its number.
pub(crate) fn alike_kinds(alloc: Global, rules: &Rules) -> Result<Vec<bool>, Memory>
    ensures { IfOk result (λ kinds. Goals.AreAlike rules.now kinds.items) }
{
    let mut kinds = Vec::with_capacity(alloc, 26)?;
    for k in 0..26u8 {
        kinds.push(is_alike(rules, Kind(k)))?;
    }
    Ok(kinds)
}
