//! A copy of rules.
ghost use Rattle.std.specs.Prelude.{◌≡◌};

use crate::rules::{KindRule, Rules, Terms};
use arrayvec::ArrayVec;

fn terms_of(terms: &Terms) -> Terms
    ensures { result ≡ terms.now }
{
    let mut items = ArrayVec::new();
    for term in terms.items.as_slice() {
        items.push(*term);
    }
    Terms { items }
}

fn rule_of(rule: &Option<KindRule>) -> Option<KindRule>
    ensures { result ≡ rule.now }
{
    match rule {
        None => None,
        Some(rule) => Some(KindRule {
            terms: terms_of(&rule.terms),
            mobility: rule.mobility,
            pawn: rule.pawn,
            promoted: rule.promoted,
        }),
    }
}

fn kinds_of(kinds: &[Option<KindRule>; 26]) -> [Option<KindRule>; 26]
    ensures { result ≡ kinds.now }
{
    let mut copy: [Option<KindRule>; 26] = Default::default();
    for k in 0..26 {
        copy[k] = rule_of(&kinds[k]);
    }
    copy
}

/// The same rules.
pub fn copy_of_rules(rules: &Rules) -> Rules
    ensures { result ≡ rules.now }
{
    Rules {
        kinds: kinds_of(&rules.kinds),
        ..*rules
    }
}
