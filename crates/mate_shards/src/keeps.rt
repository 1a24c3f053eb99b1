//! Which facts a change of the frame keeps.
ghost use Rattle.std.specs.Prelude.{◌≡◌};
ghost use Rattle.forced_wins.specs.Wins.{is_in};
ghost use Rattle.mate_shards.specs.Kept as Kept;
ghost use Rattle.mate_shards.specs.Keeps.{AreKeeps, picks};

use crate::same_rules::are_same_rules;
use mate_core::{Frame, PackedFact};
use rules_model::{Repeat, is_same_repeat};

/// Whether wins are kept, and whether refutations are.
#[derive(Clone, Copy)]
pub struct Keeps {
    pub wins: bool,
    pub refutations: bool,
}

impl Keeps {
    /// What stays true from one frame to another.
    pub fn between(old: &Frame, new: &Frame) -> Keeps
        ensures { AreKeeps old.now new.now result }
    {
        if are_same_rules(&old.rules, &new.rules) && old.attacker.is(new.attacker) {
            Keeps {
                wins: are_in(&new.blocked.items, &old.blocked.items),
                refutations: are_in(&old.blocked.items, &new.blocked.items),
            }
        } else {
            Keeps {
                wins: false,
                refutations: false,
            }
        }
    }

    /// Whether the fact is kept.
    pub fn picks(&self, fact: &PackedFact) -> bool
        ensures { result ≡ picks self.now fact.now }
    {
        if fact.wins() {
            self.wins
        } else {
            self.refutations
        }
    }
}

// Whether each of the first repeats is among the second.
fn are_in(xs: &[Repeat], ys: &[Repeat]) -> bool
    ensures { result ≡ Kept.are_in xs.now ys.now }
{
    xs.iter().all(|x| is_among(x, ys))
}

fn is_among(x: &Repeat, ys: &[Repeat]) -> bool
    ensures { result ≡ is_in ys.now x.now }
{
    ys.iter().any(|y| is_same_repeat(x, y))
}
