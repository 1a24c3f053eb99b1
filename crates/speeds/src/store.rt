//! What is measured: a store of facts that threads share.
ghost use Rattle.std.specs.Prelude.{◌≡◌, false};
ghost use Rattle.mate_shards.specs.Refuted.{RefutesAll};
ghost use Rattle.mate_shards.specs.Views.{ArePassesOf};

use crate::drawn::refutation;
use mate_core::Fact;
use mate_shards::{Passes, Published, Shards};
use rules_model::Position;
use std::sync::Wait;

/// A store of facts on which threads work at the same time, each by a right of its own: it is given facts, and asked
/// for the fact of a position.
pub trait Store {
    /// What a thread needs to use the store.
    type Right: Send;

    /// Whether the right is for the store, and the store takes refutations.
    ghost serves: { Self → Self.Right → Type 0 };

    /// Puts a refutation into the store, and answers whether it was stored.
    fn publish<R: Wait>(&self, rt: &R, right: &mut Self::Right, fact: &Fact) -> bool
        requires serves { serves self.now right.old }
        requires kind { fact.now.wins ≡ false }
        ensures { serves self.now right.new };

    /// A fact that says whether the position is won within this many of the attacker's moves, where one is found.
    fn look<R: Wait>(
        &self,
        rt: &R,
        right: &mut Self::Right,
        p: &Position,
        moves: u16,
    ) -> Option<Fact>
        requires { serves self.now right.old }
        ensures { serves self.now right.new };
}

impl Store for Shards {
    type Right = Passes;

    ghost serves = { λ shards passes. ArePassesOf shards passes × RefutesAll shards.frame };

    fn publish<R: Wait>(&self, rt: &R, passes: &mut Passes, fact: &Fact) -> bool {
        Shards::publish(self, rt, passes, fact) == Published::Stored
    }

    fn look<R: Wait>(&self, rt: &R, passes: &mut Passes, p: &Position, moves: u16) -> Option<Fact> {
        Shards::look(self, rt, passes, p, moves)
    }
}

/// Which call is measured.
#[derive(Clone, Copy)]
pub enum Call {
    /// A fact of each position is put into the store.
    Publish,
    /// A fact of each position is looked for.
    Look,
}

/// Makes the call for each of the positions, and answers how many facts were stored, or found.
pub fn call_all<R: Wait, S: Store>(
    rt: &R,
    store: &S,
    right: &mut S::Right,
    positions: &[Position],
    call: Call,
) -> usize
    requires { S.serves store.now right.old }
    ensures { S.serves store.now right.new }
{
    let mut done = 0;
    for p in positions {
        let is_done = match call {
            Call::Publish => store.publish(rt, right, &refutation(p)),
            Call::Look => store.look(rt, right, p, 2).is_some(),
        };
        if is_done {
            done += 1;
        }
    }
    done
}
