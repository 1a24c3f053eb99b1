//! Passes are handed to other threads and taken back.
ghost use Rattle.std.specs.Prelude.{◌≡◌, ℕ, ◌+◌, ◌<◌, ◌≤◌, All, IfOk, IfErr, vec_len, vec_capacity};
ghost use Rattle.std.specs.List.{insert};
ghost use Rattle.mate_shards.specs.Grown.{HaveGrown, HaveParts, HaveSeen, owned};
ghost use Rattle.mate_shards.specs.Views.{ArePassesOf, AreHalved, AreJoined};

use crate::shard::Shard;
use crate::shards::{Passes, Shards};
use fact_lock::Pass;

impl Shards {
    /// Cuts one part off each pass, for another thread. The first passes keep their entries and the other parts. Both
    /// have seen as much.
    ///
    /// # Errors
    ///
    /// The passes, unchanged, where there is no memory for the second list.
    pub fn split(&self, passes: Passes) -> Result<(Passes, Passes), Passes>
        requires passes { ArePassesOf self.now passes }
        requires parts { All (λ p. 2 ≤ p.parts) passes }
        ensures first { IfOk result (λ halves. ArePassesOf self.now halves.0) }
        ensures second { IfOk result (λ halves. ArePassesOf self.now halves.1) }
        ensures halves { IfOk result (λ halves. AreHalved passes halves.0 halves.1) }
        ensures parts { IfOk result (λ halves. (n : ℕ) → HaveParts (n + 1) passes → HaveParts n halves.0) }
        ensures part { IfOk result (λ halves. HaveParts 1 halves.1) }
        ensures grown { IfOk result (λ halves. HaveGrown passes halves.0) }
        ensures seen { IfOk result (λ halves. HaveSeen passes halves.1) }
        ensures owned { IfOk result (λ halves. (owned halves.0 ≡ owned passes) × (owned halves.1 ≡ 0)) }
        ensures back { IfErr result (λ back. back ≡ passes) }
    {
        let count = self.locks.len();
        let Ok(mut given) = Vec::with_capacity(*self.locks.allocator(), count) else {
            return Err(passes);
        };
        let Passes { mut items } = passes;
        for k in 0..count {
            let (kept, part) = self.locks[k].split(items.remove(k));
            put_back(&mut items, k, kept);
            given.push_reserved(part);
        }
        Ok((Passes { items }, Passes { items: given }))
    }

    /// Makes two lists of passes one: each pass has then seen what either had, and owns what both did. It takes no
    /// memory.
    pub fn join(&self, a: Passes, b: Passes) -> Passes
        requires first { ArePassesOf self.now a }
        requires second { ArePassesOf self.now b }
        ensures passes { ArePassesOf self.now result }
        ensures joined { AreJoined a b result }
        ensures parts { (m n : ℕ) → HaveParts m a → HaveParts n b → HaveParts (m + n) result }
        ensures first_grown { HaveGrown a result }
        ensures second_grown { HaveGrown b result }
        ensures owned { owned result ≡ owned a + owned b }
    {
        let Passes { mut items } = a;
        let Passes { items: mut others } = b;
        for k in 0..items.len() {
            let other = others.remove(0);
            let joined = self.locks[k].join(items.remove(k), other);
            put_back(&mut items, k, joined);
        }
        Passes { items }
    }
}

// Puts a pass where one was taken out.
fn put_back(items: &mut Vec<Pass<Shard>>, k: usize, pass: Pass<Shard>)
    requires place { k ≤ vec_len items.old }
    requires room { vec_len items.old < vec_capacity items.old }
    ensures items { items.new.items ≡ insert items.old.items k pass }
    ensures len { vec_len items.new ≡ vec_len items.old + 1 }
{
    let Ok(()) = items.insert(k, pass) else {
        unreachable!()
    };
}
