//! A change of the frame, between two searches.
ghost use Rattle.std.specs.Prelude.{◌≡◌, IfOk, length};
ghost use Rattle.fact_lock.specs.Passes.{IsPassOf, all_parts};
ghost use Rattle.mate_shards.specs.Grown.{HaveParts, owned};
ghost use Rattle.mate_shards.specs.Keeps.{AreKeeps};
ghost use Rattle.mate_shards.specs.Views.{ArePassesOf, AreRebased, IsRebased};

use crate::keeps::Keeps;
use crate::shard::Shard;
use crate::shards::{Passes, Shards};
use fact_lock::{Lock, Pass};
use mate_core::Frame;
use rules_model::Memory;
use std::alloc::Global;

impl Shards {
    /// The shards for another frame. Under the same rules and attacker wins are kept if all positions that are blocked
    /// now were blocked before, and refutations if all that were blocked still are; all else is dropped. Each fact that
    /// is kept stays in its shard, in its order.
    ///
    /// # Errors
    ///
    /// `Memory` where there is none. The shards are then given up.
    pub fn rebase(self, passes: Passes, frame: Frame) -> Result<(Shards, Passes), Memory>
        requires passes { ArePassesOf self passes }
        requires parts { HaveParts all_parts passes }
        ensures frame { IfOk result (λ made. made.0.frame ≡ frame) }
        ensures capacity { IfOk result (λ made. made.0.capacity ≡ self.capacity) }
        ensures shards { IfOk result (λ made. length made.0.locks ≡ length self.locks) }
        ensures passes { IfOk result (λ made. ArePassesOf made.0 made.1) }
        ensures kept { IfOk result (λ made. AreRebased self.frame frame passes made.1) }
        ensures parts { IfOk result (λ made. HaveParts all_parts made.1) }
        ensures owned { IfOk result (λ made. owned made.1 ≡ 0) }
    {
        let Shards {
            frame: old,
            capacity,
            locks: mut closing,
        } = self;
        let Passes { items: mut given } = passes;
        let alloc = *closing.allocator();
        let count = closing.len();
        let mut locks = Vec::with_capacity(alloc, count)?;
        let mut items = Vec::with_capacity(alloc, count)?;
        let keeps = Keeps::between(&old, &frame);
        for _k in 0..count {
            let pass = given.remove(0);
            let (lock, pass) = reopen(alloc, closing.remove(0), pass, &keeps, &old, &frame)?;
            locks.push_reserved(lock);
            items.push_reserved(pass);
        }
        let shards = Shards {
            frame,
            capacity,
            locks,
        };
        Ok((shards, Passes { items }))
    }
}

// Closes one lock and puts what is kept under a new one.
fn reopen(
    alloc: Global,
    lock: Lock<Shard>,
    pass: Pass<Shard>,
    keeps: &Keeps,
    old: &Frame,
    new: &Frame,
) -> Result<(Lock<Shard>, Pass<Shard>), Memory>
    requires lock { IsPassOf lock pass }
    requires parts { pass.parts ≡ all_parts }
    requires frame { lock.key.0 ≡ old.now }
    requires keeps { AreKeeps old.now new.now keeps.now }
    ensures key { IfOk result (λ made. made.0.key ≡ (new.now, lock.key.1)) }
    ensures pass { IfOk result (λ made. IsPassOf made.0 made.1) }
    ensures kept { IfOk result (λ made. IsRebased old.now new.now pass made.1) }
{
    let shard = lock.close(pass).rebased(keeps, old, new);
    Lock::new(alloc, shard)
}
