//! The facts of mates that a session keeps from one solve to the next.
ghost use Rattle.std.specs.Prelude.{◌≡◌, ◌≤◌, IfOk};
ghost use Rattle.fact_lock.specs.Passes.{all_parts};
ghost use Rattle.mate_shards.specs.Grown.{HaveParts};
ghost use Rattle.mate_shards.specs.Views.{ArePassesOf};
ghost use Rattle.session_model.specs.declared.options.TheConstants.{LEAST_MATE_FACTS, MOST_MATE_FACTS};

use foundation::Memory;
use mate_core::Frame;
use mate_shards::{Passes, Shards, USUAL_SHARDS};
use std::alloc::Global;
use std::marker::Model;

/// Shards and all passes for them. Contracts see the frame of the shards.
#[derive(Drop)]
pub(crate) struct SharedFacts {
    shards: Shards,
    passes: Passes,
}

impl Model for SharedFacts {
    ghost use Rattle.mate_core.specs.declared.frame.Frame.{Frame};
    ghost use Rattle.thinking.specs.WholeShards.{AreWhole};

    ghost Value = { Frame };

    ghost view = { λ facts. facts.shards.frame };

    ghost invariant = { λ facts. AreWhole facts.shards facts.passes };
}

impl SharedFacts {
    /// Without facts, with room for N in a shard.
    pub fn new(alloc: Global, frame: Frame, capacity: u32) -> Result<SharedFacts, Memory>
        requires { (LEAST_MATE_FACTS ≤ capacity) × (capacity ≤ MOST_MATE_FACTS) }
        ensures { IfOk result (λ facts. facts ≡ frame) }
    {
        let (shards, passes) = Shards::new(alloc, frame, USUAL_SHARDS, capacity)?;
        Ok(SharedFacts { shards, passes })
    }

    /// With the facts that are still true in another frame, as far as the shards know.
    pub fn rebased(self, frame: Frame) -> Result<SharedFacts, Memory>
        ensures { IfOk result (λ facts. facts ≡ frame) }
    {
        let (shards, passes) = self.into_parts();
        let (shards, passes) = shards.rebase(passes, frame)?;
        Ok(SharedFacts { shards, passes })
    }

    /// These shards, with all passes for them.
    pub fn of(shards: Shards, passes: Passes) -> SharedFacts
        requires passes { ArePassesOf shards passes }
        requires parts { HaveParts all_parts passes }
        ensures { result ≡ shards.frame }
    {
        SharedFacts { shards, passes }
    }

    /// The shards and the passes.
    pub fn into_parts(self) -> (Shards, Passes)
        ensures frame { result.0.frame ≡ self }
        ensures passes { ArePassesOf result.0 result.1 }
        ensures parts { HaveParts all_parts result.1 }
    {
        let SharedFacts { shards, passes } = self;
        (shards, passes)
    }
}
