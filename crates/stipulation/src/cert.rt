//! Certificates as values.
ghost use Rattle.std.specs.Prelude.{◌≡◌, ◌++◌, ◌∷◌, [], length, take, OnOk};

use rules_model::{Memory, Move};
use std::marker::Model;

/// A move of a certificate's tree.
#[derive(Clone, Copy, PartialEq, Eq)]
pub struct Step {
    /// How many moves lead from the root to the position after this one, it included: from 1 on.
    pub ply: u16,
    pub chosen: Move,
}

/// The steps of a tree in preorder: each before those that follow it, and these before the next of its siblings.
#[derive(Drop)]
pub struct Steps {
    pub items: Vec<Step>,
}

impl Model for Steps {
    ghost use Rattle.std.specs.Prelude.{List};
    ghost use Rattle.stipulation.specs.declared.cert.Step.{Step};

    ghost Value = { List Step };

    ghost view = { λ s. s.items.items };
}

impl Steps {
    pub(crate) fn len(&self) -> usize
        ensures { result ≡ length self.now }
    {
        self.items.len()
    }

    pub(crate) fn push(&mut self, step: Step) -> Result<(), Memory>
        ensures { OnOk result (self.new ≡ self.old ++ step ∷ []) }
    {
        self.items.push(step)?;
        Ok(())
    }

    /// Drops the last steps until N are left.
    pub(crate) fn cut(&mut self, count: usize)
        ensures { self.new ≡ take count self.old }
    {
        self.items.truncate(count);
    }
}

/// How a selfmate is forced, or a helpmate reached, in the game that is the root. The parent of a step is the last
/// earlier step of the ply before it, and the root for ply 1.
#[derive(Drop)]
pub struct Cert {
    pub steps: Steps,
}
