//! Where the atoms go. The law is the contract of a call that does nothing.
ghost use Rattle.std.specs.Prelude.{ℕ};
ghost use Rattle.betza_text.specs.declared.part.Part.{Part};
ghost use Rattle.betza_text.specs.Legs.{legs_of, AreAllSteps, AreItsSteps};
ghost use Rattle.betza_text.specs.Steps.{all_steps, shape_of};

/// The steps of an atom are all steps with its legs, and those of a part are the ones among them that its direction
/// letters pick: each once, by rank and then by file, a king's and a queen's along ranks and files first.
pub fn steps_go_by_legs()
    ensures atoms { (atom : ℕ) → AreAllSteps (legs_of atom) (all_steps (shape_of atom)) }
    ensures parts { (part : Part) → AreItsSteps part }
{}
