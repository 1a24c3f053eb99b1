//! Why a text was not made into what it says.

use foundation::Memory as NoMemory;
use std::alloc::AllocError;

/// Why nothing was made of a text that has faults of this kind.
#[derive(Drop)]
pub enum Unmade<F> {
    /// The text has this fault.
    Faulty(F),
    /// The source failed.
    Unread,
    /// There was no memory.
    Memory,
}

impl<F: Drop> From<NoMemory> for Unmade<F> {
    ghost use Rattle.std.specs.Prelude.{◌≡◌};
    ghost use Rattle.game_text.specs.declared.unmade.Unmade.TheVariants as unmade;

    ghost from_gives = { λ _ given. given ≡ unmade.Memory };

    fn from(_error: NoMemory) -> Self {
        Unmade::Memory
    }
}

impl<F: Drop> From<AllocError> for Unmade<F> {
    ghost use Rattle.std.specs.Prelude.{◌≡◌};
    ghost use Rattle.game_text.specs.declared.unmade.Unmade.TheVariants as unmade;

    ghost from_gives = { λ _ given. given ≡ unmade.Memory };

    fn from(_error: AllocError) -> Self {
        Unmade::Memory
    }
}
