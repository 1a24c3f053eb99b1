//! Why a run is cut short.
use foundation::Memory as NoMemory;
use std::alloc::AllocError;

/// The status of a run whose source failed.
pub const SOURCE_FAILED: u8 = 4;

/// The status of a run whose sink failed.
pub const SINK_FAILED: u8 = 5;

/// The status of a run that found no memory.
pub const NO_MEMORY: u8 = 7;

/// Why a run is cut short.
#[derive(Clone, Copy, PartialEq, Eq)]
pub enum Stop {
    /// The source failed.
    Source,
    /// The sink failed: it did not take all that it was given.
    Sink,
    /// There was no memory.
    Memory,
}

impl From<NoMemory> for Stop {
    ghost use Rattle.std.specs.Prelude.{◌≡◌};
    ghost use Rattle.one_shot_checks.specs.declared.stop.Stop.TheVariants as stop;

    ghost from_gives = { λ _ given. given ≡ stop.Memory };

    fn from(_error: NoMemory) -> Self {
        Stop::Memory
    }
}

impl From<AllocError> for Stop {
    ghost use Rattle.std.specs.Prelude.{◌≡◌};
    ghost use Rattle.one_shot_checks.specs.declared.stop.Stop.TheVariants as stop;

    ghost from_gives = { λ _ given. given ≡ stop.Memory };

    fn from(_error: AllocError) -> Self {
        Stop::Memory
    }
}
