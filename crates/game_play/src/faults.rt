//! Why a game did not change.
ghost use Rattle.std.specs.Prelude.{◌≡◌};
ghost use Rattle.game_play.specs.declared.faults.PlayFault.TheVariants as Faults;

use std::alloc::AllocError;

/// Why a move was not played.
#[derive(Clone, Copy, PartialEq, Eq)]
pub enum PlayFault {
    /// 1: the move is not legal.
    Illegal,
    /// 2: the move is legal, and the game has 8,192 plies.
    TooLong,
    /// No memory was found.
    Memory,
}

impl From<AllocError> for PlayFault {
    ghost from_gives = { λ _ fault. fault ≡ Faults.Memory };

    fn from(_error: AllocError) -> PlayFault {
        PlayFault::Memory
    }
}

/// There is no move to take back.
#[derive(Clone, Copy, PartialEq, Eq)]
pub struct NothingPlayed;
