//! A game in the hands of C: the pointer of a box, which the library makes and takes apart.
ghost use Rattle.std.specs.Prelude.{◌≡◌, Option, Some, None};
ghost use Rattle.game_play.specs.Played.{Played};
ghost use Rattle.referee_c.specs.Held.{held_coded, held_owns};

use crate::parts::Parts;
use game_play::Game;
use std::alloc::Global;
use std::marker::Model;
use std::mem::replace;
use std::ptr::null_mut;

/// A game that C holds, or none. C reads and writes nothing of it, and never copies it.
#[repr(C)]
#[derive(Drop)]
pub struct HeldGame {
    // The type of what it points to stays out of sight of C.
    at: *mut u8,
    alloc: Global,
    pub ghost game: { Option Played } by { held_coded },
}

impl Model for HeldGame {
    ghost also_owns = { λ h. held_owns h.alloc h.at h.game };
}

impl HeldGame {
    // No game.
    fn closed(alloc: Global) -> HeldGame
        ensures { result.game ≡ None }
    {
        HeldGame {
            at: null_mut(),
            alloc,
        }
    }

    fn of_parts(parts: Parts<Game, Global>) -> HeldGame
        ensures { result.game ≡ Some parts.value }
    {
        let Parts { ptr, alloc } = parts;
        HeldGame {
            at: ptr as *mut u8,
            alloc,
        }
    }

    fn into_parts(self) -> Parts<Game, Global>
        ghost g: { Played }
        requires { self.game ≡ Some g }
        ensures { result.value ≡ g }
    {
        let HeldGame { at, alloc } = self;
        Parts {
            ptr: at as *mut Game,
            alloc,
        }
    }

    /// Takes the game out.
    pub(crate) fn take(&mut self, alloc: Global) -> Box<Game>
        ghost g: { Played }
        requires { self.old.game ≡ Some g }
        ensures is { result.value ≡ g }
        ensures closed { self.new.game ≡ None }
    {
        replace(self, HeldGame::closed(alloc))
            .into_parts()
            .into_box()
    }

    /// Puts a game in.
    pub(crate) fn put(&mut self, game: Box<Game>)
        ensures { self.new.game ≡ Some game.value }
    {
        *self = HeldGame::of_parts(Parts::of(game));
    }
}
