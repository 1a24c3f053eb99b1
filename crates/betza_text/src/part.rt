//! The parts of a word.
use arrayvec::ArrayVec;
use std::marker::Model;

/// Whether a part's piece moves over another piece, and where it lands then.
#[derive(Clone, Copy, PartialEq, Eq)]
pub enum HopKind {
    /// It moves over nothing.
    No,
    /// Over exactly one piece, and any distance behind it (`p`).
    Over,
    /// To the square right behind the first piece (`g`).
    Behind,
}

/// The direction letters of a part, at most 64, in their order.
#[derive(Drop)]
pub struct Dirs {
    pub items: ArrayVec<u8, 64>,
}

impl Model for Dirs {
    ghost use Rattle.std.specs.Prelude.{List, ℕ};

    ghost Value = { List ℕ };

    ghost view = { λ dirs. dirs.items.items };
}

/// One part of a word: an atom with its modifiers.
#[derive(Drop)]
pub struct Part {
    /// It moves without capture.
    pub quiet: bool,
    /// It captures.
    pub takes: bool,
    /// A piece on the way of the leap blocks it (`n`).
    pub lame: bool,
    pub hop: HopKind,
    /// No letter means all directions.
    pub dirs: Dirs,
    /// The letter of the atom.
    pub atom: u8,
    /// The letter stands twice: the atom's step is repeated.
    pub doubled: bool,
    /// The number behind the atom, at most 11; 0 means no limit.
    pub number: Option<u8>,
}

/// The parts of a word, in order.
#[derive(Drop)]
pub struct Betza {
    pub items: Vec<Part>,
}

impl Model for Betza {
    ghost use Rattle.std.specs.Prelude.{List};
    ghost use Rattle.betza_text.specs.declared.part.Part.{Part};

    ghost Value = { List Part };

    ghost view = { λ betza. betza.items.items };
}

impl Part {
    ghost use Rattle.std.specs.Prelude.{◌≡◌};
    ghost use Rattle.betza_text.specs.Steps as Steps;

    /// Whether its step is repeated: a rider, a doubled atom, or one with a number.
    #[tactic(auto, unfolding(crate::specs::Steps::is_far))]
    pub fn is_far(&self) -> bool
        ensures { result ≡ Steps.is_far self.now }
    {
        matches!(self.atom, b'R' | b'B' | b'Q') || self.doubled || self.number.is_some()
    }
}
