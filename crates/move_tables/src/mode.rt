//! The two purposes of a term.
ghost use Rattle.std.specs.Prelude.{◌≡◌};
ghost use Rattle.move_tables.specs.Reached as Reached;

use rules_model::Term;

/// What a piece goes to a square for: to stand on an empty one, or to take what stands there.
#[derive(Clone, Copy, PartialEq, Eq)]
pub enum Mode {
    Quiet,
    Take,
}

impl Mode {
    /// Whether the term is one of the mode.
    pub fn is_of(self, term: &Term) -> bool
        ensures { result ≡ Reached.serves self term.now }
    {
        match self {
            Mode::Quiet => term.quiet,
            Mode::Take => term.takes,
        }
    }
}
