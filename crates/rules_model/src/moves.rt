//! Moves and results.
use crate::board::{Kind, Side, Square};
use std::marker::Model;

/// What a move makes of the piece.
#[derive(Clone, Copy, PartialEq, Eq)]
pub enum Promo {
    Stays,
    /// A pawn becomes a piece of the kind.
    Pawn(Kind),
    /// A piece becomes its promoted kind.
    Plus,
}

/// A hand piece that a castle places.
#[derive(Clone, Copy, PartialEq, Eq)]
pub struct Placed {
    pub kind: Kind,
    pub at: Square,
}

#[derive(Clone, Copy, PartialEq, Eq)]
pub enum Move {
    Go {
        from: Square,
        to: Square,
        promo: Promo,
        gate: Option<Kind>,
    },
    Castle {
        from: Square,
        to: Square,
        rook: Square,
        gate: Option<Placed>,
    },
    Drop {
        kind: Kind,
        to: Square,
    },
}

/// A list of moves.
#[derive(Drop)]
pub struct MoveList {
    pub items: Vec<Move>,
}

impl Model for MoveList {
    ghost use Rattle.std.specs.Prelude.{List};
    ghost use Rattle.rules_model.specs.declared.moves.Move.{Move};

    ghost Value = { List Move };

    ghost view = { λ l. l.items.items };
}

/// What an end is worth to the side that its rule names.
#[derive(Clone, Copy, PartialEq, Eq)]
pub enum Value {
    Win,
    Loss,
    Draw,
}

/// Why a game has ended.
#[derive(Clone, Copy, PartialEq, Eq)]
pub enum Cause {
    Flag,
    Checks,
    Extinction,
    Checkmate,
    Stalemate,
    Repetition,
    MoveCount,
}

/// How a game stands.
#[derive(Clone, Copy, PartialEq, Eq)]
pub enum Outcome {
    Ongoing,
    Won(Side, Cause),
    Drawn(Cause),
}
