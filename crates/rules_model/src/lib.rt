//! The rules of play of chess variants: their public types, and in `specs/` the definitions that every other contract
//! cites.
#![tactic(auto)]

pub use foundation::{Memory, Text};

pub mod attacks;
pub mod board;
pub mod castling;
pub mod copy;
pub mod equal;
pub mod game_laws;
pub mod kinds;
pub mod laws;
pub mod movement;
pub mod moves;
pub mod passing;
pub mod reach;
pub mod rules;
pub mod sizes;
pub mod soundness;

pub use attacks::{attacks_plain, is_attacked, king_attacked};
pub use board::{
    Blocked, BoardSize, Cell, Cells, FILES, KINDS, Kind, Position, RANKS, Region, Repeat, SQUARES,
    Side, Square, Wing, cell_at, repeat_of,
};
pub use copy::copy_of_rules;
pub use equal::{are_same_hands, are_same_rights, is_same_move, is_same_repeat, repeats};
pub use moves::{Cause, Move, MoveList, Outcome, Placed, Promo, Value};
pub use reach::{Ray, reaches_plain};
pub use rules::{KindRule, Rules, Term, Terms, Way};
pub use soundness::sound;
