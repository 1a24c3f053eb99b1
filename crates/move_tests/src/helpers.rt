//! Moves of the names of their squares, and the rows of a text.
use rules_model::{Move, Promo};
use sample_rules::square;

/// The move without a gate.
pub(crate) fn go(from: &str, to: &str, promo: Promo) -> Move {
    Move::Go {
        from: square(from),
        to: square(to),
        promo,
        gate: None,
    }
}

/// The two texts that the first bar of a row separates.
pub(crate) fn halves(row: &str) -> (&str, &str) {
    row.split_once('|').unwrap_or((row, ""))
}
