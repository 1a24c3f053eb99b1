//! Moves from short texts.
use rules_model::{Move, Promo};
use sample_rules::square;

/// The move of a text such as `e2e4`, without promotion.
pub fn go(text: &str) -> Move {
    let (from, to) = text.split_at_checked(2).unwrap_or(("", ""));
    Move::Go {
        from: square(from),
        to: square(to),
        promo: Promo::Stays,
        gate: None,
    }
}
