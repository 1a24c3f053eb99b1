//! What a fact is true in.
use rules_model::{Blocked, Rules, Side};

/// The rules, the positions that may not be entered again, and the side that attacks.
#[derive(Drop)]
pub struct Frame {
    pub rules: Rules,
    pub blocked: Blocked,
    pub attacker: Side,
}
