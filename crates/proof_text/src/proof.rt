//! What a proof text says.
use game_play::Game;
use rules_model::Side;
use strategy::Strategy;

/// A game, the side that is to win it, and how it does.
#[derive(Drop)]
pub struct Proof {
    pub game: Game,
    /// The side of the goal.
    pub attacker: Side,
    /// Within how many of its own moves the side is to win, from 1 to 100.
    pub n: u16,
    pub strategy: Strategy,
}
