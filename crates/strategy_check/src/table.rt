//! A strategy beside the game that it is to win.
use game_play::Game;
use rules_model::Side;
use strategy::Node;

/// The nodes of a strategy, and the game that they are to win for the attacker.
#[derive(Drop)]
pub(crate) struct Table<'a> {
    pub game: &'a Game,
    pub attacker: Side,
    pub nodes: &'a [Node],
}
