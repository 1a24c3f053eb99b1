//! The nodes of a proof tree.
use rules_model::Move;

/// What is known of a node.
#[derive(Clone, Copy, PartialEq, Eq)]
pub enum State {
    /// It was not looked at yet.
    Open,
    /// Its position is ended, and the attacker has won.
    Won,
    /// Its position is ended otherwise, or the attacker is to move and has no move left.
    Lost,
    /// It has this many children, one for each legal move, and the first has this number.
    Inner { first: u32, count: u32 },
}

/// A node. Its position is not kept: the moves from the root lead to it.
#[derive(Clone, Copy)]
pub struct Node {
    /// The number of the node of which it is a child. The root is its own.
    pub parent: u32,
    pub state: State,
    /// The move that leads to it; none to the root.
    pub chosen: Option<Move>,
    /// How many moves the attacker has left.
    pub left: u8,
    /// Whether the attacker is to move.
    pub attacking: bool,
}
