//! What the workers of a search share.
use crate::shared::SharedMoves;
use game_line::Line;
use hint_table::HintTable;
use negamax::Window;
use rules_model::Move;
use std::alloc::Global;

/// What stays the same through a search.
#[derive(Drop)]
pub(crate) struct Team<'a, G> {
    pub alloc: Global,
    pub hints: &'a HintTable,
    pub gate: &'a G,
    /// How many nodes each worker beside the first may enter.
    pub quota: Option<u64>,
}

/// A race: over which moves, after which line, at which depth, how many plies from the root, and with which window; and
/// what the workers tell each other of them.
#[derive(Drop)]
pub(crate) struct Plan<'a, 'g, G> {
    pub team: &'a Team<'a, G>,
    pub line: &'a Line<'g>,
    pub depth: u8,
    pub ply: u8,
    pub moves: &'a [Move],
    pub window: Window,
    pub shared: &'a SharedMoves,
}
