//! What the workers of a race share.
ghost use Rattle.std.specs.Prelude.{◌≡◌, ◌<◌};
ghost use Rattle.mate_search.specs.Races.{IsTaskOf, root_of};

use crate::shared::Shared;
use game_play::Game;
use mate_shards::Shards;
use playing::Board;
use rules_model::Move;
use std::alloc::Global;

/// What the workers of a race share: whether the game is won within n moves is to be settled, over these shards.
#[derive(Drop)]
pub(crate) struct Race<'r, G> {
    pub alloc: Global,
    pub game: &'r Game,
    /// The attacker's moves, from 1 to 100.
    pub n: u16,
    pub shards: &'r Shards,
    /// The root moves, in the order in which they are taken.
    pub roots: &'r [Move],
    pub shared: &'r Shared,
    pub gate: &'r G,
    /// How many nodes each worker beside the first may enter.
    pub quota: Option<u64>,
    /// For how many nodes the worker in the caller grows a tree first.
    pub tree_nodes: u64,
}

/// What a worker is to settle: the moves of a position, with N moves left for the attacker after each.
#[derive(Clone, Copy)]
pub(crate) struct RootTask {
    pub left: u16,
    pub attacking: bool,
}

impl<G> Race<'_, G> {
    /// The board of the root.
    pub fn board(&self) -> Board<'_>
        ensures { result ≡ root_of self.now }
    {
        Board::new(self.game.tables(), self.game.position())
    }

    /// Tells that the root move wins.
    pub fn favour(&self, chosen: &Move) {
        for i in 0..self.roots.len() {
            if self.roots[i] == *chosen {
                self.shared.favour(i);
            }
        }
    }

    /// The root move that is to be tried first: one that wins, as far as is known, else the first.
    pub fn first(&self) -> Option<Move> {
        self.roots.get(self.shared.favoured()).copied()
    }

    /// What the root moves are to be settled for.
    pub fn task(&self) -> RootTask
        requires { 0 < self.now.n }
        ensures { IsTaskOf self.now result }
    {
        let attacking = self.game.position().side.is(self.shards.frame().attacker);
        let left = if attacking { self.n - 1 } else { self.n };
        RootTask { left, attacking }
    }
}
