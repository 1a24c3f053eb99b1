//! Replies of the other side.
ghost use Rattle.std.specs.Prelude.{◌≡◌, IfOk};
ghost use Rattle.std.specs.List.{list_any};
ghost use Rattle.rules_model.specs.Moves.{same_move};
ghost use Rattle.rules_model.specs.declared.board.Side.{Side};
ghost use Rattle.rules_model.specs.declared.rules.Rules.{Rules};
ghost use Rattle.forced_wins.specs.Tables as Tables;
ghost use Rattle.forced_wins.specs.Views.{seen_by};
ghost use Rattle.strategy_check.specs.Rows.{kept};
ghost use Rattle.strategy_check.specs.AtTable as At;

use crate::table::Table;
use legality::legal_moves;
use rules_model::{Memory, Move, is_same_move};
use std::alloc::Global;
use strategy::Node;

/// Whether the node has an edge for the move.
fn has_edge(v: &Node, m: &Move) -> bool
    ensures { result ≡ list_any (λ e. same_move e.chosen m.now) v.now.edges }
{
    let edges = v.edges.items.as_slice();
    edges.iter().any(|e| is_same_move(&e.chosen, m))
}

/// The first of the moves for which the node has no edge.
fn first_missing(v: &Node, moves: &[Move]) -> Option<Move>
    ensures { (rules : Rules) (a : Side) → result ≡ Tables.first_missing (seen_by rules a) kept v.now moves.now }
{
    for m in moves {
        if !has_edge(v, m) {
            return Some(*m);
        }
    }
    None
}

impl Table<'_> {
    /// The first legal move of the node, which has this end, for which it has no edge, if it is ongoing and the other
    /// side is to move.
    #[tactic(auto, unfolding(forced_wins::specs::Tables::missing_reply))]
    pub fn missing_reply(
        &self,
        alloc: Global,
        v: &Node,
        end: Option<bool>,
    ) -> Result<Option<Move>, Memory>
        requires sound { At.IsSound self.now v.now.position }
        requires end { end ≡ At.node_end self.now v.now }
        ensures { IfOk result (λ m. m ≡ At.missing_reply self.now v.now) }
    {
        if end.is_some() || v.position.side.is(self.attacker) {
            return Ok(None);
        }
        self.game.prove_played();
        let legal = legal_moves(alloc, self.game.rules(), self.game.tables(), &v.position)?;
        Ok(first_missing(v, legal.items.as_slice()))
    }
}
