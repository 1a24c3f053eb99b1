//! The edges of a node.
ghost use Rattle.std.specs.Prelude.{◌≡◌, true, false};
ghost use Rattle.std.specs.List.{list_any, list_all};
ghost use Rattle.foundation.specs.Member.{Member};
ghost use Rattle.rules_model.specs.Moves as Moves;
ghost use Rattle.rules_model.specs.declared.board.Side.{Side};
ghost use Rattle.rules_model.specs.declared.rules.Rules.{Rules};
ghost use Rattle.forced_wins.specs.Tables as Tables;
ghost use Rattle.forced_wins.specs.Views.{seen_by};
ghost use Rattle.strategy_check.specs.Rows.{kept};
ghost use Rattle.strategy_check.specs.Steps as Steps;
ghost use Rattle.strategy_check.specs.AtTable as At;

use crate::table::Table;
use forced_wins::is_falling;
use legality::{apply, is_legal};
use rules_model::{Move, Position, is_same_move, repeats};
use strategy::{Edge, Node};

/// Whether two of the edges have one move. Each is compared with those before it, so that where all moves are legal no
/// more edges are looked at than there are legal moves, and one.
fn is_doubled(edges: &[Edge]) -> bool
    ensures { (rules : Rules) (a : Side) → result ≡ Tables.is_doubled (seen_by rules a) kept edges.now }
{
    for (i, e) in edges.iter().enumerate() {
        if has_move(&edges[..i], &e.chosen) {
            return true;
        }
    }
    false
}

/// Whether one of the edges has the move.
fn has_move(edges: &[Edge], m: &Move) -> bool
    ensures { result ≡ list_any (λ f. Moves.same_move m.now f.chosen) edges.now }
{
    edges.iter().any(|f| is_same_move(m, &f.chosen))
}

/// Whether so many edges fit a node with this end: none where it is ended, exactly one where the attacker is to move.
fn fits_number(end: Option<bool>, is_attacking: bool, edges: usize) -> bool
    ensures { result ≡ Tables.fits_number end is_attacking edges }
{
    match end {
        Some(_) => edges == 0,
        None => !is_attacking || edges == 1,
    }
}

impl Table<'_> {
    /// Whether the move is legal in the position.
    fn is_legal(&self, p: &Position, m: &Move) -> bool
        requires sound { At.IsSound self.now p.now }
        ensures is { result ≡ list_any (Moves.same_move m.now) (At.legal self.now p.now) }
        ensures member { result ≡ true → Member m.now (At.legal self.now p.now) }
    {
        self.game.prove_played();
        is_legal(self.game.rules(), self.game.tables(), p, m)
    }

    /// Follows an edge of the node: none where its move is illegal or it leads to another repeat or to no node, else
    /// whether the counter of the node to which it leads is not below the next one.
    fn step(&self, v: &Node, e: &Edge) -> Option<bool>
        requires sound { At.IsSound self.now v.now.position }
        ensures { result ≡ At.step self.now v.now e.now }
    {
        let Some(target) = self.nodes.get(e.to as usize) else {
            return None;
        };
        if !self.is_legal(&v.position, &e.chosen) {
            return None;
        }
        self.game.prove_played();
        let mut next = v.position;
        apply(self.game.rules(), self.game.tables(), &mut next, &e.chosen);
        if !repeats(&target.position, &next) {
            return None;
        }
        Some(next.counter <= target.position.counter)
    }

    /// Follows the edges of the node, each next position being made once: none where one does not fit, else whether
    /// each next counter is covered by the node that follows.
    pub fn steps(&self, v: &Node) -> Option<bool>
        requires sound { At.IsSound self.now v.now.position }
        ensures { result ≡ At.steps self.now v.now }
    {
        let mut covered = true;
        for e in v.edges.items.as_slice() {
            match self.step(v, e) {
                None => return None,
                Some(is_covered) => covered = covered && is_covered,
            }
        }
        Some(covered)
    }

    /// Whether an edge of the node, which has this end and these steps, is wrong, or their number is.
    #[tactic(auto, unfolding(forced_wins::specs::Tables::wrong_move))]
    pub fn is_wrong(&self, v: &Node, end: Option<bool>, steps: Option<bool>) -> bool
        requires end { end ≡ At.node_end self.now v.now }
        requires steps { steps ≡ At.steps self.now v.now }
        ensures { result ≡ At.wrong_move self.now v.now }
    {
        let edges = v.edges.items.as_slice();
        let is_attacking = v.position.side.is(self.attacker);
        steps.is_none() || is_doubled(edges) || !fits_number(end, is_attacking, edges.len())
    }

    /// Whether the edge leads from a node of the rank to a rank that may follow.
    fn falls(&self, is_attacking: bool, rank: u16, e: &Edge) -> bool
        ensures { result ≡ Steps.falls self.now.nodes.now is_attacking rank e.now }
    {
        match self.nodes.get(e.to as usize) {
            None => false,
            Some(target) => is_falling(is_attacking, rank, target.rank),
        }
    }

    /// Whether the counter after an edge of the node, which has these steps, is above that of the node that follows.
    #[tactic(auto, unfolding(forced_wins::specs::Tables::bad_counter))]
    pub fn is_bad_counter(&self, v: &Node, steps: Option<bool>) -> bool
        requires steps { steps ≡ At.steps self.now v.now }
        requires right { At.wrong_move self.now v.now ≡ false }
        ensures { result ≡ At.bad_counter self.now v.now }
    {
        !steps.unwrap_or(true)
    }

    /// Whether each of the edges leads from a node of the rank to a rank that may follow.
    fn are_falling(&self, is_attacking: bool, rank: u16, edges: &[Edge]) -> bool
        ensures { result ≡ list_all (Steps.falls self.now.nodes.now is_attacking rank) edges.now }
    {
        edges.iter().all(|e| self.falls(is_attacking, rank, e))
    }

    /// Whether an edge of the node leads to a rank that may not follow.
    #[tactic(auto, unfolding(forced_wins::specs::Tables::bad_rank))]
    pub fn is_bad_rank(&self, v: &Node) -> bool
        ensures { result ≡ At.bad_rank self.now v.now }
    {
        let is_attacking = v.position.side.is(self.attacker);
        !self.are_falling(is_attacking, v.rank, v.edges.items.as_slice())
    }
}
