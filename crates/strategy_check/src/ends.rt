//! How the game and its nodes are ended.
ghost use Rattle.std.specs.Prelude.{◌≡◌};
ghost use Rattle.forced_wins.specs.Tables as Tables;
ghost use Rattle.strategy.specs.declared.nodes.Node.{Node};
ghost use Rattle.strategy_check.specs.AtTable as At;

use crate::table::Table;
use forced_wins::won_by;
use legality::own_end;
use rules_model::Position;
use strategy::Node;

fn ends_lost(end: Option<bool>) -> bool
    ensures { result ≡ Tables.ends_lost end }
{
    match end {
        None => false,
        Some(won) => !won,
    }
}

impl Table<'_> {
    /// Whether the attacker has won, where the position is ended by itself.
    fn own_end(&self, p: &Position) -> Option<bool>
        requires sound { At.IsSound self.now p.now }
        ensures { result ≡ At.own_end self.now p.now }
    {
        self.game.prove_played();
        let end = own_end(self.game.tables(), p);
        won_by(self.attacker, end)
    }

    /// Whether the counter of plies has reached the move-count rule.
    #[tactic(auto, unfolding(forced_wins::specs::Games::run_out))]
    fn is_run_out(&self, counter: u16) -> bool
        ensures { result ≡ At.run_out self.now counter }
    {
        let limit = 2 * u32::from(self.game.rules().n_move);
        limit > 0 && u32::from(counter) >= limit
    }

    /// Whether the game itself is ended by repetition or move count.
    fn is_cut(&self) -> bool
        ensures { result ≡ At.is_cut self.now }
    {
        let last = self.game.position();
        match self.own_end(last) {
            Some(_) => false,
            None => self.game.is_repeated() || self.is_run_out(last.counter),
        }
    }

    /// Whether the attacker has won, where the node is ended at its counter: by itself or by the move count.
    #[tactic(auto, unfolding(forced_wins::specs::Tables::node_end))]
    pub fn node_end(&self, v: &Node) -> Option<bool>
        requires sound { At.IsSound self.now v.now.position }
        ensures { result ≡ At.node_end self.now v.now }
    {
        match self.own_end(&v.position) {
            Some(won) => Some(won),
            None => {
                if self.is_run_out(v.position.counter) {
                    Some(false)
                } else {
                    None
                }
            }
        }
    }

    /// Whether a node of this end is ended otherwise than won by the attacker; or its place is the root's, and the game
    /// itself is ended by repetition or move count.
    #[tactic(auto, unfolding(forced_wins::specs::Tables::not_won))]
    pub fn is_not_won(&self, i: usize, end: Option<bool>) -> bool
        ensures { (v : Node) → end ≡ At.node_end self.now v → result ≡ At.not_won self.now i v }
    {
        ends_lost(end) || (i == 0 && self.is_cut())
    }
}
