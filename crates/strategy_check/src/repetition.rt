//! Nodes that stand again, or so often that the game could end by repetition.
ghost use Rattle.std.specs.Prelude.{◌≡◌, ◌<◌, length};
ghost use Rattle.rules_model.specs.Repeats.{repeat_of};
ghost use Rattle.position_key.specs.Key.{key_of};
ghost use Rattle.strategy_check.specs.AtTable as At;

use crate::places::Places;
use crate::table::Table;
use position_key::key_of;
use rules_model::repeats;
use strategy::Node;

impl Table<'_> {
    /// Whether the node has the root's repeat.
    fn is_root_again(&self, v: &Node) -> bool
        ensures { result ≡ At.is_root_again self.now v.now }
    {
        match self.nodes.first() {
            None => false,
            Some(root) => repeats(&v.position, &root.position),
        }
    }

    /// Whether the node's repeat, whose key this is, stands as often in the game and among the nodes as the repetition
    /// rule says.
    #[tactic(auto, unfolding(forced_wins::specs::Games::times, rules_model::specs::Games::times, forced_wins::specs::Tables::nodes_of))]
    fn stands_often(&self, places: &Places, v: &Node, key: u64) -> bool
        requires key { key ≡ key_of (repeat_of v.now.position) }
        requires index { At.IsIndex self.now places.now }
        ensures { result ≡ At.stands_often self.now v.now }
    {
        let fold = self.game.rules().n_fold;
        if fold == 0 {
            return false;
        }
        let played = self.game.repeats_by_key(&v.position, key);
        let standings = places.count(self.nodes, &v.position, key);
        u64::from(played) + standings as u64 >= u64::from(fold)
    }

    /// Whether the node at the place stands again: an earlier one has its repeat and counter; or it is not the root,
    /// and has the root's repeat or one that stands too often in the game and among the nodes.
    #[tactic(auto, unfolding(forced_wins::specs::Tables::repeats_at))]
    pub fn is_repeating(&self, places: &Places, i: usize, v: &Node) -> bool
        requires index { At.IsIndex self.now places.now }
        requires there { i < length self.now.nodes.now }
        ensures { result ≡ At.repeats self.now i v.now }
    {
        let key = key_of(&v.position);
        places.has_twin(self.nodes, i, &v.position, key)
            || (i > 0 && (self.is_root_again(v) || self.stands_often(places, v, key)))
    }
}
