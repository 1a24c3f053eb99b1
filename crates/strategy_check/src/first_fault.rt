//! The check of a strategy.
ghost use Rattle.std.specs.Prelude.{◌≡◌, ◌<◌, true, length, IfOk};
ghost use Rattle.forced_wins.specs.Wins.{wins};
ghost use Rattle.game_play.specs.Played.{story};
ghost use Rattle.strategy.specs.Reading.{AreSound};
ghost use Rattle.strategy_check.specs.Verdicts.{as_verdict, verdict_of};
ghost use Rattle.strategy_check.specs.declared.verdict.Verdict.TheVariants as Said;
ghost use Rattle.strategy_check.specs.AtTable as At;

use crate::places::{Key, Places};
use crate::table::Table;
use crate::verdict::Verdict;
use forced_wins::by_rules::good_strategies_win;
use game_play::Game;
use rules_model::{Memory, Side, repeats};
use std::alloc::Global;
use strategy::{Edge, Node, Strategy};

impl Table<'_> {
    /// Whether node 0 has the repeat of the game, a counter not below the game's, and a rank of at most n.
    #[tactic(auto, unfolding(forced_wins::specs::Tables::root_fits))]
    fn fits_root(&self, n: u16) -> bool
        ensures { result ≡ At.root_fits self.now n }
    {
        let last = self.game.position();
        match self.nodes.first() {
            None => false,
            Some(root) => {
                repeats(&root.position, last)
                    && last.counter <= root.position.counter
                    && root.rank <= n
            }
        }
    }

    /// The first fault of the node at the place, or that there is none.
    #[tactic(auto, unfolding(forced_wins::specs::Tables::node_verdict))]
    fn node_verdict(
        &self,
        alloc: Global,
        places: &Places,
        i: usize,
        v: &Node,
    ) -> Result<Verdict, Memory>
        requires index { At.IsIndex self.now places.now }
        requires there { i < length self.now.nodes.now }
        requires sound { At.IsSound self.now v.now.position }
        ensures { IfOk result (λ x. x ≡ as_verdict (At.node_verdict self.now i v.now)) }
    {
        let place = i as u64;
        let end = self.node_end(v);
        let steps = self.steps(v);
        if self.is_wrong(v, end, steps) {
            return Ok(Verdict::WrongMove(place));
        }
        if let Some(m) = self.missing_reply(alloc, v, end)? {
            return Ok(Verdict::MissingReply(place, m));
        }
        if self.is_bad_rank(v) {
            return Ok(Verdict::BadRank(place));
        }
        if self.is_bad_counter(v, steps) {
            return Ok(Verdict::BadCounter(place));
        }
        if self.is_repeating(places, i, v) {
            return Ok(Verdict::Repeats(place));
        }
        if self.is_not_won(i, end) {
            return Ok(Verdict::NotWon(place));
        }
        Ok(Verdict::Wins)
    }

    /// The first fault of the nodes in their order, or that there is none.
    fn nodes_verdict(&self, alloc: Global, places: &Places) -> Result<Verdict, Memory>
        requires index { At.IsIndex self.now places.now }
        requires sound { AreSound self.now.game.now.rules self.now.nodes.now }
        ensures { IfOk result (λ x. x ≡ as_verdict (At.nodes_verdict self.now 0 self.now.nodes.now)) }
    {
        for (i, v) in self.nodes.iter().enumerate() {
            match self.node_verdict(alloc, places, i, v)? {
                Verdict::Wins => {}
                fault => return Ok(fault),
            }
        }
        Ok(Verdict::Wins)
    }
}

/// The verdict on the strategy, for a win of the game by the attacker within n of its own moves: that it wins, or its
/// first fault, the root's first and then those of the nodes in their order. A strategy without a fault beats every
/// legal defence, whatever the history of the game. `Memory` where there is none.
#[tactic(auto, unfolding(forced_wins::specs::Tables::verdict))]
pub fn check(
    alloc: Global,
    game: &Game,
    attacker: Side,
    n: u16,
    s: &Strategy,
) -> Result<Verdict, Memory>
    requires sound { AreSound game.now.rules s.now.nodes }
    ensures verdict { IfOk result (λ v. v ≡ verdict_of game.now attacker n s.now) }
    ensures wins { IfOk result (λ v. v ≡ Said.Wins → wins game.now.rules n (story game.now) attacker ≡ true) }
{
    good_strategies_win::<Node, Edge>();
    let table = Table {
        game,
        attacker,
        nodes: s.nodes.items.as_slice(),
    };
    if !s.attacker.is(attacker) || !table.fits_root(n) {
        return Ok(Verdict::Root);
    }
    let by = Key::for_fold(game.rules().n_fold);
    let places = Places::new(alloc, by, table.nodes)?;
    table.nodes_verdict(alloc, &places)
}
