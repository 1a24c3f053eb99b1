//! The result of a game.
ghost use Rattle.std.specs.Prelude.{◌≡◌};
ghost use Rattle.rules_model.specs.Games as Games;
ghost use Rattle.game_play.specs.Played as Played;
ghost use Rattle.game_play.specs.Played.{story};

use crate::game::Game;
use end_rules::{is_run_out, valued};
use legality::own_end;
use rules_model::{Cause, Outcome, Position, Rules};

/// The end of a game that its last position does not end by itself: repetition, where that position has stood as often
/// as the rule says, or the move count; `Outcome::Ongoing` where there is neither.
pub fn counted_end(rules: &Rules, last: &Position, repeated: bool) -> Outcome
    ensures { result ≡ Played.counted_end rules.now last.now repeated }
{
    if repeated {
        valued(rules.n_fold_value, last.side, Cause::Repetition)
    } else if is_run_out(rules, last.counter) {
        Outcome::Drawn(Cause::MoveCount)
    } else {
        Outcome::Ongoing
    }
}

impl Game {
    /// Whether the last position has stood as often as the repetition rule says.
    #[tactic(auto, unfolding(rules_model::specs::Games::is_repeated))]
    pub fn is_repeated(&self) -> bool
        ensures { result ≡ Games.is_repeated self.now.rules (story self.now) }
    {
        let fold = self.tables.rules().n_fold;
        fold != 0 && self.last_standings() >= u32::from(fold)
    }

    /// How the game stands, by the first that holds: an end by the position itself; no legal move; repetition; the move
    /// count; else it is ongoing. A game that is ended by repetition or move count may be continued.
    #[tactic(auto, unfolding(rules_model::specs::Games::result))]
    pub fn outcome(&self) -> Outcome
        ensures { result ≡ Games.result self.now.rules (story self.now) }
    {
        let rules = self.rules();
        let last = self.position();
        match own_end(self.tables(), last) {
            Outcome::Ongoing => counted_end(rules, last, self.is_repeated()),
            end => end,
        }
    }
}
