//! How a line stands.
ghost use Rattle.std.specs.Prelude.{◌≡◌, ◌<◌, ◌≤◌, not, false, [], ◌∷◌, ◌++◌, length};
ghost use Rattle.std.specs.Bool.{OnTrue};
ghost use Rattle.rules_model.specs.Games as Games;
ghost use Rattle.rules_model.specs.Games.{times};
ghost use Rattle.rules_model.specs.Legal as Legal;
ghost use Rattle.rules_model.specs.Repeats.{repeat_of};
ghost use Rattle.position_key.specs.Key.{key_of};
ghost use Rattle.game_play.specs.Played.{keys_of};
ghost use Rattle.game_line.specs.Lined as Lined;
ghost use Rattle.game_line.specs.Lined.{positions_of, story_of_line};
ghost use Rattle.game_line.specs.Slots.{AreApart};

use crate::line::Line;
use crate::slots::is_among;
use end_rules::can_end_early;
use game_play::counted_end;
use playing::Board;
use rules_model::{Outcome, Position};

/// Whether a board of this key repeats the position, which has the other.
#[tactic(auto, using(position_key::proofs::KeyLaws::unequal_keys))]
fn is_standing(board: &Board, board_key: u64, p: &Position, key: u64) -> bool
    requires board_key { board_key ≡ key_of (repeat_of board.now.position) }
    requires key { key ≡ key_of (repeat_of p.now) }
    ensures { result ≡ Games.same_repeat (repeat_of board.now.position) (repeat_of p.now) }
{
    if board_key != key {
        return false;
    }
    board.repeats(p, key)
}

/// How many of the boards, which have these keys, repeat the position.
fn standings(boards: &[Board], keys: &[u64], p: &Position, key: u64) -> u32
    requires keys { keys.now ≡ keys_of (positions_of boards.now) }
    requires key { key ≡ key_of (repeat_of p.now) }
    requires few { length boards.now ≤ 200 }
    ensures is { result ≡ times (repeat_of p.now) (positions_of boards.now) }
    ensures few { result ≤ 200 }
{
    let mut count: u32 = 0;
    for i in 0..boards.len() {
        if is_standing(&boards[i], keys[i], p, key) {
            count += 1;
        }
    }
    count
}

impl Line<'_> {
    /// How often the last position has stood, in the game and on the line.
    fn last_standings(&self) -> u32
        ensures { result ≡ times (repeat_of (story_of_line self.now).last) (Games.history (story_of_line self.now)) }
    {
        self.game.prove_played();
        let (last, key) = (self.board().position(), self.key());
        let before = self.game.repeats_by_key(last, key);
        let since = standings(&self.boards[1..], &self.keys[1..], last, key);
        before + since
    }

    /// Whether the last position may have stood so often: its slot says no where it has not so many keys.
    fn may_have_stood(&self, fold: u16) -> bool
        ensures { result ≡ false
            → times (repeat_of (story_of_line self.now).last) (Games.history (story_of_line self.now)) < fold }
    {
        self.slots.at(self.key()) >= fold
    }

    /// Whether the last position has stood as often as the repetition rule says.
    #[tactic(auto, unfolding(rules_model::specs::Games::is_repeated))]
    fn is_repeated(&self) -> bool
        ensures { result ≡ Games.is_repeated self.now.rules (story_of_line self.now) }
    {
        let fold = self.rules().n_fold;
        if fold == 0 || !self.may_have_stood(fold) {
            return false;
        }
        self.last_standings() >= u32::from(fold)
    }

    /// How the game and the line stand, as `Game::outcome` says it. No memory is taken.
    #[tactic(auto, unfolding(rules_model::specs::Games::result))]
    pub fn outcome(&self) -> Outcome
        ensures { result ≡ Games.result self.now.rules (story_of_line self.now) }
    {
        match self.board().own_end() {
            Outcome::Ongoing => counted_end(
                self.rules(),
                self.board().position(),
                self.is_repeated(),
            ),
            end => end,
        }
    }

    /// The same, for a caller who knows whether some move is legal.
    #[tactic(auto, unfolding(rules_model::specs::Games::result))]
    pub fn outcome_where(&self, any: bool) -> Outcome
        requires any { any ≡ not (Legal.is_stuck self.now.rules (repeat_of (story_of_line self.now).last)) }
        ensures { result ≡ Games.result self.now.rules (story_of_line self.now) }
    {
        match self.board().end_where(any) {
            Outcome::Ongoing => counted_end(
                self.rules(),
                self.board().position(),
                self.is_repeated(),
            ),
            end => end,
        }
    }

    /// Whether no two positions of the game and the line have one key.
    fn is_apart(&self) -> bool
        ensures { OnTrue result (AreApart (Lined.keys_in self.now)) }
    {
        self.apart == self.keys.len()
    }

    /// Whether this is so, and a position of this key after them has another one.
    pub(crate) fn stays_apart(&self, key: u64) -> bool
        ensures { OnTrue result (AreApart (Lined.keys_in self.now ++ key ∷ [])) }
    {
        if !self.is_apart() {
            return false;
        }
        if self.slots.at(key) == 0 {
            return true;
        }
        if is_among(self.game.keys(), key) {
            return false;
        }
        !is_among(&self.keys, key)
    }

    /// Whether it is known of every move that no repetition ends the game after it. Where some position has stood twice
    /// it is not.
    fn repeats_after_none(&self) -> bool
        ensures { OnTrue result (Lined.RepeatsAfterNone self.now) }
    {
        let fold = self.rules().n_fold;
        if fold == 0 {
            return true;
        }
        if fold < 3 {
            return false;
        }
        self.is_apart()
    }

    /// Whether it is known of every move that the move count does not end the game after it.
    fn runs_out_after_none(&self) -> bool
        ensures { OnTrue result (Lined.RunsOutAfterNone self.now) }
    {
        let most = self.rules().n_move;
        if most == 0 {
            return true;
        }
        let counter = self.board().position().counter;
        u32::from(counter) + 1 < 2 * u32::from(most)
    }

    /// Whether it is known of every move, before it is made, that it ends the game only where it leaves the other side
    /// no legal move. No key is made: where some position has stood twice it is not known.
    pub fn ends_by_stuck_alone(&self) -> bool
        ensures { OnTrue result (Lined.EndsByStuckAlone self.now) }
    {
        if can_end_early(self.rules()) {
            return false;
        }
        if !self.runs_out_after_none() {
            return false;
        }
        self.repeats_after_none()
    }
}
