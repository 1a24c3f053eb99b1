//! How often positions have stood in a game.
ghost use Rattle.std.specs.Prelude.{◌≡◌, ◌≤◌, ◌<◌, ◌+◌, nat_le, map, slice_index_or, IfOk, length};
ghost use Rattle.std.specs.List.{filter};
ghost use Rattle.forced_wins.specs.Wins as Wins;
ghost use Rattle.forced_wins.specs.Wins.{each_once};
ghost use Rattle.rules_model.specs.declared.board.Position.{Position};
ghost use Rattle.rules_model.specs.Games.{times, history};
ghost use Rattle.rules_model.specs.Repeats as Repeats;
ghost use Rattle.position_key.specs.Key as Key;
ghost use Rattle.game_play.specs.Played.{story};
ghost use Rattle.game_play.specs.Repetition.{opens};

use crate::game::Game;
use crate::standings::Standings;
use position_key::key_of;
use rules_model::{Blocked, Memory, Position, repeat_of};
use std::alloc::Global;

/// Whether a repeat that may not stand again stands at the place for the first time.
fn opens_block(standings: &Standings, at: usize, fold: u16) -> bool
    requires there { at < length standings.now }
    ensures { (d : Position) → result ≡ opens fold standings.now at (slice_index_or standings.now at d) }
{
    let p = &standings.positions()[at];
    let key = standings.keys()[at];
    standings.is_first(at) && standings.times(p, key) + 1 >= fold
}

/// The repeats that have stood at least one time less than the fold says, in the order in which they first stood.
fn blocked_by(alloc: Global, standings: &Standings, fold: u16) -> Result<Blocked, Memory>
    ensures { IfOk result (λ b. b ≡ filter
        (λ x. nat_le fold (times x standings.now + 1)) (each_once (map Repeats.repeat_of standings.now))) }
{
    let positions = standings.positions();
    let mut items = Vec::new(alloc);
    for at in 0..positions.len() {
        if opens_block(standings, at, fold) {
            items.push(repeat_of(&positions[at]))?;
        }
    }
    Ok(Blocked { items })
}

impl Game {
    /// How many of the game's positions, the last one included, have the position's repeat. No memory is taken, and
    /// only positions whose keys are in its key's slot are compared.
    pub fn repeats(&self, p: &Position) -> u32
        ensures is { result ≡ times (Repeats.repeat_of p.now) (history (story self.now)) }
        ensures few { result ≤ length self.now.moves + 1 }
    {
        self.repeats_by_key(p, key_of(p))
    }

    /// The same, for a caller who knows the position's key.
    pub fn repeats_by_key(&self, p: &Position, key: u64) -> u32
        requires key { key ≡ Key.key_of (Repeats.repeat_of p.now) }
        ensures is { result ≡ times (Repeats.repeat_of p.now) (history (story self.now)) }
        ensures few { result ≤ length self.now.moves + 1 }
    {
        u32::from(self.standings.times(p, key))
    }

    /// The repeats of the game that may not stand again: each one whose count plus 1 is at least `nFoldRule`, once, in
    /// the order in which they first stood; none where the rule is off. `Memory` where there is none.
    #[tactic(auto, unfolding(forced_wins::specs::Wins::blocked))]
    pub fn blocked(&self, alloc: Global) -> Result<Blocked, Memory>
        ensures { IfOk result (λ b. b ≡ Wins.blocked self.now.rules (story self.now)) }
    {
        let fold = self.tables.rules().n_fold;
        if fold == 0 {
            return Ok(Blocked {
                items: Vec::new(alloc),
            });
        }
        blocked_by(alloc, &self.standings, fold)
    }

    /// How often the last position has stood.
    pub(crate) fn last_standings(&self) -> u32
        ensures { result ≡ times (Repeats.repeat_of (story self.now).last) (history (story self.now)) }
    {
        u32::from(self.standings.times_of_last())
    }
}
