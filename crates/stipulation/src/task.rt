//! What is aimed at in a game, and how the game stands along lines of moves.
ghost use Rattle.std.specs.Prelude.{◌≡◌, ◌↔◌, IsTrue};
ghost use Rattle.std.specs.List.{list_any};
ghost use Rattle.foundation.specs.Member.{Member};
ghost use Rattle.rules_model.specs.Moves.{same_move};
ghost use Rattle.stipulation.specs.AtTask as At;

use crate::line::Line;
use game_play::Game;
use rules_model::Move;

/// A game, and whether both sides choose their moves, as in a helpmate, or the one that is to move alone.
#[derive(Drop)]
pub(crate) struct Task<'a> {
    pub game: &'a Game,
    pub help: bool,
}

impl Task<'_> {
    /// Whether the other side of the one that is to move at the root has won by checkmate, where the game is ended
    /// after the line.
    pub fn end(&self, line: &Line) -> Option<bool>
        requires sound { At.AreSound self.now line.now }
        ensures { result ≡ (At.games self.now).end (At.at self.now line.now) }
    {
        let winner = self.game.position().side.other();
        line.end(self.game, winner)
    }

    /// Whether one move is to be chosen after the line, and not every move to be replied to.
    pub fn is_choosing(&self, line: &Line) -> bool
        requires sound { At.AreSound self.now line.now }
        ensures { result ≡ (At.games self.now).attacking (At.at self.now line.now) }
    {
        self.help || line.last(self.game).side.is(self.game.position().side)
    }

    /// Whether the move is legal after the line.
    pub fn is_legal(&self, line: &Line, m: &Move) -> bool
        requires sound { At.AreSound self.now line.now }
        ensures is { result ≡ list_any (same_move m.now) ((At.games self.now).moves (At.at self.now line.now)) }
        ensures member { IsTrue result ↔ Member m.now ((At.games self.now).moves (At.at self.now line.now)) }
    {
        line.is_legal(self.game, m)
    }
}
