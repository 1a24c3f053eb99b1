//! Moves played and taken back.
ghost use Rattle.std.specs.Prelude.{◌≡◌, ◌↔◌, ◌<◌, ◌∷◌, ◌++◌, [], length, OnOk, OnErr, IsErr};
ghost use Rattle.game_play.specs.Played.{longer, shorter, IsAnswer};

use crate::faults::{NothingPlayed, PlayFault};
use crate::game::{Game, MOST_PLIES};
use crate::standings::Standings;
use legality::{apply, is_legal};
use rules_model::{Move, Position};
use std::alloc::AllocError;

/// Puts the position at the end of the standings and the move, which led to it, at the end of the moves, or neither.
fn append(
    standings: &mut Standings,
    moves: &mut Vec<Move>,
    next: &Position,
    m: &Move,
) -> Result<(), AllocError>
    requires room { length standings.old < 8193 }
    ensures positions { OnOk result (standings.new ≡ standings.old ++ next.now ∷ []) }
    ensures moves { OnOk result (moves.new.items ≡ moves.old.items ++ m.now ∷ []) }
    ensures same_positions { OnErr result (standings.new ≡ standings.old) }
    ensures same_moves { OnErr result (moves.new.items ≡ moves.old.items) }
{
    moves.reserve(1)?;
    standings.push(next)?;
    moves.push_reserved(*m);
    Ok(())
}

impl Game {
    /// Plays the move. After an error the game is what it was.
    ///
    /// # Errors
    ///
    /// `Illegal` where the move is not legal in the last position; `TooLong` where it is, and 8,192 plies are kept;
    /// `Memory`.
    pub fn play(&mut self, m: &Move) -> Result<(), PlayFault>
        ensures answer { IsAnswer self.old m.now result }
        ensures played { OnOk result (self.new ≡ longer self.old m.now) }
        ensures refused { OnErr result (self.new ≡ self.old) }
    {
        let tables = &*self.tables;
        let rules = tables.rules();
        let last = self.standings.last();
        if !is_legal(rules, tables, last, m) {
            return Err(PlayFault::Illegal);
        }
        if self.moves.len() >= MOST_PLIES {
            return Err(PlayFault::TooLong);
        }
        let mut next = *last;
        apply(rules, tables, &mut next, m);
        append(&mut self.standings, &mut self.moves, &next, m)?;
        Ok(())
    }

    /// Takes the last move back. Where there is none, the game is what it was.
    pub fn undo(&mut self) -> Result<(), NothingPlayed>
        ensures none { IsErr result ↔ (self.old.moves ≡ []) }
        ensures undone { OnOk result (self.new ≡ shorter self.old) }
        ensures refused { OnErr result (self.new ≡ self.old) }
    {
        let plies = self.moves.len();
        if plies == 0 {
            return Err(NothingPlayed);
        }
        self.moves.truncate(plies - 1);
        self.standings.pop();
        Ok(())
    }
}
