//! A game that is kept: its rules, moves and positions.
ghost use Rattle.std.specs.Arc.{arc_value};
ghost use Rattle.std.specs.Prelude.{◌≡◌, ◌≤◌, true, IfOk, [], length};
ghost use Rattle.rules_model.specs.Fit.{IsFit};
ghost use Rattle.rules_model.specs.Games as Games;
ghost use Rattle.rules_model.specs.Sound.{is_sound};
ghost use Rattle.game_play.specs.Played.{story, keys_of, IsPlayed};

use crate::standings::Standings;
use attack_tables::Tables;
use rules_model::{Memory, Move, Position, Rules};
use std::alloc::Global;
use std::marker::Model;
use std::sync::Arc;

/// How many plies a game keeps at most.
pub const MOST_PLIES: usize = 8192;

/// A game: its rules, the position from which it started, and the moves that were played, each legal in its turn. A
/// position is kept for each ply, some 600 bytes.
#[derive(Drop)]
pub struct Game {
    /// The tables of its rules, which it shares with the games that `another` began.
    pub(crate) tables: Arc<Tables, Global>,
    /// The position from which it started, and the one after each move.
    pub(crate) standings: Standings,
    pub(crate) moves: Vec<Move>,
}

impl Model for Game {
    ghost use Rattle.std.specs.Arc.{arc_value};
    ghost use Rattle.game_play.specs.Played.{Played, played_of, IsKept};

    ghost Value = { Played };

    ghost view = { λ g. played_of (arc_value g.tables) g.standings g.moves.items };

    ghost invariant = { λ g. IsKept (arc_value g.tables) g.standings g.moves.items };
}

impl Game {
    /// The game that starts from the position, with no move played, or `Memory`.
    pub fn new(alloc: Global, rules: &Rules, start: &Position) -> Result<Game, Memory>
        requires fit { IsFit rules.now }
        requires sound { is_sound rules.now start.now ≡ true }
        ensures { IfOk result (λ g. g ≡ record { rules = rules.now; start = start.now; moves = [] }) }
    {
        let tables = Arc::new(alloc, Tables::new(alloc, rules)?)?;
        Game::of_tables(alloc, tables, start)
    }

    /// Another game by the same rules, which starts from the position, with no move played, or `Memory`. It shares the
    /// tables of the rules with this one: to make them is nearly all of what `new` takes time for.
    pub fn another(&self, alloc: Global, start: &Position) -> Result<Game, Memory>
        requires sound { is_sound self.now.rules start.now ≡ true }
        ensures { IfOk result (λ g. g ≡ record { rules = self.now.rules; start = start.now; moves = [] }) }
    {
        let tables = Arc::try_clone(&self.tables)?;
        Game::of_tables(alloc, tables, start)
    }

    // The game that starts from the position, by the rules of these tables.
    fn of_tables(
        alloc: Global,
        tables: Arc<Tables, Global>,
        start: &Position,
    ) -> Result<Game, Memory>
        requires fit { IsFit (arc_value tables) }
        requires sound { is_sound (arc_value tables) start.now ≡ true }
        ensures { IfOk result (λ g. g ≡ record { rules = arc_value tables; start = start.now; moves = [] }) }
    {
        let standings = Standings::new(alloc, start)?;
        Ok(Game {
            tables,
            standings,
            moves: Vec::new(alloc),
        })
    }

    /// The game was played by its rules, and has at most 8,192 plies. Nothing is done: the call tells a proof.
    pub fn prove_played(&self)
        ensures { IsPlayed self.now }
    {
        let _plies = self.moves.len();
    }

    /// The rules of the game.
    pub fn rules(&self) -> &Rules
        ensures { result.now ≡ self.now.rules }
    {
        self.tables.rules()
    }

    /// The tables of the rules.
    pub fn tables(&self) -> &Tables
        ensures { result.now ≡ self.now.rules }
    {
        &self.tables
    }

    /// The position after the last move, with the other side to move.
    pub fn position(&self) -> &Position
        ensures is { result.now ≡ (story self.now).last }
        ensures sound { is_sound self.now.rules result.now ≡ true }
    {
        self.standings.last()
    }

    /// All positions, from the start to the last one.
    pub fn history(&self) -> &[Position]
        ensures { result.now ≡ Games.history (story self.now) }
    {
        self.standings.positions()
    }

    /// The key of each position, in their order.
    pub fn keys(&self) -> &[u64]
        ensures is { result.now ≡ keys_of (Games.history (story self.now)) }
        ensures few { length result.now ≤ 8193 }
    {
        self.standings.keys()
    }

    /// The moves that were played, the first one first.
    pub fn moves(&self) -> &[Move]
        ensures { result.now ≡ self.now.moves }
    {
        self.moves.as_slice()
    }
}
