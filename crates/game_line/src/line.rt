//! A line of moves that goes on from a lent game.
ghost use Rattle.std.specs.Prelude.{◌≡◌, ◌<◌, ◌≤◌, [], length, IfOk};
ghost use Rattle.foundation.specs.Member.{Member};
ghost use Rattle.rules_model.specs.Repeats.{repeat_of};
ghost use Rattle.position_key.specs.Key.{key_of};
ghost use Rattle.game_line.specs.Lined as Lined;
ghost use Rattle.game_line.specs.Lined.{pushed, shorter};

use crate::slots::Slots;
use game_play::Game;
use playing::Board;
use rules_model::{Memory, Move, Rules};
use std::alloc::Global;
use std::marker::Model;

/// A line of legal moves that goes on from the last position of a game. A board is kept for each move, and its key, in
/// memory that is taken at the start. Contracts see the game's positions, and the line's moves and room.
#[derive(Drop)]
pub struct Line<'g> {
    pub(crate) game: &'g Game,
    /// The game's last position, and the one after each move.
    pub(crate) boards: Vec<Board<'g>>,
    pub(crate) moves: Vec<Move>,
    /// A key for each board.
    pub(crate) keys: Vec<u64>,
    /// How many keys of the game and of the line are in each slot.
    pub(crate) slots: Slots,
    /// How many of the line's keys, from the first, are known to be apart: no two of them, and of those of the game
    /// before them, are equal. None is known to be where the game has equal keys.
    pub(crate) apart: usize,
    room: usize,
}

impl<'g> Model for Line<'g> {
    ghost use Rattle.std.specs.Prelude.{length};
    ghost use Rattle.std.specs.Vec.{vec_capacity};
    ghost use Rattle.game_play.specs.Played.{story};
    ghost use Rattle.game_line.specs.Lined.{Lined, all_keys, line_of, IsApart, IsHeld, HasRoom};
    ghost use Rattle.game_line.specs.Slots.{AreCounts};

    ghost Value = { Lined };

    ghost view = { λ l. line_of l.game.now l.moves.items l.room };

    ghost invariant = { λ l. IsHeld l.game.now.rules (story l.game.now).last l.moves.items l.boards.items l.keys.items
        × HasRoom (length (story l.game.now).earlier) (length l.moves.items) l.room (vec_capacity l.boards)
        (vec_capacity l.moves) (vec_capacity l.keys)
        × AreCounts (all_keys (story l.game.now) l.keys.items) l.slots
        × IsApart (story l.game.now) l.keys.items l.apart };
}

impl<'g> Line<'g> {
    /// The line of no moves after the game, with memory for so many, 200 at most; or `Memory`.
    pub fn new(alloc: Global, game: &'g Game, room: usize) -> Result<Line<'g>, Memory>
        requires small { room ≤ 200 }
        ensures { IfOk result (λ l. l ≡ Lined.line_of game.now [] room) }
    {
        let board = Board::new(game.tables(), game.position());
        let mut keys = Vec::with_capacity(alloc, room + 1)?;
        let mut boards = Vec::with_capacity(alloc, room + 1)?;
        let moves = Vec::with_capacity(alloc, room)?;
        let slots = Slots::of(alloc, game.keys())?;
        let apart: usize = if slots.keep_apart(game.keys()) { 1 } else { 0 };
        keys.push_reserved(board.key());
        boards.push_reserved(board);
        Ok(Line {
            game,
            boards,
            moves,
            keys,
            slots,
            apart,
            room,
        })
    }

    /// The rules that are played.
    pub fn rules(&self) -> &'g Rules
        ensures { result.now ≡ self.now.rules }
    {
        self.game.rules()
    }

    /// The moves since the game, the first one first.
    pub fn moves(&self) -> &[Move]
        ensures { result.now ≡ self.now.moves }
    {
        self.moves.as_slice()
    }

    /// How many moves it holds at most.
    pub fn room(&self) -> usize
        ensures { result ≡ self.now.room }
    {
        self.room
    }

    /// The position after the last move.
    pub fn board(&self) -> &Board<'g>
        ensures { result.now ≡ Lined.stance_of_line self.now }
    {
        &self.boards[self.boards.len() - 1]
    }

    /// The key of that position.
    pub fn key(&self) -> u64
        ensures { result ≡ key_of (repeat_of (Lined.story_of_line self.now).last) }
    {
        self.keys[self.keys.len() - 1]
    }

    /// Puts the legal move on the line. No memory is taken.
    pub fn push(&mut self, m: &Move)
        requires legal { Member m.now (Lined.legal_in self.old) }
        requires room { length self.old.moves < self.old.room }
        ensures { self.new ≡ pushed self.old m.now }
    {
        let next = self.boards[self.boards.len() - 1].after(m);
        let key = next.key();
        let apart = if self.stays_apart(key) {
            self.keys.len() + 1
        } else {
            self.apart
        };
        self.slots.count(key);
        self.keys.push_reserved(key);
        self.boards.push_reserved(next);
        self.moves.push_reserved(*m);
        self.apart = apart;
    }

    /// Takes the last move off the line.
    pub fn back(&mut self)
        requires some { 0 < length self.old.moves }
        ensures { self.new ≡ shorter self.old }
    {
        let plies = self.moves.len();
        let known = self.apart;
        let apart = if known > plies { plies } else { known };
        self.slots.uncount(self.keys[plies]);
        self.moves.truncate(plies - 1);
        self.boards.truncate(plies);
        self.keys.truncate(plies);
        self.apart = apart;
    }

    /// The same line in memory of its own, or `Memory`.
    pub fn copied(&self, alloc: Global) -> Result<Line<'g>, Memory>
        ensures { IfOk result (λ l. l ≡ self.now) }
    {
        let mut copy = Line::new(alloc, self.game, self.room)?;
        for m in &self.moves {
            copy.push(m);
        }
        Ok(copy)
    }
}
