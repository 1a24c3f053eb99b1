//! A position with what is kept of it.
ghost use Rattle.std.specs.Prelude.{◌≡◌, true};
ghost use Rattle.foundation.specs.Member.{Member};
ghost use Rattle.rules_model.specs.Games.{same_repeat};
ghost use Rattle.rules_model.specs.Ready.{IsReady};
ghost use Rattle.rules_model.specs.Repeats.{repeat_of};
ghost use Rattle.rules_model.specs.Sound.{is_sound};
ghost use Rattle.board_sets.specs.Sets.{AreSets};
ghost use Rattle.position_key.specs.Key.{IsBoardKey, key_of};
ghost use Rattle.legality.specs.Stance as Stance;

use attack_tables::Tables;
use board_sets::{BoardSets, sets_of};
use legality::{MoveGen, apply_on};
use position_key::BoardKey;
use rules_model::{Move, Position, Rules, repeats};
use std::marker::Model;

/// A sound position by the rules of the tables, with the sets of its board and, unless it is only asked a question, its
/// key, which are kept through moves. Contracts see the rules and the position.
#[derive(Drop)]
pub struct Board<'t> {
    pub(crate) tables: &'t Tables,
    pub(crate) position: Position,
    pub(crate) sets: BoardSets,
    pub(crate) key: Option<BoardKey>,
}

impl<'t> Model for Board<'t> {
    ghost use Rattle.legality.specs.Stance.{Stance};
    ghost use Rattle.playing.specs.Boards.{IsBoard};

    ghost Value = { Stance };

    ghost view = { λ b. record { rules = b.tables.now; position = b.position } };

    ghost invariant = { λ b. IsBoard b.tables.now b.position b.sets b.key };
}

impl<'t> Board<'t> {
    /// The position, by the rules of which the tables were made.
    pub fn new(tables: &'t Tables, p: &Position) -> Board<'t>
        requires { is_sound tables.now p.now ≡ true }
        ensures { result ≡ record { rules = tables.now; position = p.now } }
    {
        Board {
            tables,
            position: *p,
            sets: sets_of(tables.rules(), &p.cells, p.side),
            key: Some(BoardKey::of(p)),
        }
    }

    /// The position after the legal move. Sets and key are carried: no square is looked at but those that the move
    /// writes.
    pub fn after(&self, m: &Move) -> Board<'t>
        requires { Member m.now (Stance.legal_in self.now) }
        ensures { result ≡ Stance.after self.now m.now }
    {
        let mut position = self.position;
        let (sets, touched) = apply_on(self.tables, &mut position, &self.sets, m);
        let key = self.board_key().after(&self.position, &position, touched);
        Board {
            tables: self.tables,
            position,
            sets,
            key: Some(key),
        }
    }

    /// The same, for a position that is only asked a question: its key is not carried. Whoever asks for it all the same
    /// has it worked out from all squares.
    pub fn asked_after(&self, m: &Move) -> Board<'t>
        requires { Member m.now (Stance.legal_in self.now) }
        ensures { result ≡ Stance.after self.now m.now }
    {
        let mut position = self.position;
        let (sets, _touched) = apply_on(self.tables, &mut position, &self.sets, m);
        Board {
            tables: self.tables,
            position,
            sets,
            key: None,
        }
    }

    /// The rules fit, and the position is sound by them. Nothing is done: the call tells a proof.
    pub fn prove_ready(&self)
        ensures { IsReady self.now.rules self.now.rules self.now.position }
    {
        let _side = self.position.side;
    }

    /// What is known of the position for all that is asked of its moves. Each call works it out, so a caller who asks
    /// more than one thing keeps it.
    pub fn known(&self) -> MoveGen<'_>
        ensures { result ≡ self.now }
    {
        MoveGen::of(self.tables, &self.position, &self.sets)
    }

    /// The rules that are played.
    pub fn rules(&self) -> &'t Rules
        ensures { result.now ≡ self.now.rules }
    {
        self.tables.rules()
    }

    /// The tables of the rules.
    pub fn tables(&self) -> &'t Tables
        ensures { result.now ≡ self.now.rules }
    {
        self.tables
    }

    /// The position.
    pub fn position(&self) -> &Position
        ensures { result.now ≡ self.now.position }
    {
        &self.position
    }

    /// The sets of its board, for the side to move.
    pub fn sets(&self) -> &BoardSets
        ensures { AreSets self.now.rules self.now.position.side self.now.position.cells result.now }
    {
        &self.sets
    }

    /// The key of its board and hands.
    pub fn board_key(&self) -> BoardKey
        ensures { IsBoardKey result (Stance.repeat_in self.now) }
    {
        match self.key {
            Some(key) => key,
            None => BoardKey::of(&self.position),
        }
    }

    /// The key of all that a repetition compares.
    pub fn key(&self) -> u64
        ensures { result ≡ key_of (Stance.repeat_in self.now) }
    {
        self.board_key().whole(&self.position)
    }

    /// Whether it repeats the position, which has this key. The positions are looked at only where the keys agree.
    pub fn repeats(&self, p: &Position, key: u64) -> bool
        requires { key ≡ key_of (repeat_of p.now) }
        ensures { result ≡ same_repeat (Stance.repeat_in self.now) (repeat_of p.now) }
    {
        if self.key() != key {
            return false;
        }
        repeats(&self.position, p)
    }
}
