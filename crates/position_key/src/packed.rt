//! Repeats in fewer bytes, which are compared faster.
ghost use Rattle.std.specs.Prelude.{◌≡◌, ◌↔◌, IsTrue};
ghost use Rattle.rules_model.specs.Games.{same_repeat};
ghost use Rattle.rules_model.specs.Repeats.{repeat_of};
ghost use Rattle.position_key.specs.Key as Key;
ghost use Rattle.position_key.specs.Key.{IsBoardKey};
ghost use Rattle.position_key.specs.Packed.{repeat_with};

use crate::board_key::{BoardKey, key_of_repeat};
use crate::cells::{CellWords, in_threes};
use crate::rest::{Rest, rest_of, rest_of_position};
use rules_model::{Cells, Position, Repeat, are_same_hands, are_same_rights};
use std::marker::Model;
use std::snapshot::Snapshot;

/// A repeat with its key. Contracts see the repeat.
#[derive(Drop)]
pub struct Packed {
    hash: u64,
    words: CellWords,
    rest: Rest,
    cells: Snapshot<Cells>,
}

impl Model for Packed {
    ghost use Rattle.rules_model.specs.declared.board.Repeat.{Repeat};
    ghost use Rattle.position_key.specs.Packed.{IsPacked, repeat_with};

    ghost Value = { Repeat };

    ghost view = { λ p. repeat_with p.cells.value p.rest };

    ghost invariant = { λ p. IsPacked p.hash p.words p.cells.value p.rest };
}

impl Packed {
    /// Packs a repeat.
    pub fn of(r: &Repeat) -> Packed
        ensures { result ≡ r.now }
    {
        pack(&r.cells, rest_of(r), key_of_repeat(r))
    }

    /// Packs the repeat of a position of which the key of the board and the hands is known.
    pub fn with_key(p: &Position, key: BoardKey) -> Packed
        requires { IsBoardKey key (repeat_of p.now) }
        ensures { result ≡ repeat_of p.now }
    {
        pack(&p.cells, rest_of_position(p), key.whole(p))
    }

    /// The key of the repeat.
    pub fn hash(&self) -> u64
        ensures { result ≡ Key.key_of self.now }
    {
        self.hash
    }

    /// Whether the two are one repeat.
    pub fn is(&self, other: &Packed) -> bool
        ensures { result ≡ same_repeat self.now other.now }
    {
        if self.hash != other.hash {
            return false;
        }
        if !are_same_words(&self.words, &other.words) {
            return false;
        }
        is_same_rest(&self.rest, &other.rest)
    }
}

fn pack(cells: &Cells, rest: Rest, hash: u64) -> Packed
    requires { hash ≡ Key.key_of (repeat_with cells.now rest) }
    ensures { result ≡ repeat_with cells.now rest }
{
    Packed {
        hash,
        words: in_threes(cells),
        rest,
        cells: Snapshot::of(cells),
    }
}

fn is_same_rest(a: &Rest, b: &Rest) -> bool
    ensures { IsTrue result ↔ (a.now ≡ b.now) }
{
    a.side == b.side
        && are_same_hands(&a.hands, &b.hands)
        && a.ep == b.ep
        && a.gates == b.gates
        && are_same_rights(&a.rights, &b.rights)
        && a.checks == b.checks
}

fn are_same_words(a: &CellWords, b: &CellWords) -> bool
    ensures { IsTrue result ↔ (a.now ≡ b.now) }
{
    a == b
}
