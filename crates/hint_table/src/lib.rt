//! Hints that order a search, shared by its workers: what an earlier look at a position left, or what a look at another
//! position left in its place.
//!
//! A table is a row of words of 64 bits. A word holds a hint of 40 bits and 24 bits of the key of its position, and
//! the newest hint is kept. Workers read and write words at any time and nobody waits. So a search may use what it
//! gets to choose what it looks at first, and for nothing else: no contract says what a table answers. Beside the
//! words it keeps how many nodes the last solve of mates entered, which a solve uses to choose how large a tree it
//! grows first.
#![tactic(auto)]

ghost use Rattle.std.specs.Prelude.{◌<◌, ◌≤◌, ◌^◌, vec_len};

mod slot;

use crossbeam_utils::atomic::AtomicCell;
use foundation::Memory;
pub use slot::{NO_SLOT, SLOTS, Slot, slot_of};
use std::alloc::Global;

/// The most words that a table has: 1 GiB.
pub const MOST_WORDS: usize = 1 << 27;

/// What a look at a position leaves for the next one.
#[derive(Clone, Copy, PartialEq, Eq)]
pub struct Hint {
    /// How deep the look was.
    pub depth: u8,
    /// The move that did best.
    pub slot: Slot,
    /// A bound of the value.
    pub bound: i16,
}

/// A table of hints by the key of a position.
#[derive(Drop)]
pub struct HintTable {
    words: Vec<AtomicCell<u64>>,
    nodes: AtomicCell<u64>,
    ghost some: { 0 < vec_len words },
    ghost few: { vec_len words ≤ 2 ^ 27 },
}

const HALF: u64 = 1 << 32;

/// The bound 0 as the low 16 bits of a word.
const ZERO: i32 = 32768;

/// The hint and the high bits of the key in one word. It is 0 for one hint of few keys alone, which is then not found.
fn packed(key: u64, hint: Hint) -> u64 {
    let depth = u64::from(hint.depth);
    let slot = u64::from(hint.slot);
    let bound = (i32::from(hint.bound) + ZERO) as u64;
    (key >> 40 << 40) | depth << 32 | slot << 16 | bound
}

/// The hint of a word.
fn unpacked(word: u64) -> Hint {
    Hint {
        depth: ((word >> 32) & 255) as u8,
        slot: ((word >> 16) & 65535) as u16,
        bound: ((word & 65535) as i32 - ZERO) as i16,
    }
}

impl HintTable {
    /// A table of so many words, from 1 to `MOST_WORDS`, without a hint.
    pub fn new(alloc: Global, words: usize) -> Result<HintTable, Memory>
        requires least { 1 ≤ words }
        requires most { words ≤ 2 ^ 27 }
    {
        let mut cells = Vec::with_capacity(alloc, words)?;
        for _ in 0..words {
            cells.push(AtomicCell::new(0u64))?;
        }
        Ok(HintTable {
            words: cells,
            nodes: AtomicCell::new(0u64),
        })
    }

    /// Writes each word of the table: a table of 0 has no hint, and any other word may be taken for a hint of any
    /// position, and for the nodes of the last solve.
    pub fn fill(&self, word: u64) {
        self.nodes.store(word);
        for cell in &self.words {
            cell.store(word);
        }
    }

    /// How many nodes the last solve of mates entered, as far as is known.
    pub fn nodes(&self) -> u64 {
        self.nodes.load()
    }

    /// Leaves how many nodes a solve of mates entered.
    pub fn put_nodes(&self, nodes: u64) {
        self.nodes.store(nodes);
    }

    /// The word of a key, by the key's low bits.
    fn cell(&self, key: u64) -> &AtomicCell<u64> {
        let count = self.words.len() as u64;
        let place = (key % HALF) * count / HALF;
        &self.words[place as usize]
    }

    /// Leaves a hint for the position of this key, in place of what its word held.
    pub fn put(&self, key: u64, hint: Hint) {
        self.cell(key).store(packed(key, hint));
    }

    /// The hint that the word of this key holds, where that may be a hint for it.
    pub fn get(&self, key: u64) -> Option<Hint> {
        let word = self.cell(key).load();
        if word == 0 || word >> 40 != key >> 40 {
            return None;
        }
        Some(unpacked(word))
    }
}
