//! Keys counted by slots.
ghost use Rattle.std.specs.Prelude.{◌≡◌, ℕ, ◌%◌, ◌==◌, ◌<◌, ◌≤◌, List, [], ◌∷◌, ◌++◌, length, take, slice_index, IfOk};
ghost use Rattle.std.specs.Bool.{OnTrue};
ghost use Rattle.std.specs.List.{list_any};
ghost use Rattle.game_line.specs.Slots.{key_times, AreApart, AreCounts};

use foundation::Memory;
use std::alloc::Global;
use std::marker::Model;

/// How many slots there are. A key is counted in that of its remainder.
const SLOTS: usize = 4096;

/// How many keys are in each slot. Contracts see the counts.
#[derive(Drop)]
pub(crate) struct Slots {
    counts: Vec<u16>,
}

impl Model for Slots {
    ghost use Rattle.std.specs.Prelude.{◌≡◌, ℕ, List, length};

    ghost Value = { List ℕ };

    ghost view = { λ s. s.counts.items };

    ghost invariant = { λ s. length s.counts.items ≡ 4096 };
}

fn slot_of(key: u64) -> usize
    ensures is { result ≡ key % 4096 }
    ensures below { result < 4096 }
{
    (key % SLOTS as u64) as usize
}

/// Whether the key is one of the keys.
pub(crate) fn is_among(keys: &[u64], key: u64) -> bool
    ensures { result ≡ list_any (λ k. k == key) keys.now }
{
    keys.contains(&key)
}

impl Slots {
    /// No key is in any slot.
    fn none(alloc: Global) -> Result<Slots, Memory>
        ensures { IfOk result (λ slots. AreCounts [] slots) }
    {
        Ok(Slots {
            counts: vec![in alloc; 0; SLOTS]?,
        })
    }

    /// The slots of the keys, at most 8,193.
    pub fn of(alloc: Global, keys: &[u64]) -> Result<Slots, Memory>
        requires few { length keys.now ≤ 8193 }
        ensures { IfOk result (λ slots. AreCounts keys.now slots) }
    {
        let mut slots = Slots::none(alloc)?;
        for key in keys {
            slots.count(*key);
        }
        Ok(slots)
    }

    /// How many keys are in the key's slot.
    pub fn at(&self, key: u64) -> u16
        ensures { result ≡ slice_index self.now (key % 4096) }
    {
        self.counts[slot_of(key)]
    }

    /// Whether none of the keys before the one at the place is equal to it. They are looked at where its slot has more.
    fn comes_first(&self, keys: &[u64], place: usize) -> bool
        requires counts { AreCounts keys.now self.now }
        requires there { place < length keys.now }
        ensures { OnTrue result (key_times (slice_index keys.now place) (take place keys.now) ≡ 0) }
    {
        let key = keys[place];
        if self.at(key) < 2 {
            return true;
        }
        !is_among(&keys[..place], key)
    }

    /// Whether no two of the keys are equal, which are those that are counted.
    pub fn keep_apart(&self, keys: &[u64]) -> bool
        requires { AreCounts keys.now self.now }
        ensures { OnTrue result (AreApart keys.now) }
    {
        for i in 0..keys.len() {
            if !self.comes_first(keys, i) {
                return false;
            }
        }
        true
    }

    /// Counts a key.
    pub fn count(&mut self, key: u64)
        requires { slice_index self.old (key % 4096) < 65535 }
        ensures { (keys : List ℕ) → AreCounts keys self.old → AreCounts (keys ++ key ∷ []) self.new }
    {
        let slot = slot_of(key);
        let had = self.counts[slot];
        self.counts[slot] = had + 1;
    }

    /// Takes the count of the last key back.
    pub fn uncount(&mut self, key: u64)
        requires { 0 < slice_index self.old (key % 4096) }
        ensures { (keys : List ℕ) → AreCounts (keys ++ key ∷ []) self.old → AreCounts keys self.new }
    {
        let slot = slot_of(key);
        let had = self.counts[slot];
        self.counts[slot] = had - 1;
    }
}
