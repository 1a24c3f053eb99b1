//! Positions one after another, each with how often its repeat had stood by then, itself counted.
ghost use Rattle.std.specs.Prelude.{◌≡◌, ◌<◌, ◌≤◌, ◌-◌, not, [], ◌∷◌, ◌++◌, map, take, length, slice_index_or};
ghost use Rattle.std.specs.Prelude.{vec_len, vec_capacity, IfOk, OnOk, OnErr};
ghost use Rattle.forced_wins.specs.Wins.{is_in};
ghost use Rattle.rules_model.specs.declared.board.Position.{Position};
ghost use Rattle.rules_model.specs.Games.{times, same_repeat};
ghost use Rattle.rules_model.specs.Repeats.{repeat_of};
ghost use Rattle.position_key.specs.Key as Key;
ghost use Rattle.game_play.specs.Played.{keys_of};
ghost use Rattle.game_play.specs.Standings.{slot_of};

use position_key::key_of;
use rules_model::{Memory, Position, repeats};
use std::alloc::{AllocError, Global};
use std::marker::Model;

/// How many slots there are. A key is in the slot of its remainder.
const SLOTS: usize = 1024;

/// Positions one after another, at most 8,193, each with its key and with how often its repeat had stood by then,
/// itself counted.
///
/// Those whose keys are in one slot are chained, the newest first, so that a repeat is found with no look at the other
/// slots. Contracts see the positions.
#[derive(Drop)]
pub(crate) struct Standings {
    positions: Vec<Position>,
    keys: Vec<u64>,
    /// For each position how many of it and those before it have its repeat.
    counts: Vec<u16>,
    /// For each slot one more than the place of its newest position, or 0.
    heads: Vec<u16>,
    /// For each position one more than the place of the next older one of its slot, or 0.
    before: Vec<u16>,
}

impl Model for Standings {
    ghost use Rattle.std.specs.Prelude.{List};
    ghost use Rattle.rules_model.specs.declared.board.Position.{Position};
    ghost use Rattle.game_play.specs.Standings.{AreStandings};

    ghost Value = { List Position };

    ghost view = { λ s. s.positions.items };

    ghost invariant = { λ s. AreStandings s.positions.items s.keys.items s.counts.items s.heads.items s.before.items };
}

fn slot_of(key: u64) -> usize
    ensures is { result ≡ slot_of key }
    ensures below { result < 1024 }
{
    (key % SLOTS as u64) as usize
}

/// Whether two positions of these keys repeat each other. The positions are looked at where the keys agree.
#[tactic(auto, using(position_key::proofs::KeyLaws::unequal_keys))]
fn is_standing(kept: &Position, kept_key: u64, p: &Position, key: u64) -> bool
    requires kept_key { kept_key ≡ Key.key_of (repeat_of kept.now) }
    requires key { key ≡ Key.key_of (repeat_of p.now) }
    ensures { result ≡ same_repeat (repeat_of kept.now) (repeat_of p.now) }
{
    if kept_key != key {
        return false;
    }
    repeats(kept, p)
}

/// Memory for one element more in each of the four. After an error too, they hold what they held.
fn reserve_one(
    positions: &mut Vec<Position>,
    keys: &mut Vec<u64>,
    counts: &mut Vec<u16>,
    before: &mut Vec<u16>,
) -> Result<(), AllocError>
    ensures positions { positions.new.items ≡ positions.old.items }
    ensures keys { keys.new.items ≡ keys.old.items }
    ensures counts { counts.new.items ≡ counts.old.items }
    ensures before { before.new.items ≡ before.old.items }
    ensures room_of_positions { OnOk result (vec_len positions.new < vec_capacity positions.new) }
    ensures room_of_keys { OnOk result (vec_len keys.new < vec_capacity keys.new) }
    ensures room_of_counts { OnOk result (vec_len counts.new < vec_capacity counts.new) }
    ensures room_before { OnOk result (vec_len before.new < vec_capacity before.new) }
{
    positions.reserve(1)?;
    keys.reserve(1)?;
    counts.reserve(1)?;
    before.reserve(1)?;
    Ok(())
}

impl Standings {
    /// The one position, or `Memory`.
    pub fn new(alloc: Global, start: &Position) -> Result<Standings, Memory>
        ensures { IfOk result (λ s. s ≡ start.now ∷ []) }
    {
        let heads = vec![in alloc; 0; SLOTS]?;
        let mut standings = Standings {
            positions: Vec::new(alloc),
            keys: Vec::new(alloc),
            counts: Vec::new(alloc),
            heads,
            before: Vec::new(alloc),
        };
        standings.push(start)?;
        Ok(standings)
    }

    /// The positions in their order.
    pub fn positions(&self) -> &[Position]
        ensures is { result.now ≡ self.now }
        ensures few { length self.now ≤ 8193 }
    {
        self.positions.as_slice()
    }

    /// The key of each.
    pub fn keys(&self) -> &[u64]
        ensures { result.now ≡ keys_of self.now }
    {
        self.keys.as_slice()
    }

    /// The last of them.
    pub fn last(&self) -> &Position
        requires some { 0 < length self.now }
        ensures { (p : Position) → result.now ≡ slice_index_or self.now (length self.now - 1) p }
    {
        &self.positions[self.positions.len() - 1]
    }

    /// How often the last of them has stood.
    pub fn times_of_last(&self) -> u16
        requires some { 0 < length self.now }
        ensures { (p : Position) → result
            ≡ times (repeat_of (slice_index_or self.now (length self.now - 1) p)) self.now }
    {
        self.counts[self.counts.len() - 1]
    }

    /// Whether the one at the place is the first of its repeat.
    pub fn is_first(&self, at: usize) -> bool
        requires there { at < length self.now }
        ensures { (p : Position) → result
            ≡ not (is_in (map repeat_of (take at self.now)) (repeat_of (slice_index_or self.now at p))) }
    {
        self.counts[at] == 1
    }

    /// How many of them have the position's repeat, whose key this is. Only positions of its slot are compared.
    pub fn times(&self, p: &Position, key: u64) -> u16
        requires key { key ≡ Key.key_of (repeat_of p.now) }
        ensures is { result ≡ times (repeat_of p.now) self.now }
        ensures few { result ≤ length self.now }
    {
        let mut at = self.heads[slot_of(key)];
        while at > 0 {
            let place = (at - 1) as usize;
            if is_standing(&self.positions[place], self.keys[place], p, key) {
                return self.counts[place];
            }
            at = self.before[place];
        }
        0
    }

    /// Puts the position after them. After an error they are what they were.
    pub fn push(&mut self, p: &Position) -> Result<(), AllocError>
        requires room { length self.old < 8193 }
        ensures pushed { OnOk result (self.new ≡ self.old ++ p.now ∷ []) }
        ensures same { OnErr result (self.new ≡ self.old) }
    {
        let key = key_of(p);
        let count = self.times(p, key) + 1;
        reserve_one(
            &mut self.positions,
            &mut self.keys,
            &mut self.counts,
            &mut self.before,
        )?;
        let slot = slot_of(key);
        self.before.push_reserved(self.heads[slot]);
        self.positions.push_reserved(*p);
        self.keys.push_reserved(key);
        self.counts.push_reserved(count);
        self.heads[slot] = self.positions.len() as u16;
        Ok(())
    }

    /// Takes the last of them off.
    pub fn pop(&mut self)
        requires some { 0 < length self.old }
        ensures { self.new ≡ take (length self.old - 1) self.old }
    {
        let last = self.positions.len() - 1;
        self.heads[slot_of(self.keys[last])] = self.before[last];
        self.positions.truncate(last);
        self.keys.truncate(last);
        self.counts.truncate(last);
        self.before.truncate(last);
    }
}
