//! The same over hash maps, each behind a mutex.
ghost use Rattle.std.specs.Prelude.{◌<◌, ◌≤◌, vec_len};
ghost use Rattle.std.specs.Cmp.Rules.{hashing};
ghost use Rattle.std.specs.Hash as fed;
ghost use Rattle.std.proofs.Common.{rules};

use crate::store::Store;
use mate_core::{Fact, shard_of_hash};
use position_key::key_of_repeat;
use rules_model::{Move, Position, Repeat, Side, repeat_of};
use std::alloc::{AllocError, Global};
use std::collections::HashMap;
use std::collections::hash_map::Entry;
use std::hash::{Hash, Hasher};
use std::sync::{Mutex, Wait};

/// A repeat with its hash.
#[derive(Clone, Copy, PartialEq, Eq, Drop)]
struct Key {
    hash: u64,
    repeat: Repeat,
}

impl Hash for Key {
    ghost hash_input = { λ key. fed.u64 key.hash };

    ghost respects_eq = { Prim.search (hashing, rules) };

    fn hash<H: Hasher>(&self, state: &mut H) {
        self.hash.hash(state);
    }
}

/// What a fact says of its repeat.
#[derive(Clone, Copy, Drop)]
struct Claim {
    attacker: Side,
    moves: u16,
    counter: u16,
    best: Option<Move>,
    wins: bool,
}

fn key_of(repeat: &Repeat) -> Key {
    Key {
        hash: key_of_repeat(repeat),
        repeat: *repeat,
    }
}

fn claim_of(fact: &Fact) -> Claim {
    Claim {
        attacker: fact.attacker,
        moves: fact.moves,
        counter: fact.counter,
        best: fact.best,
        wins: fact.wins,
    }
}

fn fact_of(repeat: Repeat, claim: &Claim) -> Fact {
    Fact {
        repeat,
        attacker: claim.attacker,
        moves: claim.moves,
        counter: claim.counter,
        best: claim.best,
        wins: claim.wins,
    }
}

/// One fact of each repeat, in the map of the shard in which it would stand, and at most so many in each map.
#[derive(Drop)]
pub struct Maps {
    maps: Vec<Mutex<HashMap<Key, Claim>>>,
    most: usize,
    ghost count: { (0 < vec_len maps) × (vec_len maps ≤ 64) },
}

impl Maps {
    /// Empty maps, each with room for so many facts.
    pub fn new(alloc: Global, count: u32, facts: u32) -> Result<Maps, AllocError>
        requires { (1 ≤ count) × (count ≤ 64) }
    {
        let count = count as usize;
        let most = facts as usize;
        let mut maps = Vec::with_capacity(alloc, count)?;
        while maps.len() < count {
            maps.push(Mutex::new(HashMap::with_capacity(alloc, most)?))?;
        }
        Ok(Maps { maps, most })
    }

    // The map of a hash.
    fn home(&self, hash: u64) -> &Mutex<HashMap<Key, Claim>> {
        &self.maps[shard_of_hash(hash, self.maps.len() as u32) as usize]
    }
}

impl Store for Maps {
    type Right = ();

    ghost serves = { λ _ _. Unit {0} };

    fn publish<R: Wait>(&self, rt: &R, _right: &mut (), fact: &Fact) -> bool {
        let key = key_of(&fact.repeat);
        let mut map = self.home(key.hash).lock(rt);
        let is_full = map.len() >= self.most;
        match map.entry(key) {
            Ok(Entry::Vacant(_)) if is_full => false,
            Ok(Entry::Vacant(place)) => {
                place.insert(claim_of(fact));
                true
            }
            Ok(Entry::Occupied(place)) => {
                let known = place.get();
                if known.wins == fact.wins
                    && fact_of(fact.repeat, known).covers(fact.counter, fact.moves)
                {
                    return false;
                }
                *place.into_mut() = claim_of(fact);
                true
            }
            Err(_) => false,
        }
    }

    fn look<R: Wait>(&self, rt: &R, _right: &mut (), p: &Position, moves: u16) -> Option<Fact> {
        let key = key_of(&repeat_of(p));
        let map = self.home(key.hash).lock(rt);
        let fact = fact_of(key.repeat, map.get(&key)?);
        if fact.covers(p.counter, moves) {
            Some(fact)
        } else {
            None
        }
    }
}
