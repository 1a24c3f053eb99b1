//! The nodes by their repeats.
ghost use Rattle.std.specs.Prelude.{◌≡◌, ◌≤◌, ◌<◌, ◌%◌, ◌&&◌, [], length, take, IfOk, OnOk, count_by, replicate, nat_lt};
ghost use Rattle.std.specs.List.{list_any};
ghost use Rattle.rules_model.specs.Repeats as Repeats;
ghost use Rattle.position_key.specs.Key as Keys;
ghost use Rattle.strategy_check.specs.Buckets.{at, has_repeat, is_twin, found, key_for, number_of, put, IsIndex};
ghost use Rattle.strategy_check.specs.declared.places.Key.TheVariants as by;

use position_key::key_of;
use rules_model::{Memory, Position, repeats};
use std::alloc::{AllocError, Global};
use std::marker::Model;
use strategy::Node;

/// Of what a node's bucket depends.
#[derive(Clone, Copy)]
pub(crate) enum Key {
    /// Its repeat. Nodes of one repeat are counted so.
    Repeat,
    /// Its repeat and its counter. So the nodes of one repeat do not crowd one bucket.
    Counter,
}

impl Key {
    /// The key by which a check finds nodes where this many repetitions end the game, 0 for none. Where repetitions are
    /// counted, a repeat is a fault as soon as so many nodes have it, so no bucket that is searched again and again
    /// grows long.
    pub fn for_fold(fold: u16) -> Key
        ensures { result ≡ key_for fold }
    {
        if fold == 0 { Key::Counter } else { Key::Repeat }
    }

    /// A number that is the same for positions that are to be found together, from the key of the position's repeat.
    fn of(self, p: &Position, key: u64) -> u64
        requires key { key ≡ Keys.key_of (Repeats.repeat_of p.now) }
        ensures { result ≡ number_of self p.now }
    {
        match self {
            Key::Repeat => key,
            Key::Counter => key.wrapping_add(u64::from(p.counter)),
        }
    }

    /// The bucket of the position, whose repeat has this key, among so many.
    fn bucket(self, p: &Position, key: u64, size: usize) -> usize
        requires key { key ≡ Keys.key_of (Repeats.repeat_of p.now) }
        requires some { 0 < size }
        ensures is { result ≡ number_of self p.now % size }
        ensures below { result < size }
    {
        (self.of(p, key) % size as u64) as usize
    }
}

/// Places of nodes.
#[derive(Drop)]
pub(crate) struct Bucket {
    places: Vec<usize>,
}

impl Model for Bucket {
    ghost use Rattle.std.specs.Prelude.{List, ℕ};

    ghost Value = { List ℕ };

    ghost view = { λ b. b.places.items };
}

/// The places of nodes by their keys, so that the nodes of one repeat, or those that have a counter too, are found
/// without a look at all of them.
#[derive(Drop)]
pub(crate) struct Places {
    by: Key,
    buckets: Vec<Bucket>,
}

/// Whether the node at the place has the repeat of the position.
fn is_at(nodes: &[Node], place: usize, p: &Position) -> bool
    ensures { result ≡ at nodes.now (has_repeat (Repeats.repeat_of p.now)) place }
{
    match nodes.get(place) {
        None => false,
        Some(u) => repeats(&u.position, p),
    }
}

/// Whether the node at the place has the repeat and the counter of the position.
fn is_twin(nodes: &[Node], place: usize, p: &Position) -> bool
    ensures { result ≡ at nodes.now (is_twin p.now) place }
{
    match nodes.get(place) {
        None => false,
        // The counters are compared first, which is quickly done.
        Some(u) => u.position.counter == p.counter && repeats(&u.position, p),
    }
}

/// How many of the nodes at the places have the repeat of the position.
fn count_at(places: &[usize], nodes: &[Node], p: &Position) -> usize
    ensures { result ≡ count_by (at nodes.now (has_repeat (Repeats.repeat_of p.now))) places.now }
{
    places
        .iter()
        .filter(|place| is_at(nodes, **place, p))
        .count()
}

/// Whether one of the nodes at the places, which is one of the first, has the repeat and the counter of the position.
fn has_twin_at(places: &[usize], nodes: &[Node], first: usize, p: &Position) -> bool
    ensures { result ≡ list_any (λ j. nat_lt j first && at nodes.now (is_twin p.now) j) places.now }
{
    places
        .iter()
        .any(|place| *place < first && is_twin(nodes, *place, p))
}

fn empty_buckets(alloc: Global, size: usize) -> Result<Vec<Bucket>, AllocError>
    ensures { IfOk result (λ bs. bs.items ≡ replicate size []) }
{
    let mut buckets = Vec::with_capacity(alloc, size)?;
    for _bucket in 0..size {
        buckets.push(Bucket {
            places: Vec::new(alloc),
        })?;
    }
    Ok(buckets)
}

impl Places {
    /// The places of all nodes by this key.
    pub fn new(alloc: Global, by: Key, nodes: &[Node]) -> Result<Places, Memory>
        ensures key { IfOk result (λ p. p.by ≡ by) }
        ensures index { IfOk result (λ p. IsIndex by nodes.now p.buckets.items) }
    {
        let mut places = Places {
            by,
            buckets: empty_buckets(alloc, nodes.len().max(1))?,
        };
        for (i, v) in nodes.iter().enumerate() {
            places.put(i, &v.position)?;
        }
        Ok(places)
    }

    /// Puts the place of a node into its bucket.
    fn put(&mut self, place: usize, p: &Position) -> Result<(), AllocError>
        requires some { 0 < length self.old.buckets.items }
        ensures key { self.new.by ≡ self.old.by }
        ensures put { OnOk result
            (self.new.buckets.items ≡ put self.old.buckets.items place (number_of self.old.by p.now)) }
    {
        let b = self.by.bucket(p, key_of(p), self.buckets.len());
        self.buckets[b].places.push(place)?;
        Ok(())
    }

    /// The places of the bucket of the position, whose repeat has this key.
    fn bucket(&self, p: &Position, key: u64) -> &[usize]
        requires key { key ≡ Keys.key_of (Repeats.repeat_of p.now) }
        requires some { 0 < length self.now.buckets.items }
        ensures { result.now ≡ found self.now.buckets.items (number_of self.now.by p.now) }
    {
        self.buckets[self.by.bucket(p, key, self.buckets.len())]
            .places
            .as_slice()
    }

    /// How many of the nodes, which are found by their repeats, have the repeat of the position, whose key this is.
    pub fn count(&self, nodes: &[Node], p: &Position, key: u64) -> usize
        requires by { self.now.by ≡ by.Repeat }
        requires key { key ≡ Keys.key_of (Repeats.repeat_of p.now) }
        requires index { IsIndex self.now.by nodes.now self.now.buckets.items }
        ensures { result ≡ count_by (has_repeat (Repeats.repeat_of p.now)) nodes.now }
    {
        count_at(self.bucket(p, key), nodes, p)
    }

    /// Whether one of the first nodes has the repeat, whose key this is, and the counter of the position.
    pub fn has_twin(&self, nodes: &[Node], first: usize, p: &Position, key: u64) -> bool
        requires key { key ≡ Keys.key_of (Repeats.repeat_of p.now) }
        requires index { IsIndex self.now.by nodes.now self.now.buckets.items }
        requires there { first ≤ length nodes.now }
        ensures { result ≡ list_any (is_twin p.now) (take first nodes.now) }
    {
        has_twin_at(self.bucket(p, key), nodes, first, p)
    }
}
