//! What lies under the lock of one shard: its facts, all true in the frame, and an index over them.
ghost use Rattle.std.specs.Prelude.{◌≡◌, ◌<◌, ◌≤◌, [], ◌∷◌, ◌++◌, length, vec_len, vec_capacity, IfOk, slice_get};
ghost use Rattle.std.specs.Option.{option_copied, option_map};
ghost use Rattle.std.specs.List.{filter};
ghost use Rattle.forced_wins.specs.declared.fact.Fact.{Fact as FactView};
ghost use Rattle.mate_core.specs.Best as Best;
ghost use Rattle.mate_core.specs.Runs.{IsTrueIn, AreTrueIn};
ghost use Rattle.mate_core.specs.Steps as Steps;
ghost use Rattle.mate_core.specs.Claims.{claim_of};
ghost use Rattle.mate_shards.specs.Index.{IsHead, IsIndex, bucket_of, buckets};
ghost use Rattle.mate_shards.specs.Keeps.{AreKeeps, picks};
ghost use Rattle.mate_shards.specs.Kept.{IsKept};
ghost use Rattle.mate_shards.specs.Shard.{best_for, verdict, with_older};
ghost use Rattle.mate_shards.specs.Truth.{AreTrueIn-prop};

use crate::keeps::Keeps;
use crate::published::Published;
use crate::request::Query;
use mate_core::{Claim, Frame, PackedFact, part_of};
use rules_model::Memory;
use std::alloc::Global;
use std::snapshot::Snapshot;

/// A list of facts that only grows, up to its capacity. All its memory is reserved when it is made.
///
/// Facts of one bucket are chained, the newest first, so that a call goes over these alone.
#[derive(Drop)]
pub struct Shard {
    pub frame: Snapshot<Frame>,
    pub capacity: u32,
    pub facts: Vec<PackedFact>,
    /// For each bucket one more than the place of its newest fact, or 0.
    pub heads: Vec<u32>,
    /// For each fact one more than the place of the next older one of its bucket, or 0.
    pub links: Vec<u32>,
    ghost sized: { (0 < capacity) × (capacity ≤ 65536) },
    ghost reserved: { (capacity ≤ vec_capacity facts) × (capacity ≤ vec_capacity links) },
    ghost room: { (vec_len facts ≤ capacity) × (vec_len heads ≡ capacity) },
    ghost indexed: { IsIndex (buckets capacity facts.items) heads.items links.items },
    ghost true_facts: { AreTrueIn frame.value facts.items } by { AreTrueIn-prop frame.value facts.items },
}

impl Shard {
    /// A shard without facts.
    pub fn new(alloc: Global, frame: &Frame, capacity: u32) -> Result<Shard, Memory>
        requires { (0 < capacity) × (capacity ≤ 65536) }
        ensures frame { IfOk result (λ made. made.frame.value ≡ frame.now) }
        ensures capacity { IfOk result (λ made. made.capacity ≡ capacity) }
        ensures facts { IfOk result (λ made. made.facts.items ≡ []) }
    {
        let places = capacity as usize;
        Ok(Shard {
            frame: Snapshot::of(frame),
            capacity,
            facts: Vec::with_capacity(alloc, places)?,
            heads: vec![in alloc; 0; places]?,
            links: Vec::with_capacity(alloc, places)?,
        })
    }

    // One more than the place of the bucket's newest fact, or 0.
    fn head(&self, hash: u64) -> u32
        ensures { IsHead self.now.capacity self.now.facts.items hash result }
    {
        self.heads[bucket_of(hash, self.capacity)]
    }

    /// Whether a fact of the list is as good as the given one.
    pub fn has_better(&self, given: &PackedFact) -> bool
        ensures { result ≡ Best.has_better self.now.facts.items given.now }
    {
        let mut at = self.head(given.hash());
        while at > 0 {
            let place = (at - 1) as usize;
            if self.facts[place].is_as_good(given) {
                return true;
            }
            at = self.links[place];
        }
        false
    }

    /// The first of the facts with the least moves among those that answer the query.
    pub fn best(&self, query: &Query) -> Option<&PackedFact>
        ensures { option_copied result ≡ best_for query.now self.now.facts.items }
    {
        let mut found = None;
        let mut at = self.head(query.repeat.hash());
        while at > 0 {
            let place = (at - 1) as usize;
            found = with_older(&self.facts[place], found, query);
            at = self.links[place];
        }
        found
    }

    /// What the best answer to the query says.
    pub fn look(&self, query: &Query) -> Option<Claim>
        ensures { result ≡ option_map claim_of (best_for query.now self.now.facts.items) }
    {
        match self.best(query) {
            None => None,
            Some(fact) => Some(fact.claim()),
        }
    }

    /// Takes the fact in, unless one as good stands here or there is no place.
    pub fn publish(&mut self, given: PackedFact) -> Published
        requires truth { IsTrueIn self.old.frame.value given }
        ensures frame { self.new.frame.value ≡ self.old.frame.value }
        ensures capacity { self.new.capacity ≡ self.old.capacity }
        ensures facts { self.new.facts.items ≡ Steps.grown self.old.capacity self.old.facts.items given }
        ensures answer { result ≡ verdict self.old.capacity self.old.facts.items given }
    {
        if self.has_better(&given) {
            return Published::KnownBetter;
        }
        if self.facts.len() == self.capacity as usize {
            return Published::Full;
        }
        self.push(given);
        Published::Stored
    }

    /// The shard under a new frame, with the facts that stay true.
    pub fn rebased(self, keeps: &Keeps, old: &Frame, new: &Frame) -> Shard
        requires frame { self.frame.value ≡ old.now }
        requires keeps { AreKeeps old.now new.now keeps.now }
        ensures frame { result.frame.value ≡ new.now }
        ensures capacity { result.capacity ≡ self.capacity }
        ensures facts { IsKept old.now new.now self.facts.items result.facts.items }
    {
        let Shard {
            frame: _,
            capacity,
            mut facts,
            mut heads,
            mut links,
        } = self;
        pick(&mut facts, keeps);
        chain(&facts, capacity, &mut heads, &mut links);
        Shard {
            frame: Snapshot::of(new),
            capacity,
            facts,
            heads,
            links,
        }
    }

    // Puts the fact at the end of the list and at the head of its chain.
    fn push(&mut self, given: PackedFact)
        requires room { vec_len self.old.facts < self.old.capacity }
        requires truth { IsTrueIn self.old.frame.value given }
        ensures frame { self.new.frame.value ≡ self.old.frame.value }
        ensures capacity { self.new.capacity ≡ self.old.capacity }
        ensures facts { self.new.facts.items ≡ self.old.facts.items ++ given ∷ [] }
    {
        let bucket = bucket_of(given.hash(), self.capacity);
        self.links.push_reserved(self.heads[bucket]);
        self.facts.push_reserved(given);
        self.heads[bucket] = self.facts.len() as u32;
    }
}

// The bucket of a hash among so many.
#[tactic(auto, unfolding(crate::specs::Index::bucket_of))]
fn bucket_of(hash: u64, count: u32) -> usize
    requires some { 0 < count }
    ensures is { result ≡ bucket_of count hash }
    ensures below { result < count }
{
    part_of(hash % 0x1_0000_0000, count) as usize
}

// Chains the facts anew.
fn chain(facts: &[PackedFact], count: u32, heads: &mut Vec<u32>, links: &mut Vec<u32>)
    requires some { (0 < count) × (vec_len heads.old ≡ count) }
    requires room { length facts.now ≤ vec_capacity links.old }
    requires few { length facts.now ≤ 65536 }
    ensures indexed { IsIndex (buckets count facts.now) heads.new.items links.new.items }
    ensures heads { vec_len heads.new ≡ vec_len heads.old }
    ensures links { vec_capacity links.new ≡ vec_capacity links.old }
{
    links.clear();
    heads.fill(0);
    for i in 0..facts.len() {
        let bucket = bucket_of(facts[i].hash(), count);
        links.push_reserved(heads[bucket]);
        heads[bucket] = i as u32 + 1;
    }
}

// Keeps the facts that the frames allow, in their order.
fn pick(facts: &mut Vec<PackedFact>, keeps: &Keeps)
    ensures facts { facts.new.items ≡ filter (picks keeps.now) facts.old.items }
    ensures capacity { vec_capacity facts.new ≡ vec_capacity facts.old }
    ensures len { vec_len facts.new ≤ vec_len facts.old }
{
    facts.retain(|fact| keeps.picks(fact));
}

// Of an older fact and what was found among the newer ones, the better answer.
fn with_older<'a>(
    fact: &'a PackedFact,
    found: Option<&'a PackedFact>,
    query: &Query,
) -> Option<&'a PackedFact>
    ensures { option_copied result ≡ with_older fact.now (option_copied found.entry) query.now }
{
    if !fact.serves(&query.repeat, query.counter, query.moves) {
        return found;
    }
    match found {
        Some(best) if best.moves() < fact.moves() => found,
        _ => Some(fact),
    }
}
