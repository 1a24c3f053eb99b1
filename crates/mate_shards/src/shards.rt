//! The shards and the passes for them.
ghost use Rattle.std.specs.Prelude.{◌≡◌, ◌↔◌, ◌+◌, ◌<◌, ◌≤◌, ℕ, [], Bool, true, All, IfOk, IfSome, Some, length};
ghost use Rattle.rules_model.specs.declared.board.Repeat.{Repeat as RepeatView};
ghost use Rattle.rules_model.specs.Repeats as Repeats;
ghost use Rattle.position_key.specs.Key.{IsBoardKey};
ghost use Rattle.forced_wins.specs.Facts.{serves};
ghost use Rattle.mate_core.specs.Runs.{IsTrueIn};
ghost use Rattle.fact_lock.specs.Passes.{IsPassOf, all_parts};
ghost use Rattle.std.specs.Option.{option_map};
ghost use Rattle.mate_core.specs.Claims.{fact_with};
ghost use Rattle.mate_shards.specs.Answers.{SeeAnswer, SeeAnswerOrFull, claim_kind, kind_of};
ghost use Rattle.mate_shards.specs.Grown.{HaveGrown, HaveParts, owned, stored_by};
ghost use Rattle.mate_shards.specs.Views.{ArePassesOf, IsFresh};
ghost use Rattle.mate_core.specs.Hash.{shard_of_hash};
ghost use Rattle.mate_shards.specs.Shard.{Fits};
ghost use Rattle.mate_shards.specs.Turns.{PublishTurn, LookTurn, AskTurn};

use crate::published::Published;
use crate::request::{Answer, Query, Request};
use crate::shard::Shard;
use fact_lock::{Lock, Pass};
use mate_core::{Claim, Fact, Frame, PackedFact, shard_of_hash};
use position_key::{BoardKey, Packed};
use rules_model::{Memory, Position, repeat_of};
use std::alloc::Global;
use std::marker::Model;
use std::sync::Wait;

/// How many shards hold the facts that many workers share.
pub const USUAL_SHARDS: u32 = 16;

/// How many facts a shard keeps where no number is set.
pub const USUAL_FACTS: u32 = 4096;

/// Lists of facts that are true in one frame, each list under a lock of its own. A fact stands in the shard of its
/// repeat. Contracts see the frame, the capacity of each shard and the names of the locks.
#[derive(Drop)]
pub struct Shards {
    pub(crate) frame: Frame,
    pub(crate) capacity: u32,
    pub(crate) locks: Vec<Lock<Shard>>,
}

impl Model for Shards {
    ghost use Rattle.mate_shards.specs.Views.{ShardsView, AreLocksOf};

    ghost Value = { ShardsView };

    ghost view = { λ s. record { frame = s.frame; capacity = s.capacity; locks = s.locks.items } };

    ghost invariant = { λ s. AreLocksOf s.frame s.capacity s.locks.items };
}

/// The right to use the shards: one pass for each. What is known of their lists goes with it.
#[derive(Drop)]
pub struct Passes {
    pub(crate) items: Vec<Pass<Shard>>,
}

impl Model for Passes {
    ghost use Rattle.std.specs.Prelude.{List};
    ghost use Rattle.mate_shards.specs.Views.{ShardPass};

    ghost Value = { List ShardPass };

    ghost view = { λ passes. passes.items.items };
}

impl Shards {
    /// Shards without facts, and passes with all parts. All memory of the lists is taken here.
    ///
    /// # Errors
    ///
    /// `Memory` where there is none.
    pub fn new(
        alloc: Global,
        frame: Frame,
        shards: u32,
        capacity: u32,
    ) -> Result<(Shards, Passes), Memory>
        requires shards { (1 ≤ shards) × (shards ≤ 64) }
        requires capacity { (16 ≤ capacity) × (capacity ≤ 65536) }
        ensures frame { IfOk result (λ made. made.0.frame ≡ frame) }
        ensures sizes { IfOk result (λ made. (made.0.capacity ≡ capacity) × (length made.0.locks ≡ shards)) }
        ensures passes { IfOk result (λ made. ArePassesOf made.0 made.1) }
        ensures fresh { IfOk result (λ made. All (IsFresh []) made.1) }
        ensures parts { IfOk result (λ made. HaveParts all_parts made.1) }
        ensures owned { IfOk result (λ made. owned made.1 ≡ 0) }
    {
        let count = shards as usize;
        let mut locks = Vec::with_capacity(alloc, count)?;
        let mut items = Vec::with_capacity(alloc, count)?;
        while locks.len() < count {
            let (lock, pass) = make(alloc, &frame, capacity)?;
            locks.push_reserved(lock);
            items.push_reserved(pass);
        }
        let shards = Shards {
            frame,
            capacity,
            locks,
        };
        Ok((shards, Passes { items }))
    }

    /// The frame in which all facts are true.
    pub fn frame(&self) -> &Frame
        ensures { result.now ≡ self.now.frame }
    {
        &self.frame
    }

    /// Puts a true fact into the shard of its repeat, unless a fact as good stands there or the shard is full. It takes
    /// no memory.
    pub fn publish<R: Wait>(&self, rt: &R, passes: &mut Passes, fact: &Fact) -> Published
        requires passes { ArePassesOf self.now passes.old }
        requires truth { IsTrueIn self.now.frame fact.now }
        ensures passes { ArePassesOf self.now passes.new }
        ensures turn { PublishTurn self.now passes.old fact.now result passes.new }
        ensures grown { HaveGrown passes.old passes.new }
        ensures parts { (n : ℕ) → HaveParts n passes.old → HaveParts n passes.new }
        ensures owned { owned passes.new ≡ owned passes.old + stored_by result }
        ensures known { (repeat : RepeatView) (counter moves : ℕ) → serves fact.now repeat counter moves ≡ true →
            SeeAnswerOrFull self.now passes.new fact.now.wins repeat counter moves }
    {
        self.put(rt, passes, PackedFact::of(fact))
    }

    /// The same for the fact that says this of the position's repeat, where the key of its board and hands is known.
    pub fn publish_by_key<R: Wait>(
        &self,
        rt: &R,
        passes: &mut Passes,
        p: &Position,
        key: BoardKey,
        claim: Claim,
    ) -> Published
        requires passes { ArePassesOf self.now passes.old }
        requires key { IsBoardKey key (Repeats.repeat_of p.now) }
        requires truth { IsTrueIn self.now.frame (fact_with (Repeats.repeat_of p.now) claim) }
        ensures passes { ArePassesOf self.now passes.new }
        ensures turn { PublishTurn self.now passes.old (fact_with (Repeats.repeat_of p.now) claim) result passes.new }
        ensures grown { HaveGrown passes.old passes.new }
        ensures parts { (n : ℕ) → HaveParts n passes.old → HaveParts n passes.new }
        ensures owned { owned passes.new ≡ owned passes.old + stored_by result }
        ensures known { (repeat : RepeatView) (counter moves : ℕ) →
            serves (fact_with (Repeats.repeat_of p.now) claim) repeat counter moves ≡ true →
            SeeAnswerOrFull self.now passes.new claim.wins repeat counter moves }
    {
        self.put(rt, passes, PackedFact::from_claim(p, key, claim))
    }

    // Puts a packed fact into the shard of its repeat.
    fn put<R: Wait>(&self, rt: &R, passes: &mut Passes, given: PackedFact) -> Published
        requires passes { ArePassesOf self.now passes.old }
        requires truth { IsTrueIn self.now.frame given }
        ensures passes { ArePassesOf self.now passes.new }
        ensures turn { PublishTurn self.now passes.old given result passes.new }
    {
        let shard = self.home(given.hash());
        match self.ask(rt, passes, shard, Request::Publish(given)) {
            Answer::Published(published) => published,
            Answer::Found(_) => unreachable!(),
        }
    }

    /// The first of the facts with the least moves among those that say whether the attacker wins the position within
    /// so many moves, if there is one: a true one. It takes no memory.
    pub fn look<R: Wait>(
        &self,
        rt: &R,
        passes: &mut Passes,
        p: &Position,
        moves: u16,
    ) -> Option<Fact>
        requires passes { ArePassesOf self.now passes.old }
        ensures passes { ArePassesOf self.now passes.new }
        ensures turn { LookTurn self.now passes.old p.now moves result passes.new }
        ensures grown { HaveGrown passes.old passes.new }
        ensures parts { (n : ℕ) → HaveParts n passes.old → HaveParts n passes.new }
        ensures owned { owned passes.new ≡ owned passes.old }
        ensures truth { IfSome result (IsTrueIn self.now.frame) }
        ensures serves { IfSome result (λ fact. serves fact (Repeats.repeat_of p.now) p.now.counter moves ≡ true) }
        ensures known { (wins : Bool) → (kind_of result ≡ Some wins)
            ↔ SeeAnswer self.now passes.new wins (Repeats.repeat_of p.now) p.now.counter moves }
    {
        let found = self.look_by_key(rt, passes, p, BoardKey::of(p), moves);
        fact_of(found, p)
    }

    /// What that fact says of the position's repeat, where the key of its board and hands is known.
    pub fn look_by_key<R: Wait>(
        &self,
        rt: &R,
        passes: &mut Passes,
        p: &Position,
        key: BoardKey,
        moves: u16,
    ) -> Option<Claim>
        requires passes { ArePassesOf self.now passes.old }
        requires key { IsBoardKey key (Repeats.repeat_of p.now) }
        ensures passes { ArePassesOf self.now passes.new }
        ensures turn { LookTurn self.now passes.old p.now moves
            (option_map (fact_with (Repeats.repeat_of p.now)) result) passes.new }
        ensures grown { HaveGrown passes.old passes.new }
        ensures parts { (n : ℕ) → HaveParts n passes.old → HaveParts n passes.new }
        ensures owned { owned passes.new ≡ owned passes.old }
        ensures truth { IfSome result (λ claim. IsTrueIn self.now.frame (fact_with (Repeats.repeat_of p.now) claim)) }
        ensures known { (wins : Bool) → (claim_kind result ≡ Some wins)
            ↔ SeeAnswer self.now passes.new wins (Repeats.repeat_of p.now) p.now.counter moves }
    {
        let query = Query {
            repeat: Packed::with_key(p, key),
            counter: p.counter,
            moves,
        };
        let shard = self.home(query.repeat.hash());
        match self.ask(rt, passes, shard, Request::Look(query)) {
            Answer::Found(found) => found,
            Answer::Published(_) => unreachable!(),
        }
    }

    // The shard of a hash.
    fn home(&self, hash: u64) -> usize
        ensures is { result ≡ shard_of_hash hash (length self.now.locks) }
        ensures below { result < length self.now.locks }
    {
        shard_of_hash(hash, self.locks.len() as u32) as usize
    }

    // One turn at one shard.
    fn ask<R: Wait>(&self, rt: &R, passes: &mut Passes, shard: usize, request: Request) -> Answer
        requires passes { ArePassesOf self.now passes.old }
        requires shard { shard < length self.now.locks }
        requires fits { Fits (self.now.frame, self.now.capacity) request }
        ensures passes { ArePassesOf self.now passes.new }
        ensures turn { AskTurn self.now passes.old shard request result passes.new }
    {
        self.locks[shard].with(rt, &mut passes.items[shard], request)
    }
}

// A lock over a shard without facts, and its pass.
fn make(alloc: Global, frame: &Frame, capacity: u32) -> Result<(Lock<Shard>, Pass<Shard>), Memory>
    requires { (0 < capacity) × (capacity ≤ 65536) }
    ensures key { IfOk result (λ made. made.0.key ≡ (frame.now, capacity)) }
    ensures pass { IfOk result (λ made. IsPassOf made.0 made.1) }
    ensures fresh { IfOk result (λ made. IsFresh [] made.1) }
{
    Lock::new(alloc, Shard::new(alloc, frame, capacity)?)
}

// The fact that says of the position what was found.
fn fact_of(found: Option<Claim>, p: &Position) -> Option<Fact>
    ensures { result ≡ option_map (fact_with (Repeats.repeat_of p.now)) found }
{
    match found {
        None => None,
        Some(claim) => Some(claim.with(repeat_of(p))),
    }
}
