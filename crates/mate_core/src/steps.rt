//! The machine: one event of a worker at a time.
ghost use Rattle.std.specs.Prelude.{◌≡◌, IfOk, OnOk, slice_get, Some};
ghost use Rattle.mate_core.specs.Steps as Steps;
ghost use Rattle.mate_core.specs.Runs.{IsReached, IsAllowed, HoldsTruth};

use crate::best_fact::{best, has_better};
use crate::event::{Event, Reply};
use crate::store::{FactList, Known, Store};
use forced_wins::Fact;
use rules_model::{Memory, Repeat};

/// Takes one event: the store that follows, and the reply. Every fact of a store that allowed events have reached, from
/// one without facts, is true in its frame.
///
/// # Errors
///
/// `Memory` where there is none. The store is then given up.
#[tactic(auto, unfolding(crate::specs::Steps::step))]
pub fn step(store: Store, e: &Event) -> Result<(Store, Reply), Memory>
    ensures step { IfOk result (λ done. done ≡ Steps.step store e.now) }
    ensures reached { IsReached store → IsAllowed store e.now → IfOk result (λ done. IsReached done.0) }
    ensures truth { IsReached store → IsAllowed store e.now → IfOk result (λ done. HoldsTruth done.0) }
{
    match *e {
        Event::Publish {
            worker,
            shard,
            fact,
        } => publish(store, worker, shard, fact),
        Event::Look {
            worker,
            shard,
            repeat,
            counter,
            moves,
        } => look(store, worker, shard, &repeat, counter, moves),
        Event::Hint { .. } => Ok((store, Reply::Nothing)),
    }
}

// Publishes the fact in the shard, if there is one of that number.
fn publish(mut store: Store, worker: u32, shard: u32, fact: Fact) -> Result<(Store, Reply), Memory>
    ensures { IfOk result (λ done. done ≡ Steps.publish_at store worker shard fact (slice_get store.shards shard)) }
{
    let shards = &mut store.shards.items;
    let Some(list) = shards.get_mut(shard as usize) else {
        return Ok((store, Reply::Nothing));
    };
    let reply = take_in(&mut list.items, store.capacity, fact)?;
    learn(&mut store, worker, fact)?;
    Ok((store, reply))
}

// Puts the fact at the end of the list, unless a fact as good stands there or there is no place.
fn take_in(facts: &mut Vec<Fact>, capacity: u32, fact: Fact) -> Result<Reply, Memory>
    ensures reply { IfOk result (λ reply. reply ≡ Steps.published capacity facts.old.items fact) }
    ensures list { OnOk result (facts.new.items ≡ Steps.grown capacity facts.old.items fact) }
{
    if has_better(facts, &fact) {
        return Ok(Reply::KnownBetter);
    }
    if capacity as usize <= facts.len() {
        return Ok(Reply::Full);
    }
    facts.push(fact)?;
    Ok(Reply::Stored)
}

// Looks in the shard, if there is one of that number.
fn look(
    mut store: Store,
    worker: u32,
    shard: u32,
    repeat: &Repeat,
    counter: u16,
    moves: u16,
) -> Result<(Store, Reply), Memory>
    ensures { IfOk result (λ done. done
        ≡ Steps.look_at store worker repeat.now counter moves (slice_get store.shards shard)) }
{
    let Some(list) = store.shards.items.get(shard as usize) else {
        return Ok((store, Reply::Nothing));
    };
    match best(&list.items, repeat, counter, moves) {
        None => Ok((store, Reply::Found(None))),
        Some(fact) => {
            learn(&mut store, worker, fact)?;
            Ok((store, Reply::Found(Some(fact))))
        }
    }
}

// The worker knows the fact from now on.
fn learn(store: &mut Store, worker: u32, fact: Fact) -> Result<(), Memory>
    ensures { OnOk result (store.new ≡ Steps.told store.old worker (Some fact)) }
{
    store.known.items.push(Known { worker, fact })?;
    Ok(())
}
