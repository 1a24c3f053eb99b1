//! How many publishes and looks a second sixteen shards take from one and from four threads, and beside them how many
//! sixteen hash maps take, each behind a mutex.
ghost use Rattle.std.specs.Prelude.{◌≡◌, ◌<◌, ◌≤◌, All, IfOk, length, vec_len};
ghost use Rattle.fact_lock.specs.Passes.{all_parts};
ghost use Rattle.mate_shards.specs.Refuted.{RefutesAll};
ghost use Rattle.mate_shards.specs.Views.{ArePassesOf};

use crate::drawn::{POSITIONS, drawn, positions};
use crate::maps::Maps;
use crate::store::{Call, Store, call_all};
use mate_shards::{Passes, Shards, USUAL_FACTS, USUAL_SHARDS};
use rules_model::Position;
use std::alloc::{AllocError, Global};
use std::io;
use std::sync::Wait;
use std::thread::{Threads, for_each_mut};
use std::time::{Clock, Duration, Instant};

// The part of the positions that one of the threads takes.
fn share(positions: &[Position], thread: usize, threads: usize) -> &[Position]
    requires { (thread < threads) × (threads ≤ 64) }
{
    let size = positions.len() / threads;
    &positions[thread * size..][..size]
}

// How long it takes to make the call for all positions, with as many threads as there are rights.
fn time<R: Threads + Wait + Clock + Sync, S: Store + Sync>(
    rt: &R,
    store: &S,
    rights: &mut [S::Right],
    positions: &[Position],
    call: Call,
) -> io::Result<Duration>
    requires rights { All (S.serves store.now) rights.old }
    requires count { (0 < length rights.old) × (length rights.old ≤ 64) }
    ensures rights { All (S.serves store.now) rights.new }
    ensures count { length rights.new ≡ length rights.old }
{
    let threads = rights.len();
    let start = Instant::now(rt)?;
    for_each_mut(
        rt,
        rights,
        threads,
        &|thread: usize, right: &mut S::Right|
            requires { S.serves store.now right.now × (thread < threads) × (threads ≤ 64) }
            ensures { S.serves store.entry.now right.exit.now }
        {
            let positions = share(positions, thread, threads);
            call_all(rt, store, right, positions, call);
        },
    );
    start.elapsed(rt)
}

// How long it takes to publish a fact of each position, and to look for each.
#[derive(Clone, Copy)]
struct Times {
    publish: Duration,
    look: Duration,
}

impl Times {
    fn least(self, other: Times) -> Times {
        Times {
            publish: self.publish.min(other.publish),
            look: self.look.min(other.look),
        }
    }
}

fn time_both<R: Threads + Wait + Clock + Sync, S: Store + Sync>(
    rt: &R,
    store: &S,
    rights: &mut [S::Right],
    positions: &[Position],
) -> io::Result<Times>
    requires rights { All (S.serves store.now) rights.old }
    requires count { (0 < length rights.old) × (length rights.old ≤ 64) }
{
    let publish = time(rt, store, rights, positions, Call::Publish)?;
    let look = time(rt, store, rights, positions, Call::Look)?;
    Ok(Times { publish, look })
}

// Passes for each of the threads.
fn shared_out(
    alloc: Global,
    shards: &Shards,
    mut passes: Passes,
    threads: usize,
) -> Result<Vec<Passes>, AllocError>
    requires passes { ArePassesOf shards.now passes }
    requires parts { All (λ p. p.parts ≡ all_parts) passes }
    requires threads { (0 < threads) × (threads ≤ 64) }
    ensures count { IfOk result (λ all. vec_len all ≡ threads) }
    ensures passes { IfOk result (λ all. All (ArePassesOf shards.now) all.items) }
{
    let mut all = Vec::with_capacity(alloc, threads)?;
    for _ in 1..threads {
        let Ok((kept, given)) = shards.split(passes) else {
            return Err(AllocError);
        };
        passes = kept;
        all.push_reserved(given);
    }
    all.push_reserved(passes);
    Ok(all)
}

// Shards that take refutations, and passes for each of the threads.
fn shards_for(alloc: Global, threads: usize) -> Result<(Shards, Vec<Passes>), AllocError>
    requires threads { (0 < threads) × (threads ≤ 64) }
    ensures count { IfOk result (λ made. vec_len made.1 ≡ threads) }
    ensures passes { IfOk result (λ made. All (ArePassesOf made.0) made.1.items) }
    ensures truth { IfOk result (λ made. RefutesAll made.0.frame) }
{
    let Ok((shards, passes)) = Shards::new(alloc, drawn(alloc), USUAL_SHARDS, USUAL_FACTS) else {
        return Err(AllocError);
    };
    let all = shared_out(alloc, &shards, passes, threads)?;
    Ok((shards, all))
}

fn time_shards<R: Threads + Wait + Clock + Sync>(
    rt: &R,
    alloc: Global,
    threads: usize,
    positions: &[Position],
) -> io::Result<Times>
    requires { (0 < threads) × (threads ≤ 64) }
{
    let (shards, mut passes) = shards_for(alloc, threads)?;
    time_both(rt, &shards, &mut passes, positions)
}

fn time_maps<R: Threads + Wait + Clock + Sync>(
    rt: &R,
    alloc: Global,
    threads: usize,
    positions: &[Position],
) -> io::Result<Times>
    requires { (0 < threads) × (threads ≤ 64) }
{
    let maps = Maps::new(alloc, USUAL_SHARDS, USUAL_FACTS)?;
    let mut rights = vec![in alloc; (); threads]?;
    time_both(rt, &maps, &mut rights, positions)
}

fn calls_a_second(spent: Duration) -> u64 {
    let micros = u64::try_from(spent.as_micros()).unwrap_or(u64::MAX);
    POSITIONS as u64 * 1_000_000 / micros.max(1)
}

/// Prints the publishes and looks a second of one and of four threads, the best of so many rounds.
pub(crate) fn measure<H: Threads + Wait + Clock + Sync>(
    rt: &HostRuntime,
    handle: &H,
    rounds: u32,
) -> io::Result<()> {
    let alloc = rt.alloc();
    let positions = positions(alloc)?;
    for threads in [1, 4] {
        let mut shards = time_shards(handle, alloc, threads, &positions)?;
        let mut maps = time_maps(handle, alloc, threads, &positions)?;
        for _ in 1..rounds {
            shards = shards.least(time_shards(handle, alloc, threads, &positions)?);
            maps = maps.least(time_maps(handle, alloc, threads, &positions)?);
        }
        println!(rt;
            "publishes of {threads} threads: {} and {} a second",
            calls_a_second(shards.publish),
            calls_a_second(maps.publish)
        )?;
        println!(rt;
            "looks of {threads} threads: {} and {} a second",
            calls_a_second(shards.look),
            calls_a_second(maps.look)
        )?;
    }
    Ok(())
}
