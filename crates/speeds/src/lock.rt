//! How many calls a second a lock takes from one, two and four threads.
ghost use Rattle.std.specs.Prelude.{◌+◌, ◌<◌, ◌≤◌};
ghost use Rattle.fact_lock.specs.Passes.{IsPassOf};

use crate::tally::Tally;
use fact_lock::{Lock, Pass};
use std::alloc::AllocError;
use std::io;
use std::sync::Wait;
use std::thread::{Threads, join};
use std::time::{Duration, Instant};

// One call in sixteen adds an entry.
fn call_often<R: Wait>(rt: &R, lock: &Lock<Tally>, mut pass: Pass<Tally>, calls: u32) -> Pass<Tally>
    requires { IsPassOf lock.now pass }
    ensures { IsPassOf lock.now result }
{
    for i in 0..calls {
        lock.with(rt, &mut pass, i % 16 == 0);
    }
    pass
}

fn call_from_two<R: Threads + Wait + Sync>(
    rt: &R,
    lock: &Lock<Tally>,
    one: Pass<Tally>,
    other: Pass<Tally>,
    calls: u32,
) -> Pass<Tally>
    requires { IsPassOf lock.now one × IsPassOf lock.now other }
    ensures { IsPassOf lock.now result }
{
    let (one, other) = join(
        rt,
        move || -> Pass<Tally>
            requires { IsPassOf lock.now one }
            ensures { IsPassOf lock.entry.now result }
        { call_often(rt, lock, one, calls) },
        move || -> Pass<Tally>
            requires { IsPassOf lock.now other }
            ensures { IsPassOf lock.entry.now result }
        { call_often(rt, lock, other, calls) },
    );
    lock.join(one, other)
}

fn call_from_four<R: Threads + Wait + Sync>(
    rt: &R,
    lock: &Lock<Tally>,
    pass: Pass<Tally>,
    calls: u32,
) -> Pass<Tally>
    requires { IsPassOf lock.now pass × (4 ≤ pass.parts) }
    ensures { IsPassOf lock.now result }
{
    let (a, b) = lock.split(pass);
    let (a, c) = lock.split(a);
    let (a, d) = lock.split(a);
    let (one, other) = join(
        rt,
        move || -> Pass<Tally>
            requires { IsPassOf lock.now a × IsPassOf lock.now b }
            ensures { IsPassOf lock.entry.now result }
        { call_from_two(rt, lock, a, b, calls) },
        move || -> Pass<Tally>
            requires { IsPassOf lock.now c × IsPassOf lock.now d }
            ensures { IsPassOf lock.entry.now result }
        { call_from_two(rt, lock, c, d, calls) },
    );
    lock.join(one, other)
}

// The calls are shared out evenly.
fn call_from<R: Threads + Wait + Sync>(
    rt: &R,
    threads: u32,
    lock: &Lock<Tally>,
    pass: Pass<Tally>,
    calls: u32,
) -> Pass<Tally>
    requires { IsPassOf lock.now pass × (4 ≤ pass.parts) }
{
    match threads {
        1 => call_often(rt, lock, pass, calls),
        2 => {
            let (one, other) = lock.split(pass);
            call_from_two(rt, lock, one, other, calls / 2)
        }
        _ => call_from_four(rt, lock, pass, calls / 4),
    }
}

fn calls_a_second(calls: u32, spent: Duration) -> u64 {
    let micros = u64::try_from(spent.as_micros()).unwrap_or(u64::MAX);
    u64::from(calls) * 1_000_000 / micros.max(1)
}

/// Prints the calls a second of one, two and four threads, by so many calls each time.
pub(crate) fn measure<H: Threads + Wait + Sync>(
    rt: &HostRuntime,
    handle: &H,
    calls: u32,
) -> io::Result<()> {
    for threads in [1, 2, 4] {
        let (lock, pass) = Lock::new(rt.alloc(), Tally::new()).map_err(|_| AllocError)?;
        let start = Instant::now(rt)?;
        call_from(handle, threads, &lock, pass, calls);
        let rate = calls_a_second(calls, start.elapsed(rt)?);
        println!(rt; "{threads} threads: {rate} calls a second")?;
    }
    Ok(())
}
