//! Measures parts of the engine by themselves: `legal` what a search asks of a position, `lock` the lock, `facts` the
//! shards of facts beside hash maps. Without a word it prints nothing.
#![tactic(auto)]

mod drawn;
mod facts;
mod legal;
mod lock;
mod maps;
mod question;
mod store;
mod tally;

use std::sync::Wait;
use std::thread::Threads;
use std::time::Clock;
use std::{env, io};

fn usage(rt: &HostRuntime) -> io::Result<()> {
    println!(rt; "usage: speeds legal PLIES [QUESTION], speeds lock CALLS, speeds facts ROUNDS")
}

// Measures the part of this name, so many times.
fn measure<H: Threads + Wait + Clock + Sync>(
    rt: &HostRuntime,
    handle: &H,
    part: &str,
    number: u32,
) -> io::Result<()> {
    if part == "legal" {
        return legal::measure_all(rt, number);
    }
    if part == "lock" {
        return lock::measure(rt, handle, number);
    }
    if part == "facts" {
        return facts::measure(rt, handle, number);
    }
    usage(rt)
}

fn main(rt: HostRuntime) -> io::Result<()> {
    let mut words = env::args(&rt)?.skip(1);
    let Some(part) = words.next() else {
        return Ok(());
    };
    let Some(word) = words.next() else {
        return usage(&rt);
    };
    let Ok(number) = word.parse::<u32>() else {
        return usage(&rt);
    };
    match words.next() {
        Some(question) => legal::measure_named(&rt, number, &question),
        None => measure(&rt, &rt, &part, number),
    }
}
