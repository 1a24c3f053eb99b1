//! Tests of `fact_lock`.
ghost use Rattle.std.specs.Prelude.{◌≡◌, ◌+◌, ◌^◌, ◌<◌, ◌≤◌, length, vec_len, vec_capacity, nat_lt, if◌then◌else◌, Some, None};
ghost use Rattle.std.specs.Option.{option_and_then};
ghost use Rattle.fact_lock.specs.Passes.{IsPassOf, all_parts};

use crate::expect::{expect, expect_eq};
use fact_lock::{Journal, Lock, Pass};
use std::sync::Wait;
use std::thread::{Threads, join};

// Numbers up to a limit, which is their key. `Some` adds a number where there is room, and `None` only looks.
#[derive(Drop)]
struct Numbers {
    most: u64,
    items: Vec<u64>,
    ghost reserved: { most ≤ vec_capacity items },
    ghost few: { vec_len items ≤ most },
}

impl Journal for Numbers {
    type Key = u64;

    type Entry = u64;

    type Op = Option<u64>;

    type Reply = u64;

    ghost key = { λ numbers. numbers.most };

    ghost list = { λ numbers. numbers.items.items };

    ghost fits = { λ _ _. Unit {0} };

    ghost holds = { λ most xs. length xs ≤ most };

    ghost reply = { λ _ xs _. length xs };

    ghost added = { λ most xs op. option_and_then (λ x. if nat_lt (length xs) most then Some x else None) op };

    fn act(&mut self, op: Option<u64>) -> u64 {
        let before = self.len();
        if let Some(number) = op
            && before < self.most
        {
            self.items.push_reserved(number);
        }
        before
    }

    fn len(&self) -> u64 {
        self.items.len() as u64
    }
}

// Adds a hundred numbers and looks after each. False where a look found fewer entries than the one before.
fn add_hundred<R: Wait>(
    rt: &R,
    lock: &Lock<Numbers>,
    mut pass: Pass<Numbers>,
    first: u64,
) -> (Pass<Numbers>, bool)
    requires lock { IsPassOf lock.now pass }
    requires first { first < 2 ^ 32 }
    ensures { IsPassOf lock.now result.0 × (result.0.parts ≡ pass.parts) }
{
    let mut grows = true;
    for i in 0..100 {
        let before = lock.with(rt, &mut pass, Some(first + i));
        let after = lock.with(rt, &mut pass, None);
        grows = grows && before < after;
    }
    (pass, grows)
}

// Two threads add a hundred numbers each.
fn add_two_hundred<R: Threads + Wait + Sync>(
    rt: &R,
    lock: &Lock<Numbers>,
    one: Pass<Numbers>,
    other: Pass<Numbers>,
    first: u64,
) -> (Pass<Numbers>, bool)
    requires locks { IsPassOf lock.now one × IsPassOf lock.now other }
    requires first { first < 1000 }
    ensures { IsPassOf lock.now result.0 × (result.0.parts ≡ one.parts + other.parts) }
{
    let ((one, one_grows), (other, other_grows)) = join(
        rt,
        move || -> (Pass<Numbers>, bool)
            requires { IsPassOf lock.now one × (first < 1000) }
            ensures { IsPassOf lock.entry.now result.0 × (result.0.parts ≡ one.parts) }
        { add_hundred(rt, lock, one, first) },
        move || -> (Pass<Numbers>, bool)
            requires { IsPassOf lock.now other × (first < 1000) }
            ensures { IsPassOf lock.entry.now result.0 × (result.0.parts ≡ other.parts) }
        { add_hundred(rt, lock, other, first + 100) },
    );
    (lock.join(one, other), one_grows && other_grows)
}

// How many of the numbers below `end` do not stand in the list exactly once.
fn strays(numbers: &Numbers, end: u64) -> usize {
    (0..end)
        .filter(|x| numbers.items.iter().filter(|y| **y == *x).count() != 1)
        .count()
}

// Four threads add a hundred numbers each.
fn add_four_hundred<R: Threads + Wait + Sync>(
    rt: &R,
    lock: &Lock<Numbers>,
    pass: Pass<Numbers>,
) -> (Pass<Numbers>, bool)
    requires lock { IsPassOf lock.now pass }
    requires parts { pass.parts ≡ all_parts }
    ensures { IsPassOf lock.now result.0 × (result.0.parts ≡ all_parts) }
{
    let (a, b) = lock.split(pass);
    let (a, c) = lock.split(a);
    let (a, d) = lock.split(a);
    let ((one, one_grows), (other, other_grows)) = join(
        rt,
        move || -> (Pass<Numbers>, bool)
            requires { IsPassOf lock.now a × IsPassOf lock.now b }
            ensures { IsPassOf lock.entry.now result.0 × (result.0.parts ≡ a.parts + b.parts) }
        { add_two_hundred(rt, lock, a, b, 0) },
        move || -> (Pass<Numbers>, bool)
            requires { IsPassOf lock.now c × IsPassOf lock.now d }
            ensures { IsPassOf lock.entry.now result.0 × (result.0.parts ≡ c.parts + d.parts) }
        { add_two_hundred(rt, lock, c, d, 200) },
    );
    (lock.join(one, other), one_grows && other_grows)
}

#[test]
fn four_threads_add_each_entry_once(rt: HostRuntime) {
    let items = Vec::with_capacity(rt.alloc(), 400).expect(&rt, "no fault");
    let (lock, pass) = Lock::new(rt.alloc(), Numbers { most: 400, items }).expect(&rt, "no fault");
    let (pass, grows) = add_four_hundred(&rt, &lock, pass);
    let numbers = lock.close(pass);
    expect(&rt, grows);
    expect_eq(&rt, (numbers.len(), strays(&numbers, 400)), (400, 0));
}
