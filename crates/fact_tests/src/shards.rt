//! Tests of `mate_shards`.
ghost use Rattle.std.specs.Prelude.{◌≡◌, ◌≤◌, false, IfOk};
ghost use Rattle.fact_lock.specs.Passes.{all_parts};
ghost use Rattle.mate_shards.specs.Grown.{HaveParts};
ghost use Rattle.mate_shards.specs.Refuted.{RefutesAll};
ghost use Rattle.mate_shards.specs.Views.{ArePassesOf};

use crate::expect::{expect, expect_eq};
use mate_core::{Claim, Fact, Frame};
use mate_shards::{Passes, Published, Shards};
use position_key::BoardKey;
use rules_model::{Blocked, Memory, Position, Repeat, Side, Value, repeat_of};
use sample_rules::{empty, leapers};
use std::alloc::Global;
use std::sync::Wait;
use std::thread::{Threads, join};

// A frame whose rules draw every end, so that the attacker wins no position and every refutation is true.
fn drawn(blocked: Vec<Repeat>) -> Frame
    ensures { RefutesAll result }
{
    let mut rules = leapers();
    rules.flag_kind = None;
    rules.check_counting = false;
    rules.extinction = None;
    rules.checkmate = Value::Draw;
    rules.stalemate = Value::Draw;
    Frame {
        rules,
        blocked: Blocked { items: blocked },
        attacker: Side::White,
    }
}

// Shards in such a frame, and all their passes.
fn drawn_shards(
    alloc: Global,
    blocked: Vec<Repeat>,
    count: u32,
    capacity: u32,
) -> Result<(Shards, Passes), Memory>
    requires count { (1 ≤ count) × (count ≤ 64) }
    requires capacity { (16 ≤ capacity) × (capacity ≤ 65536) }
    ensures truth { IfOk result (λ made. RefutesAll made.0.frame) }
    ensures passes { IfOk result (λ made. ArePassesOf made.0 made.1) }
    ensures parts { IfOk result (λ made. HaveParts all_parts made.1) }
{
    let (shards, passes) = Shards::new(alloc, drawn(blocked), count, capacity)?;
    Ok((shards, passes))
}

// An empty board, with the bytes of the number in White's hand.
fn numbered(number: u32) -> Position {
    let mut p = empty();
    p.hands[0][0] = (number % 256) as u8;
    p.hands[0][1] = (number / 256 % 256) as u8;
    p.hands[0][2] = (number / 65536 % 256) as u8;
    p
}

// That it is not won within two moves, at any counter.
fn refutation(number: u32) -> Fact
    ensures { result.wins ≡ false }
{
    Fact {
        repeat: repeat_of(&numbered(number)),
        attacker: Side::White,
        moves: 2,
        counter: 0,
        best: None,
        wins: false,
    }
}

// Passes after facts of different repeats were published: how many were stored, and how many were not found.
#[derive(Drop)]
struct Done {
    passes: Passes,
    stored: u32,
    lost: u32,
}

// Publishes the facts of the numbers from the first up to the end, and looks for each.
fn publish_all<R: Wait>(rt: &R, shards: &Shards, mut passes: Passes, first: u32, end: u32) -> Done
    requires passes { ArePassesOf shards.now passes }
    requires truth { RefutesAll shards.now.frame }
    ensures { ArePassesOf shards.now result.passes }
{
    let mut stored: u32 = 0;
    let mut lost: u32 = 0;
    for number in first..end {
        let fact = refutation(number);
        if shards.publish(rt, &mut passes, &fact) == Published::Stored {
            stored = stored.saturating_add(1);
        }
        if shards.look(rt, &mut passes, &numbered(number), 2) != Some(fact) {
            lost = lost.saturating_add(1);
        }
    }
    Done {
        passes,
        stored,
        lost,
    }
}

fn joined(shards: &Shards, one: Done, other: Done) -> Done
    requires { ArePassesOf shards.now one.passes × ArePassesOf shards.now other.passes }
    ensures { ArePassesOf shards.now result.passes }
{
    Done {
        passes: shards.join(one.passes, other.passes),
        stored: one.stored.saturating_add(other.stored),
        lost: one.lost.saturating_add(other.lost),
    }
}

// Passes for four threads.
fn in_four(shards: &Shards, passes: Passes) -> Result<(Passes, Passes, Passes, Passes), Memory>
    requires passes { ArePassesOf shards.now passes }
    requires parts { HaveParts all_parts passes }
    ensures first { IfOk result (λ four. ArePassesOf shards.now four.0) }
    ensures second { IfOk result (λ four. ArePassesOf shards.now four.1) }
    ensures third { IfOk result (λ four. ArePassesOf shards.now four.2) }
    ensures fourth { IfOk result (λ four. ArePassesOf shards.now four.3) }
{
    let Ok((passes, a)) = shards.split(passes) else {
        return Err(Memory);
    };
    let Ok((passes, b)) = shards.split(passes) else {
        return Err(Memory);
    };
    let Ok((c, d)) = shards.split(passes) else {
        return Err(Memory);
    };
    Ok((a, b, c, d))
}

// What publishing the fact of the number answers, and what a look within these moves finds of it.
fn answers<R: Wait>(
    rt: &R,
    shards: &Shards,
    passes: &mut Passes,
    number: u32,
    moves: u16,
) -> (Published, Option<Fact>)
    requires passes { ArePassesOf shards.now passes.old }
    requires truth { RefutesAll shards.now.frame }
    ensures { ArePassesOf shards.now passes.new }
{
    let published = shards.publish(rt, passes, &refutation(number));
    let found = shards.look(rt, passes, &numbered(number), moves);
    (published, found)
}

// The same, where the fact is published by its claim and the key of the board.
fn answers_by_key<R: Wait>(
    rt: &R,
    shards: &Shards,
    passes: &mut Passes,
    number: u32,
) -> (Published, Option<Fact>)
    requires passes { ArePassesOf shards.now passes.old }
    requires truth { RefutesAll shards.now.frame }
    ensures { ArePassesOf shards.now passes.new }
{
    let p = numbered(number);
    let claim = Claim {
        attacker: Side::White,
        moves: 2,
        counter: 0,
        best: None,
        wins: false,
    };
    let published = shards.publish_by_key(rt, passes, &p, BoardKey::of(&p), claim);
    let found = shards.look(rt, passes, &p, 2);
    (published, found)
}

#[test]
fn a_shard_of_sixteen_places(rt: HostRuntime) {
    let (shards, passes) = drawn_shards(rt.alloc(), Vec::new(rt.alloc()), 1, 16).expect(
        &rt, "no fault",
    );
    let mut done = publish_all(&rt, &shards, passes, 0, 15);
    expect_eq(&rt, (done.stored, done.lost), (15, 0));
    let by_key = answers_by_key(&rt, &shards, &mut done.passes, 15);
    let full = answers(&rt, &shards, &mut done.passes, 16, 2);
    let known = answers(&rt, &shards, &mut done.passes, 0, 2);
    let within_three = answers(&rt, &shards, &mut done.passes, 0, 3);
    let found = [
        by_key == (Published::Stored, Some(refutation(15))),
        full == (Published::Full, None),
        known == (Published::KnownBetter, Some(refutation(0))),
        within_three == (Published::KnownBetter, None),
    ];
    expect_eq(&rt, found, [true; 4]);
}

#[test]
fn a_shard_of_all_places(rt: HostRuntime) {
    let (shards, passes) = drawn_shards(rt.alloc(), Vec::new(rt.alloc()), 1, 65536).expect(
        &rt, "no fault",
    );
    let mut done = publish_all(&rt, &shards, passes, 0, 65536);
    expect_eq(&rt, (done.stored, done.lost), (65536, 0));
    let more = answers(&rt, &shards, &mut done.passes, 65536, 2);
    expect(&rt, more == (Published::Full, None));
}

// Two threads publish ten thousand facts each, the second of them five thousand numbers on.
fn publish_in_two<R: Threads + Wait + Sync>(
    rt: &R,
    shards: &Shards,
    one: Passes,
    other: Passes,
    first: u32,
) -> Done
    requires passes { ArePassesOf shards.now one × ArePassesOf shards.now other }
    requires truth { RefutesAll shards.now.frame }
    requires first { first ≤ 10000 }
    ensures { ArePassesOf shards.now result.passes }
{
    let (one, other) = join(
        rt,
        move || -> Done
            requires { ArePassesOf shards.now one × RefutesAll shards.now.frame × (first ≤ 10000) }
            ensures { ArePassesOf shards.entry.now result.passes }
        { publish_all(rt, shards, one, first, first + 10000) },
        move || -> Done
            requires { ArePassesOf shards.now other × RefutesAll shards.now.frame × (first ≤ 10000) }
            ensures { ArePassesOf shards.entry.now result.passes }
        { publish_all(rt, shards, other, first + 5000, first + 15000) },
    );
    joined(shards, one, other)
}

// Two times two threads do so.
fn publish_in_four<R: Threads + Wait + Sync>(
    rt: &R,
    shards: &Shards,
    passes: Passes,
) -> Result<Done, Memory>
    requires passes { ArePassesOf shards.now passes }
    requires parts { HaveParts all_parts passes }
    requires truth { RefutesAll shards.now.frame }
    ensures { IfOk result (λ done. ArePassesOf shards.now done.passes) }
{
    let (a, b, c, d) = in_four(shards, passes)?;
    let (front, back) = join(
        rt,
        move || -> Done
            requires { ArePassesOf shards.now a × ArePassesOf shards.now b × RefutesAll shards.now.frame }
            ensures { ArePassesOf shards.entry.now result.passes }
        { publish_in_two(rt, shards, a, b, 0) },
        move || -> Done
            requires { ArePassesOf shards.now c × ArePassesOf shards.now d × RefutesAll shards.now.frame }
            ensures { ArePassesOf shards.entry.now result.passes }
        { publish_in_two(rt, shards, c, d, 10000) },
    );
    Ok(joined(shards, front, back))
}

// A thread shares half of its facts with the one before it and half with the one after it, and each fact is stored for
// one.
#[test]
fn four_threads_store_each_fact_once(rt: HostRuntime) {
    let (shards, passes) = drawn_shards(rt.alloc(), Vec::new(rt.alloc()), 16, 4096).expect(
        &rt, "no fault",
    );
    let done = publish_in_four(&rt, &shards, passes).expect(&rt, "no fault");
    expect_eq(&rt, (done.stored, done.lost), (25000, 0));
    let again = publish_all(&rt, &shards, done.passes, 0, 25000);
    expect_eq(&rt, (again.stored, again.lost), (0, 0));
}

// Cuts passes in two, joins them, and makes the shards anew for another frame.
fn reopened(shards: Shards, passes: Passes, frame: Frame) -> Result<(Shards, Passes), Memory>
    requires passes { ArePassesOf shards passes }
    requires parts { HaveParts all_parts passes }
    ensures passes { IfOk result (λ made. ArePassesOf made.0 made.1) }
    ensures parts { IfOk result (λ made. HaveParts all_parts made.1) }
{
    let Ok((kept, part)) = shards.split(passes) else {
        return Err(Memory);
    };
    let joined = shards.join(kept, part);
    shards.rebase(joined, frame)
}

// Whether a refutation is still found after the blocked positions changed.
fn stays<R: Wait>(
    rt: &R,
    alloc: Global,
    before: Vec<Repeat>,
    after: Vec<Repeat>,
) -> Result<bool, Memory> {
    let (shards, mut passes) = drawn_shards(alloc, before, 4, 16)?;
    shards.publish(rt, &mut passes, &refutation(0));
    let (shards, mut passes) = reopened(shards, passes, drawn(after))?;
    Ok(shards.look(rt, &mut passes, &numbered(0), 2) == Some(refutation(0)))
}

// A refutation stays where a position is blocked besides, and goes where one is free again.
#[test]
fn another_frame_keeps_what_stays_true(rt: HostRuntime) {
    let alloc = rt.alloc();
    let none = Vec::new(alloc);
    let one = vec![in alloc; repeat_of(&numbered(1))].expect(&rt, "no fault");
    expect(&rt, stays(&rt, alloc, none, one).expect(&rt, "no fault"));
    let none = Vec::new(alloc);
    let one = vec![in alloc; repeat_of(&numbered(1))].expect(&rt, "no fault");
    expect(&rt, !stays(&rt, alloc, one, none).expect(&rt, "no fault"));
}
