//! Asks of small random games whether a side wins by force: the definition, worked out along every line, and the
//! solver, by each of its calls. Prints how many games each of them calls won within 1, 2 and 3 moves, and how often
//! they differ.
#![tactic(auto)]

ghost use Rattle.variant_rules.specs.Playable.{IsPlayable};

mod asking;
mod drawing;
mod families;
mod plain;
mod tally;
mod trial;

use asking::Call;
use drawing::{any_game, any_side};
use families::{Family, VARIANTS, families};
use foundation::Memory;
use game_play::Game;
use rand_pcg::Pcg32;
use rules_model::Rules;
use std::alloc::{AllocError, Global};
use std::io;
use std::sync::Wait;
use std::thread::Threads;
use tally::Tally;
use trial::{by_definition, by_solver, least, leaves_open};
use variant_rules::{Found, Variants, builtin, load};

/// How many games are tried of each family.
const GAMES: u64 = 20;

/// What came of the games of a family: by the definition, by each call, and how many answers of the calls differ.
#[derive(Clone, Copy)]
struct Report {
    plain: Tally,
    called: [Tally; 3],
    differences: u32,
}

/// The variants that are built in, and those of the families. The text of the families has no fault, so that only
/// memory can lack.
fn variants(alloc: Global) -> Result<Variants, Memory> {
    let mut sections = builtin(alloc)?;
    match sections.add(VARIANTS) {
        Ok(()) => load(alloc, &sections),
        Err(_) => Err(Memory),
    }
}

/// The calls that are asked about the game of this number. Every word of their hints is 0, which is no hint, or one
/// that may be taken for a hint.
fn calls(number: u64) -> [Call; 3] {
    let hint = match number % 3 {
        0 => 0,
        1 => u64::MAX,
        _ => 1 << 63,
    };
    [
        Call::Settle { hint },
        Call::Solve { workers: 1, hint },
        Call::Solve { workers: 4, hint },
    ]
}

/// Tries one game, and adds what comes of it to the report.
fn try_game<R: Threads + Wait + Sync>(
    rt: &R,
    alloc: Global,
    rules: &Rules,
    family: &Family,
    number: u64,
    report: &mut Report,
) -> Result<(), Memory>
    requires { IsPlayable rules.now }
{
    let mut generator = Pcg32::new(number, 0);
    let attacker = any_side(&mut generator);
    let mut game = any_game(alloc, rules, family, attacker, &mut generator)?;
    let most = family.most;
    let plain = by_definition(alloc, &mut game, attacker, most)?;
    report.plain.count(least(&plain, most));
    let calls = calls(number);
    for i in 0..3 {
        let said = by_solver(rt, alloc, &game, attacker, most, calls[i], &plain)?;
        report.called[i].count(least(&said, most));
        if said != plain {
            report.differences = report.differences.saturating_add(1);
        }
    }
    Ok(())
}

/// Tries the games of a family, and reports on them.
fn try_family<R: Threads + Wait + Sync>(
    rt: &R,
    alloc: Global,
    rules: &Rules,
    family: &Family,
) -> Result<Report, Memory>
    requires { IsPlayable rules.now }
{
    let mut report = Report {
        plain: Tally::new(),
        called: [Tally::new(); 3],
        differences: 0,
    };
    for number in 0..GAMES {
        try_game(rt, alloc, rules, family, number, &mut report)?;
    }
    Ok(report)
}

/// How many of the calls leave it open whether the side to move wins the start of the rules within 4 of its moves.
fn open_within_four<R: Threads + Wait + Sync>(
    rt: &R,
    alloc: Global,
    rules: &Rules,
) -> Result<u32, Memory>
    requires { IsPlayable rules.now }
{
    let game = Game::new(alloc, rules, &rules.start)?;
    let attacker = rules.start.side;
    let mut count: u32 = 0;
    for call in calls(0) {
        if leaves_open(rt, alloc, &game, attacker, 4, call)? {
            count = count.saturating_add(1);
        }
    }
    Ok(count)
}

fn main(rt: HostRuntime) -> io::Result<()> {
    let alloc = rt.alloc();
    let variants = variants(alloc).map_err(|_| AllocError)?;
    if let Found::Rules(rules) = variants.find(b"tight") {
        let open = open_within_four(&rt, alloc, rules).map_err(|_| AllocError)?;
        println!(rt; "tight: {open} of 3 calls leave the start open")?;
    }
    let mut differences: u32 = 0;
    for family in &families() {
        let name = family.name;
        let Found::Rules(rules) = variants.find(name.as_bytes()) else {
            return println!(rt; "{name} is refused");
        };
        let report = try_family(&rt, alloc, rules, family).map_err(|_| AllocError)?;
        let [settled, alone, together] = report.called;
        println!(rt; "{name}: {GAMES} games")?;
        println!(rt; "  by the definition: {}", report.plain)?;
        println!(rt; "  by one worker without ports: {settled}")?;
        println!(rt; "  by one worker: {alone}")?;
        println!(rt; "  by four workers: {together}")?;
        differences = differences.saturating_add(report.differences);
    }
    println!(rt; "differences {differences}")
}
