//! Tests of `pn_search`.
ghost use Rattle.std.specs.Prelude.{◌≡◌, true, None};
ghost use Rattle.rules_model.specs.Sound.{is_sound};
ghost use Rattle.pn_search.specs.Trees as Trees;

use crate::expect::{expect, expect_eq};
use crate::helpers::{frame_of, game_from, placed, shards_for};
use crate::mirror::Mirror;
use attack_tables::Tables;
use game_play::Game;
use mate_core::Frame;
use mate_search::is_counted;
use pn_search::{Grew, INFINITE, PnFault, Tree, find, least_mate, root_end};
use rules_model::{Outcome, Position, Side, sound};
use sample_rules::position;
use std::alloc::Global;
use std::process::Abort;
use std::sync::Wait;

/// The root's numbers once the tree does not grow any more.
fn settled(
    rt: &impl Abort,
    alloc: Global,
    frame: &Frame,
    tables: &Tables,
    p: &Position,
    n: u16,
) -> Option<(u32, u32)>
    requires tables { tables.now ≡ frame.now.rules }
    requires sound { is_sound frame.now.rules p.now ≡ true }
    requires ongoing { Trees.end_at frame.now 0 p.now ≡ None }
{
    assert!(rt; 0 < n && n <= 9);
    let mut tree = Tree::new(alloc, frame, p, n).expect(rt, "no fault");
    'growing: for _ in 0..100_000 {
        match tree.grow(tables).expect(rt, "no fault") {
            Grew::Expanded(_) => {}
            Grew::Settled => {
                if tree.len() > 0 {
                    return Some(tree.numbers(0));
                }
            }
        }
    }
    None
}

/// Asserts whether White's win within n moves is found; the root's repeat may not be entered again.
fn expect_root(rt: &impl Abort, alloc: Global, p: &Position, n: u16, wins: bool) {
    let frame = frame_of(rt, alloc, p);
    let tables = Tables::new(alloc, &frame.rules).expect(rt, "no fault");
    assert!(rt; sound(&frame.rules, p));
    let None = root_end(&frame, &tables, p) else {
        panic!(rt; "an end");
    };
    let found = settled(rt, alloc, &frame, &tables, p, n);
    let wanted = if wins { (0, INFINITE) } else { (INFINITE, 0) };
    assert!(rt; found == Some(wanted), "within {n}");
}

// Mates in one and two, and none.
#[test]
fn roots_are_settled(rt: HostRuntime) {
    let alloc = rt.alloc();
    expect_root(&rt, alloc, &placed("Kg6 Ra1 kh8", Side::White), 1, true);
    expect_root(&rt, alloc, &placed("Kg6 Ra7 kh8", Side::Black), 1, true);
    let rook = position("Kf6 Ra7 kh8");
    expect_root(&rt, alloc, &rook, 1, false);
    expect_root(&rt, alloc, &rook, 2, true);
    let problem = position("ra8 kd8 Rc7 pg7 ph6 pa5 Bb5 Rf5 Pb3 Pa2 Pd2 Pf2 Pg2 Ph2 Kg1");
    expect_root(&rt, alloc, &problem, 1, false);
    expect_root(&rt, alloc, &problem, 2, true);
}

// A new tree is one open node, and its first expansion is that of the root.
#[test]
fn first_expansion(rt: HostRuntime) {
    let p = position("Kf6 Ra7 kh8");
    let frame = frame_of(&rt, rt.alloc(), &p);
    let tables = Tables::new(rt.alloc(), &frame.rules).expect(&rt, "no fault");
    assert!(rt; sound(&frame.rules, &p));
    let None = root_end(&frame, &tables, &p) else {
        panic!(rt; "an end");
    };
    let mut tree = Tree::new(rt.alloc(), &frame, &p, 2).expect(&rt, "no fault");
    expect_eq(&rt, tree.len(), 1);
    expect_eq(&rt, tree.numbers(0), (1, 1));
    let grew = tree.grow(&tables).expect(&rt, "no fault");
    expect(&rt, matches!(grew, Grew::Expanded(0)));
    expect(&rt, tree.len() > 10);
}

/// Asserts that the tree is, after each of its first 2,000 expansions, the one that is kept beside it.
fn grows_as_defined<R: Abort>(
    rt: &R,
    alloc: Global,
    frame: &Frame,
    tables: &Tables,
    p: &Position,
    n: u16,
)
    requires tables { tables.now ≡ frame.now.rules }
    requires sound { is_sound frame.now.rules p.now ≡ true }
    requires ongoing { Trees.end_at frame.now 0 p.now ≡ None }
{
    assert!(rt; 0 < n && n <= 100);
    let mut tree = Tree::new(alloc, frame, p, n).expect(rt, "no fault");
    let mut mirror = Mirror::new(rt, alloc, p, p, n);
    let mut numbers = mirror.numbers(rt, alloc);
    'growing: for _ in 0..2_000 {
        let Grew::Expanded(at) = tree.grow(tables).expect(rt, "no fault") else {
            return;
        };
        expect_eq(rt, at as usize, mirror.most_proving(&numbers));
        mirror.expand(rt, alloc, tables, at as usize);
        numbers = mirror.numbers(rt, alloc);
        assert!(rt; mirror.is_same(&numbers, &tree), "after {at}");
    }
}

/// The same of the tree of White's win within n moves; the root's repeat may not be entered again.
fn grows(rt: &impl Abort, alloc: Global, p: &Position, n: u16) {
    let frame = frame_of(rt, alloc, p);
    let tables = Tables::new(alloc, &frame.rules).expect(rt, "no fault");
    assert!(rt; sound(&frame.rules, p));
    let None = root_end(&frame, &tables, p) else {
        panic!(rt; "an end");
    };
    grows_as_defined(rt, alloc, &frame, &tables, p, n);
}

// Mates that are found and mates that are not, with few moves, so that the trees stay small.
#[test]
fn trees_grow_as_defined(rt: HostRuntime) {
    let alloc = rt.alloc();
    grows(&rt, alloc, &placed("Kf6 Ra7 kh8", Side::White), 6);
    grows(&rt, alloc, &placed("Kf6 Ra7 kh8", Side::Black), 6);
    grows(&rt, alloc, &placed("Ke4 Pd4 ke6 pd6", Side::White), 8);
    grows(&rt, alloc, &placed("Ka1 Pa2 ka8 pa7", Side::White), 8);
    let problem = position("ra8 kd8 Rc7 pg7 ph6 pa5 Bb5 Rf5 Pb3 Pa2 Pd2 Pf2 Pg2 Ph2 Kg1");
    grows(&rt, alloc, &problem, 2);
}

/// Whether White's win within 2 moves is found, and whether a look then finds that the position after it is won within
/// 1.
fn found_and_known<R: Abort + Wait>(
    rt: &R,
    alloc: Global,
    game: &Game,
    after: &Position,
) -> (bool, bool) {
    assert!(rt; game.outcome() == Outcome::Ongoing);
    assert!(rt; !is_counted(game.rules(), 2, game.position()));
    let (shards, passes) = shards_for(alloc, game, Side::White).expect(rt, "no fault");
    let (mut passes, found) = find(rt, alloc, game, Side::White, 2, &shards, passes);
    let found = found.expect(rt, "no fault");
    let fact = shards.look(rt, &mut passes, after, 1);
    (found.won, fact.is_some_and(|fact| fact.wins))
}

// The rook's mate in two is found, and a position on its line is known then.
#[test]
fn found_wins_are_published(rt: HostRuntime) {
    let game = game_from(&rt, rt.alloc(), &position("Kf6 Ra7 kh8"));
    let mut after = placed("Kg6 Ra7 kh8", Side::Black);
    after.counter = 1;
    let found = found_and_known(&rt, rt.alloc(), &game, &after);
    expect_eq(&rt, found, (true, true));
}

/// Asserts within how many moves White, who is to move, mates; or which fault there is.
fn mates_within(
    rt: &impl Abort,
    alloc: Global,
    p: &Position,
    n: u16,
    wanted: Result<Option<u16>, PnFault>,
) {
    assert!(rt; 0 < n && n <= 100);
    let game = game_from(rt, alloc, p);
    let found = least_mate(alloc, &game, n).expect(rt, "no fault");
    expect_eq(rt, found, wanted);
}

// Mates within the moves and not, a count of moves that may run out, and games that are over.
#[test]
fn least_mates(rt: HostRuntime) {
    let alloc = rt.alloc();
    let rook = position("Kf6 Ra7 kh8");
    mates_within(&rt, alloc, &rook, 2, Ok(Some(2)));
    mates_within(&rt, alloc, &rook, 1, Ok(None));
    mates_within(&rt, alloc, &rook, 9, Ok(Some(2)));
    let mut queen = position("Kf6 Qg6 kh8");
    queen.counter = 97;
    mates_within(&rt, alloc, &queen, 1, Ok(Some(1)));
    queen.counter = 98;
    mates_within(&rt, alloc, &queen, 1, Err(PnFault::NearCount));
    queen.counter = 100;
    mates_within(&rt, alloc, &queen, 1, Err(PnFault::Ended));
    let mated = placed("Kf6 Qg7 kh8", Side::Black);
    mates_within(&rt, alloc, &mated, 1, Err(PnFault::Ended));
}

/// Asserts how the fault prints.
fn expect_text(rt: &impl Abort, alloc: Global, fault: PnFault, wanted: &str) {
    let text = format!(in alloc; "{}", fault).expect(rt, "no fault");
    expect(rt, text.as_bytes() == wanted.as_bytes());
}

#[test]
fn faults_print(rt: HostRuntime) {
    let alloc = rt.alloc();
    expect_text(&rt, alloc, PnFault::NearCount, "PnFault 1 NearCount");
    expect_text(&rt, alloc, PnFault::Ended, "PnFault 2 Ended");
}
