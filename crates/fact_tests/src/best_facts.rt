//! Tests of `mate_core`.
use crate::expect::{expect, expect_eq};
use forced_wins::Fact;
use mate_core::{
    Event, FactList, FactLists, Frame, KnownList, Reply, Store, best, is_as_good, serves, shard_of,
    step,
};
use position_key::key_of_repeat;
use rules_model::{Blocked, Cell, Kind, Repeat, Side, Square};
use sample_rules::leapers;
use std::alloc::Global;
use std::process::Abort;

fn bare() -> Repeat {
    Repeat {
        cells: [None; 120],
        hands: [[0; 26]; 2],
        gates: [0; 2],
        rights: [[false; 2]; 2],
        checks: [0; 2],
        ep: None,
        side: Side::White,
    }
}

fn fact(wins: bool, moves: u16, counter: u16) -> Fact {
    Fact {
        repeat: bare(),
        attacker: Side::White,
        moves,
        counter,
        best: None,
        wins,
    }
}

/// Asserts which of four facts serves best at the counter, within these moves: its number of moves, and its counter.
fn expect_best(rt: &impl Abort, counter: u16, moves: u16, want: Option<(u16, u16)>) {
    let facts = [
        fact(true, 3, 10),
        fact(true, 2, 5),
        fact(false, 1, 4),
        fact(true, 2, 7),
    ];
    let found = best(&facts, &bare(), counter, moves);
    let found = found.map(|fact| (fact.moves, fact.counter));
    assert!(rt; found == want, "at {counter} within {moves}");
}

#[test]
fn the_least_moves_and_of_those_the_first(rt: HostRuntime) {
    expect_best(&rt, 5, 3, Some((2, 5)));
    expect_best(&rt, 6, 3, Some((2, 7)));
    expect_best(&rt, 8, 3, Some((3, 10)));
    expect_best(&rt, 4, 1, Some((1, 4)));
    expect_best(&rt, 3, 1, None);
    expect_best(&rt, 11, 9, None);
}

fn king_of(side: Side) -> Option<Cell> {
    Some(Cell {
        side,
        kind: Kind(10),
        origin: None,
    })
}

/// Asserts that the repeat, which differs from the bare one in one part, is another.
fn expect_another(rt: &impl Abort, other: &Repeat) {
    let win = fact(true, 3, 10);
    expect(
        rt,
        !serves(&win, other, 10, 3) && key_of_repeat(other) != key_of_repeat(&bare()),
    );
}

#[test]
fn a_side_a_passing_pawn_and_checks_count(rt: HostRuntime) {
    let win = fact(true, 3, 10);
    expect(
        &rt,
        serves(&win, &bare(), 10, 3) && key_of_repeat(&win.repeat) == key_of_repeat(&bare()),
    );
    let side = Side::Black;
    expect_another(&rt, &Repeat { side, ..bare() });
    let ep = Some(Square(50));
    expect_another(&rt, &Repeat { ep, ..bare() });
    let checks = [1, 0];
    expect_another(&rt, &Repeat { checks, ..bare() });
    let gates = [0, 1];
    expect_another(&rt, &Repeat { gates, ..bare() });
    let rights = [[false; 2], [false, true]];
    expect_another(&rt, &Repeat { rights, ..bare() });
}

#[test]
fn the_last_of_a_hand_and_of_the_cells_counts(rt: HostRuntime) {
    let mut other = bare();
    other.hands[1][25] = 1;
    expect_another(&rt, &other);
    let mut other = bare();
    other.cells[119] = king_of(Side::White);
    expect_another(&rt, &other);
}

/// Asserts whether a known win is as good as a given fact, each by its moves and its counter.
fn expect_as_good(rt: &impl Abort, known: (u16, u16), given: (u16, u16), wins: bool, want: bool) {
    let known = fact(wins, known.0, known.1);
    let given = fact(wins, given.0, given.1);
    expect_eq(rt, is_as_good(&known, &given), want);
}

#[test]
fn as_good_is_no_slower_at_no_lower_a_counter(rt: HostRuntime) {
    expect_as_good(&rt, (2, 5), (2, 5), true, true);
    expect_as_good(&rt, (2, 5), (3, 4), true, true);
    expect_as_good(&rt, (2, 5), (1, 5), true, false);
    expect_as_good(&rt, (2, 5), (2, 6), true, false);
    expect_as_good(&rt, (2, 5), (1, 6), false, true);
    expect_as_good(&rt, (2, 5), (3, 5), false, false);
    expect_as_good(&rt, (2, 5), (2, 4), false, false);
    let (win, refutation) = (fact(true, 2, 5), fact(false, 2, 5));
    expect(&rt, !is_as_good(&refutation, &win));
}

// A king on each square of the largest board: 120 repeats, of which 16 shards get some each.
#[test]
fn shards_share_the_repeats(rt: HostRuntime) {
    let mut filled = [false; 16];
    for square in 0..120 {
        let mut repeat = bare();
        repeat.cells[square] = king_of(Side::Black);
        expect_eq(&rt, shard_of(&repeat, 1), 0);
        filled[shard_of(&repeat, 16) as usize] = true;
    }
    expect(&rt, filled.iter().all(|is| *is));
}

// A store with one shard of sixteen places.
fn small(rt: &impl Abort, alloc: Global) -> Store {
    let none = FactList {
        items: Vec::new(alloc),
    };
    let shard = vec![in alloc; none].expect(rt, "no fault");
    Store {
        frame: Frame {
            rules: leapers(),
            blocked: Blocked {
                items: Vec::new(alloc),
            },
            attacker: Side::White,
        },
        capacity: 16,
        shards: FactLists { items: shard },
        known: KnownList {
            items: Vec::new(alloc),
        },
    }
}

// A win of the repeat with so many pieces in a hand.
fn numbered(number: u8) -> Fact {
    let mut win = fact(true, 3, 10);
    win.repeat.hands[0][0] = number;
    win
}

fn publish(number: u8) -> Event {
    Event::Publish {
        worker: 0,
        shard: 0,
        fact: numbered(number),
    }
}

fn look(number: u8) -> Event {
    Event::Look {
        worker: 1,
        shard: 0,
        repeat: numbered(number).repeat,
        counter: 10,
        moves: 3,
    }
}

/// The name of a reply; of a fact that was found, its number.
fn name_of(reply: &Reply) -> (&'static str, Option<u8>) {
    match reply {
        Reply::Stored => ("stored", None),
        Reply::Full => ("full", None),
        Reply::KnownBetter => ("known better", None),
        Reply::Found(found) => ("found", found.map(|fact| fact.repeat.hands[0][0])),
        Reply::Nothing => ("nothing", None),
    }
}

// The store of sixteen facts.
fn full(rt: &impl Abort, alloc: Global) -> Store {
    let mut store = small(rt, alloc);
    for number in 0..16 {
        let (next, reply) = step(store, &publish(number)).expect(rt, "no fault");
        expect_eq(rt, name_of(&reply), ("stored", None));
        store = next;
    }
    store
}

// Asserts the reply of the full store to the event, after which it still has sixteen facts.
fn expect_reply(rt: &impl Abort, alloc: Global, event: &Event, wanted: (&str, Option<u8>)) {
    let (store, reply) = step(full(rt, alloc), event).expect(rt, "no fault");
    expect_eq(rt, name_of(&reply), wanted);
    let list = store.shards.items.get(0);
    assert!(rt; list.is_some_and(|list| list.items.len() == 16));
}

#[test]
fn a_shard_of_sixteen_places(rt: HostRuntime) {
    let alloc = rt.alloc();
    expect_reply(&rt, alloc, &publish(16), ("full", None));
    expect_reply(&rt, alloc, &publish(0), ("known better", None));
    expect_reply(&rt, alloc, &look(0), ("found", Some(0)));
    expect_reply(&rt, alloc, &look(16), ("found", None));
    let hint = Event::Hint { word: 3, value: 5 };
    expect_reply(&rt, alloc, &hint, ("nothing", None));
}
