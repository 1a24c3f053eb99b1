//! Tests of `hint_table`.
use crate::expect::expect_eq;
use hint_table::{Hint, HintTable};
use std::process::Abort;
use std::thread::join;

const KEYS: [u64; 5] = [0, 1, u64::MAX, 1 << 63, 0x9E37_79B9_7F4A_7C15];

const HINTS: [Hint; 4] = [
    Hint {
        depth: 3,
        slot: 2,
        bound: 50,
    },
    Hint {
        depth: 0,
        slot: 0,
        bound: -1,
    },
    Hint {
        depth: 255,
        slot: 65535,
        bound: i16::MAX,
    },
    Hint {
        depth: 64,
        slot: 256,
        bound: i16::MIN,
    },
];

/// Asserts that each hint is got right after it was put, for each key.
fn keeps<R: Abort>(rt: &R, table: &HintTable) {
    for key in KEYS {
        for hint in HINTS {
            table.put(key, hint);
            expect_eq(rt, table.get(key), Some(hint));
        }
    }
}

#[test]
fn a_hint_is_kept(rt: HostRuntime) {
    for words in [1usize, 2, 3, 1000] {
        let table = HintTable::new(rt.alloc(), words).expect(&rt, "no fault");
        keeps(&rt, &table);
    }
}

#[test]
fn a_new_table_is_empty(rt: HostRuntime) {
    let table = HintTable::new(rt.alloc(), 10).expect(&rt, "no fault");
    for key in KEYS {
        expect_eq(&rt, table.get(key), None);
    }
    table.put(7, HINTS[0]);
    table.fill(0);
    expect_eq(&rt, table.get(7), None);
}

#[test]
fn hints_of_other_positions(rt: HostRuntime) {
    let table = HintTable::new(rt.alloc(), 1).expect(&rt, "no fault");
    table.put(1 << 40, HINTS[0]);
    expect_eq(&rt, table.get(1 << 41), None);
    // the low bits are not kept: a hint of another position may be got
    expect_eq(&rt, table.get((1 << 40) + 1), Some(HINTS[0]));
    table.fill(u64::MAX);
    let every = Hint {
        depth: 255,
        slot: 65535,
        bound: i16::MAX,
    };
    expect_eq(&rt, table.get(u64::MAX), Some(every));
}

// The next solve of mates reads them; hints that are put leave them.
#[test]
fn nodes_of_a_solve_are_kept(rt: HostRuntime) {
    let table = HintTable::new(rt.alloc(), 1).expect(&rt, "no fault");
    expect_eq(&rt, table.nodes(), 0);
    table.put_nodes(1 << 40);
    table.put(7, HINTS[0]);
    expect_eq(&rt, table.nodes(), 1 << 40);
    table.fill(0);
    expect_eq(&rt, table.nodes(), 0);
}

fn put_many(table: &HintTable) {
    for key in 0..1000u64 {
        table.put(key << 32, HINTS[0]);
        let _ = table.get(key << 32);
    }
}

#[test]
fn two_threads_use_one_table(rt: HostRuntime) {
    let table = HintTable::new(rt.alloc(), 4).expect(&rt, "no fault");
    join(&rt, || put_many(&table), || put_many(&table));
    keeps(&rt, &table);
}
