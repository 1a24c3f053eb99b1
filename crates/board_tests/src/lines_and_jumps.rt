//! Tests of `move_tables`.
use crate::expect::expect_eq;
use crate::helpers::set_of;
use move_tables::{Jump, Line, Mode, MoveTables, Passage};
use rules_model::{Side, Square};
use sample_rules::{chess, kind};
use square_set::EMPTY;

// Along the file from a1 to a8 with pieces on a3, a4 and a7, upwards from a1 and downwards from a8; and with none.
#[test]
fn lines_end_by_their_passage(rt: HostRuntime) {
    let up = Line {
        squares: set_of("a2 a3 a4 a5 a6 a7 a8"),
        rising: true,
        passage: Passage::Slide,
    };
    let down = Line {
        squares: set_of("a1 a2 a3 a4 a5 a6 a7"),
        rising: false,
        ..up
    };
    let men = set_of("a3 a4 a7 b2");
    let rows: [(Passage, &str, &str); 3] = [
        (Passage::Slide, "a2 a3", "a7"),
        (Passage::Hop, "a4", "a6 a5 a4"),
        (Passage::Grass, "a4", "a6"),
    ];
    for (passage, upwards, downwards) in rows {
        expect_eq(&rt, Line { passage, ..up }.reach(men), set_of(upwards));
        expect_eq(&rt, Line { passage, ..down }.reach(men), set_of(downwards));
    }
    expect_eq(&rt, up.reach(EMPTY), up.squares);
    for passage in [Passage::Hop, Passage::Grass] {
        expect_eq(&rt, Line { passage, ..up }.reach(EMPTY), EMPTY);
    }
    let last = set_of("a8");
    expect_eq(
        &rt,
        Line {
            passage: Passage::Grass,
            ..up
        }
        .reach(last),
        EMPTY,
    );
}

#[test]
fn a_lame_leap_wants_empty_squares(rt: HostRuntime) {
    let jump = Jump {
        target: set_of("c5"),
        over: set_of("b2 b3"),
    };
    expect_eq(&rt, jump.reach(set_of("b1 c5")), jump.target);
    expect_eq(&rt, jump.reach(set_of("b3")), EMPTY);
}

// A rook on a1 with pieces on a1 and a4 has seven squares of the rank, and a2, a3 and a4.
#[test]
fn a_rook_reaches_the_first_piece(rt: HostRuntime) {
    let tables = MoveTables::new(rt.alloc(), &chess()).expect(&rt, "no fault");
    let occupied = set_of("a1 a4");
    let reached = set_of("b1 c1 d1 e1 f1 g1 h1 a2 a3 a4");
    for mode in [Mode::Quiet, Mode::Take] {
        for side in [Side::White, Side::Black] {
            let found = tables.reach_set(side, kind(b'r'), Square(0), mode, occupied);
            expect_eq(&rt, found, reached);
        }
    }
    expect_eq(&rt, tables.rules().files, 8);
}
