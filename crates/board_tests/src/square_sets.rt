//! Tests of `square_set`.
use crate::expect::expect_eq;
use square_set::{BOARD, EMPTY, Set, Shift};

fn set_of(squares: &[u8]) -> Set {
    let mut set = EMPTY;
    for &square in squares {
        if square < 128 {
            set = set.with(square);
        }
    }
    set
}

#[test]
fn sets_are_joined_and_cut(rt: HostRuntime) {
    let low = set_of(&[0, 5, 64]);
    let high = set_of(&[5, 64, 119]);
    let rows: [(Set, &[u8]); 6] = [
        (low.and(high), &[5, 64]),
        (low.or(high), &[0, 5, 64, 119]),
        (low.minus(high), &[0]),
        (low.with(119), &[0, 5, 64, 119]),
        (low.without(64), &[0, 5]),
        (low.without(119), &[0, 5, 64]),
    ];
    for (set, squares) in rows {
        expect_eq(&rt, set, set_of(squares));
    }
    for square in 0..128 {
        expect_eq(&rt, low.has(square), [0, 5, 64].contains(&square));
    }
}

// The squares of a set, its first, and how many it has: of none, of the corners, of two side by side at the middle of
// the number.
#[test]
fn squares_are_taken_in_order(rt: HostRuntime) {
    let rows: [(&[u8], Option<u8>, u32); 4] = [
        (&[], None, 0),
        (&[0, 11, 108, 119], Some(0), 4),
        (&[63, 64], Some(63), 2),
        (&[127], Some(127), 1),
    ];
    for (squares, first, count) in rows {
        let set = set_of(squares);
        let found = (set.first(), set.count(), set.is_empty());
        expect_eq(&rt, found, (first, count, count == 0));
        let mut rest = set;
        for square in squares {
            expect_eq(&rt, rest.take_first(), Some(*square));
        }
        expect_eq(&rt, (rest.take_first(), rest), (None, EMPTY));
    }
}

// A rank up, a rank down, no change, and down by all but one square: what would lie beyond the number falls off, as
// 116 does and 115 does not, 11 and not 12.
#[test]
fn a_shift_leads_each_square_on(rt: HostRuntime) {
    let set = set_of(&[0, 11, 12, 64, 115, 116, 119]);
    let rows: [(Set, &[u8]); 4] = [
        (set.shifted(Shift::Up(12)), &[12, 23, 24, 76, 127]),
        (set.shifted(Shift::Down(12)), &[0, 52, 103, 104, 107]),
        (set.shifted(Shift::Up(0)), &[0, 11, 12, 64, 115, 116, 119]),
        (set.shifted(Shift::Down(119)), &[0]),
    ];
    for (shifted, squares) in rows {
        expect_eq(&rt, shifted, set_of(squares));
    }
    let origins = [Shift::Up(12).origin(23), Shift::Down(12).origin(52)];
    expect_eq(&rt, origins, [11, 64]);
    let shifts = [Shift::Up(12).back(), Shift::Down(12).twice()];
    expect_eq(&rt, shifts, [Shift::Down(12), Shift::Down(24)]);
}

#[test]
fn all_squares_of_the_largest_board_are_120(rt: HostRuntime) {
    let mut all = EMPTY;
    for square in 0..120 {
        all = all.with(square);
    }
    expect_eq(&rt, all, BOARD);
    expect_eq(&rt, (all.count(), all.first()), (120, Some(0)));
}

// Of 40 and 90: up to 40 where numbers rise, from 90 on where they fall. Of none, all squares.
#[test]
fn a_cover_ends_with_the_first(rt: HostRuntime) {
    // the squares, whether numbers rise, and from where to where the cover goes
    let rows: [(&[u8], bool, u8, u8); 8] = [
        (&[40, 90], true, 0, 40),
        (&[40, 90], false, 90, 127),
        (&[], true, 0, 127),
        (&[], false, 0, 127),
        (&[0], true, 0, 0),
        (&[0], false, 0, 127),
        (&[127], true, 0, 127),
        (&[127], false, 127, 127),
    ];
    for (squares, rising, low, high) in rows {
        let cover = set_of(squares).cover(rising);
        for square in 0..128 {
            let is_covered = low <= square && square <= high;
            assert!(rt; cover.has(square) == is_covered, "{square} of {squares:?}");
        }
    }
}
