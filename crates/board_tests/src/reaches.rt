//! Tests of what a piece reaches by `rules_model`'s plain program.
ghost use Rattle.std.specs.Prelude.{◌<◌};

use crate::expect::expect_eq;
use rules_model::{BoardSize, Cell, Kind, SQUARES, Side, Square, Term, Way, reaches_plain};

const EMPTY: [Option<Cell>; SQUARES] = [None; SQUARES];

const CHESS: BoardSize = BoardSize { files: 8, ranks: 8 };

fn man(side: Side) -> Option<Cell> {
    Some(Cell {
        side,
        kind: Kind(0),
        origin: None,
    })
}

/// Whether a piece of the side goes from d4 to the square, by steps of this way, with men on d6 and e4.
fn goes(side: Side, step: (i8, i8), way: Way, limit: u8, to: Square) -> bool {
    let mut cells = EMPTY;
    cells[63] = man(Side::Black);
    cells[40] = man(Side::White);
    let term = Term {
        dx: step.0,
        dy: step.1,
        way,
        limit,
        quiet: true,
        takes: true,
    };
    reaches_plain(CHESS, &cells, side, &term, Square::at(3, 3), to)
}

// Files and ranks are counted from 0: d4 is (3, 3).
#[test]
fn leaps(rt: HostRuntime) {
    let found = [
        goes(Side::White, (1, 2), Way::Leap, 1, Square::at(4, 5)),
        goes(Side::Black, (1, 2), Way::Leap, 1, Square::at(4, 5)),
        goes(Side::Black, (1, 2), Way::Leap, 1, Square::at(2, 1)),
        goes(Side::White, (5, 0), Way::Leap, 1, Square::at(8, 3)),
        goes(Side::White, (1, 2), Way::Lame, 1, Square::at(4, 5)),
        goes(Side::White, (2, 1), Way::Lame, 1, Square::at(5, 4)),
        goes(Side::White, (0, 3), Way::Lame, 1, Square::at(3, 6)),
    ];
    expect_eq(&rt, found, [true, false, true, false, true, false, false]);
}

/// Whether White's piece goes up the file to the rank.
fn goes_up(way: Way, limit: u8, rank: u8) -> bool
    requires { rank < 10 }
{
    goes(Side::White, (0, 1), way, limit, Square::at(3, rank))
}

#[test]
fn lines(rt: HostRuntime) {
    let slides = [
        goes_up(Way::Slide, 11, 5),
        goes_up(Way::Slide, 11, 6),
        goes_up(Way::Slide, 1, 5),
        goes(Side::White, (-3, 0), Way::Slide, 11, Square::at(0, 3)),
    ];
    expect_eq(&rt, slides, [true, false, false, true]);
    let hops = [
        goes_up(Way::Hop, 11, 7),
        goes_up(Way::Hop, 11, 8),
        goes_up(Way::Grass, 11, 6),
        goes_up(Way::Grass, 11, 7),
    ];
    expect_eq(&rt, hops, [true, false, true, false]);
}
