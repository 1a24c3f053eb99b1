//! Tests of `attack_tables`.
ghost use Rattle.std.specs.Prelude.{◌≤◌, ◌<◌};
ghost use Rattle.rules_model.specs.Fit.{IsFit};

use crate::expect::{expect, expect_eq, expect_eq_at, expect_of};
use crate::helpers::set_of;
use attack_tables::{Mode, Tables, men, occupied};
use rules_model::{Position, Rules, Side, Square};
use sample_rules::{chess, generals, kind, position, square, wide_chess, xiangqi};
use square_set::{EMPTY, Set, Shift};
use std::alloc::Global;
use std::process::Abort;

/// The squares of the files and ranks from those of the one corner to those of the other, as of `a1-h8`.
fn block(corners: &str) -> Set {
    let mut names = corners.split('-');
    let low = square(names.next().unwrap_or(""));
    let high = square(names.next().unwrap_or(""));
    let mut set = EMPTY;
    for at in 0..120u8 {
        let here = Square(at);
        let on_files = low.file() <= here.file() && here.file() <= high.file();
        if on_files && low.rank() <= here.rank() && here.rank() <= high.rank() {
            set = set.with(at);
        }
    }
    set
}

/// The squares of the blocks that blanks separate.
fn blocks(text: &str) -> Set {
    let mut set = EMPTY;
    for corners in text.split(' ') {
        set = set.or(block(corners));
    }
    set
}

/// The piece on each square reaches in the mode these squares and no others.
fn expect_reach(
    rt: &impl Abort,
    alloc: Global,
    rules: &Rules,
    pieces: &str,
    rows: &[(&str, Mode, &str)],
)
    requires { IsFit rules.now }
{
    let tables = Tables::new(alloc, rules).expect(rt, "no fault");
    let p = position(pieces);
    for (from, mode, squares) in rows {
        let reached = tables.reaches(&p, square(*from), *mode);
        expect_eq_at(rt, from, reached, set_of(*squares));
        let occupied = tables.occupied(&p);
        for to in 0..120 {
            let one = tables.reaches_square(&p, occupied, square(*from), *mode, Square(to));
            expect_eq(rt, one, reached.has(to));
        }
    }
}

#[test]
fn chess_pieces_reach(rt: HostRuntime) {
    let rows: [(&str, Mode, &str); 7] = [
        ("a1", Mode::Take, "b3 c2"),
        ("e1", Mode::Take, "d1 f1 d2 e2 f2"),
        ("h1", Mode::Quiet, "e1 f1 g1 h2 h3"),
        ("h3", Mode::Take, "g4"),
        ("e4", Mode::Take, "d5 f5"),
        ("b7", Mode::Take, "a6 c6"),
        ("e8", Mode::Quiet, "d7 e7 f7 d8 f8"),
    ];
    let pieces = "Na1 Ke1 Rh1 Ph3 Pe4 pb7 ke8";
    expect_reach(&rt, rt.alloc(), &chess(), pieces, &rows);
}

// A pawn reaches no square but to take, and an empty square is no piece.
#[test]
fn some_reach_nothing(rt: HostRuntime) {
    let tables = Tables::new(rt.alloc(), &chess()).expect(&rt, "no fault");
    let p = position("Ph3 ke8");
    expect_eq(&rt, tables.reaches(&p, square("h3"), Mode::Quiet), EMPTY);
    expect_eq(&rt, tables.reaches(&p, square("d5"), Mode::Take), EMPTY);
    expect_eq(&rt, tables.reaches(&p, Square(200), Mode::Take), EMPTY);
}

// An elephant does not cross the river, a king stays in its palace, a soldier goes sideways after the river, a cannon
// takes over one piece, and a horse does not leap over the piece at its side.
#[test]
fn xiangqi_pieces_reach(rt: HostRuntime) {
    let rows: [(&str, Mode, &str); 12] = [
        ("c5", Mode::Take, "a3 e3"),
        ("b3", Mode::Quiet, "b1 b2 b4 b5 b6 a3 c3 d3 e3 f3 g3"),
        ("b3", Mode::Take, "b7 b8 b9 h3 i3"),
        ("g3", Mode::Quiet, "i4 i2 e4 e2 f1 h1"),
        ("b9", Mode::Quiet, "d10 d8 a7 c7"),
        ("e1", Mode::Take, "d1 f1 e2"),
        ("d10", Mode::Take, "e10 d9"),
        ("e5", Mode::Quiet, "e6"),
        ("b6", Mode::Take, "b7 a6 c6"),
        ("i6", Mode::Take, "i7 h6"),
        ("a6", Mode::Take, "a5"),
        ("g4", Mode::Take, "g3 f4 h4"),
    ];
    let pieces = "Ke1 Bc5 Cb3 Pb6 nb9 kd10 Ng3 pg4 Pi6 pa6 Pe5";
    expect_reach(&rt, rt.alloc(), &xiangqi(), pieces, &rows);
}

/// The side attacks the square, or not.
fn expect_attacks(rt: &impl Abort, alloc: Global, rules: &Rules, rows: &[(&str, &str, Side, bool)])
    requires { IsFit rules.now }
{
    let tables = Tables::new(alloc, rules).expect(rt, "no fault");
    for (pieces, at, by, attacked) in rows {
        let p = position(*pieces);
        assert!(rt;
            tables.attacked(&p, square(*at), *by) == *attacked,
            "{pieces} {at}"
        );
        expect(rt, !tables.attacked(&p, Square(200), *by));
    }
}

#[test]
fn sides_attack(rt: HostRuntime) {
    let pieces = "Na1 Ke1 Rh1 Ph3 Pe4 pb7 ke8";
    let rows = [
        (pieces, "e4", Side::White, false),
        (pieces, "f5", Side::White, true),
        (pieces, "e5", Side::White, false),
        (pieces, "h3", Side::White, true),
        (pieces, "h4", Side::White, false),
        (pieces, "c6", Side::Black, true),
        (pieces, "c6", Side::White, false),
        ("Ke1 ke8", "e8", Side::White, false),
    ];
    expect_attacks(&rt, rt.alloc(), &chess(), &rows);
}

// Kings attack each other along an open file, and nothing else on it.
#[test]
fn kings_fly_in_xiangqi(rt: HostRuntime) {
    let river = "Ke1 Bc5 Cb3 Pb6 nb9 kd10 pa6";
    let rows = [
        ("Ke1 ke10", "e10", Side::White, true),
        ("Ke1 ke10", "e1", Side::Black, true),
        ("Ke1 ke10", "e5", Side::White, false),
        ("Ke1 Pe5 ke10", "e10", Side::White, false),
        ("Kd1 ke10", "e10", Side::White, false),
        (river, "e3", Side::White, true),
        (river, "e7", Side::White, false),
        (river, "b8", Side::White, true),
        (river, "a5", Side::Black, true),
        (river, "b6", Side::Black, false),
    ];
    expect_attacks(&rt, rt.alloc(), &xiangqi(), &rows);
}

#[test]
fn kings_are_attacked(rt: HostRuntime) {
    let rows = [
        ("Ke1 re8 ka8", "e1", Side::Black, true),
        ("Ke1 re8 ka8", "a8", Side::White, false),
        ("Ke1 Re2 re8 ka8", "e1", Side::Black, false),
        ("Ke1 Re2 re8 ka8", "a8", Side::White, false),
        ("Ke1 Ra2 ka8", "e1", Side::Black, false),
        ("Ke1 Ra2 ka8", "a8", Side::White, true),
    ];
    expect_attacks(&rt, rt.alloc(), &chess(), &rows);
}

/// Whether the king on a square stands attacked once White moved a piece: by the cells before the move, and the sets
/// after it.
fn is_attacked_after(tables: &Tables, p: &Position, from: Square, to: Square, king: Square) -> bool
    requires from { from.0 < 120 }
    requires to { to.0 < 120 }
    requires king { king.0 < 120 }
{
    let enemies = men(&p.cells, Side::Black).without(to.0);
    let occupied = occupied(&p.cells).without(from.0).with(to.0);
    tables.attacks_king(&p.cells, enemies, occupied, king, Side::Black)
}

/// White's piece goes from the one square to the other, and then its king on the third is attacked, or not.
fn expect_after(
    rt: &impl Abort,
    alloc: Global,
    rules: &Rules,
    rows: &[(&str, &str, &str, &str, bool)],
)
    requires { IsFit rules.now }
{
    let tables = Tables::new(alloc, rules).expect(rt, "no fault");
    for (pieces, from, to, king, attacked) in rows {
        let p = position(*pieces);
        let after = is_attacked_after(&tables, &p, square(*from), square(*to), square(*king));
        assert!(rt; after == *attacked, "{pieces} {to}");
    }
}

#[test]
fn a_move_opens_and_closes_lines(rt: HostRuntime) {
    let pinned = "Ke1 Re2 re8 ka8";
    let chess_rows = [
        (pinned, "e2", "d2", "e1", true),
        (pinned, "e2", "e5", "e1", false),
        (pinned, "e2", "e8", "e1", false),
        ("Ke1 re8 ka8", "e1", "e2", "e2", true),
        ("Ke1 re8 ka8", "e1", "d1", "d1", false),
    ];
    let xiangqi_rows = [
        ("Kd1 ke10", "d1", "e1", "e1", true),
        ("Kd1 pe5 ke10", "d1", "e1", "e1", false),
        ("Ke1 Pe5 ke10", "e5", "d5", "e1", true),
    ];
    expect_after(&rt, rt.alloc(), &chess(), &chess_rows);
    expect_after(&rt, rt.alloc(), &xiangqi(), &xiangqi_rows);
}

/// A piece of the kind on the square goes to these squares, where these are occupied, the last ones by enemies.
fn expect_goals(
    rt: &impl Abort,
    tables: &Tables,
    letter: u8,
    from: &str,
    own: &str,
    enemies: &str,
    goals: &str,
)
    requires low { 97 ≤ letter }
    requires high { letter < 123 }
{
    let enemies = set_of(enemies);
    let occupied = set_of(own).or(enemies);
    let found = tables.goals(Side::White, kind(letter), square(from), occupied, enemies);
    expect_eq_at(rt, from, found, set_of(goals));
}

// A rook takes the first enemy and stops before the first own piece; a pawn only takes.
#[test]
fn a_chess_piece_goes_where_it_takes(rt: HostRuntime) {
    let tables = Tables::new(rt.alloc(), &chess()).expect(&rt, "no fault");
    let goals = "b1 c1 a2 a3 a4";
    expect_goals(&rt, &tables, b'r', "a1", "a1 d1", "a4 a6", goals);
    expect_goals(&rt, &tables, b'p', "e4", "e4", "d5", "d5");
    expect(&rt, tables.castling_on());
}

// A cannon goes like a rook, and takes over one piece alone.
#[test]
fn a_cannon_does_not(rt: HostRuntime) {
    let tables = Tables::new(rt.alloc(), &xiangqi()).expect(&rt, "no fault");
    let goals = "a2 a3 b1 c1 a7";
    expect_goals(&rt, &tables, b'c', "a1", "a1 a4 d1", "a7 a9", goals);
    expect(&rt, !tables.castling_on());
}

/// Of the squares of the board these are plain, and of those a pawn goes from these: once, twice, to the left and to
/// the right.
fn expect_masks(rt: &impl Abort, tables: &Tables, side: Side, board: &str, rows: [&str; 5]) {
    let masks = tables.pawn_masks(side);
    let plain = masks.plain.and(block(board));
    let goers = [plain, masks.once, masks.twice, masks.left, masks.right];
    for (goes, row) in goers.iter().zip(rows) {
        expect_of(rt, &row, plain.and(*goes) == blocks(row));
    }
}

/// The same of both sides.
fn expect_pawns(
    rt: &impl Abort,
    alloc: Global,
    rules: &Rules,
    board: &str,
    white: [&str; 5],
    black: [&str; 5],
)
    requires { IsFit rules.now }
{
    let tables = Tables::new(alloc, rules).expect(rt, "no fault");
    expect_masks(rt, &tables, Side::White, board, white);
    expect_masks(rt, &tables, Side::Black, board, black);
}

#[test]
fn pawns_shift(rt: HostRuntime) {
    let tables = Tables::new(rt.alloc(), &chess()).expect(&rt, "no fault");
    let white = tables.pawn_masks(Side::White);
    let found = [white.ahead, white.leftward, white.rightward];
    expect_eq(&rt, found, [Shift::Up(12), Shift::Up(11), Shift::Up(13)]);
    let black = tables.pawn_masks(Side::Black);
    let found = [black.ahead, black.leftward, black.rightward];
    expect_eq(
        &rt,
        found,
        [Shift::Down(12), Shift::Down(11), Shift::Down(13)],
    );
}

// A pawn promotes from its last rank but one; on the last rank it goes nowhere.
#[test]
fn chess_pawns_go(rt: HostRuntime) {
    let white = ["a1-h6 a8-h8", "a1-h6", "a2-h2", "b1-h6", "a1-g6"];
    let black = ["a3-h8 a1-h1", "a3-h8", "a7-h7", "a3-g8", "b3-h8"];
    expect_pawns(&rt, rt.alloc(), &chess(), "a1-h8", white, black);
}

/// Chess where no pawn steps twice at once.
fn single_steps() -> Rules
    ensures { IsFit result }
{
    let mut rules = chess();
    rules.double_step = false;
    rules
}

#[test]
fn pawns_step_once(rt: HostRuntime) {
    let tables = Tables::new(rt.alloc(), &single_steps()).expect(&rt, "no fault");
    for side in [Side::White, Side::Black] {
        let masks = tables.pawn_masks(side);
        let plain = masks.plain.and(block("a1-h8"));
        expect_eq(&rt, plain.and(masks.twice), EMPTY);
        expect_eq(&rt, plain.and(masks.once).count(), 48);
    }
}

// A pawn promotes on the last three ranks.
#[test]
fn generals_pawns_go(rt: HostRuntime) {
    let white = ["a1-h4 a8-h8", "a1-h4", "a2-h2", "b1-h4", "a1-g4"];
    let black = ["a5-h8 a1-h1", "a5-h8", "a7-h7", "a5-g8", "b5-h8"];
    expect_pawns(&rt, rt.alloc(), &generals(), "a1-h8", white, black);
}

// With soldiers and no pawn nothing promotes, on nine files and ten ranks; a pawn would go as ever.
#[test]
fn xiangqi_pawns_would_go(rt: HostRuntime) {
    let white = ["a1-i10", "a1-i9", "a2-i2", "b1-i9", "a1-h9"];
    let black = ["a1-i10", "a2-i10", "a9-i9", "a2-h10", "b2-i10"];
    expect_pawns(&rt, rt.alloc(), &xiangqi(), "a1-i10", white, black);
}

// On the largest board the number after that of a file l is of a file a: no pawn takes over the edge.
#[test]
fn wide_pawns_go(rt: HostRuntime) {
    let white = [
        "a1-l6 j7-l7 a8-l8",
        "a1-l6 j7-l7",
        "a2-h2",
        "b1-l6 j7-l7",
        "a1-k6 j7-k7",
    ];
    let black = [
        "a3-l8 j2-l2 a1-l1",
        "a3-l8 j2-l2",
        "a7-h7",
        "a3-k8 j2-k2",
        "b3-l8 j2-l2",
    ];
    expect_pawns(&rt, rt.alloc(), &wide_chess(), "a1-l8", white, black);
}

/// Chess where a flag piece would win on the last rank, and hand pieces would be put on the second.
fn zoned() -> Rules
    ensures { IsFit result }
{
    let mut rules = chess();
    let last_ranks = rules.promotion;
    let second_ranks = rules.double_region;
    rules.flag_region = last_ranks;
    rules.drop_region = second_ranks;
    rules
}

#[test]
fn regions_are_sets(rt: HostRuntime) {
    let tables = Tables::new(rt.alloc(), &zoned()).expect(&rt, "no fault");
    for (side, flag, drop) in [
        (Side::White, "a8-h8", "a2-h2"),
        (Side::Black, "a1-h1", "a7-h7"),
    ] {
        expect_eq(&rt, tables.flag_region(side), block(flag));
        expect_eq(&rt, tables.drop_region(side), block(drop));
    }
}

// Those of a queen's lines and a knight's jumps on the largest board, and no others: every square would do, and be
// slow.
#[test]
fn takers_in_chess(rt: HostRuntime) {
    let tables = Tables::new(rt.alloc(), &chess()).expect(&rt, "no fault");
    for (at, squares) in [("a1", 31), ("e4", 44), ("h4", 44)] {
        let white = tables.takers(Side::White, square(at));
        let black = tables.takers(Side::Black, square(at));
        expect_eq_at(&rt, at, (white.count(), black.count()), (squares, squares));
    }
}
