//! Tests of `pins`.
ghost use Rattle.std.specs.Prelude.{◌<◌};
ghost use Rattle.rules_model.specs.Fit.{IsFit};
ghost use Rattle.square_set.specs.Members.{OnSquares};

use crate::expect::expect_of;
use crate::helpers::halves;
use attack_tables::{Tables, men, occupied};
use board_sets::sets_of;
use pins::danger::danger;
use pins::evasion::{EvasionSquares, evasions};
use pins::free;
use rules_model::{Position, Rules, Side, Square, king_attacked};
use sample_rules::{chess, position, square, xiangqi};
use square_set::{ALL, EMPTY, Set};
use std::alloc::Global;
use std::process::Abort;

/// White's free pieces other than kings.
fn free_men(tables: &Tables, p: &Position) -> Set {
    let _first = p.cells[0];
    let side = Side::White;
    let kings = sets_of(tables.rules(), &p.cells, side).kings;
    let enemies = men(&p.cells, side.other());
    let occupied = occupied(&p.cells);
    let free = free(tables, &p.cells, kings, enemies, occupied, side);
    men(&p.cells, side).minus(kings).and(free)
}

/// The piece on the square goes to each square without one of its own side, and leaves no king of its side attacked.
fn expect_safe(rt: &impl Abort, rules: &Rules, p: &Position, from: u8)
    requires fit { IsFit rules.now }
    requires from { from < 120 }
{
    let own = men(&p.cells, Side::White);
    for to in 0..120u8 {
        if !own.has(to) {
            let mut later = *p;
            later.cells[to as usize] = p.cells[from as usize];
            later.cells[from as usize] = None;
            assert!(rt;
                !king_attacked(rules, &later.cells, Side::White),
                "{from} {to}"
            );
        }
    }
}

/// The squares of the pieces of a text.
fn set_of(pieces: &str) -> Set {
    occupied(&position(pieces).cells)
}

/// White's free pieces other than kings are those of the second text of each row.
fn expect_free(rt: &impl Abort, alloc: Global, rules: &Rules, rows: &str)
    requires { IsFit rules.now }
{
    let tables = Tables::new(alloc, rules).expect(rt, "no fault");
    for row in rows.split('\n') {
        let (pieces, wanted) = halves(row);
        let p = position(pieces);
        let free = free_men(&tables, &p);
        expect_of(rt, &pieces, free == set_of(wanted));
        for from in 0..120u8 {
            if free.has(from) {
                expect_safe(rt, rules, &p, from);
            }
        }
    }
}

// A piece between a slider and the king is not free, of two both are, whoever's they are. In check none is. Each king
// counts.
#[test]
fn sliders_pin(rt: HostRuntime) {
    let rows = "\
        Ke1 Re2 Ra2 re8 ka8|Ra2\n\
        Ke1 Re2 Pe3 re8 ka8|Re2 Pe3\n\
        Ke1 Re2 ne4 re8 ka8|Re2\n\
        Ke1 Re2 rd8 ka8|Re2\n\
        Ke4 Pe3 Nd5 re1 bb7 ka8|\n\
        Ke1 Nf2 Pd2 bh4 ka8|Pd2\n\
        Ke1 Nf2 bg4 ka8|Nf2\n\
        Ke1 Ra2 re8 ka8|\n\
        Ke1 Ra2 nd3 ka8|\n\
        Ke1 Ka1 Ra2 Rb2 Re2 ra8 kh8|Rb2 Re2";
    expect_free(&rt, rt.alloc(), &chess(), rows);
}

// Of a cannon's two screens neither is free, of three each is; without one any piece may come between. A piece that
// keeps a horse from its leap is not free.
#[test]
fn cannons_and_horses_pin(rt: HostRuntime) {
    let rows = "\
        Ke1 Ne3 Pe4 Ri1 ce8 kd10|Ri1\n\
        Ke1 Ne3 Pe4 pe6 Ri1 ce8 kd10|Ne3 Pe4 Ri1\n\
        Ke1 Ne3 Ri1 ce8 kd10|\n\
        Ke1 Ri1 ce8 kd10|\n\
        Ke1 Ri1 cf8 kd10|Ri1\n\
        Ke1 Ad2 Ri1 nd3 kd10|Ri1\n\
        Ke1 Ad2 Ri1 nd4 kd10|Ad2 Ri1\n\
        Ke1 Af2 Ri1 nd3 kd10|";
    expect_free(&rt, rt.alloc(), &xiangqi(), rows);
}

// The piece between two kings on a file is not free where kings fly, and in chess it is.
#[test]
fn flying_kings_pin(rt: HostRuntime) {
    let rows = "\
        Ke1 Pe5 Ri1 ke10|Ri1\n\
        Ke1 Pe5 Re3 ke10|Re3 Pe5\n\
        Kd1 Pe5 Ri1 ke10|Pe5 Ri1\n\
        Ke1 Ri1 ke10|";
    let still = "\
        Ke1 Pe5 ke8|Pe5\n\
        Ke1 Ra1 ke8|Ra1";
    expect_free(&rt, rt.alloc(), &xiangqi(), rows);
    expect_free(&rt, rt.alloc(), &chess(), still);
}

/// Every square of the largest board.
fn everywhere() -> Set
    ensures { OnSquares result }
{
    let mut squares = EMPTY;
    for at in 0..120u8 {
        squares = squares.with(at);
    }
    squares
}

/// Those of the squares that are on the largest board.
fn on_board(squares: Set) -> Set
    ensures { OnSquares result }
{
    everywhere().and(squares)
}

/// The squares on which White's king, which is on this one, would stand attacked; those of the targets at least.
fn danger_of(tables: &Tables, p: &Position, king: Square, targets: Set) -> Set
    requires king { king.0 < 120 }
    requires targets { OnSquares targets }
{
    let _first = p.cells[0];
    let side = Side::White;
    let enemies = men(&p.cells, side.other());
    let occupied = occupied(&p.cells);
    danger(tables, &p.cells, king, enemies, occupied, side, targets)
}

/// The squares are told the same for one, two or three targets.
fn expect_among(rt: &impl Abort, tables: &Tables, p: &Position, king: Square, danger: Set)
    requires king { king.0 < 120 }
{
    for to in 0..120u8 {
        let mut targets = EMPTY;
        for beside in [to, 119 - to, to / 2] {
            targets = targets.with(beside);
            let among = danger_of(tables, p, king, on_board(targets));
            expect_of(rt, &to, among.and(targets) == danger.and(targets));
        }
    }
}

/// The squares on which White's king would stand attacked are those of the last text, as for one, two or three targets.
fn expect_danger(rt: &impl Abort, alloc: Global, rules: &Rules, rows: &str)
    requires { IsFit rules.now }
{
    let tables = Tables::new(alloc, rules).expect(rt, "no fault");
    for row in rows.split('\n') {
        let (pieces, squares) = halves(row);
        let (king, wanted) = halves(squares);
        let p = position(pieces);
        let danger = danger_of(&tables, &p, square(king), everywhere());
        expect_of(rt, &pieces, danger == set_of(wanted));
        expect_among(rt, &tables, &p, square(king), danger);
    }
}

// A king does not shade the squares after it, and a piece that another one guards is no target.
#[test]
fn kings_shade_nothing(rt: HostRuntime) {
    let rows = "\
        Kb2 rb4 kh8|b2|Pb1 Pb2 Pb3 Pb5 Pb6 Pb7 Pb8 Pa4 Pc4 Pd4 Pe4 Pf4 Pg4 Ph4 Pg8 Pg7 Ph7\n\
        Ka1 pd4 kh8|a1|Pc3 Pe3 Pg8 Pg7 Ph7\n\
        Ke2 nd3 bf5 kh8|e2|Pe4 Pd3 Pg6 Ph7 Pe6 Pd7 Pc8 Pg4 Ph3 Pb2 Pb4 Pc1 Pc5 Pe1 Pe5 Pf2 Pf4 Pg8 Pg7";
    expect_danger(&rt, rt.alloc(), &chess(), rows);
}

// A cannon takes over the one piece before its target, and a king that leaves is none.
#[test]
fn kings_are_no_screens(rt: HostRuntime) {
    let rows = "\
        Ke1 Pe3 ce5 kd10|e1|Pe2 Pe1 Pd9 Pe10\n\
        Kd2 Pd1 cd6 kf10|d2|Pe10 Pf9";
    expect_danger(&rt, rt.alloc(), &xiangqi(), rows);
}

/// The squares of White's evasions.
fn evasions_of(tables: &Tables, p: &Position) -> EvasionSquares {
    let _first = p.cells[0];
    let side = Side::White;
    let kings = sets_of(tables.rules(), &p.cells, side).kings;
    let enemies = men(&p.cells, side.other());
    let occupied = occupied(&p.cells);
    evasions(tables, &p.cells, kings, enemies, occupied, side)
}

/// White's evasions are left on the squares of the second text, and entered on those of the last.
fn expect_evasions(rt: &impl Abort, alloc: Global, rules: &Rules, rows: &str)
    requires { IsFit rules.now }
{
    let tables = Tables::new(alloc, rules).expect(rt, "no fault");
    for row in rows.split('\n') {
        let (pieces, squares) = halves(row);
        let (leave, enter) = halves(squares);
        let found = evasions_of(&tables, &position(pieces));
        let is_wanted = found.leave == set_of(leave) && found.enter == set_of(enter);
        expect_of(rt, &pieces, is_wanted);
    }
}

/// Where no piece attacks White's kings, each square may be entered.
fn expect_no_check(rt: &impl Abort, alloc: Global, rules: &Rules, rows: &str)
    requires { IsFit rules.now }
{
    let tables = Tables::new(alloc, rules).expect(rt, "no fault");
    for pieces in rows.split('\n') {
        let found = evasions_of(&tables, &position(pieces));
        expect_of(rt, &pieces, found.leave == EMPTY && found.enter == ALL);
    }
}

// A slider is taken, or a piece comes between; a leaper is taken. Of two attacks, on one king or on two, a move has to
// end both.
#[test]
fn checks_are_met(rt: HostRuntime) {
    let rows = "\
        Ke1 Ra2 re8 ka8|Pe2 Pe3 Pe4 Pe5 Pe6 Pe7|Pe2 Pe3 Pe4 Pe5 Pe6 Pe7 Pe8\n\
        Ka1 bd4 kh8|Pb2 Pc3|Pb2 Pc3 Pd4\n\
        Ke1 qe2 kh8||Pe2\n\
        Ke1 nd3 ka8||Pd3\n\
        Ke4 pd5 ka8||Pd5\n\
        Ke1 re4 nd3 ka8|Pe2 Pe3|\n\
        Ke1 re4 bb4 ka8|Pe2 Pe3 Pd2 Pc3|\n\
        Ke1 Ka1 re4 kh8|Pe2 Pe3|Pe2 Pe3 Pe4\n\
        Ke1 Ka1 re4 ra3 kh8|Pe2 Pe3 Pa2|\n\
        Ka1 Kc1 nb3 kh8||Pb3";
    let no_check = "\
        Ke1 Pe2 re8 ka8\n\
        Ke1 rd8 ka8\n\
        Ke1 ke8";
    expect_evasions(&rt, rt.alloc(), &chess(), rows);
    expect_no_check(&rt, rt.alloc(), &chess(), no_check);
}

// A cannon's screen leaves, or a piece comes between, or the cannon is taken. A horse is taken, or a piece keeps it
// from its leap; one may keep two of them from theirs. The king that flies is not asked.
#[test]
fn cannons_and_horses_are_met(rt: HostRuntime) {
    let rows = "\
        Ke1 Pe4 ce6 kd10|Pe2 Pe3 Pe4 Pe5|Pe2 Pe3 Pe4 Pe5 Pe6\n\
        Ke1 re4 ce6 kd10|Pe2 Pe3 Pe4 Pe5|Pe2 Pe3 Pe4\n\
        Ke1 nd3 kd10|Pd2|Pd2 Pd3\n\
        Ke1 nc2 nd3 kd10|Pd2|Pd2\n\
        Ke1 nd3 nf3 kd10|Pd2 Pf2|\n\
        Ke1 pe2 kd10||Pe2";
    let no_check = "\
        Ke1 ce6 kd10\n\
        Ke1 Ad2 nd3 kd10\n\
        Ke1 ke10";
    expect_evasions(&rt, rt.alloc(), &xiangqi(), rows);
    expect_no_check(&rt, rt.alloc(), &xiangqi(), no_check);
}
