//! Tests of `mate_settle`.
ghost use Rattle.std.specs.Prelude.{◌≡◌, ◌<◌, ◌≤◌};
ghost use Rattle.foundation.specs.Member.{Lists, Member};
ghost use Rattle.legality.specs.Stance as Stance;

use crate::helpers::frame_of;
use attack_tables::Tables;
use mate_core::Frame;
use mate_settle::{FactTable, all_won, choose, moves_to_try, settle};
use playing::Board;
use rules_model::{Move, Position, Side, sound};
use sample_rules::position;
use std::alloc::Global;
use std::process::Abort;
use watching::{Helper, StopFlag};

/// The legal moves, in the order in which they are tried.
fn ordered(rt: &impl Abort, alloc: Global, board: &Board, n: u16, facts: &FactTable) -> Vec<Move>
    ensures { Lists (λ m. Member m (Stance.legal_in board.now)) result.items }
{
    let Ok(moves) = moves_to_try(alloc, board, n, facts) else {
        panic!(rt; "no memory");
    };
    moves
}

/// Whether White wins within n moves by what the moves come to.
fn wins_by_moves(
    rt: &impl Abort,
    alloc: Global,
    board: &Board,
    n: u16,
    facts: &mut FactTable,
    watch: &mut Helper,
) -> bool
    requires rules { board.now.rules ≡ facts.old.rules }
    requires some { 0 < n }
    requires small { n ≤ 9 }
    ensures { facts.new ≡ facts.old }
{
    let moves = ordered(rt, alloc, board, n, facts);
    if board.position().side.is(Side::White) {
        let choice = choose(alloc, board, &moves, n, facts, watch);
        choice.ok().ok_or("halted").expect(rt, "no fault").is_some()
    } else {
        let won = all_won(alloc, board, &moves, n, facts, watch);
        won.ok().ok_or("halted").expect(rt, "no fault")
    }
}

/// The same, and whether White wins by `settle`.
fn won(
    rt: &impl Abort,
    alloc: Global,
    frame: &Frame,
    board: &Board,
    n: u16,
    room: usize,
) -> (bool, bool)
    requires rules { board.now.rules ≡ frame.now.rules }
{
    assert!(rt; 0 < n && n <= 9);
    let flag = StopFlag::new();
    let mut watch = Helper::new(&flag, None);
    let mut facts = FactTable::new(alloc, frame, room).expect(rt, "no fault");
    let by_moves = wins_by_moves(rt, alloc, board, n, &mut facts, &mut watch);
    let told = settle(alloc, board, n, &mut facts, &mut watch);
    let told = told.ok().ok_or("halted").expect(rt, "no fault");
    (by_moves, told.wins)
}

/// Asserts whether White wins from the pieces within n moves, with room for this many facts.
fn expect(rt: &impl Abort, alloc: Global, p: &Position, n: u16, room: usize, wins: bool) {
    let frame = frame_of(Vec::new(alloc));
    let tables = Tables::new(alloc, &frame.rules).expect(rt, "no fault");
    assert!(rt; sound(&frame.rules, p));
    let board = Board::new(&tables, p);
    let found = won(rt, alloc, &frame, &board, n, room);
    assert!(rt; found == (wins, wins), "within {n}, room {room}");
}

// Before and after Black's only move.
#[test]
fn mates_in_one(rt: HostRuntime) {
    let alloc = rt.alloc();
    expect(&rt, alloc, &position("Kg6 Ra1 kh8"), 1, 0, true);
    expect(&rt, alloc, &position("Kg6 Qa2 kh8"), 1, 4096, true);
    let after = Position {
        side: Side::Black,
        ..position("Kg6 Ra7 kh8")
    };
    expect(&rt, alloc, &after, 1, 1, true);
}

#[test]
fn problems_of_two_moves(rt: HostRuntime) {
    let alloc = rt.alloc();
    let rook = position("ra8 kd8 Rc7 pg7 ph6 pa5 Bb5 Rf5 Pb3 Pa2 Pd2 Pf2 Pg2 Ph2 Kg1");
    expect(&rt, alloc, &rook, 1, 4096, false);
    expect(&rt, alloc, &rook, 2, 4096, true);
    expect(&rt, alloc, &rook, 2, 0, true);
    let queen = position("Qc8 Rf7 kd6 pe6 ph5 Pd4 Nc3 ne3 Pg3 Pa2 Pb2 Pe2 Kg2 Ra1");
    expect(&rt, alloc, &queen, 1, 1, false);
    expect(&rt, alloc, &queen, 2, 1, true);
    expect(&rt, alloc, &queen, 2, 4096, true);
}
