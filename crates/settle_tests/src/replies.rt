//! Tests of the leaps that `check_moves` knows.
ghost use Rattle.foundation.specs.Member.{Member};
ghost use Rattle.rules_model.specs.Fit.{IsFit};
ghost use Rattle.legality.specs.Stance as Stance;
ghost use Rattle.check_moves.specs.Replies.{AreReplies};

use crate::expect::expect_eq;
use attack_tables::Tables;
use check_moves::Replies;
use playing::Board;
use rules_model::{Move, Position, Rules, sound};
use sample_rules::{chess, hand_of, position, shouse, xiangqi};
use std::alloc::Global;
use std::process::Abort;

/// Whether a leap of one of the other side's pieces is known to meet the legal move.
fn is_met(board: &Board, replies: &Replies, m: &Move) -> bool
    requires legal { Member m.now (Stance.legal_in board.now) }
    requires replies { AreReplies board.now replies.now }
{
    replies.meets(board, m)
}

/// Asserts that of White's moves this many are not known to be met by a leap, and that after each of the others there
/// is a legal move.
fn expect_unmet(rt: &impl Abort, alloc: Global, rules: &Rules, p: &Position, wanted: u32)
    requires { IsFit rules.now }
{
    let tables = Tables::new(alloc, rules).expect(rt, "no fault");
    assert!(rt; sound(tables.rules(), p));
    let board = Board::new(&tables, p);
    let replies = Replies::of(&board);
    let moves = board.legal_moves(alloc).expect(rt, "no fault");
    let mut unmet = 0u32;
    for m in &moves.items {
        assert!(rt; board.is_legal(m));
        if is_met(&board, &replies, m) {
            assert!(rt; board.after(m).any_legal());
        } else {
            unmet = unmet.saturating_add(1);
        }
    }
    expect_eq(rt, unmet, wanted);
}

/// The same in chess.
fn expect_chess_unmet(rt: &impl Abort, alloc: Global, pieces: &str, wanted: u32) {
    expect_unmet(rt, alloc, &chess(), &position(pieces), wanted);
}

// The knight leaps to a6: a rook goes there, and another move of it gives check. What takes the knight, and each move
// of a knight that uncovers a check. Rook and pawns do not leap.
#[test]
fn moves_that_leave_a_leap_are_met(rt: HostRuntime) {
    let alloc = rt.alloc();
    expect_chess_unmet(&rt, alloc, "Ke1 Ra1 ke8 nb8", 2);
    expect_chess_unmet(&rt, alloc, "Ke1 Rb1 ke8 nb8", 1);
    expect_chess_unmet(&rt, alloc, "Ke1 Re2 Ne4 ke8 nb8", 8);
    expect_chess_unmet(&rt, alloc, "Ke1 ke8 rb8 pa6", 5);
}

// A pinned knight does not leap; of two knights the other does, unless the king is attacked. A second knight serves
// where the first is taken.
#[test]
fn pinned_pieces_do_not_leap(rt: HostRuntime) {
    let alloc = rt.alloc();
    expect_chess_unmet(&rt, alloc, "Ke1 Re2 ke8 ne7", 16);
    expect_chess_unmet(&rt, alloc, "Ke1 Re2 ke8 ne7 nb8", 1);
    expect_chess_unmet(&rt, alloc, "Ke1 Rb1 ke8 nb7 ng8", 0);
}

// A knight that is dropped gives check, or comes where the leap goes. Where kings fly no leap is known.
#[test]
fn drops_leave_leaps_and_flying_kings_have_none(rt: HostRuntime) {
    let rules = shouse();
    let dropping = Position {
        hands: [hand_of(b"n"), [0; 26]],
        ..position("Ke1 ke8 nb8")
    };
    expect_unmet(&rt, rt.alloc(), &rules, &dropping, 5);
    let flying = xiangqi();
    expect_unmet(&rt, rt.alloc(), &flying, &flying.start, 44);
}
