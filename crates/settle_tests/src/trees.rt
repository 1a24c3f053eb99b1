//! Tests of `mate_tree`, and of the moves by which a tree grows.
ghost use Rattle.std.specs.Prelude.{◌≡◌};

use crate::expect::expect_eq;
use crate::helpers::frame_of;
use attack_tables::Tables;
use mate_core::Frame;
use mate_settle::{FactTable, weighed_moves};
use mate_tree::{Node, grow_child, leaves_of};
use playing::Board;
use rules_model::{Position, Side, sound};
use sample_rules::position;
use std::alloc::Global;
use std::process::Abort;
use watching::{Helper, StopFlag};

/// How many nodes there are, and the sums of their proof and disproof numbers.
type Sums = (usize, u32, u32);

fn sums_of(nodes: &[Node]) -> Sums {
    let mut proofs = 0u32;
    let mut disproofs = 0u32;
    for node in nodes {
        proofs = proofs.saturating_add(node.proof);
        disproofs = disproofs.saturating_add(node.disproof);
    }
    (nodes.len(), proofs, disproofs)
}

/// How many moves there are, and how many replies they are guessed to leave in all; and the sums of the leaves.
fn weighed(
    rt: &impl Abort,
    alloc: Global,
    board: &Board,
    n: u16,
    facts: &FactTable,
) -> (usize, u32, Sums) {
    let moves = weighed_moves(alloc, board, n, facts).expect(rt, "no fault");
    let mut replies = 0u32;
    for one in &moves {
        replies = replies.saturating_add(one.replies);
    }
    let leaves = leaves_of(alloc, board, n, facts).expect(rt, "no fault");
    (moves.len(), replies, sums_of(leaves.as_slice()))
}

/// Asserts how many moves there are, and how many replies they are guessed to leave in all. White attacks and has two
/// moves left, and one more where he is to move.
fn expect_weighed(rt: &impl Abort, alloc: Global, p: &Position, moves: u32, replies: u32) {
    let frame = frame_of(Vec::new(alloc));
    let tables = Tables::new(alloc, &frame.rules).expect(rt, "no fault");
    assert!(rt; sound(&frame.rules, p));
    let board = Board::new(&tables, p);
    let facts = FactTable::new(alloc, &frame, 0).expect(rt, "no fault");
    let many = moves as usize;
    let (n, sums) = if p.side.is(Side::White) {
        (3, (many, replies, moves))
    } else {
        (2, (many, moves, replies))
    };
    let found = weighed(rt, alloc, &board, n, &facts);
    expect_eq(rt, found, (many, replies, sums));
}

/// The pieces, with Black to move.
fn replying(pieces: &str) -> Position {
    Position {
        side: Side::Black,
        ..position(pieces)
    }
}

// After the rook's two checks there are one reply and two, after each other move the king has three squares. A knight
// reaches two more, which its capture takes. For Black, a move leaves what the king and the rook reach, 8 and 14, less
// the rook that is taken; after two checks White is guessed to have four moves, after the others his king's three.
#[test]
fn replies_are_counted_and_guessed(rt: HostRuntime) {
    let alloc = rt.alloc();
    expect_weighed(&rt, alloc, &position("Kf6 Ra7 kh8"), 21, 1 + 2 + 19 * 3);
    let knight = position("Kf6 Ra7 kh8 na1");
    expect_weighed(&rt, alloc, &knight, 21, 1 + 2 + 3 + 18 * 5);
    expect_weighed(&rt, alloc, &replying("Kf6 Ra7 kh8"), 1, 22);
    expect_weighed(&rt, alloc, &replying("Kf6 Rh7 kh8"), 2, 22 + 8);
    expect_weighed(&rt, alloc, &replying("Ka1 kc2 rb8"), 20, 2 * 4 + 18 * 3);
}

/// What so many steps leave, or fewer where no node is left or a move wins: whether White wins after the move that the
/// last of them settled, if it settled one, and the sums of the nodes.
fn grown(
    rt: &impl Abort,
    alloc: Global,
    frame: &Frame,
    board: &Board,
    n: u16,
    steps: u32,
) -> (Option<bool>, Sums)
    requires rules { board.now.rules ≡ frame.now.rules }
{
    assert!(rt; n <= 9);
    let flag = StopFlag::new();
    let mut watch = Helper::new(&flag, None);
    let mut facts = FactTable::new(alloc, frame, 256).expect(rt, "no fault");
    let mut roots = leaves_of(alloc, board, n, &facts).expect(rt, "no fault");
    let mut room = 10_000u64;
    let mut last = None;
    'growing: for _ in 0..steps {
        let step = grow_child(
            alloc, board, n, &mut roots, &mut room, &mut facts, &mut watch,
        );
        let step = step.ok().ok_or("halted").expect(rt, "no fault");
        last = step.map(|step| step.told.wins);
        if last == Some(true) || roots.is_empty() {
            break 'growing;
        }
    }
    (last, sums_of(roots.as_slice()))
}

/// Asserts what so many steps of the tree for White's mate within n moves leave.
fn expect_grown(
    rt: &impl Abort,
    alloc: Global,
    p: &Position,
    n: u16,
    steps: u32,
    wanted: (Option<bool>, Sums),
) {
    let frame = frame_of(Vec::new(alloc));
    let tables = Tables::new(alloc, &frame.rules).expect(rt, "no fault");
    assert!(rt; sound(&frame.rules, p));
    let board = Board::new(&tables, p);
    let found = grown(rt, alloc, &frame, &board, n, steps);
    expect_eq(rt, found, wanted);
}

// The check on a8 leaves one reply, so it is looked at first: its node has the reply's numbers, 1 and 22. After the
// reply White has two moves left, and a waiting move mates: the check wins.
#[test]
fn a_mate_is_found_by_the_fewest_replies(rt: HostRuntime) {
    let (alloc, p) = (rt.alloc(), position("Kf6 Ra7 kh8"));
    expect_grown(&rt, alloc, &p, 3, 1, (None, (21, 60, 20 + 22)));
    expect_grown(&rt, alloc, &p, 3, 9, (Some(true), (20, 59, 20)));
}

// The same check does not mate here, and is settled. The other one leaves two replies, with the numbers 22 and 8, and
// is refuted by the latter, which takes the rook. Each other move leaves a king and a pawn, with two squares each.
#[test]
fn checks_are_refuted_one_after_the_other(rt: HostRuntime) {
    let (alloc, p) = (rt.alloc(), position("Ke4 Ra7 kh8 ph7"));
    expect_grown(&rt, alloc, &p, 3, 0, (None, (22, 83, 22)));
    expect_grown(&rt, alloc, &p, 3, 1, (None, (22, 83, 21 + 22)));
    expect_grown(&rt, alloc, &p, 3, 2, (Some(false), (21, 82, 21)));
    expect_grown(&rt, alloc, &p, 3, 3, (None, (21, 82, 20 + 8)));
    expect_grown(&rt, alloc, &p, 3, 4, (Some(false), (20, 80, 20)));
}

// No move mates at once, so that each is settled and taken out.
#[test]
fn trees_without_a_mate_lose_each_node(rt: HostRuntime) {
    let p = position("Kf6 Ra7 kh8");
    expect_grown(&rt, rt.alloc(), &p, 1, 100, (Some(false), (0, 0, 0)));
}
