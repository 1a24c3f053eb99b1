//! Tests of `special_moves`.
ghost use Rattle.std.specs.Prelude.{◌≡◌};
ghost use Rattle.rules_model.specs.Fit.{IsFit};

use crate::expect::{expect_eq, expect_eq_at, expect_of};
use attack_tables::Tables;
use board_sets::sets_of;
use foundation::Memory;
use rules_model::{Kind, Move, MoveList, Placed, Position, Promo, Rules};
use sample_rules::{chess, hand_of, kind, position, shouse, square};
use special_moves::push_moves;
use std::alloc::Global;
use std::process::Abort;

fn is_candidate(rules: &Rules, tables: &Tables, p: &Position, m: &Move) -> bool
    requires fit { IsFit rules.now }
    requires tables { tables.now ≡ rules.now }
{
    let sets = sets_of(rules, &p.cells, p.side);
    special_moves::is_candidate(rules, tables, p, &sets, m)
}

/// How many moves are given.
fn count(alloc: Global, rules: &Rules, tables: &Tables, p: &Position) -> Result<usize, Memory>
    requires fit { IsFit rules.now }
    requires tables { tables.now ≡ rules.now }
{
    let mut found = MoveList {
        items: Vec::new(alloc),
    };
    let sets = sets_of(rules, &p.cells, p.side);
    push_moves(rules, tables, p, &sets, &mut found)?;
    Ok(found.items.len())
}

/// Asserts how many moves are given in a variant with drops and gates.
fn expect_count(rt: &impl Abort, alloc: Global, p: &Position, count_of: usize) {
    let rules = shouse();
    let tables = Tables::new(alloc, &rules).expect(rt, "no fault");
    expect_eq(
        rt,
        count(alloc, &rules, &tables, p).expect(rt, "no fault"),
        count_of,
    );
}

/// White's castle from e1.
fn castle(to: &str, rook: &str, gate: Option<Placed>) -> Move {
    Move::Castle {
        from: square("e1"),
        to: square(to),
        rook: square(rook),
        gate,
    }
}

/// Asserts of White's pieces, with rights by wing, whether White castles short and long, and that no other move is
/// given.
fn expect_castles(rt: &impl Abort, alloc: Global, rules: &Rules, row: &(&str, [bool; 2], [bool; 2]))
    requires { IsFit rules.now }
{
    let (pieces, rights, castles) = *row;
    let mut p = position(pieces);
    p.rights[0] = rights;
    let tables = Tables::new(alloc, rules).expect(rt, "no fault");
    let found = [
        is_candidate(rules, &tables, &p, &castle("g1", "h1", None)),
        is_candidate(rules, &tables, &p, &castle("c1", "a1", None)),
    ];
    expect_eq_at(rt, pieces, found, castles);
    let wanted = usize::from(castles[0]) + usize::from(castles[1]);
    let given = count(alloc, rules, &tables, &p).expect(rt, "no fault");
    expect_eq_at(rt, pieces, given, wanted);
}

#[test]
fn castles_of_chess(rt: HostRuntime) {
    let rows = [
        ("Ke1 Ra1 Rh1 ke8", [true, true], [true, true]),
        ("Ke1 Ra1 Rh1 ke8", [true, false], [true, false]),
        // through f1, which is attacked
        ("Ke1 Ra1 Rh1 ke8 rf8", [true, true], [false, true]),
        // over b1 only the rook goes
        ("Ke1 Ra1 Rh1 ke8 rb8", [true, true], [true, true]),
        // over a piece
        ("Ke1 Ra1 Nb1 Rh1 ke8", [true, true], [true, false]),
        // out of check, and to where the king is attacked
        ("Ke1 Ra1 Rh1 ka8 re8", [true, true], [false, false]),
        ("Ke1 Ra1 Rh1 ke8 rg8", [true, true], [false, true]),
        // the king has moved
        ("Kd1 Ra1 Rh1 ke8", [true, true], [false, false]),
    ];
    for row in &rows {
        expect_castles(&rt, rt.alloc(), &chess(), row);
    }
}

/// Whether White, with an elephant in hand, may castle short with a rook from there and place the elephant there.
fn may_place(tables: &Tables, rook: &str, at: &str) -> bool {
    let mut p = position("Ke1 ke8");
    p.cells[square(rook).0 as usize] = position("Ra1").cells[0];
    p.rights[0][0] = true;
    p.hands[0] = hand_of(b"e");
    let placed = Placed {
        kind: kind(b'e'),
        at: square(at),
    };
    is_candidate(
        tables.rules(),
        tables,
        &p,
        &castle("g1", rook, Some(placed)),
    )
}

// The rook on f1 stands between the king and its target, and stays there.
#[test]
fn castles_with_a_gate(rt: HostRuntime) {
    let tables = Tables::new(rt.alloc(), &shouse()).expect(&rt, "no fault");
    // the rook's start, where the elephant is placed, and whether it may be
    let rows = [
        ("h1", "e1", true),
        ("h1", "h1", true),
        ("h1", "g1", false),
        ("h1", "f1", false),
        ("h1", "b1", false),
        ("f1", "e1", true),
        ("f1", "f1", false),
    ];
    for (rook, at, may) in rows {
        assert!(rt; may_place(&tables, rook, at) == may, "{rook} {at}");
    }
}

/// King and knight of White with the gate of b1, and with these pieces in hand.
fn with_gate(hand: &[u8]) -> Position {
    let mut p = position("Ke1 Nb1 ke8");
    p.gates[0] = 2;
    p.hands[0] = hand_of(hand);
    p
}

/// A move that leaves a piece from the hand on its start.
fn gated(from: &str, to: &str, gate: Kind) -> Move {
    Move::Go {
        from: square(from),
        to: square(to),
        promo: Promo::Stays,
        gate: Some(gate),
    }
}

// The king's gate is closed, and no hawk is in hand.
#[test]
fn gates_place_what_is_in_hand(rt: HostRuntime) {
    let rules = shouse();
    let tables = Tables::new(rt.alloc(), &rules).expect(&rt, "no fault");
    let p = with_gate(b"e");
    let rows = [
        ("b1", "c3", b'e', true),
        ("e1", "e2", b'e', false),
        ("b1", "c3", b'h', false),
    ];
    for (from, to, letter, may) in rows {
        let m = gated(from, to, kind(letter));
        expect_of(
            &rt,
            &(from, letter),
            is_candidate(&rules, &tables, &p, &m) == may,
        );
    }
}

/// A drop of a pawn.
fn pawn_to(to: &str) -> Move {
    Move::Drop {
        kind: kind(b'p'),
        to: square(to),
    }
}

// Of an elephant: 3 moves of the knight, and a drop on each of the 61 empty squares; and with a hawk too, as many
// again. A pawn is dropped on neither the first rank nor the last, and comes in by no gate.
#[test]
fn moves_from_the_hand_are_counted(rt: HostRuntime) {
    expect_count(&rt, rt.alloc(), &with_gate(b"e"), 64);
    expect_count(&rt, rt.alloc(), &with_gate(b"eh"), 128);
    let mut p = with_gate(b"p");
    p.gates[0] = 0;
    expect_count(&rt, rt.alloc(), &p, 48);
}

#[test]
fn pawns_are_dropped_between_the_last_ranks(rt: HostRuntime) {
    let rules = shouse();
    let tables = Tables::new(rt.alloc(), &rules).expect(&rt, "no fault");
    let p = with_gate(b"p");
    let rows = [
        ("e2", true),
        ("e7", true),
        ("d1", false),
        ("d8", false),
        ("b1", false),
    ];
    for (to, may) in rows {
        expect_eq_at(
            &rt,
            to,
            is_candidate(&rules, &tables, &p, &pawn_to(to)),
            may,
        );
    }
}

/// Chess with drops where White's second rank and Black's take all that is dropped, and a side has one pawn on a file
/// as in shogi.
fn second_ranks() -> Rules
    ensures { IsFit result }
{
    let mut rules = shouse();
    rules.no_doubled = rules.pawn;
    let ranks = rules.double_region;
    rules.drop_region = ranks;
    rules
}

#[test]
fn drops_keep_to_their_region(rt: HostRuntime) {
    let rules = second_ranks();
    let tables = Tables::new(rt.alloc(), &rules).expect(&rt, "no fault");
    let mut p = position("Ke1 Nc2 ke8");
    p.hands[0] = hand_of(b"e");
    expect_eq(
        &rt,
        count(rt.alloc(), &rules, &tables, &p).expect(&rt, "no fault"),
        7,
    );
}

// A drop on each square of the region but one, and two moves of the pawn. Neither the pawn of the other side nor the
// knight takes its file.
#[test]
fn a_side_has_one_pawn_on_a_file(rt: HostRuntime) {
    let rules = second_ranks();
    let tables = Tables::new(rt.alloc(), &rules).expect(&rt, "no fault");
    let mut p = position("Ke1 Pe4 pd5 Nc3 ke8");
    p.hands[0] = hand_of(b"p");
    for (to, may) in [("e2", false), ("d2", true), ("c2", true)] {
        let found = is_candidate(&rules, &tables, &p, &pawn_to(to));
        expect_eq_at(&rt, to, found, may);
    }
    expect_eq(
        &rt,
        count(rt.alloc(), &rules, &tables, &p).expect(&rt, "no fault"),
        9,
    );
}
