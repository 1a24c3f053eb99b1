//! Tests of `legality`.
ghost use Rattle.rules_model.specs.Fit.{IsFit};
ghost use Rattle.rules_model.specs.Ready.{IsReady};

use crate::expect::{expect_eq, expect_eq_at, expect_of};
use crate::helpers::{go, halves};
use attack_tables::Tables;
use board_sets::sets_of;
use legality::{
    MoveGen, any_legal, apply, apply_with, free, gives_check, is_legal, legal_moves, own_end,
};
use move_text::write_move;
use rules_model::{Cause, Move, MoveList, Outcome, Position, Promo, Rules, Side, sound};
use sample_rules::{capablanca, chess, hand_of, kind, position, shouse, square, xiangqi};
use std::alloc::Global;
use std::process::Abort;
use std::test::Fail;

/// Chess where a side that can capture must.
fn forced() -> Rules
    ensures { IsFit result }
{
    let mut rules = chess();
    rules.must_capture = true;
    rules
}

/// Chess without a king: the kings are pieces as others.
fn kingless() -> Rules
    ensures { IsFit result }
{
    let mut rules = chess();
    rules.king = None;
    rules
}

/// Chess where a pawn may stay one on the last rank, but no piece may go where it can never move again.
fn mobile() -> Rules
    ensures { IsFit result }
{
    let mut rules = chess();
    rules.must_promote_pawn = false;
    rules.immobile_bad = true;
    rules
}

/// Chess with drops that give no check.
fn quiet_drops() -> Rules
    ensures { IsFit result }
{
    let mut rules = shouse();
    rules.drop_checks = false;
    rules
}

/// Chess on a board of nine ranks: the regions are still those of eight.
fn nine_ranks() -> Rules
    ensures { IsFit result }
{
    let mut rules = chess();
    rules.ranks = 9;
    rules
}

/// The same on ten ranks.
fn ten_ranks() -> Rules
    ensures { IsFit result }
{
    let mut rules = chess();
    rules.ranks = 10;
    rules
}

/// Whether the moves have these texts, in this order.
fn are_named(moves: &MoveList, texts: &str) -> bool {
    let mut found = 0;
    for text in texts.split(' ') {
        if !text.is_empty() {
            match moves.items.get(found) {
                Some(m) if write_move(m).items.as_slice() == text.as_bytes() => found += 1,
                _ => return false,
            }
        }
    }
    found == moves.items.len()
}

fn count_legal(rules: &Rules, tables: &Tables, p: &Position) -> u128
    requires ready { IsReady rules.now tables.now p.now }
{
    let sets = sets_of(rules, &p.cells, p.side);
    MoveGen::of(tables, p, &sets).count_legal()
}

/// Whether these are the legal moves by each of the calls that answer no list.
fn are_legal(rules: &Rules, tables: &Tables, p: &Position, moves: &MoveList) -> bool
    requires ready { IsReady rules.now tables.now p.now }
{
    let count = moves.items.len();
    moves.items.iter().all(|m| is_legal(rules, tables, p, m))
        && count_legal(rules, tables, p) == count as u128
        && any_legal(rules, tables, p) == (count > 0)
}

/// Asserts that the position has these legal moves, in this order, by each of the calls.
fn has_moves<R: Abort>(rt: &R, alloc: Global, rules: &Rules, p: &Position, texts: &str)
    requires fit { IsFit rules.now }
{
    let tables = Tables::new(alloc, rules).expect(rt, "no fault");
    assert!(rt; sound(rules, p));
    let moves = legal_moves(alloc, rules, &tables, p).expect(rt, "no fault");
    expect_of(rt, &texts, are_named(&moves, texts));
    expect_of(rt, &texts, are_legal(rules, &tables, p, &moves));
}

/// Asserts what `has_moves` does of the pieces of each text, with White to move.
fn have_moves<R: Abort>(rt: &R, alloc: Global, rules: &Rules, rows: &str)
    requires fit { IsFit rules.now }
{
    for row in rows.split('\n') {
        let (pieces, texts) = halves(row);
        has_moves(rt, alloc, rules, &position(pieces), texts);
    }
}

/// Asserts the same where a pawn of Black has just gone from d7 to d5.
fn passing_moves<R: Abort>(rt: &R, alloc: Global, rules: &Rules, rows: &str)
    requires fit { IsFit rules.now }
{
    for row in rows.split('\n') {
        let (pieces, texts) = halves(row);
        let p = Position {
            ep: Some(square("d6")),
            ..position(pieces)
        };
        has_moves(rt, alloc, rules, &p, texts);
    }
}

#[test]
fn kings_are_kept_safe(rt: HostRuntime) {
    // in order: checkmate and stalemate; a check that is blocked, fled from, or ended by taking; a piece between its
    // king and a rook; the rook attacks the squares after the king too, and the bishop guards the knight; of two
    // pinned pawns, one goes along its line.
    let rows = "\
        Ka1 qb2 kc3|\n\
        Ka1 qc2 kc3|\n\
        Ka1 Nc2 ra8 kh8|a1b1 a1b2 c2a3\n\
        Ka1 Nc2 ra3 kh8|a1b1 a1b2 c2a3\n\
        Ke1 Be2 pd3 re8 ka8|e1d1 e1d2 e1f1 e1f2\n\
        Ke4 re8 ka1|e4d3 e4d4 e4d5 e4f3 e4f4 e4f5\n\
        Ke2 nd3 bf5 kh8|e2d1 e2d2 e2e3 e2f1 e2f3\n\
        Ke1 Pd2 Pe2 re8 ba5 kh8|e1d1 e1f1 e1f2 e2e3 e2e4";
    have_moves(&rt, rt.alloc(), &chess(), rows);
}

// A king that goes nowhere else is one piece among others, and kings that fly leave no file open between them.
#[test]
fn kings_of_other_variants(rt: HostRuntime) {
    let row = "Ka1 ra8 kh8|a1a2 a1b1 a1b2";
    have_moves(&rt, rt.alloc(), &kingless(), row);
    let row = "Ke1 Ne4 ke10|e1d1 e1e2 e1f1";
    have_moves(&rt, rt.alloc(), &xiangqi(), row);
}

// En passant may not take both pawns from the rank of the king and a rook. It ends the check of the pawn that it
// takes, and not that of a rook.
#[test]
fn en_passant_keeps_the_king_safe(rt: HostRuntime) {
    let rows = "\
        Ka5 Pe5 pd5 rh5 ke8|a5a4 a5a6 a5b4 a5b5 a5b6 e5e6\n\
        Ke4 Pc5 pd5 kh8|c5d6 e4d3 e4d4 e4d5 e4e3 e4e5 e4f3 e4f4 e4f5\n\
        Ka1 Pe5 pd5 ra8 kh8|a1b1 a1b2";
    passing_moves(&rt, rt.alloc(), &chess(), rows);
}

#[test]
fn pinned_pieces_are_not_free(rt: HostRuntime) {
    let rules = chess();
    let tables = Tables::new(rt.alloc(), &rules).expect(&rt, "no fault");
    // the rook stands between its king and the enemy's rook; the knight and the pawn go anywhere
    let p = position("Ke1 Re2 Nc3 Pa2 ke8 re7");
    assert!(rt; sound(&rules, &p));
    let free = free(&rules, &tables, &p);
    let rows = [
        ("e1", false),
        ("e2", false),
        ("c3", true),
        ("a2", true),
        ("e8", false),
    ];
    for (at, is_free) in rows {
        expect_eq_at(&rt, at, free.has(square(at).0), is_free);
    }
}

#[test]
fn checks_of_chess_are_ended(rt: HostRuntime) {
    // in order: a rook's is blocked on its file, and the bishop takes it; no piece gets between a knight and the king;
    // of two pieces the rook and the queen would take one, or block one; pawns that become pieces block the rook, or
    // take it; other pawns block it by one step and by two, or take it.
    let rows = "\
        Ke1 Nc3 Bg6 Ph2 re8 ka8|c3e2 c3e4 e1d1 e1d2 e1f1 e1f2 g6e4 g6e8\n\
        Ke1 Ra3 Bh6 nd3 kh8|a3d3 e1d1 e1d2 e1e2 e1f1\n\
        Ke1 Rd8 Qh4 re8 nf3 ka7|e1d1 e1f1 e1f2\n\
        Ka8 Pc2 Pd7 Pg7 rh8 kh1|a8a7 a8b7 d7d8b d7d8n d7d8q d7d8r g7g8b g7g8n g7g8q g7g8r g7h8b g7h8n g7h8q g7h8r\n\
        Ka4 Pc3 Pe2 Pg3 rh4 kh8|a4a3 a4a5 a4b3 a4b5 c3c4 e2e4 g3g4 g3h4";
    have_moves(&rt, rt.alloc(), &chess(), rows);
}

#[test]
fn checks_of_cannons_and_horses_are_ended(rt: HostRuntime) {
    // in order: the horse over which the cannon attacks goes away, or the rook comes between. On the d file kings
    // would face; the rook takes the soldier in vain: the cannon then attacks over the rook; the rook and the cannon
    // after it attack: one piece blocks both, and to take the rook is in vain; the horse goes over d2.
    let rows = "\
        Ke1 Ne4 Ra5 ce7 kd10|a5e5 e1f1 e4c3 e4c5 e4d2 e4d6 e4f2 e4f6 e4g3 e4g5\n\
        Ke1 Ra4 Rh7 ce7 pe4 kd10|e1f1 h7e7\n\
        Ke1 Ra5 Rh8 re8 ce9 kd10|a5e5 e1f1\n\
        Ke1 Ra2 Ae2 nd3 kf10|a2d2 e1d1 e2d3";
    have_moves(&rt, rt.alloc(), &xiangqi(), rows);
}

/// The legal moves of White with pieces in hand and gates.
fn has_moves_of_hand<R: Abort>(rt: &R, alloc: Global, row: &(&str, &[u8], u16, &str)) {
    let (pieces, hand, gates, texts) = *row;
    let mut p = position(pieces);
    p.hands[0] = hand_of(hand);
    p.gates[0] = gates;
    has_moves(rt, alloc, &shouse(), &p, texts);
}

// Drops on the squares between, and pieces that come in where one leaves.
#[test]
fn checks_are_ended_from_the_hand(rt: HostRuntime) {
    // pieces, those in White's hand, and its gates
    let rows: [(&str, &[u8], u16, &str); 4] = [
        (
            "Ka1 ra8 kh8",
            b"np",
            0,
            "N@a2 N@a3 N@a4 N@a5 N@a6 N@a7 P@a2 P@a3 P@a4 P@a5 P@a6 P@a7 a1b1 a1b2",
        ),
        ("Ka1 nc2 kh8", b"r", 0, "a1a2 a1b1 a1b2"),
        // the gate of g1 is open: the elephant may come in there
        (
            "Ke1 Ng1 re8 ka8",
            b"e",
            0x40,
            "E@e2 E@e3 E@e4 E@e5 E@e6 E@e7 e1d1 e1d2 e1f1 e1f2 g1e2 g1e2e",
        ),
        // on c1 it has to, where the knight would leave the king to the other rook
        (
            "Ke1 Nc1 ra1 re8 ka8",
            b"e",
            4,
            "E@e2 E@e3 E@e4 E@e5 E@e6 E@e7 c1e2e e1d1 e1d2 e1f1 e1f2",
        ),
    ];
    for row in &rows {
        has_moves_of_hand(&rt, rt.alloc(), row);
    }
}

#[test]
fn captures_are_forced(rt: HostRuntime) {
    // the third: the bishop may not take; the last two, in check: the pawn takes in vain, and the knight has to take
    // the rook
    let rows = "\
        Ke1 Pe4 pd5 ke8|e4d5\n\
        Ka1 Pe4 kh8|a1a2 a1b1 a1b2 e4e5\n\
        Ke1 Be2 pd3 re8 ka8|e1d1 e1d2 e1f1 e1f2\n\
        Ka1 Pe4 pd5 ra8 kh8|a1b1 a1b2\n\
        Ka1 Nb6 pd5 ra8 kh8|b6a8";
    have_moves(&rt, rt.alloc(), &forced(), rows);
    let row = "Ka1 Pe5 pd5 kh8|e5d6";
    passing_moves(&rt, rt.alloc(), &forced(), row);
}

#[test]
fn pieces_stay_mobile(rt: HostRuntime) {
    let row = "Ka1 Pg7 kd4|a1a2 a1b1 a1b2 g7g8b g7g8n g7g8q g7g8r";
    have_moves(&rt, rt.alloc(), &mobile(), row);
}

/// Whether White may drop a rook there.
fn may_drop_rook(rules: &Rules, tables: &Tables, p: &Position, to: &str) -> bool
    requires ready { IsReady rules.now tables.now p.now }
{
    let m = Move::Drop {
        kind: kind(b'r'),
        to: square(to),
    };
    is_legal(rules, tables, p, &m)
}

// A rook on the rank or the file of the king gives check: 14 of the 62 squares. The king has three moves.
#[test]
fn drops_give_no_check(rt: HostRuntime) {
    let rules = quiet_drops();
    let tables = Tables::new(rt.alloc(), &rules).expect(&rt, "no fault");
    let mut p = position("Ka1 kh8");
    p.hands[0] = hand_of(b"r");
    assert!(rt; sound(&rules, &p));
    expect_eq(&rt, count_legal(&rules, &tables, &p), 51);
    for (to, may) in [("a2", true), ("h7", false), ("b8", false)] {
        expect_eq_at(&rt, to, may_drop_rook(&rules, &tables, &p, to), may);
    }
}

/// Asserts what `has_moves` does of the pieces of a text, with Black to move.
fn black_has_moves<R: Abort>(rt: &R, alloc: Global, rules: &Rules, rows: &str)
    requires fit { IsFit rules.now }
{
    for row in rows.split('\n') {
        let (pieces, texts) = halves(row);
        let mut p = position(pieces);
        p.side = Side::Black;
        has_moves(rt, alloc, rules, &p, texts);
    }
}

#[test]
fn pawns_of_black_go_down_high_boards(rt: HostRuntime) {
    let nine = "\
        Ka1 kh8 pe9 Nd8|e9d8 e9e8 h8g7 h8g8 h8h7\n\
        Ka1 kh8 pe7|e7e5 e7e6 h8g7 h8g8 h8h7\n\
        Ka4 kh8 pe2|e2e1b e2e1n e2e1q e2e1r h8g7 h8g8 h8h7";
    black_has_moves(&rt, rt.alloc(), &nine_ranks(), nine);
    let ten = "\
        Ka1 kh8 pe10 Nd9|e10d9 e10e9 h8g7 h8g8 h8h7\n\
        Ka1 kh8 pe9|e9e8 h8g7 h8g8 h8h7";
    black_has_moves(&rt, rt.alloc(), &ten_ranks(), ten);
}

/// The king's moves beside those of a rook on f1, with the right to castle short.
fn castler_has_moves<R: Abort>(
    rt: &R,
    alloc: Global,
    pieces: &str,
    texts: &str,
) -> Result<(), Fail> {
    let mut p = position(pieces);
    p.rights[0][0] = true;
    let texts = format!(in alloc; "{texts} f1f2 f1f3 f1f4 f1f5 f1f6 f1f7 f1f8 f1g1 f1h1")?;
    has_moves(rt, alloc, &chess(), &p, texts.as_str());
    Ok(())
}

// The castling rook stands on f1, between the king and its target. A rook of Black attacks g1, or f1 alone.
#[test]
fn a_rook_between_king_and_target_castles(rt: HostRuntime) -> Result<(), Fail> {
    let rows = "\
        Ke1 Rf1 ka8|e1d1 e1d2 e1e2 e1f2 e1g1\n\
        Ke1 Rf1 ka8 rg8|e1d1 e1d2 e1e2 e1f2\n\
        Ke1 Rf1 ka8 rf8|e1d1 e1d2 e1e2";
    for row in rows.split('\n') {
        let (pieces, texts) = halves(row);
        castler_has_moves(&rt, rt.alloc(), pieces, texts)?;
    }
    Ok(())
}

fn starts_with(rt: &impl Abort, alloc: Global, rules: &Rules, moves: u128)
    requires { IsFit rules.now }
{
    let tables = Tables::new(alloc, rules).expect(rt, "no fault");
    assert!(rt; sound(rules, &rules.start));
    expect_eq(rt, count_legal(rules, &tables, &rules.start), moves);
}

#[test]
fn starts_have_their_moves(rt: HostRuntime) {
    starts_with(&rt, rt.alloc(), &chess(), 20);
    starts_with(&rt, rt.alloc(), &capablanca(), 28);
    starts_with(&rt, rt.alloc(), &xiangqi(), 44);
}

/// Chess where a king on the last rank wins.
fn flagged() -> Rules
    ensures { IsFit result }
{
    let mut rules = chess();
    rules.flag_kind = rules.king;
    let last_ranks = rules.promotion;
    rules.flag_region = last_ranks;
    rules
}

/// Asserts that the game ends so where Black is to move, and that just then no move is legal.
fn ends_with(rt: &impl Abort, alloc: Global, rules: &Rules, row: &(&str, Outcome))
    requires { IsFit rules.now }
{
    let (pieces, end) = *row;
    let tables = Tables::new(alloc, rules).expect(rt, "no fault");
    let mut p = position(pieces);
    p.side = Side::Black;
    assert!(rt; sound(rules, &p));
    expect_eq_at(rt, pieces, own_end(&tables, &p), end);
    let has_moves = any_legal(rules, &tables, &p);
    expect_eq_at(rt, pieces, has_moves, end == Outcome::Ongoing);
}

#[test]
fn games_end(rt: HostRuntime) {
    let rules = flagged();
    let flag = Outcome::Won(Side::White, Cause::Flag);
    let mate = Outcome::Won(Side::White, Cause::Checkmate);
    let rows = [
        ("Ka7 kh5", Outcome::Ongoing),
        ("Ka8 kh5", flag),
        // another piece wins nothing there, alone or beside the king, and no piece on the region of the other side
        ("Ka7 Rc8 kh5", Outcome::Ongoing),
        ("Ra8 Kb8 kh5", flag),
        ("Ka7 kh1", Outcome::Ongoing),
        ("Kf6 Qf7 kf8", mate),
        ("Kf6 Qd5 kf8", Outcome::Ongoing),
        ("Kf7 Pg6 kh8", Outcome::Drawn(Cause::Stalemate)),
    ];
    for row in &rows {
        ends_with(&rt, rt.alloc(), &rules, row);
    }
}

/// White's knight of e4 goes there.
fn knight_to(to: &str) -> Move {
    go("e4", to, Promo::Stays)
}

/// Plays the knight's move, and asserts whether it gives check.
fn plays(rt: &impl Abort, alloc: Global, rules: &Rules, to: &str, gives: bool)
    requires { IsFit rules.now }
{
    let tables = Tables::new(alloc, rules).expect(rt, "no fault");
    let mut p = position("Ka1 Ne4 ke8");
    let m = knight_to(to);
    assert!(rt; sound(rules, &p));
    assert!(rt; is_legal(rules, &tables, &p, &m), "{to}");
    expect_eq_at(rt, to, gives_check(rules, &tables, &p, &m), gives);
    apply(rules, &tables, &mut p, &m);
    expect_eq_at(rt, to, (p.side, p.counter), (Side::Black, 1));
}

#[test]
fn a_move_is_played(rt: HostRuntime) {
    for (to, gives) in [("f6", true), ("d6", true), ("c3", false)] {
        plays(&rt, rt.alloc(), &chess(), to, gives);
    }
}

/// Chess that counts checks.
fn checks_counted() -> Rules
    ensures { IsFit result }
{
    let mut rules = chess();
    rules.check_counting = true;
    rules
}

/// Makes the knight's move with the sets of the board, and asserts how many checks White has left.
fn leaves_checks(rt: &impl Abort, alloc: Global, rules: &Rules, to: &str, left: u8)
    requires { IsFit rules.now }
{
    let tables = Tables::new(alloc, rules).expect(rt, "no fault");
    let mut p = position("Ka1 Ne4 ke8");
    p.checks = [3, 3];
    let m = knight_to(to);
    assert!(rt; sound(rules, &p));
    assert!(rt; is_legal(rules, &tables, &p, &m), "{to}");
    let sets = sets_of(rules, &p.cells, p.side);
    let after = apply_with(&tables, &mut p, &sets, &m);
    expect_eq_at(rt, to, p.checks, [left, 3]);
    expect_eq_at(rt, to, after, sets_of(rules, &p.cells, p.side));
}

#[test]
fn a_move_is_made_with_the_sets_of_the_board(rt: HostRuntime) {
    leaves_checks(&rt, rt.alloc(), &checks_counted(), "f6", 2);
    leaves_checks(&rt, rt.alloc(), &checks_counted(), "c3", 3);
}
