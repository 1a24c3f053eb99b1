//! Tests of `game_play`.
use crate::expect::{expect, expect_eq, expect_eq_at, expect_of};
use crate::helpers::{KINGS, QUEEN, ROUND, at_count, chess_game, go};
use game_play::{Game, NothingPlayed, PlayFault};
use rules_model::{Blocked, Cause, Outcome, Position, Side, repeat_of};
use sample_rules::{chess, position};
use std::alloc::Global;
use std::process::Abort;

/// Asserts the result of the game of chess from the pieces, at a count of moves.
fn expect_outcome(
    rt: &impl Abort,
    alloc: Global,
    pieces: &str,
    counter: u16,
    moves: &str,
    outcome: Outcome,
) {
    let game = chess_game(rt, alloc, &at_count(pieces, counter), moves);
    expect_eq_at(rt, moves, game.outcome(), outcome);
}

// The start is the first of three positions. Checkmate comes before the move count, and so does stalemate.
#[test]
fn results(rt: HostRuntime) {
    let alloc = rt.alloc();
    let twice = "e1d1 e8d8 d1e1 d8e8 e1d1 e8d8 d1e1";
    let thrice = "e1d1 e8d8 d1e1 d8e8 e1d1 e8d8 d1e1 d8e8";
    let repetition = Outcome::Drawn(Cause::Repetition);
    let mate = Outcome::Won(Side::White, Cause::Checkmate);
    expect_outcome(&rt, alloc, KINGS, 0, twice, Outcome::Ongoing);
    expect_outcome(&rt, alloc, KINGS, 0, thrice, repetition);
    expect_outcome(&rt, alloc, QUEEN, 99, "", Outcome::Ongoing);
    expect_outcome(
        &rt,
        alloc,
        QUEEN,
        99,
        "g6g5",
        Outcome::Drawn(Cause::MoveCount),
    );
    expect_outcome(&rt, alloc, QUEEN, 99, "g6g7", mate);
    expect_outcome(
        &rt,
        alloc,
        QUEEN,
        99,
        "g6f7",
        Outcome::Drawn(Cause::Stalemate),
    );
}

/// Takes back each of so many moves.
fn undo_all(rt: &impl Abort, game: &mut Game, plies: usize) {
    for _ply in 0..plies {
        expect_eq(rt, game.undo(), Ok(()));
    }
}

#[test]
fn moves_are_played_and_taken_back(rt: HostRuntime) {
    let start = position(KINGS);
    let mut game = chess_game(&rt, rt.alloc(), &start, ROUND);
    expect_eq(&rt, game.play(&go("e1e3")), Err(PlayFault::Illegal));
    let lengths = (game.moves().len(), game.history().len());
    expect_eq(&rt, lengths, (4, 5));
    undo_all(&rt, &mut game, 4);
    expect_eq(&rt, game.undo(), Err(NothingPlayed));
    expect(&rt, *game.position() == start);
    expect_eq(&rt, game.repeats(&start), 1);
    expect_eq(&rt, game.play(&go("e1d1")), Ok(()));
    expect_eq(&rt, game.repeats(game.position()), 1);
}

// It goes on by the tables that it shared, once the first game is gone.
#[test]
fn another_game_has_moves_of_its_own(rt: HostRuntime) {
    let alloc = rt.alloc();
    let game = chess_game(&rt, alloc, &position(KINGS), ROUND);
    let mut other = game.another(alloc, game.position()).expect(&rt, "no fault");
    expect_eq(&rt, other.play(&go("e1d1")), Ok(()));
    expect_eq(&rt, (game.moves().len(), other.moves().len()), (4, 1));
    drop(game);
    expect_eq(&rt, other.play(&go("e8e6")), Err(PlayFault::Illegal));
    expect_eq(&rt, other.play(&go("e8d8")), Ok(()));
}

#[test]
fn a_game_knows_its_rules(rt: HostRuntime) {
    let game = chess_game(&rt, rt.alloc(), &position(KINGS), "");
    game.prove_played();
    expect_eq(&rt, game.rules().n_fold, 3);
    expect_eq(&rt, game.tables().rules().n_fold, 3);
}

/// Asserts that these are the first positions of the game.
fn expect_first(rt: &impl Abort, blocked: &Blocked, game: &Game) {
    for (repeat, kept) in blocked.items.iter().zip(game.history()) {
        expect(rt, *repeat == repeat_of(kept));
    }
}

/// Asserts how often the start stood in the game of the moves, and how many of its first positions are blocked.
fn expect_repeats(rt: &impl Abort, alloc: Global, moves: &str, count: u32, length: usize) {
    let start = position(KINGS);
    let game = chess_game(rt, alloc, &start, moves);
    let blocked = game.blocked(alloc).expect(rt, "no fault");
    let found = (game.repeats(&start), blocked.items.len());
    expect_eq_at(rt, moves, found, (count, length));
    expect_first(rt, &blocked, &game);
}

#[test]
fn repeats_are_blocked(rt: HostRuntime) {
    let alloc = rt.alloc();
    expect_repeats(&rt, alloc, "", 1, 0);
    expect_repeats(&rt, alloc, "e1d1 e8d8 d1e1", 1, 0);
    expect_repeats(&rt, alloc, ROUND, 2, 1);
    expect_repeats(&rt, alloc, "e1d1 e8d8 d1e1 d8e8 e1d1", 2, 2);
}

/// How many lists of one move, of two and so on go on from the game of the moves.
fn expect_counts(rt: &impl Abort, alloc: Global, start: &Position, moves: &str, counts: &[u128]) {
    let game = chess_game(rt, alloc, start, moves);
    for plies in 1..4u8 {
        if let Some(count) = counts.get(plies as usize - 1) {
            expect_of(
                rt,
                &plies,
                game.perft(alloc, plies).expect(rt, "no fault") == *count,
            );
        }
    }
}

// A game that is ended by the move count goes on: of the king's squares h7 alone is not attacked.
#[test]
fn lists_of_moves_are_counted(rt: HostRuntime) {
    let alloc = rt.alloc();
    expect_counts(&rt, alloc, &chess().start, "", &[20, 400, 8902]);
    expect_counts(&rt, alloc, &at_count(QUEEN, 99), "g6g7", &[0, 0]);
    expect_counts(&rt, alloc, &at_count(QUEEN, 99), "g6g5", &[1]);
}
