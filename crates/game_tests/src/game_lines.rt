//! Tests of `game_line`.
use crate::expect::{expect, expect_eq};
use crate::helpers::{KINGS, QUEEN, ROUND, at_count, chess_game, go};
use game_line::Line;
use rules_model::{Cause, Outcome, Position, Side};
use std::alloc::Global;
use std::process::Abort;

/// Puts the moves of the text on the line.
fn push_all(rt: &impl Abort, line: &mut Line, moves: &str) {
    for text in moves.split(' ') {
        if !text.is_empty() {
            let m = go(text);
            assert!(rt;
                line.moves().len() < line.room() && line.board().is_legal(&m),
                "{text}"
            );
            line.push(&m);
        }
    }
}

/// Takes all moves off the line.
fn back_all(line: &mut Line) {
    for _ply in 0..line.room() {
        if line.moves().is_empty() {
            return;
        }
        line.back();
    }
}

/// Asserts that the line stands so.
fn expect_stands(rt: &impl Abort, line: &Line, outcome: Outcome) {
    let any = line.board().any_legal();
    expect_eq(rt, line.outcome(), outcome);
    expect_eq(rt, line.outcome_where(any), outcome);
}

/// Asserts that the line stands so, each time that the moves are put on it.
fn expect_each_time(rt: &impl Abort, line: &mut Line, moves: &str, outcome: Outcome) {
    for _time in 0..3 {
        push_all(rt, line, moves);
        expect_stands(rt, line, outcome);
        back_all(line);
    }
}

/// Asserts how the line of the moves stands after the moves that a game from the position has played.
fn expect_line(
    rt: &impl Abort,
    alloc: Global,
    start: &Position,
    played: &str,
    moves: &str,
    outcome: Outcome,
) {
    let game = chess_game(rt, alloc, start, played);
    let mut line = Line::new(alloc, &game, 8).expect(rt, "no fault");
    expect_each_time(rt, &mut line, moves, outcome);
    expect(rt, *line.board().position() == *game.position());
}

// The start stands twice in the game and once on the line, and the other way round.
#[test]
fn lines_repeat_as_their_games(rt: HostRuntime) {
    let (alloc, start) = (rt.alloc(), at_count(KINGS, 0));
    let repetition = Outcome::Drawn(Cause::Repetition);
    expect_line(&rt, alloc, &start, ROUND, ROUND, repetition);
    expect_line(
        &rt,
        alloc,
        &start,
        ROUND,
        "e1d1 e8d8 d1e1",
        Outcome::Ongoing,
    );
    let rest = "e8d8 d1e1 d8e8 e1d1 e8d8 d1e1 d8e8";
    expect_line(&rt, alloc, &start, "e1d1", rest, repetition);
}

#[test]
fn lines_and_games_repeat_alone(rt: HostRuntime) {
    let (alloc, start) = (rt.alloc(), at_count(KINGS, 0));
    let thrice = "e1d1 e8d8 d1e1 d8e8 e1d1 e8d8 d1e1 d8e8";
    let repetition = Outcome::Drawn(Cause::Repetition);
    expect_line(&rt, alloc, &start, "", thrice, repetition);
    expect_line(&rt, alloc, &start, thrice, "", repetition);
    expect_line(&rt, alloc, &start, thrice, "e1e2", Outcome::Ongoing);
}

#[test]
fn lines_end_as_their_games(rt: HostRuntime) {
    let (alloc, start) = (rt.alloc(), at_count(QUEEN, 99));
    let mate = Outcome::Won(Side::White, Cause::Checkmate);
    let stalemate = Outcome::Drawn(Cause::Stalemate);
    expect_line(
        &rt,
        alloc,
        &start,
        "",
        "g6g5",
        Outcome::Drawn(Cause::MoveCount),
    );
    expect_line(&rt, alloc, &start, "", "g6g7", mate);
    expect_line(&rt, alloc, &start, "", "g6f7", stalemate);
}

/// Workers take lines with them.
fn is_sendable<T: Send>(_value: &T) {}

#[test]
fn lines_are_copied(rt: HostRuntime) {
    let game = chess_game(&rt, rt.alloc(), &at_count(KINGS, 0), ROUND);
    let mut line = Line::new(rt.alloc(), &game, 4).expect(&rt, "no fault");
    push_all(&rt, &mut line, "e1d1 e8d8 d1e1");
    let mut copy = line.copied(rt.alloc()).expect(&rt, "no fault");
    is_sendable(&copy);
    expect_eq(&rt, copy.key(), line.key());
    expect_eq(&rt, copy.rules().n_fold, 3);
    push_all(&rt, &mut copy, "d8e8");
    expect_stands(&rt, &line, Outcome::Ongoing);
    expect_stands(&rt, &copy, Outcome::Drawn(Cause::Repetition));
}
