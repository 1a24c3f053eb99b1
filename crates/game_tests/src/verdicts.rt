//! Tests of `strategy_check`.
use crate::helpers::{ROOK_MATE, chess_game};
use game_play::Game;
use rules_model::{Position, Side};
use sample_rules::position;
use std::alloc::Global;
use std::process::Abort;
use strategy::read;
use strategy_check::check;

/// The rook's mate after seven plies without a capture.
const LATE: &str = "strategy 1
attacker white
nodes 4
node 0 2 7k/R7/5K2/8/8/8/8/8 w - - 7 1
edge f6g6 1
node 1 1 7k/R7/6K1/8/8/8/8/8 b - - 8 1
edge h8g8 2
node 2 1 6k1/R7/6K1/8/8/8/8/8 w - - 9 1
edge a7a8 3
node 3 0 R5k1/8/6K1/8/8/8/8/8 b - - 10 1
end
";

/// King and queen against king, stalemate in one.
const STALEMATE: &str = "strategy 1
attacker white
nodes 2
node 0 1 7k/8/5KQ1/8/8/8/8/8 w - - 0 1
edge g6f7 1
node 1 0 7k/5Q2/5K2/8/8/8/8/8 b - - 1 1
end
";

/// The verdict on the strategy of the text, as it prints.
fn printed(
    rt: &impl Abort,
    alloc: Global,
    game: &Game,
    attacker: Side,
    n: u16,
    text: &str,
) -> String {
    game.prove_played();
    let s = read(alloc, game.rules(), text.as_bytes()).expect(rt, "no fault");
    let verdict = check(alloc, game, attacker, n, &s).expect(rt, "no fault");
    format!(in alloc; "{verdict}").expect(rt, "no fault")
}

/// Asserts how the verdict on the text as a strategy of White within n moves prints, in the game of the moves.
fn expect(
    rt: &impl Abort,
    alloc: Global,
    start: &Position,
    moves: &str,
    n: u16,
    text: &str,
    wanted: &str,
) {
    let game = chess_game(rt, alloc, start, moves);
    let found = printed(rt, alloc, &game, Side::White, n, text);
    assert!(rt; found.as_str() == wanted, "{text}: {found}");
}

/// Asserts how the verdict prints on the rook's mate with one part of its text replaced.
fn expect_spoilt(rt: &impl Abort, alloc: Global, right: &str, wrong: &str, wanted: &str) {
    let (before, after) = ROOK_MATE.split_once(right).unwrap_or(("", ROOK_MATE));
    let text = format!(in alloc; "{before}{wrong}{after}").expect(rt, "no fault");
    expect(
        rt,
        alloc,
        &position("kh8 Ra7 Kf6"),
        "",
        2,
        text.as_str(),
        wanted,
    );
}

#[test]
fn a_strategy_begins_with_the_game(rt: HostRuntime) {
    let alloc = rt.alloc();
    expect_spoilt(&rt, alloc, "", "", "Verdict 0 Wins");
    expect_spoilt(
        &rt,
        alloc,
        "attacker white",
        "attacker black",
        "Verdict 1 Root",
    );
    expect_spoilt(&rt, alloc, "node 0 2", "node 0 3", "Verdict 1 Root");
    expect_spoilt(
        &rt,
        alloc,
        "5K2/8/8/8/8/8",
        "5K2/8/8/8/P7/8",
        "Verdict 1 Root",
    );
}

#[test]
fn a_strategy_has_its_moves(rt: HostRuntime) {
    let alloc = rt.alloc();
    expect_spoilt(
        &rt,
        alloc,
        "edge f6g6",
        "edge f6f8",
        "Verdict 2 WrongMove 0",
    );
    expect_spoilt(
        &rt,
        alloc,
        "edge f6g6 1",
        "edge f6g6 2",
        "Verdict 2 WrongMove 0",
    );
    let twice = "edge h8g8 2\nedge h8g8 2";
    expect_spoilt(&rt, alloc, "edge h8g8 2", twice, "Verdict 2 WrongMove 1");
    let two = "edge a7a8 3\nedge a7a6 3";
    expect_spoilt(&rt, alloc, "edge a7a8 3", two, "Verdict 2 WrongMove 2");
    expect_spoilt(
        &rt,
        alloc,
        "edge h8g8 2\n",
        "",
        "Verdict 3 MissingReply 1 h8g8",
    );
}

#[test]
fn a_strategy_has_its_numbers(rt: HostRuntime) {
    let alloc = rt.alloc();
    expect_spoilt(&rt, alloc, "node 0 2", "node 0 1", "Verdict 4 BadRank 0");
    expect_spoilt(&rt, alloc, "node 2 1", "node 2 2", "Verdict 4 BadRank 1");
    expect_spoilt(
        &rt,
        alloc,
        "b - - 1 1",
        "b - - 0 1",
        "Verdict 5 BadCounter 0",
    );
    expect_spoilt(&rt, alloc, "b - - 3 1", "b - - 9 1", "Verdict 0 Wins");
}

#[test]
fn the_goal_counts(rt: HostRuntime) {
    let alloc = rt.alloc();
    let start = position("kh8 Ra7 Kf6");
    expect(&rt, alloc, &start, "", 1, ROOK_MATE, "Verdict 1 Root");
    expect(&rt, alloc, &start, "", 2, LATE, "Verdict 0 Wins");
    let queen = position("kh8 Kf6 Qg6");
    expect(&rt, alloc, &queen, "", 1, STALEMATE, "Verdict 7 NotWon 1");
    let game = chess_game(&rt, alloc, &start, "");
    let found = printed(&rt, alloc, &game, Side::Black, 2, ROOK_MATE);
    assert!(rt; found.as_str() == "Verdict 1 Root");
}

// Node 1 has stood twice.
#[test]
fn the_game_counts(rt: HostRuntime) {
    let replied = Position {
        side: Side::Black,
        ..position("kh8 Ra7 Kg6")
    };
    let twice = "h8g8 g6f6 g8h8 f6g6 h8g8 g6f6 g8h8";
    expect(
        &rt,
        rt.alloc(),
        &replied,
        twice,
        2,
        LATE,
        "Verdict 6 Repeats 1",
    );
}
