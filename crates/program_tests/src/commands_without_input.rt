//! Commands that take no input, and words that are no command.
use crate::expect::{expect, expect_eq};
use crate::runs::{ROOM, USAGE_LINE, answers_over_files, ran, refuses, tells};
use io_ports::MemFiles;
use std::process::Abort;
use std::str;
use std::sync::Wait;
use std::thread::Threads;

/// Asserts where a piece goes from a square of the empty board.
fn reaches<R: Abort + AllocGlobal + Threads + Wait + Sync>(
    rt: &R,
    piece: &str,
    square: &str,
    text: &str,
) {
    tells(rt, &["reach", piece, square], "a line\n", text);
}

#[test]
fn reach_says_where_a_piece_goes(rt: HostRuntime) {
    reaches(&rt, "N", "b1", "quiet d2 a3 c3\ntake -\n");
    reaches(&rt, "G", "d4", "quiet a1 g1 a7 g7\ntake -\n");
    reaches(&rt, "NN", "b1", "quiet d2 a3 c3 f3 h4 d5 e7\ntake -\n");
    reaches(&rt, "ffN", "d4", "quiet c6 e6\ntake -\n");
    tells(&rt, &["reach", "nN", "b1", "b2"], "", "quiet d2\ntake -\n");
    let cannon = ["reach", "mRcpR", "a1", "a4", "a7"].as_slice();
    tells(
        &rt,
        cannon,
        "",
        "quiet b1 c1 d1 e1 f1 g1 h1 a2 a3\ntake a7\n",
    );
    let rook = ["reach", "R", "a1", "none", "b1,a3"].as_slice();
    tells(&rt, rook, "", "quiet a2\ntake b1 a3\n");
}

/// Asserts the fault of a piece or a square.
fn reaches_not<R: Abort + AllocGlobal + Threads + Wait + Sync>(
    rt: &R,
    piece: &str,
    square: &str,
    text: &str,
) {
    refuses(rt, &["reach", piece, square], "a line\n", text);
}

#[test]
fn reach_refuses_pieces(rt: HostRuntime) {
    reaches_not(&rt, "fN", "d4", "error BetzaFault 6 AmbiguousDirection 0\n");
    reaches_not(&rt, "fN", "z9", "error BetzaFault 6 AmbiguousDirection 0\n");
    reaches_not(
        &rt,
        "NLJNLJNLJ",
        "a1",
        "error BetzaFault 10 TooManyTerms 8\n",
    );
    reaches_not(&rt, "", "b1", "error BetzaFault 1 Empty 0\n");
    reaches_not(&rt, "Né", "b1", "error BetzaFault 3 UnknownAtom 1\n");
}

#[test]
fn reach_refuses_squares(rt: HostRuntime) {
    reaches_not(&rt, "N", "é1", "error ReachFault 1 BadSquare é1\n");
    let twice = ["reach", "R", "a1", "a2,a1", "i9"].as_slice();
    refuses(&rt, twice, "", "error ReachFault 2 SquareTwice a1\n");
    let empty = ["reach", "R", "a1", ""].as_slice();
    refuses(&rt, empty, "", "error ReachFault 1 BadSquare \n");
    let none = ["reach", "R", "a1", "b2,none"].as_slice();
    refuses(&rt, none, "", "error ReachFault 1 BadSquare none\n");
}

#[test]
fn other_words_are_answered_by_the_usage_line(rt: HostRuntime) {
    answers_over_files(&rt, &["moves", "chess"], "quit\n", 2, USAGE_LINE);
    answers_over_files(&rt, &["--"], "quit\n", 2, USAGE_LINE);
    answers_over_files(&rt, &["--threads", "65", "moves"], "quit\n", 2, USAGE_LINE);
    answers_over_files(&rt, &["perft", "10"], "quit\n", 2, USAGE_LINE);
    answers_over_files(&rt, &["perft", "x"], "quit\n", 2, USAGE_LINE);
    answers_over_files(&rt, &["rules"], "quit\n", 2, USAGE_LINE);
}

/// The texts are those of another program.
#[test]
fn random_games_are_generated(rt: HostRuntime) {
    let extinction = "generated extinction 718 77\n\
        7r/2p1n3/bpkr1p1p/p2p1ppN/PP1P2P1/2P1P1KP/1B6/R5QR b - - 0 39\n\
        won white extinction\nperft2 0\nvalue2 none\n";
    tells(
        &rt,
        &["generate", "extinction", "718", "300"],
        "",
        extinction,
    );
    let words = ["generate", "xiangqi", "8942364694563039783", "0"].as_slice();
    let xiangqi = "generated xiangqi 8942364694563039783 0\n\
        rnbakabnr/9/1c5c1/p1p1p1p1p/9/9/P1P1P1P1P/1C5C1/9/RNBAKABNR w - - 0 1\n\
        ongoing\nperft2 1920\nvalue2 0\n";
    tells(&rt, words, "", xiangqi);
    let start = "generated chess 7 0\nrnbqkbnr/pppppppp/8/8/8/8/PPPPPPPP/RNBQKBNR w KQkq - 0 1\n\
        ongoing\nperft2 400\nvalue2 0\n";
    tells(&rt, &["generate", "chess", "7", "0"], "", start);
    let none = "error GameFault 2 UnknownVariant none\n";
    refuses(&rt, &["generate", "none", "0", "1"], "", none);
}

/// The number of workers that search changes no line.
#[test]
fn a_random_game_is_the_same_for_all_threads(rt: HostRuntime) {
    let mut files = MemFiles::new(rt.alloc());
    let words = ["--threads", "1", "generate", "chess", "7", "60"].as_slice();
    let (status, one) = ran(&rt, &mut files, words, b"", &[], ROOM);
    let text = str::from_utf8(one.taken()).expect(&rt, "no fault");
    expect(
        &rt,
        status == 0 && text.starts_with("generated chess 7 60\n"),
    );
    expect_eq(&rt, text.lines().count(), 5);
    let words = ["--threads", "4", "generate", "chess", "7", "60"].as_slice();
    tells(&rt, words, "", text);
}
