//! What `moves`, `status`, `perft` and `variants` answer, and the faults of game texts.
use crate::expect::expect;
use crate::runs::{
    BUILTIN, ROOM, answers, answers_over_files, ran, refuses, says, some_files, tells,
};
use io_ports::{MAX_LINE, MemFiles};
use std::alloc::Global;
use std::process::Abort;
use std::str;
use std::sync::Wait;
use std::thread::Threads;

/// The legal moves of the start of chess.
const START: &str = "a2a3\na2a4\nb1a3\nb1c3\nb2b3\nb2b4\nc2c3\nc2c4\nd2d3\nd2d4\ne2e3\ne2e4\n\
    f2f3\nf2f4\ng1f3\ng1h3\ng2g3\ng2g4\nh2h3\nh2h4\nmoves 20\n";

/// Perft counts are those of the Chess Programming Wiki's positions; the others are worked by hand.
#[test]
fn moves_are_told_and_counted(rt: HostRuntime) {
    tells(&rt, &["moves"], "chess\nstartpos\n", START);
    let king = "chess\n4k3/8/8/8/8/8/8/K7 w - - 0 1\n\n\ta1a2  e8d8\n";
    tells(
        &rt,
        &["moves"],
        king,
        "a2a1\na2a3\na2b1\na2b2\na2b3\nmoves 5\n",
    );
    tells(
        &rt,
        &["moves"],
        "antichess\nstartpos\ne2e3 b7b5",
        "f1b5\nmoves 1\n",
    );
}

/// Counts of the same positions at each depth.
#[test]
fn moves_are_counted(rt: HostRuntime) {
    tells(&rt, &["perft", "4"], "chess\nstartpos\n", "197281\n");
    let castling = "chess\nr3k2r/p1ppqpb1/bn2pnp1/3PN3/1p2P3/2N2Q1p/PPPBBPPP/R3K2R w KQkq - 0 1";
    tells(&rt, &["perft", "1"], castling, "48\n");
    tells(&rt, &["perft", "2"], castling, "2039\n");
    tells(&rt, &["perft", "3"], castling, "97862\n");
    let pins = "chess\n8/2p5/3p4/KP5r/1R3p1k/8/4P1P1/8 w - - 0 1";
    tells(&rt, &["perft", "1"], pins, "14\n");
    tells(&rt, &["perft", "2"], pins, "191\n");
    tells(&rt, &["perft", "3"], pins, "2812\n");
    tells(&rt, &["perft", "4"], pins, "43238\n");
    tells(&rt, &["perft", "3"], "seirawan\nstartpos", "24830\n");
}

#[test]
fn moves_by_a_file_of_variants(rt: HostRuntime) {
    let words = ["--variants", "moods", "moves"].as_slice();
    let must = "must\n7k/p7/8/8/8/8/8/R6K w - - 0 1";
    tells(&rt, words, must, "a1a7\nmoves 1\n");
    let calm = "calm\n3k4/8/4P3/8/8/8/8/K7 w - - 0 1";
    tells(&rt, words, calm, "a1a2\na1b1\na1b2\nmoves 3\n");
    tells(&rt, &["variants"], "a line", BUILTIN);
}

/// A game of crazyhouse in which a promoted piece was taken, which is a pawn in the hand.
const DROPS: &str = "crazyhouse\n4k3/8/8/8/8/3q~4/4P3/4K3[] w - - 0 1\ne2d3 e8e7";

/// Asserts the status of a game that is over or not.
fn stands<R: Abort + AllocGlobal + Threads + Wait + Sync>(rt: &R, input: &str, text: &str) {
    tells(rt, &["status"], input, text);
}

#[test]
fn games_of_chess_are_over(rt: HostRuntime) {
    let stalemate = "chess\n7k/5Q2/6K1/8/8/8/8/8 b - - 0 1";
    stands(
        &rt,
        stalemate,
        "drawn stalemate\n7k/5Q2/6K1/8/8/8/8/8 b - - 0 1\n",
    );
    let mate = "chess\nstartpos\nf2f3 e7e5\ng2g4\td8h4";
    let mated =
        "won black checkmate\nrnb1kbnr/pppp1ppp/8/4p3/6Pq/5P2/PPPPP2P/RNBQKBNR w KQkq - 1 3\n";
    stands(&rt, mate, mated);
    let round = "chess\nstartpos\ng1f3 g8f6 f3g1 f6g8\ng1f3 g8f6 f3g1 f6g8";
    let repeated = "drawn repetition\nrnbqkbnr/pppppppp/8/8/8/8/PPPPPPPP/RNBQKBNR w KQkq - 8 5\n";
    stands(&rt, round, repeated);
    let late = "chess\n4k3/8/8/8/8/8/8/K7 w - - 99 80\na1a2";
    stands(
        &rt,
        late,
        "drawn movecount\n4k3/8/8/8/8/8/K7/8 b - - 100 80\n",
    );
}

#[test]
fn games_of_variants_are_over(rt: HostRuntime) {
    let hill = "kingofthehill\n4k3/8/8/8/8/4K3/8/8 w - - 0 1\ne3e4";
    stands(&rt, hill, "won white flag\n4k3/8/8/8/4K3/8/8/8 b - - 1 1\n");
    let start = "ongoing\nrnabqkbcnr/pppppppppp/10/10/10/10/PPPPPPPPPP/RNABQKBCNR w KQkq - 0 1\n";
    stands(&rt, "capablanca\nstartpos", start);
    let check = "3check\nrnbqkbnr/pppp1ppp/8/4p2Q/4P3/8/PPPP1PPP/RNB1KBNR w KQkq - 1+3 0 1\nh5e5";
    let checked =
        "won white checks\nrnbqkbnr/pppp1ppp/8/4Q3/4P3/8/PPPP1PPP/RNB1KBNR b KQkq - 0+3 0 1\n";
    stands(&rt, check, checked);
    tells(&rt, &["moves"], check, "moves 0\n");
    let taken = "ongoing\n8/4k3/8/8/8/3P4/8/4K3[P] w - - 1 2\n";
    stands(&rt, DROPS, taken);
    let last = "antichess\n8/8/8/8/8/1p6/P7/8 b - - 0 1\nb3a2";
    stands(
        &rt,
        last,
        "won white extinction\n8/8/8/8/8/8/p7/8 w - - 0 2\n",
    );
}

#[test]
fn game_texts_are_refused(rt: HostRuntime) {
    let words = ["moves"].as_slice();
    refuses(
        &rt,
        words,
        "Chess",
        "error GameFault 2 UnknownVariant Chess\n",
    );
    refuses(&rt, words, "chess", "error GameFault 1 Missing 2\n");
    let letter = "chess\n8/8/8/8/8/8/8/z7 w - - 0 1\ne2e5\n";
    let fault = "error GameFault 4 BadPosition FenFault 3 Letter\n";
    refuses(&rt, words, letter, fault);
    let bad = "chess\nstartpos\ne2e4\n\n e7e4 .\n";
    refuses(&rt, &["status"], bad, "error GameFault 5 BadMove 2 e7e4\n");
    let fault =
        "error GameFault 3 RefusedVariant SectionFault 4 UnsupportedOption blastOnCapture\n";
    refuses(&rt, &["--variants", "f", "moves"], "d\nstartpos\n", fault);
}

/// Runs words over this input, and asserts that the text has this line and this end, which are known by hand.
fn lists<R: Abort + AllocGlobal + Threads + Wait + Sync>(
    rt: &R,
    words: &[&str],
    input: &str,
    line: &str,
    end: &str,
) {
    let mut files = some_files(rt, rt.alloc());
    let (answered, sink) = ran(rt, &mut files, words, input.as_bytes(), &[], 1000);
    let text = str::from_utf8(sink.taken()).expect(rt, "no fault");
    expect(
        rt,
        answered == 0 && text.contains(line) && text.ends_with(end),
    );
}

#[test]
fn long_lists_of_moves(rt: HostRuntime) {
    let words = ["moves"].as_slice();
    lists(&rt, words, "capablanca\nstartpos", "b1c3\n", "\nmoves 28\n");
    lists(&rt, words, "losalamos\nstartpos", "b1a3\n", "\nmoves 10\n");
    let gated = "\nb1c3\nb1c3e\nb1c3h\n";
    lists(&rt, words, "seirawan\nstartpos", gated, "\nmoves 28\n");
    let gates = "seirawan\n4k3/8/8/8/8/8/8/4K2R[H] w K - 0 1";
    lists(&rt, words, gates, "\ne1g1\ne1g1h\n", "\nmoves 31\n");
    lists(&rt, words, gates, "\nh1e1h\n", "\nmoves 31\n");
    lists(&rt, words, DROPS, "P@a2\n", "\nmoves 52\n");
    lists(&rt, words, "xiangqi\nstartpos", "b1a3\n", "\nmoves 44\n");
}

#[test]
fn a_variant_of_a_file_is_played(rt: HostRuntime) {
    let mini = ["--variants", "mini", "moves"].as_slice();
    lists(&rt, mini, "mini\nstartpos", "a2a3\n", "\nmoves 14\n");
    let mini = ["--variants", "mini", "status"].as_slice();
    let start = "ongoing\nrbsgk/4p/5/P4/KGSBR[] w - - 0 1\n";
    tells(&rt, mini, "mini\nstartpos", start);
    tells(&rt, &["--variants", "empty", "variants"], "", BUILTIN);
}

#[test]
fn long_lists_of_variants(rt: HostRuntime) {
    let words = ["--variants", "f", "variants"].as_slice();
    let end =
        "\nd SectionFault 4 UnsupportedOption blastOnCapture\ne SectionFault 3 RefusedParent\n";
    lists(&rt, words, "", "\nxiangqi ok\na ok\nb ok\nc ok\n", end);
    let words = ["--variants", "unstarted", "variants"].as_slice();
    let end = "\nb SectionFault 8 BadStart FenFault 7 Rights\n";
    lists(&rt, words, "", "\nxiangqi ok\na ok\n", end);
}

/// Asserts the fault of a game text whose second line has so many spaces.
fn expect_wide<R: Abort + AllocGlobal + Threads + Wait + Sync>(rt: &R, len: usize, text: &[u8]) {
    let mut files = MemFiles::new(rt.alloc());
    let mut input = b"chess\n".to_vec(rt.alloc()).expect(rt, "no fault");
    input
        .resize(len.saturating_add(6), b' ')
        .expect(rt, "no fault");
    answers(rt, &mut files, &["moves"], input.as_slice(), 3, text);
}

#[test]
fn a_line_of_a_game_text_is_too_long_before_its_other_faults(rt: HostRuntime) {
    expect_wide(&rt, MAX_LINE + 1, b"error GameFault 8 LineTooLong 2\n");
    let short = b"error GameFault 4 BadPosition FenFault 1 Length\n";
    expect_wide(&rt, MAX_LINE, short);
}

#[test]
fn names_and_texts_may_have_any_bytes(rt: HostRuntime) {
    let mut files = MemFiles::new(rt.alloc());
    let name = b"ch\xffss\nstartpos\n";
    let fault = b"error GameFault 2 UnknownVariant ch\xffss\n";
    answers(&rt, &mut files, &["moves"], name, 3, fault);
    let plies = b"chess\nstartpos\ne2\xff4\n";
    let fault = b"error GameFault 5 BadMove 1 e2\xff4\n";
    answers(&rt, &mut files, &["moves"], plies, 3, fault);
}

#[test]
fn a_faulty_position_of_a_game_text_has_its_fault(rt: HostRuntime) {
    let rank = "error GameFault 4 BadPosition FenFault 2 Rank\n";
    refuses(&rt, &["status"], "chess\n8/8 w - - 0 1\n", rank);
    let wide = "chess\n99999999999999999999/8/8/8/8/8/8/8 w - - 0 1\n";
    let width = "error GameFault 4 BadPosition FenFault 4 Width\n";
    refuses(&rt, &["status"], wide, width);
}

/// So many plies, which four by four come back to where they began, each between these texts.
fn rounds(
    rt: &impl Abort,
    alloc: Global,
    count: usize,
    round: &[&str; 4],
    before: &str,
    after: &str,
) -> String {
    let mut text = String::new(alloc);
    for ply in 0..count {
        text.push_str(before).expect(rt, "no fault");
        text.push_str(round[ply % 4]).expect(rt, "no fault");
        text.push_str(after).expect(rt, "no fault");
    }
    text
}

/// As many plies of chess as a game may have and one more, each between these texts.
fn longest(rt: &impl Abort, alloc: Global, before: &str, after: &str) -> String {
    let knights = ["g1f3", "g8f6", "f3g1", "f6g8"];
    rounds(rt, alloc, 8193, &knights, before, after)
}

/// The last of 8,193 plies is refused by the command, and in UCI with all before it.
#[test]
fn a_game_has_no_more_than_8192_plies(rt: HostRuntime) {
    let alloc = rt.alloc();
    let mut files = MemFiles::new(alloc);
    let moves = longest(&rt, alloc, " ", "");
    let input = format!(in alloc; "chess\nstartpos\n{moves}\n").expect(&rt, "no fault");
    let text = b"error GameFault 6 TooManyMoves\n";
    says(&rt, &mut files, &["status"], input.as_bytes(), 3, text);
    let input = format!(in alloc; "position startpos moves{moves}\nstatus\n").expect(
        &rt, "no fault",
    );
    let text = b"info string error PositionFault 3 TooManyMoves\nongoing\n\
            rnbqkbnr/pppppppp/8/8/8/8/PPPPPPPP/RNBQKBNR w KQkq - 0 1\n";
    says(&rt, &mut files, &["uci"], input.as_bytes(), 0, text);
}

/// Asserts the status of a game of so many plies in the largest variant, in which two positions of a kind end a game,
/// which goes on.
fn stands_after<R: Abort + AllocGlobal + Threads + Wait + Sync>(
    rt: &R,
    plies: usize,
    status: u8,
    text: &str,
) {
    let corners = ["a1a2", "a10a9", "a2a1", "a9a10"];
    let moves = rounds(rt, rt.alloc(), plies, &corners, " ", "");
    let input = format!(in rt.alloc(); "large\nstartpos\n{moves}\n").expect(rt, "no fault");
    let words = ["--variants", "large", "status"];
    answers_over_files(rt, words.as_slice(), input.as_str(), status, text);
}

#[test]
fn the_largest_variant_has_no_longer_games(rt: HostRuntime) {
    let last =
        "drawn repetition\nk10a/12/12/12/12/12/12/12/12/K10A[AAAAABBBBBCCCCCDDDDDEEEEEFFFFFGGGGGHHHHH\
        IIIIIJJJJJLLLLLMMMMMNNNNNOOOOOPPPPPQQQQQRRRRRSSSSSTTTTTUUUUUVVVVVWWWWWXXXXXYYYYY] w - - 8192 4097\n";
    stands_after(&rt, 8192, 0, last);
    stands_after(&rt, 8193, 3, "error GameFault 6 TooManyMoves\n");
}

/// In CECP it is refused alone.
#[test]
fn a_session_plays_no_more_than_8192_plies(rt: HostRuntime) {
    let mut files = MemFiles::new(rt.alloc());
    let moves = longest(&rt, rt.alloc(), "usermove ", "\n");
    let input = format!(in rt.alloc(); "force\n{moves}ping 1\n").expect(&rt, "no fault");
    let (status, sink) = ran(&rt, &mut files, &["xboard"], input.as_bytes(), &[], ROOM);
    let text = b"}\nError (too many moves): usermove g1f3\npong 1\n";
    expect(&rt, status == 0 && sink.taken().ends_with(text));
}
