//! Strategies and proof texts: `check`.
use crate::expect::expect_eq;
use crate::runs::{ROOM, answers_over_files, ran};
use io_ports::MemFiles;
use std::alloc::Global;
use std::process::Abort;
use std::str;
use std::sync::Wait;
use std::thread::Threads;

/// King and rook against king, mate in two.
const MATE: &str = "strategy 1
attacker white
nodes 4
node 0 2 7k/R7/5K2/8/8/8/8/8 w - - 0 1
edge f6g6 1
node 1 1 7k/R7/6K1/8/8/8/8/8 b - - 1 1
edge h8g8 2
node 2 1 6k1/R7/6K1/8/8/8/8/8 w - - 2 1
edge a7a8 3
node 3 0 R5k1/8/6K1/8/8/8/8/8 b - - 3 1
end
";

/// The same after seven plies without a capture.
const LATE_MATE: &str = "strategy 1
attacker white
nodes 4
node 0 2 7k/R7/5K2/8/8/8/8/8 w - - 7 1
edge f6g6 1
node 1 1 7k/R7/6K1/8/8/8/8/8 b - - 8 1
edge h8g8 2
node 2 1 6k1/R7/6K1/8/8/8/8/8 w - - 9 1
edge a7a8 3
node 3 0 R5k1/8/6K1/8/8/8/8/8 b - - 10 1
end
";

/// The game that `MATE` wins.
const MATED: &str = "chess\n7k/R7/5K2/8/8/8/8/8 w - - 0 1\n";

/// Line 3 without a move, and the goal of `MATE`.
const IN_TWO: &str = "\nmate white 2\n";

/// The start of a game after which the position that follows the first move of the late mate has stood twice.
const REPEATED: &str = "chess\n7k/R7/6K1/8/8/8/8/8 b - - 0 1\n";

/// The moves of that game, and its goal.
const PLIES: &str = "h8g8 g6f6 g8h8 f6g6 h8g8 g6f6 g8h8\nmate white 2\n";

/// The text with one part of it replaced.
fn replaced(rt: &impl Abort, alloc: Global, text: &str, right: &str, wrong: &str) -> String {
    let (before, after) = text
        .split_once(right)
        .ok_or("a part of the text")
        .expect(rt, "no fault");
    let mut whole = String::from_str(alloc, before).expect(rt, "no fault");
    whole.push_str(wrong).expect(rt, "no fault");
    whole.push_str(after).expect(rt, "no fault");
    whole
}

/// Asserts what `check` answers to a game, with its moves and its goal, and a strategy.
fn expect<R: Abort + AllocGlobal + Threads + Wait + Sync>(
    rt: &R,
    game: &str,
    goal: &str,
    strategy: &str,
    text: &str,
) {
    let input = format!(in rt.alloc(); "{game}{goal}{strategy}").expect(rt, "no fault");
    let status = if text == "wins\n" { 0 } else { 3 };
    answers_over_files(rt, &["check"], input.as_str(), status, text);
}

#[test]
fn strategies_are_checked(rt: HostRuntime) {
    expect(&rt, MATED, IN_TWO, MATE, "wins\n");
    expect(
        &rt,
        MATED,
        "\nmate white 1\n",
        MATE,
        "error Verdict 1 Root\n",
    );
    let far = "\nmate white 101\n";
    expect(&rt, MATED, far, MATE, "error GameFault 7 BadGoal 4\n");
    expect(&rt, MATED, "\n", "", "error GameFault 1 Missing 4\n");
    expect(
        &rt,
        MATED,
        "",
        MATE,
        "error GameFault 5 BadMove 1 strategy\n",
    );
    expect(
        &rt,
        REPEATED,
        PLIES,
        LATE_MATE,
        "error Verdict 6 Repeats 1\n",
    );
}

/// Asserts what `check` answers to the mate with one part of its text replaced.
fn expect_spoilt<R: Abort + AllocGlobal + Threads + Wait + Sync>(
    rt: &R,
    right: &str,
    wrong: &str,
    text: &str,
) {
    let strategy = replaced(rt, rt.alloc(), MATE, right, wrong);
    expect(rt, MATED, IN_TWO, strategy.as_str(), text);
}

#[test]
fn spoilt_strategies_are_refused(rt: HostRuntime) {
    let reply = "error Verdict 3 MissingReply 1 h8g8\n";
    expect_spoilt(&rt, "edge h8g8 2\n", "", reply);
    let rank = "error Verdict 4 BadRank 0\n";
    expect_spoilt(&rt, "node 0 2", "node 0 1", rank);
    let counter = "error Verdict 5 BadCounter 0\n";
    expect_spoilt(&rt, "b - - 1 1", "b - - 0 1", counter);
    let nodes = "error StrategyFault 5 BadNumber 11\n";
    expect_spoilt(&rt, "nodes 4", "nodes 5", nodes);
    let more = "error StrategyFault 6 Ended 12\n";
    expect_spoilt(&rt, "end\n", "end\n\n", more);
    let open = "error StrategyFault 6 Ended 11\n";
    expect_spoilt(&rt, "end\n", "", open);
}

/// The first lines of the mate, so many of them.
fn first_lines(rt: &impl Abort, alloc: Global, count: usize) -> String {
    let mut text = String::new(alloc);
    for line in MATE.lines().take(count) {
        text.push_str(line).expect(rt, "no fault");
        text.push_str("\n").expect(rt, "no fault");
    }
    text
}

#[test]
fn a_strategy_that_is_cut_short_is_refused_at_its_next_line(rt: HostRuntime) {
    for count in 0..11usize {
        let strategy = first_lines(&rt, rt.alloc(), count);
        let number = count.saturating_add(1);
        let text = format!(in rt.alloc(); "error StrategyFault 6 Ended {number}\n").expect(
            &rt, "no fault",
        );
        expect(&rt, MATED, IN_TWO, strategy.as_str(), text.as_str());
    }
}

/// What a session prints for `strategy`, after this number of threads found the mate in two, wins by `check`.
fn prints_a_win<R: Abort + AllocGlobal + Threads + Wait + Sync>(rt: &R, threads: &str) {
    let mut files = MemFiles::new(rt.alloc());
    let words = ["--threads", threads, "uci"];
    let lines = b"position fen 7k/R7/5K2/8/8/8/8/8 w - - 0 1\ngo mate 2\nstrategy\nquit\n";
    let (status, sink) = ran(rt, &mut files, words.as_slice(), lines, &[], ROOM);
    expect_eq(rt, status, 0);
    let text = str::from_utf8(sink.taken()).expect(rt, "no fault");
    let (found, strategy) = text
        .split_once("bestmove f6g6\n")
        .ok_or("a best move")
        .expect(rt, "no fault");
    expect_eq(rt, found, "info depth 3 score mate 2 pv f6g6\n");
    answers_over_files(rt, &["check"], strategy, 0, "wins\n");
}

#[test]
fn strategies_of_sessions_win(rt: HostRuntime) {
    prints_a_win(&rt, "1");
    prints_a_win(&rt, "4");
}

/// A text that states its own rules, and with them the mate in two.
const PROOF: &str = "strategy 2
rules 8
bishop = b
king = k
knight = n
pawn = p
promotionPieceTypes = nbrq
queen = q
rook = r
startFen = rnbqkbnr/pppppppp/8/8/8/8/PPPPPPPP/RNBQKBNR w KQkq - 0 1
start 7k/R7/5K2/8/8/8/8/8 w - - 0 1
history 0
goal white 2
attacker white
nodes 4
node 0 2 7k/R7/5K2/8/8/8/8/8 w - - 0 1
edge f6g6 1
node 1 1 7k/R7/6K1/8/8/8/8/8 b - - 1 1
edge h8g8 2
node 2 1 6k1/R7/6K1/8/8/8/8/8 w - - 2 1
edge a7a8 3
node 3 0 R5k1/8/6K1/8/8/8/8/8 b - - 3 1
end
";

/// Asserts what `check` answers to the proof text with one part of it replaced.
fn expect_proof<R: Abort + AllocGlobal + Threads + Wait + Sync>(
    rt: &R,
    right: &str,
    wrong: &str,
    text: &str,
) {
    let input = replaced(rt, rt.alloc(), PROOF, right, wrong);
    let status = if text == "wins\n" { 0 } else { 3 };
    answers_over_files(rt, &["check"], input.as_str(), status, text);
}

#[test]
fn proof_texts_are_checked(rt: HostRuntime) {
    expect_proof(&rt, "end", "end", "wins\n");
    let root = "error Verdict 1 Root\n";
    expect_proof(&rt, "goal white 2", "goal white 1", root);
    let header = "error ProofFault 1 Header 13\n";
    expect_proof(&rt, "goal white 2\n", "", header);
    let rules = "error ProofFault 2 BadRules 11\n";
    expect_proof(&rt, "rules 8", "rules 9", rules);
}

#[test]
fn parts_of_proof_texts_are_refused(rt: HostRuntime) {
    let letter = "error ProofFault 3 RefusedRules SectionFault 7 LetterTwice q\n";
    expect_proof(&rt, "rook = r", "rook = q", letter);
    let start = "error ProofFault 4 BadStart 11 FenFault 2 Rank\n";
    expect_proof(
        &rt,
        "start 7k/R7/5K2/8/8/8/8/8",
        "start 7k/R7/5K2/8/8/8/8",
        start,
    );
    let history = "error ProofFault 5 BadHistory 13\n";
    expect_proof(&rt, "history 0", "history 1", history);
    let body = "error ProofFault 6 BadBody StrategyFault 5 BadNumber 21\n";
    expect_proof(&rt, "edge a7a8 3", "edge a7a8 4", body);
}
