//! Selfmates, helpmates and their certificates: `stipulate`.
use crate::runs::{answers_over_files, tells};
use std::process::Abort;
use std::sync::Wait;
use std::thread::Threads;

/// White to move: after the rook's check on e1 Black must take it, which mates.
const FORCED: &str = "must\n4r3/8/8/6k1/8/8/7r/K2R4 w - - 0 1\n";

/// The certificate of `FORCED`.
const FORCED_SELFMATE: &str = "selfmate 1\n1 d1e1\n2 e8e1\nend\n";

/// Black to move, who helps White to mate on the back rank.
const HELPED: &str = "chess\n6k1/R7/6K1/8/8/8/8/8 b - - 0 1\n";

/// The certificate of `HELPED`.
const HELPMATE: &str = "helpmate 1\n1 g8h8\n2 a7a8\nend\n";

/// In crazyhouse a rook is dropped.
const DROPPED: &str = "crazyhouse\n6k1/5ppp/8/8/8/8/8/K7[R] b - - 0 1\n";

/// In xiangqi the kings may not face each other.
const PALACE: &str = "xiangqi\n3k5/8R/9/p8/9/9/9/9/9/4K2R1 b - - 0 1\n";

/// Asserts the selfmate or the helpmate in one move of the game that is found.
fn finds<R: Abort + AllocGlobal + Threads + Wait + Sync>(
    rt: &R,
    kind: &str,
    game: &str,
    text: &str,
) {
    let words = ["--variants", "moods", "stipulate", kind, "1"];
    tells(rt, words.as_slice(), game, text);
}

#[test]
fn stipulations_are_found(rt: HostRuntime) {
    finds(&rt, "self", FORCED, FORCED_SELFMATE);
    let moved = "must\n4r3/8/8/6k1/8/8/7r/K2R4 w - - 0 1\nd1e1\n";
    finds(&rt, "self", moved, "none\n");
    finds(&rt, "help", HELPED, HELPMATE);
    finds(
        &rt,
        "help",
        "chess\n7k/8/8/8/8/8/8/K7 b - - 0 1\n",
        "none\n",
    );
    finds(&rt, "help", DROPPED, "helpmate 1\n1 g8h8\n2 R@a8\nend\n");
    finds(&rt, "help", PALACE, "helpmate 1\n1 a7a6\n2 h1h10\nend\n");
}

/// Asserts what `stipulate check` answers to a game, its moves with the goal, and a certificate.
fn expect<R: Abort + AllocGlobal + Threads + Wait + Sync>(
    rt: &R,
    game: &str,
    goal: &str,
    cert: &str,
    text: &str,
) {
    let words = ["--variants", "moods", "stipulate", "check"];
    let input = format!(in rt.alloc(); "{game}{goal}{cert}").expect(rt, "no fault");
    let status = if text == "holds\n" { 0 } else { 3 };
    answers_over_files(rt, words.as_slice(), input.as_str(), status, text);
}

#[test]
fn certificates_are_checked(rt: HostRuntime) {
    let goal = "\nself 1\n";
    expect(&rt, FORCED, goal, FORCED_SELFMATE, "holds\n");
    expect(&rt, HELPED, "\nhelp 6\n", HELPMATE, "holds\n");
    let short = "selfmate 1\n1 d1e1\nend\n";
    let reply = "error CertVerdict 5 MissingReply 1 e8e1\n";
    expect(&rt, FORCED, goal, short, reply);
    let other = "error CertVerdict 5 MissingReply 1 a7a1\n";
    expect(&rt, HELPED, goal, HELPMATE, other);
}

#[test]
fn helpmates_are_refused(rt: HostRuntime) {
    let goal = "\nhelp 1\n";
    let facing = "helpmate 1\n1 a7a6\n2 i9i10\nend\n";
    expect(
        &rt,
        PALACE,
        goal,
        facing,
        "error CertVerdict 6 Unfinished 2\n",
    );
    let small = "helpmate 1\n1 g8h8\n2 r@a8\nend\n";
    expect(&rt, DROPPED, goal, small, "error CertFault 1 BadLine 3\n");
    let open = "helpmate 1\n1 g8h8\n2 a7a8\n";
    expect(&rt, HELPED, goal, open, "error CertFault 2 Ended 4\n");
}

#[test]
fn goals_are_refused(rt: HostRuntime) {
    let goal = "error GameFault 7 BadGoal 4\n";
    expect(&rt, HELPED, "\nhelp 7\n", HELPMATE, goal);
    expect(&rt, HELPED, "\nmate white 1\n", HELPMATE, goal);
    let twice = "error GameFault 5 BadMove 2 g8h8\n";
    expect(&rt, HELPED, "g8h8 g8h8\nhelp 1\n", HELPMATE, twice);
    expect(&rt, HELPED, "", "", "error GameFault 1 Missing 3\n");
}
