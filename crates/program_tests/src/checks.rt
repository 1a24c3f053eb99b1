//! What `checkers`, `help` and `--version` print.
use crate::expect::expect;
use crate::runs::{ROOM, USAGE_LINE, answers_over_files, ran, refuses, some_files, tells};
use std::process::Abort;
use std::sync::Wait;
use std::thread::Threads;
use words::help::HELP;

/// Asserts which pieces attack the king of the side to move.
fn checks<R: Abort + AllocGlobal + Threads + Wait + Sync>(rt: &R, input: &str, text: &str) {
    tells(rt, &["checkers"], input, text);
}

#[test]
fn kings_of_chess_are_attacked(rt: HostRuntime) {
    checks(&rt, "chess\nstartpos\n", "checkers -\n");
    checks(
        &rt,
        "chess\nstartpos\nf2f3 e7e5\ng2g4 d8h4\n",
        "checkers h4\n",
    );
    checks(
        &rt,
        "chess\n4k3/8/8/8/7b/8/8/r3K3 w - - 0 1",
        "checkers a1 h4\n",
    );
    checks(
        &rt,
        "chess\n4k3/8/8/8/8/8/3p4/4K3 w - - 0 1",
        "checkers d2\n",
    );
    checks(
        &rt,
        "chess\n4k3/8/8/8/8/8/4p3/4K3 w - - 0 1",
        "checkers -\n",
    );
    checks(
        &rt,
        "chess\n4k3/8/8/8/8/8/8/r1B1K3 w - - 0 1",
        "checkers -\n",
    );
    checks(
        &rt,
        "chess\n4k3/8/8/8/8/8/8/K3R3 b - - 0 1",
        "checkers e1\n",
    );
    refuses(
        &rt,
        &["checkers"],
        "chess\n",
        "error GameFault 1 Missing 2\n",
    );
}

/// A cannon takes over one piece, and kings that may be taken are not attacked.
#[test]
fn kings_of_variants_are_attacked(rt: HostRuntime) {
    let over = "xiangqi\n4k4/9/4n4/9/9/9/9/9/4C4/3K5 b - - 0 1";
    checks(&rt, over, "checkers e2\n");
    let open = "xiangqi\n4k4/9/9/9/9/9/9/9/4C4/3K5 b - - 0 1";
    checks(&rt, open, "checkers -\n");
    let common = "antichess\n4k3/8/8/8/8/8/8/4R1K1 b - - 0 1";
    checks(&rt, common, "checkers -\n");
}

#[test]
fn the_commands_and_the_version_are_told(rt: HostRuntime) {
    tells(&rt, &["--version"], "", "vengine 1.0.0\n");
    let mut files = some_files(&rt, rt.alloc());
    let (status, sink) = ran(&rt, &mut files, &["help"], b"", &[0], ROOM);
    expect(&rt, status == 0 && sink.taken() == HELP.as_bytes());
    let (status, sink) = ran(&rt, &mut files, &["--help"], b"", &[0], ROOM);
    expect(&rt, status == 0 && sink.taken() == HELP.as_bytes());
    answers_over_files(&rt, &["--version", "moves"], "quit\n", 2, USAGE_LINE);
    answers_over_files(&rt, &["checkers", "chess"], "quit\n", 2, USAGE_LINE);
}
