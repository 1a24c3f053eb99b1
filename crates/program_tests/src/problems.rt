//! Mate problems: `suite` and `pnmate`.
use crate::runs::{is_cut, ran, refuses, tells};
use io_ports::MemFiles;

/// A mate in one, a mate in two, and the same position with one move too few.
const SUITE: &str = "chess 1 7k/8/5KQ1/8/8/8/8/8 w - - 0 1\nchess 2 7k/R7/5K2/8/8/8/8/8 w - - 0 1\n\
    chess 1 7k/R7/5K2/8/8/8/8/8 w - - 0 1\n";

/// A mate in two.
const ROOK: &str = "chess\n7k/R7/5K2/8/8/8/8/8 w - - 0 1\n";

/// The report on `SUITE`.
const SOLVED: &str = "1 mate 1\n2 mate 2\n3 none\nsolved 2 of 3\n";

/// The report does not depend on the number of threads.
#[test]
fn suites_are_reported(rt: HostRuntime) {
    tells(&rt, &["suite"], SUITE, SOLVED);
    tells(&rt, &["--threads", "3", "suite"], SUITE, SOLVED);
    tells(&rt, &["suite"], "", "solved 0 of 0\n");
}

#[test]
fn suites_are_refused(rt: HostRuntime) {
    let late = "chess 1 7k/8/5KQ1/8/8/8/8/8 w - - 99 80\n";
    refuses(&rt, &["suite"], late, "error SuiteFault 5 NearCount 1\n");
    let far = "# mates\n\nchess 21 startpos\n";
    refuses(&rt, &["suite"], far, "error SuiteFault 1 BadLine 3\n");
    let words = ["--variants", "f", "suite"].as_slice();
    let fault =
        "error SuiteFault 3 RefusedVariant 1 SectionFault 4 UnsupportedOption blastOnCapture\n";
    refuses(&rt, words, "d 1 startpos\n", fault);
}

/// The least number of moves of a game with its history, and the faults of one that is not asked.
#[test]
fn least_mates_are_told(rt: HostRuntime) {
    tells(&rt, &["pnmate", "2"], ROOK, "mate 2\n");
    tells(&rt, &["pnmate", "1"], ROOK, "none\n");
    let late = "chess\n7k/8/5KQ1/8/8/8/8/8 w - - 99 80\n";
    refuses(&rt, &["pnmate", "1"], late, "error PnFault 1 NearCount\n");
    let mated = "chess\nstartpos\nf2f3 e7e5 g2g4 d8h4\n";
    refuses(&rt, &["pnmate", "100"], mated, "error PnFault 2 Ended\n");
    let bad = "chess\nstartpos\ne2e5\n";
    refuses(
        &rt,
        &["pnmate", "1"],
        bad,
        "error GameFault 5 BadMove 1 e2e5\n",
    );
}

/// Nothing is written where the source fails, and a front part where the sink does.
#[test]
fn suites_are_cut_short(rt: HostRuntime) {
    let mut files = MemFiles::new(rt.alloc());
    for call in 0..4 {
        let (answered, sink) = ran(&rt, &mut files, &["suite"], SUITE.as_bytes(), &[call], 1000);
        assert!(rt; answered == 4 && sink.taken().is_empty());
    }
    let lines = b"chess 1 7k/8/5KQ1/8/8/8/8/8 w - - 0 1\n";
    let text = b"1 mate 1\nsolved 1 of 1\n";
    is_cut(&rt, &mut files, &["suite"], lines, text);
}
