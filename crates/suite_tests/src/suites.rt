//! Suites in memory: their reports, their faults, and workers beside each other.
use crate::expect::{expect, expect_of};
use foundation::Text;
use io_ports::{HoldingGate, MemSource, OpenGate, PollsOwed};
use std::alloc::Global;
use std::process::Abort;
use std::sync::Wait;
use std::thread::Threads;
use suite::{Answer, NoSuite, read_suite, solve_all, solve_suite};
use variant_rules::{Variants, builtin, load};

/// The variants that are built in, and one that is refused.
fn variants(rt: &impl Abort, alloc: Global) -> Variants {
    let mut sections = builtin(alloc).expect(rt, "no fault");
    sections
        .add(b"[lost:nowhere]\n")
        .ok()
        .ok_or("no section")
        .expect(rt, "no fault");
    load(alloc, &sections).expect(rt, "no fault")
}

fn source(rt: &impl Abort, alloc: Global, text: &[u8]) -> MemSource {
    MemSource::new(alloc, text, PollsOwed::Number(0), &[]).expect(rt, "no fault")
}

/// The report or the fault as it prints.
fn told(rt: &impl Abort, alloc: Global, answer: Result<Text, NoSuite>) -> Text {
    match answer {
        Ok(text) => text,
        Err(NoSuite::Faulty(fault)) => Text {
            items: format!(in alloc; "{fault}")
                .expect(rt, "no fault")
                .into_bytes(),
        },
        Err(NoSuite::Unread) => panic!(rt; "unread"),
        Err(NoSuite::Memory) => panic!(rt; "no memory"),
    }
}

/// Asserts what the lines of a suite are answered by so many workers.
fn answers<R: Threads + Wait + Abort + Sync>(
    rt: &R,
    alloc: Global,
    lines: &[u8],
    workers: u32,
    wanted: &str,
) {
    assert!(rt; 0 < workers && workers <= 64);
    let variants = variants(rt, alloc);
    let mut source = source(rt, alloc, lines);
    let answer = solve_suite(rt, alloc, &variants, &mut source, workers, &OpenGate);
    let text = told(rt, alloc, answer);
    expect_of(rt, &wanted, text.items.as_slice() == wanted.as_bytes());
}

const THREE: &str = "chess 1 7k/8/5KQ1/8/8/8/8/8 w - - 0 1
chess 2 7k/R7/5K2/8/8/8/8/8 w - - 0 1
chess 1 7k/R7/5K2/8/8/8/8/8 w - - 0 1
";

/// Comments and an empty line; the last line has no end.
const GAPS: &str = "# mates
chess 1 7k/8/5KQ1/8/8/8/8/8 w - - 97 80

# and none
chess 1 startpos";

/// Endings of five variants, drawn at random.
const FIFTY: &str = "chess 1 8/6k1/n3Q3/2N5/8/K7/8/8 w - - 0 1
chess 1 8/8/7r/2K5/Q7/1N6/8/3k4 w - - 0 1
chess 1 8/r5Q1/8/8/1k6/8/8/N5K1 w - - 0 1
chess 1 6K1/7Q/4N3/8/8/r7/8/k7 w - - 0 1
chess 1 6Q1/8/8/2k5/Kn6/5N2/8/8 w - - 0 1
chess 1 2r5/5K1k/8/8/6Q1/8/8/5N2 w - - 0 1
chess 1 5n2/7N/3Q4/8/8/7K/8/7k w - - 0 1
chess 1 8/8/8/7r/7k/8/6QN/1K6 w - - 0 1
chess 2 8/Q1r5/8/8/4k3/1K6/8/8 b - - 0 1
chess 2 1k6/n7/8/2Q5/2K5/8/8/8 w - - 0 1
3check 1 8/8/8/5k2/2rB4/8/6KQ/8 w - - 2+2 0 1
3check 1 4B3/8/8/2r5/2Q5/7K/5k2/8 w - - 2+2 0 1
3check 1 7Q/2K4n/8/8/1k6/8/7B/8 w - - 2+2 0 1
3check 1 2k5/5r2/2B5/2K5/3Q4/8/8/8 b - - 2+2 0 1
3check 1 k7/8/1Q6/5B2/3n2K1/8/8/8 w - - 2+2 0 1
3check 1 8/8/4Q3/8/6B1/7K/8/6kn w - - 2+2 0 1
3check 1 n7/8/1Q6/8/B7/k7/8/7K w - - 2+2 0 1
3check 1 8/8/4n3/8/8/4k1K1/2B5/5Q2 w - - 2+2 0 1
3check 2 8/K7/8/3k4/7Q/8/8/7r w - - 2+2 0 1
3check 2 1K6/4r3/8/5Q2/8/1k6/8/8 w - - 2+2 0 1
kingofthehill 1 3R4/8/8/4n3/4N3/5k2/8/2K5 w - - 0 1
kingofthehill 1 1n4K1/8/k7/8/5R2/6N1/8/8 w - - 0 1
kingofthehill 1 8/8/R1n5/1k6/N7/K7/8/8 w - - 0 1
kingofthehill 1 4R3/8/8/2K2k2/5rN1/8/8/8 w - - 0 1
kingofthehill 1 8/4K3/3n1N2/8/8/8/3R4/4k3 b - - 0 1
kingofthehill 1 8/8/nR6/7K/8/8/2N2k2/8 w - - 0 1
kingofthehill 1 3k4/8/8/2K2R2/8/8/7n/3N4 w - - 0 1
kingofthehill 1 8/8/3n4/4N3/8/6K1/5R2/7k w - - 0 1
kingofthehill 2 8/6R1/8/8/8/5n2/5K2/1k6 w - - 0 1
kingofthehill 2 8/4R3/2k5/8/8/2K5/8/5r2 w - - 0 1
losalamos 1 3k2/6/6/5r/1KN3/5R w - - 0 1
losalamos 1 5R/6/3rN1/K5/6/k5 b - - 0 1
losalamos 1 6/3n2/3R2/5K/1N4/4k1 w - - 0 1
losalamos 1 n2RN1/6/6/6/2K3/5k w - - 0 1
losalamos 1 3k2/2N3/1Kn3/5R/6/6 b - - 0 1
losalamos 1 6/6/2RNk1/6/2K3/1r4 b - - 0 1
losalamos 1 6/6/6/K2Nr1/3R2/k5 w - - 0 1
losalamos 1 k5/2K3/2R3/N5/6/4n1 w - - 0 1
losalamos 2 6/3r2/2K2k/1R4/6/6 w - - 0 1
losalamos 2 2r3/5k/R2K2/6/6/6 b - - 0 1
capablanca 1 1k8/10/10/9n/10/2K7/6A2C/10 w - - 0 1
capablanca 1 n5A3/7C2/10/10/8k1/10/10/2K7 b - - 0 1
capablanca 1 10/10/10/10/8k1/n2C6/5K4/7A2 w - - 0 1
capablanca 1 9K/2C7/9A/10/10/10/10/r6k2 b - - 0 1
capablanca 1 10/10/3r6/1K8/10/1AC7/10/4k5 w - - 0 1
capablanca 1 10/10/9K/2A3C3/10/10/10/4nk4 w - - 0 1
capablanca 1 3K6/10/10/7C2/10/10/10/3A2k1n1 w - - 0 1
capablanca 1 10/10/8Ak/1C8/10/10/10/2K1n5 w - - 0 1
capablanca 2 9k/10/8K1/5A4/9r/10/10/10 w - - 0 1
capablanca 2 10/4K5/10/6A3/10/k9/10/2r7 w - - 0 1
";

/// What a plain search of these endings found, written apart from this program.
const FIFTY_ANSWERS: &str = "1 none
2 none
3 none
4 none
5 none
6 mate 1
7 mate 1
8 mate 1
9 none
10 none
11 none
12 none
13 none
14 none
15 none
16 mate 1
17 mate 1
18 mate 1
19 mate 2
20 mate 2
21 none
22 none
23 none
24 mate 1
25 none
26 none
27 mate 1
28 mate 1
29 mate 2
30 mate 1
31 none
32 none
33 mate 1
34 none
35 none
36 none
37 mate 1
38 mate 1
39 mate 2
40 none
41 none
42 none
43 none
44 none
45 none
46 mate 1
47 mate 1
48 mate 1
49 mate 1
50 none
solved 21 of 50
";

// The report does not depend on the number of workers.
#[test]
fn reports(rt: HostRuntime) {
    let alloc = rt.alloc();
    let three = "1 mate 1\n2 mate 2\n3 none\nsolved 2 of 3\n";
    answers(&rt, alloc, THREE.as_bytes(), 1, three);
    answers(&rt, alloc, THREE.as_bytes(), 3, three);
    let gaps = "2 mate 1\n5 none\nsolved 1 of 2\n";
    answers(&rt, alloc, GAPS.as_bytes(), 1, gaps);
    answers(&rt, alloc, b"", 3, "solved 0 of 0\n");
}

#[test]
fn reports_on_five_variants(rt: HostRuntime) {
    let alloc = rt.alloc();
    answers(&rt, alloc, FIFTY.as_bytes(), 1, FIFTY_ANSWERS);
    answers(&rt, alloc, FIFTY.as_bytes(), 4, FIFTY_ANSWERS);
}

/// Asserts how the fault of the lines prints.
fn expect_fault<R: Threads + Wait + Abort + Sync>(
    rt: &R,
    alloc: Global,
    lines: &str,
    wanted: &str,
) {
    answers(rt, alloc, lines.as_bytes(), 1, wanted);
}

// The first faulty line, and on it the first fault.
#[test]
fn faulty_lines(rt: HostRuntime) {
    let alloc = rt.alloc();
    expect_fault(&rt, alloc, "#\nchess 1\n", "SuiteFault 1 BadLine 2");
    expect_fault(&rt, alloc, "chess 21 startpos\n", "SuiteFault 1 BadLine 1");
    expect_fault(&rt, alloc, "chess  1 startpos\n", "SuiteFault 1 BadLine 1");
    expect_fault(&rt, alloc, "chess 1  startpos\n", "SuiteFault 1 BadLine 1");
    let two = "lost 0 startpos\nnowhere 1 x\n";
    expect_fault(&rt, alloc, two, "SuiteFault 1 BadLine 1");
}

#[test]
fn faulty_problems(rt: HostRuntime) {
    let alloc = rt.alloc();
    let unknown = "SuiteFault 2 UnknownVariant 1";
    expect_fault(&rt, alloc, "nowhere 1 startpos\n", unknown);
    let refused = "SuiteFault 3 RefusedVariant 1 SectionFault 2 UnknownParent";
    expect_fault(&rt, alloc, "lost 1 startpos\n", refused);
    let bare = "chess 1 8/8/8/8/8/8/8/8 w - - 0 1\n";
    expect_fault(
        &rt,
        alloc,
        bare,
        "SuiteFault 4 BadPosition 1 FenFault 11 Kings",
    );
    let late = "chess 1 7k/8/5KQ1/8/8/8/8/8 w - - 99 80\n";
    expect_fault(&rt, alloc, late, "SuiteFault 5 NearCount 1");
}

/// So many times the piece.
fn repeated(rt: &impl Abort, alloc: Global, piece: &[u8], times: usize) -> Vec<u8> {
    let mut text = Vec::new(alloc);
    for _ in 0..times {
        text.extend_from_slice(piece).expect(rt, "no fault");
    }
    text
}

#[test]
fn a_suite_of_too_many_problems(rt: HostRuntime) {
    let many = repeated(&rt, rt.alloc(), b"chess 1 startpos\n", 1001);
    answers(&rt, rt.alloc(), &many, 1, "SuiteFault 6 TooMany 1001");
}

#[test]
fn a_line_that_is_too_long(rt: HostRuntime) {
    let long = repeated(&rt, rt.alloc(), b"x", 131_073);
    answers(&rt, rt.alloc(), &long, 1, "SuiteFault 7 LineTooLong 1");
}

/// The least number of moves of a problem, and whether there is a strategy.
fn found_of(rt: &impl Abort, answers: &[Answer], at: usize) -> (Option<u16>, bool) {
    let found = answers.get(at).ok_or("no answer").expect(rt, "no fault");
    (found.least, found.strategy.is_some())
}

#[test]
fn two_workers_run_beside_each_other(rt: HostRuntime) {
    let alloc = rt.alloc();
    let variants = variants(&rt, alloc);
    let gate = HoldingGate::new();
    let two = "chess 2 7k/R7/5K2/8/8/8/8/8 w - - 0 1\nchess 1 7k/R7/5K2/8/8/8/8/8 w - - 0 1\n";
    let mut source = source(&rt, alloc, two.as_bytes());
    let Ok(suite) = read_suite(alloc, &variants, &mut source) else {
        panic!(rt; "no suite");
    };
    let solved = solve_all(&rt, alloc, suite.problems(), 2, &gate).expect(&rt, "no fault");
    expect(&rt, !gate.gave_up());
    expect(&rt, found_of(&rt, solved.answers(), 0) == (Some(2), true));
    expect(&rt, found_of(&rt, solved.answers(), 1) == (None, false));
}
