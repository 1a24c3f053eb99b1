//! Tests of `uci_lines`.
use crate::expect::expect_of;
use crate::helpers::go;
use foundation::Text;
use io_ports::Got;
use rules_model::{Move, Side};
use std::alloc::Global;
use std::process::Abort;
use uci_lines::{
    CommandKind, Go, Placing, Setting, is_held, joined, last_depth, last_mate, number, read_go,
    read_line, read_placing, read_setting, roots_of, share_of, time_for, words_in,
};

// The `go` of a line.
fn go_of<'a>(rt: &impl Abort, alloc: Global, line: &'a [u8]) -> Go<'a> {
    let (_kind, rest) = read_line(Got::Line, line);
    let words = words_in(alloc, rest)
        .map_err(|_| "no memory")
        .expect(rt, "no fault");
    read_go(alloc, &words)
        .map_err(|_| "no memory")
        .expect(rt, "no fault")
}

// The name of an option, and its value.
fn shown(setting: &Setting) -> (&'static str, Option<&Text>) {
    match setting {
        Setting::Threads(value) => ("Threads", value.as_ref()),
        Setting::Hash(value) => ("Hash", value.as_ref()),
        Setting::MateFacts(value) => ("MateFacts", value.as_ref()),
        Setting::VariantPath(value) => ("VariantPath", value.as_ref()),
        Setting::Variant(value) => ("UCI_Variant", value.as_ref()),
        Setting::Unknown => ("", None),
    }
}

/// Asserts the command of a line, and the words after that, joined again.
fn expect(rt: &impl Abort, alloc: Global, line: &str, want: CommandKind, rest: &str) {
    let (kind, after) = read_line(Got::Line, line.as_bytes());
    assert!(rt; kind == want, "{line}");
    let words = words_in(alloc, after)
        .map_err(|_| "no memory")
        .expect(rt, "no fault");
    let text = joined(alloc, &words)
        .map_err(|_| "no memory")
        .expect(rt, "no fault");
    expect_of(rt, &line, text.items.as_slice() == rest.as_bytes());
}

#[test]
fn commands(rt: HostRuntime) {
    let alloc = rt.alloc();
    expect(&rt, alloc, "uci", CommandKind::Uci, "");
    expect(&rt, alloc, " \t isready now", CommandKind::IsReady, "now");
    expect(&rt, alloc, "ucinewgame", CommandKind::NewGame, "");
    let option = "setoption name Hash  value\t7";
    expect(
        &rt,
        alloc,
        option,
        CommandKind::SetOption,
        "name Hash value 7",
    );
    expect(
        &rt,
        alloc,
        "position startpos",
        CommandKind::Position,
        "startpos",
    );
    expect(&rt, alloc, "please go depth 3", CommandKind::Go, "depth 3");
    expect(&rt, alloc, "stop", CommandKind::Stop, "");
    expect(&rt, alloc, "ponderhit", CommandKind::Stop, "");
}

#[test]
fn other_commands(rt: HostRuntime) {
    let alloc = rt.alloc();
    expect(&rt, alloc, "debug on", CommandKind::Idle, "on");
    expect(&rt, alloc, "register later", CommandKind::Idle, "later");
    expect(&rt, alloc, "moves status", CommandKind::Moves, "status");
    expect(&rt, alloc, "status", CommandKind::Status, "");
    expect(&rt, alloc, "checkers", CommandKind::Checkers, "");
    expect(&rt, alloc, "strategy", CommandKind::Strategy, "");
    expect(&rt, alloc, "x quit y", CommandKind::Quit, "y");
    expect(&rt, alloc, "QUIT", CommandKind::Idle, "");
    expect(&rt, alloc, "", CommandKind::Idle, "");
}

#[test]
fn a_long_line(rt: HostRuntime) {
    let (kind, _rest) = read_line(Got::TooLong, b"quit");
    assert!(rt; kind == CommandKind::TooLong);
}

/// Asserts the last depth of a `go`, and the share of each of four workers.
fn expect_depth(rt: &impl Abort, alloc: Global, line: &str, depth: u8, share: Option<u64>) {
    let go = go_of(rt, alloc, line.as_bytes());
    assert!(rt; last_depth(&go) == depth, "{line}: depth");
    assert!(rt; share_of(&go, 4) == share, "{line}: share");
}

#[test]
fn depths_and_shares(rt: HostRuntime) {
    let alloc = rt.alloc();
    expect_depth(&rt, alloc, "go", 64, None);
    expect_depth(&rt, alloc, "go depth 3", 3, None);
    expect_depth(&rt, alloc, "go depth 0", 1, None);
    expect_depth(&rt, alloc, "go depth 99", 64, None);
    expect_depth(&rt, alloc, "go depth 3 depth x", 3, None);
    expect_depth(&rt, alloc, "go infinite depth 2", 2, None);
    expect_depth(&rt, alloc, "go depth nodes 10", 64, Some(3));
    let most = Some(4_611_686_018_427_387_904);
    expect_depth(&rt, alloc, "go nodes 18446744073709551615", 64, most);
    expect_depth(&rt, alloc, "go nodes 18446744073709551616", 64, None);
}

/// Asserts White's time by a `go`, and whether the best move is held.
fn expect_time(rt: &impl Abort, alloc: Global, line: &str, time: Option<u64>, held: bool) {
    let go = go_of(rt, alloc, line.as_bytes());
    assert!(rt; time_for(&go, Side::White) == time, "{line}: time");
    assert!(rt; is_held(&go, Side::White) == held, "{line}: held");
}

#[test]
fn times_and_held_moves(rt: HostRuntime) {
    let alloc = rt.alloc();
    expect_time(&rt, alloc, "go", None, true);
    expect_time(&rt, alloc, "go depth 3", None, false);
    expect_time(&rt, alloc, "go nodes 10", None, false);
    expect_time(&rt, alloc, "go infinite depth 2", None, true);
    let white = "go wtime 60000 winc 10 movestogo 60";
    expect_time(&rt, alloc, white, Some(1005), false);
    expect_time(&rt, alloc, "go wtime 1000 movestogo 1", Some(500), false);
    expect_time(&rt, alloc, "go btime 60000", None, true);
    expect_time(&rt, alloc, "go movetime 5 wtime 60000", Some(5), false);
    expect_time(&rt, alloc, "go mate 3 ponder", None, true);
}

/// Asserts the number that a word is, if it is one.
fn expect_number(rt: &impl Abort, word: &str, wanted: Option<u64>) {
    expect_of(rt, &word, number(word.as_bytes()) == wanted);
}

#[test]
fn numbers(rt: HostRuntime) {
    expect_number(&rt, "0", Some(0));
    expect_number(&rt, "007", Some(7));
    expect_number(&rt, "18446744073709551615", Some(u64::MAX));
    expect_number(&rt, "18446744073709551616", None);
    expect_number(&rt, "", None);
    expect_number(&rt, "+1", None);
    expect_number(&rt, "-1", None);
    expect_number(&rt, "1.", None);
}

#[test]
fn mates_are_asked_up_to_a_hundred(rt: HostRuntime) {
    assert!(rt; last_mate(0) == 1 && last_mate(1) == 1);
    assert!(rt; last_mate(100) == 100 && last_mate(101) == 100);
}

/// Asserts what a `go` searches where the pawns' moves from d2 and e2 are legal.
fn expect_roots(rt: &impl Abort, alloc: Global, line: &str, want: &[Move]) {
    let legal = [go("d2d3"), go("d2d4"), go("e2e3"), go("e2e4")];
    let go = go_of(rt, alloc, line.as_bytes());
    let roots = roots_of(alloc, &go, &legal)
        .map_err(|_| "no memory")
        .expect(rt, "no fault");
    expect_of(rt, &line, roots.as_slice() == want);
}

#[test]
fn roots(rt: HostRuntime) {
    let alloc = rt.alloc();
    let all = [go("d2d3"), go("d2d4"), go("e2e3"), go("e2e4")];
    expect_roots(&rt, alloc, "go", &all);
    expect_roots(&rt, alloc, "go searchmoves e7e5", &all);
    let two = [go("d2d4"), go("e2e4")];
    expect_roots(&rt, alloc, "go searchmoves e2e4 d2d4 e2e4", &two);
    let one = [go("e2e4")];
    expect_roots(&rt, alloc, "go searchmoves e2e4 depth d2d4", &one);
}

/// Asserts the option that the words after `setoption` name, and its value.
fn expect_option(rt: &impl Abort, alloc: Global, line: &str, option: &str, value: Option<&str>) {
    let words = words_in(alloc, Some(line.as_bytes()))
        .map_err(|_| "no memory")
        .expect(rt, "no fault");
    let setting = read_setting(alloc, &words)
        .map_err(|_| "no memory")
        .expect(rt, "no fault");
    let (name, said) = shown(&setting);
    assert!(rt; name == option, "{line}: option");
    let said = said.map(|text| text.items.as_slice());
    assert!(rt; said == value.map(|text| text.as_bytes()), "{line}: value");
}

#[test]
fn options(rt: HostRuntime) {
    let alloc = rt.alloc();
    expect_option(&rt, alloc, "name tHREADS value 4", "Threads", Some("4"));
    expect_option(&rt, alloc, "name Hash value 1 \t 2", "Hash", Some("1 2"));
    expect_option(&rt, alloc, "value 7 name Hash", "Hash", None);
    expect_option(&rt, alloc, "name MateFacts value", "MateFacts", None);
    let path = "name VariantPath value a value b";
    expect_option(&rt, alloc, path, "VariantPath", Some("a value b"));
    let variant = "name UCI_Variant value chess";
    expect_option(&rt, alloc, variant, "UCI_Variant", Some("chess"));
    expect_option(&rt, alloc, "name UCI Variant value chess", "", None);
    expect_option(&rt, alloc, "Hash value 7", "", None);
    expect_option(&rt, alloc, "", "", None);
}

/// Asserts the start that the words after `position` give, and how many moves follow.
fn expect_placing(rt: &impl Abort, alloc: Global, line: &str, start: &str, count: usize) {
    let words = words_in(alloc, Some(line.as_bytes()))
        .map_err(|_| "no memory")
        .expect(rt, "no fault");
    match read_placing(alloc, &words)
        .map_err(|_| "no memory")
        .expect(rt, "no fault")
    {
        Placing::Startpos(moves) => {
            assert!(rt; start == "startpos" && moves.len() == count, "{line}");
        }
        Placing::Fen(fen, moves) => {
            let is_same = fen.items.as_slice() == start.as_bytes();
            assert!(rt; is_same && moves.len() == count, "{line}");
        }
        Placing::NoPosition => expect_of(rt, &line, start == "none"),
    }
}

#[test]
fn positions(rt: HostRuntime) {
    let alloc = rt.alloc();
    expect_placing(&rt, alloc, "startpos moves e2e4 e7e5", "startpos", 2);
    expect_placing(&rt, alloc, "startpos now moves e2e4", "startpos", 1);
    expect_placing(&rt, alloc, "startpos e2e4", "startpos", 0);
    expect_placing(&rt, alloc, "fen 8/8  w - moves a1a2", "8/8 w -", 1);
    expect_placing(&rt, alloc, "fen", "", 0);
    expect_placing(&rt, alloc, "now startpos", "none", 0);
}
