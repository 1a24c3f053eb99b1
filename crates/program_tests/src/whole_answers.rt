//! Worked cases in their whole form: what `run` answers, by hand or by another source.
use crate::expect::{expect, expect_eq};
use crate::runs::{BUILTIN, ROOM, ran, ran_over, refuses, says, tells};
use io_ports::{MemFiles, MemSink, MemSource, PollsOwed};
use std::process::Abort;
use std::str;
use std::sync::Wait;
use std::thread::Threads;

/// Asserts where a piece goes, by the words after `reach`.
fn reaches<R: Abort + AllocGlobal + Threads + Wait + Sync>(rt: &R, words: &str, text: &str) {
    let mut list = Vec::new(rt.alloc());
    list.push("reach").expect(rt, "no fault");
    for word in words.split(' ') {
        list.push(word).expect(rt, "no fault");
    }
    tells(rt, list.as_slice(), "", text);
}

#[test]
fn pieces_by_their_words(rt: HostRuntime) {
    reaches(&rt, "WF a1", "quiet b1 a2 b2\ntake -\n");
    reaches(&rt, "gQ d4 d5 d6", "quiet -\ntake d6\n");
    reaches(&rt, "bFfW d4", "quiet c3 e3 d5\ntake -\n");
    reaches(&rt, "fsN d4", "quiet b5 f5\ntake -\n");
    reaches(&rt, "cF a1 none b2", "quiet -\ntake b2\n");
    refuses(
        &rt,
        &["reach", "iN", "a1"],
        "",
        "error BetzaFault 4 UnsupportedModifier 0\n",
    );
    refuses(
        &rt,
        &["reach", "nR", "a1"],
        "",
        "error BetzaFault 7 BadLame 0\n",
    );
    refuses(
        &rt,
        &["reach", "pgR", "a1"],
        "",
        "error BetzaFault 8 BadHopper 1\n",
    );
    refuses(
        &rt,
        &["reach", "R12", "a1"],
        "",
        "error BetzaFault 9 BadNumber 1\n",
    );
    refuses(
        &rt,
        &["reach", "R", "a1", "a1"],
        "",
        "error ReachFault 2 SquareTwice a1\n",
    );
}

/// Knights and camels, on a board of eight files and on one of ten; a section that is refused, and its child; and a
/// name that has a section.
const LEAPERS: &str = "[leapers]\nking = k\nknight = n\ncustomPiece1 = c:C\ncastling = false\n\
    startFen = 1nc1k3/8/8/8/8/8/8/3K1CN1 w - - 0 1\n\
    [wide:leapers]\nmaxFile = 10\nstartFen = 4k5/10/10/10/10/10/10/3K3CN1 w - - 0 1\n\
    [odd:wide]\nblastOnCapture = true\n[child:odd]\n[leapers]\n";

/// Grandchildren, of which one has its parent's start and two have their own rules.
const FAMILY: &str = "[a:chess]\nnMoveRule = 40\n[b:a]\ncastling = false\n\
    startFen = rnbqkbnr/pppppppp/8/8/8/8/PPPPPPPP/RNBQKBNR w - - 0 1\n\
    [c:b]\nnFoldRule = 2\n[d:chess]\nblastOnCapture = true\n[e:d]\n\
    [must:chess]\nmustCapture = true\n[calm:chess]\nchecking = false\n";

/// What a command answers over the file `v` of these bytes.
fn answer<R: Abort + AllocGlobal + Threads + Wait + Sync>(
    rt: &R,
    file: &str,
    command: &str,
    input: &str,
) -> MemSink {
    let mut files = MemFiles::new(rt.alloc());
    files.add(b"v", file.as_bytes()).expect(rt, "no fault");
    let words = ["--variants", "v", command];
    let (status, sink) = ran(
        rt,
        &mut files,
        words.as_slice(),
        input.as_bytes(),
        &[],
        ROOM,
    );
    expect_eq(rt, status, 0);
    sink
}

/// Asserts what a command answers over a file.
fn answers<R: Abort + AllocGlobal + Threads + Wait + Sync>(
    rt: &R,
    file: &str,
    command: &str,
    input: &str,
    text: &str,
) {
    let sink = answer(rt, file, command, input);
    expect_eq(rt, sink.taken(), text.as_bytes());
}

/// Asserts how that answer ends.
fn ends<R: Abort + AllocGlobal + Threads + Wait + Sync>(
    rt: &R,
    file: &str,
    command: &str,
    input: &str,
    end: &str,
) {
    let sink = answer(rt, file, command, input);
    expect(rt, sink.taken().ends_with(end.as_bytes()));
}

/// Asserts what `variants` answers over a file.
fn lists<R: Abort + AllocGlobal + Threads + Wait + Sync>(rt: &R, file: &str, text: &str) {
    let listed = format!(in rt.alloc(); "{BUILTIN}{text}").expect(rt, "no fault");
    answers(rt, file, "variants", "", listed.as_str());
}

#[test]
fn a_variant_of_leapers(rt: HostRuntime) {
    ends(&rt, LEAPERS, "moves", "leapers\nstartpos", "\nmoves 11\n");
    ends(&rt, LEAPERS, "moves", "wide\nstartpos", "\nmoves 11\n");
    let knight = "leapers\n4k3/8/8/8/8/1n6/8/K1N5 w - - 0 1";
    answers(
        &rt,
        LEAPERS,
        "moves",
        knight,
        "a1a2\na1b1\na1b2\nc1b3\nmoves 4\n",
    );
    lists(
        &rt,
        LEAPERS,
        "leapers ok\nwide ok\nodd SectionFault 4 UnsupportedOption blastOnCapture\n\
        child SectionFault 3 RefusedParent\nleapers SectionFault 1 DuplicateName\n",
    );
}

/// The grandchild has the move count of its grandparent, no castling, and its own number of repetitions.
#[test]
fn options_of_grandparents(rt: HostRuntime) {
    lists(
        &rt,
        FAMILY,
        "a ok\nb ok\nc ok\nd SectionFault 4 UnsupportedOption blastOnCapture\n\
        e SectionFault 3 RefusedParent\nmust ok\ncalm ok\n",
    );
    let late = "c\n4k3/8/8/8/8/8/8/K7 w - - 79 80\na1a2";
    answers(
        &rt,
        FAMILY,
        "status",
        late,
        "drawn movecount\n4k3/8/8/8/8/8/K7/8 b - - 80 80\n",
    );
    let again = "c\nstartpos\ng1f3 g8f6 f3g1 f6g8";
    answers(
        &rt,
        FAMILY,
        "status",
        again,
        "drawn repetition\nrnbqkbnr/pppppppp/8/8/8/8/PPPPPPPP/RNBQKBNR w - - 4 3\n",
    );
    let taking = "must\nstartpos\ne2e4 d7d5";
    answers(&rt, FAMILY, "moves", taking, "e4d5\nmoves 1\n");
    let quiet = "calm\n4k3/8/8/8/8/8/8/R3K3 w - - 0 1";
    ends(
        &rt,
        FAMILY,
        "moves",
        quiet,
        "\na1a7\na1b1\na1c1\na1d1\ne1d1\ne1d2\ne1e2\ne1f1\ne1f2\nmoves 14\n",
    );
}

/// How many lines of a text begin with this.
fn lines_with(text: &str, start: &str) -> usize {
    let mut count: usize = 0;
    for line in text.lines() {
        if line.starts_with(start) {
            count = count.saturating_add(1);
        }
    }
    count
}

/// After a promoted piece was taken: a pawn on each empty square of six ranks, the king's moves, and the pawn's.
#[test]
fn a_pawn_in_the_hand(rt: HostRuntime) {
    let game = "crazyhouse\n4k3/8/8/8/8/3q~4/4P3/4K3[] w - - 0 1\ne2d3 e8e7";
    let sink = answer(&rt, "", "moves", game);
    let text = str::from_utf8(sink.taken()).expect(&rt, "no fault");
    expect_eq(&rt, lines_with(text, "P@"), 46);
    expect_eq(&rt, lines_with(text, "e1"), 5);
    expect_eq(&rt, lines_with(text, "d3"), 1);
    expect(&rt, text.ends_with("\nmoves 52\n"));
}

#[test]
fn promotions_and_xiangqi(rt: HostRuntime) {
    let pawn = "chess\n8/P6k/8/8/8/8/8/K7 w - - 0 1";
    let moves = "a1a2\na1b1\na1b2\na7a8b\na7a8n\na7a8q\na7a8r\nmoves 7\n";
    tells(&rt, &["moves"], pawn, moves);
    tells(&rt, &["perft", "1"], "xiangqi\nstartpos", "44\n");
    tells(&rt, &["perft", "2"], "xiangqi\nstartpos", "1920\n");
    let horse = "xiangqi\n4k4/9/9/9/9/9/9/9/4N4/4K4 w - - 0 1";
    tells(&rt, &["moves"], horse, "e1d1\ne1f1\nmoves 2\n");
    let elephant = "xiangqi\n3k5/9/9/9/9/2B6/9/9/9/4K4 w - - 0 1";
    let moves = "c5a3\nc5e3\ne1e2\ne1f1\nmoves 4\n";
    tells(&rt, &["moves"], elephant, moves);
}

/// Asserts what a session answers, by words before `uci`.
fn session<R: Abort + AllocGlobal + Threads + Wait + Sync>(
    rt: &R,
    threads: &str,
    lines: &str,
    text: &str,
) {
    let mut files = MemFiles::new(rt.alloc());
    let words = ["--threads", threads, "uci"];
    says(
        rt,
        &mut files,
        words.as_slice(),
        lines.as_bytes(),
        0,
        text.as_bytes(),
    );
}

/// Asserts that a session answers one of two texts.
fn session_of_two<R: Abort + AllocGlobal + Threads + Wait + Sync>(
    rt: &R,
    threads: &str,
    lines: &str,
    one: &str,
    other: &str,
) {
    let mut files = MemFiles::new(rt.alloc());
    let words = ["--threads", threads, "uci"];
    let (status, sink) = ran(
        rt,
        &mut files,
        words.as_slice(),
        lines.as_bytes(),
        &[],
        ROOM,
    );
    let text = sink.taken();
    expect(
        rt,
        status == 0 && (text == one.as_bytes() || text == other.as_bytes()),
    );
}

/// The first depth; mates near the move count, within two moves, and by one that a third repetition forbids: the move
/// attains the value of the depth that is searched then.
#[test]
fn sessions_search(rt: HostRuntime) {
    session_of_two(
        &rt,
        "1",
        "position startpos\ngo depth 1\nquit\n",
        "info depth 1 score cp 12 pv b1c3\nbestmove b1c3\n",
        "info depth 1 score cp 12 pv g1f3\nbestmove g1f3\n",
    );
    session(
        &rt,
        "1",
        "position fen 7k/8/5KQ1/8/8/8/8/8 w - - 99 80\ngo mate 1\nquit\n",
        "info depth 1 score mate 1 pv g6g7\nbestmove g6g7\n",
    );
    session(
        &rt,
        "4",
        "position fen 7k/R7/5K2/8/8/8/8/8 w - - 0 1\ngo mate 2\nquit\n",
        "info depth 3 score mate 2 pv f6g6\nbestmove f6g6\n",
    );
    session_of_two(
        &rt,
        "1",
        "position fen 7k/R7/6K1/8/8/8/8/8 b - - 0 1 moves h8g8 g6f6 g8h8 f6g6 h8g8 g6f6 g8h8\ngo mate 2\n",
        "info string no mate in 2\ninfo depth 1 score cp 516 pv a7d7\nbestmove a7d7\n",
        "info string no mate in 2\ninfo depth 1 score cp 516 pv a7e7\nbestmove a7e7\n",
    );
    session_of_two(
        &rt,
        "4",
        "position fen 7k/R7/6K1/8/8/8/8/8 b - - 0 1 moves h8g8 g6f6 g8h8 f6g6 h8g8 g6f6 g8h8\ngo mate 2\n",
        "info string no mate in 2\ninfo depth 1 score cp 516 pv a7d7\nbestmove a7d7\n",
        "info string no mate in 2\ninfo depth 1 score cp 516 pv a7e7\nbestmove a7e7\n",
    );
}

/// A search without a limit, which hears `isready` and then `stop`.
const ENDLESS: &[u8] =
    b"position startpos\ngo infinite\nisready\nstop\nposition startpos moves e2e4 e7e5 e4e5\n\
    status\nquit\n";

#[test]
fn a_search_without_a_limit(rt: HostRuntime) {
    let mut files = MemFiles::new(rt.alloc());
    let source = MemSource::new(rt.alloc(), ENDLESS, PollsOwed::Number(2), &[]).expect(
        &rt, "no fault",
    );
    let sink = MemSink::new(rt.alloc(), ROOM).expect(&rt, "no fault");
    let (status, sink) = ran_over(&rt, &mut files, &["uci"], source, sink);
    expect_eq(&rt, status, 0);
    let text = str::from_utf8(sink.taken()).expect(&rt, "no fault");
    expect(&rt, text.starts_with("info depth 1 score cp 12 pv "));
    expect_eq(&rt, lines_with(text, "readyok"), 1);
    expect_eq(&rt, lines_with(text, "bestmove "), 1);
    let end = "\ninfo string error PositionFault 2 BadMove 3 e4e5\nongoing\n\
        rnbqkbnr/pppppppp/8/8/8/8/PPPPPPPP/RNBQKBNR w KQkq - 0 1\n";
    expect(&rt, text.ends_with(end));
}

#[test]
fn a_game_in_cecp(rt: HostRuntime) {
    let lines = "xboard\nprotover 2\nforce\nusermove e2e4\nusermove e7e4\n\
        setboard 7k/8/5KQ1/8/8/8/8/8 w - - 0 1\nsd 1\ngo\nquit\n";
    let text =
        "feature ping=1 setboard=1 usermove=1 colors=0 sigint=0 sigterm=0 myname=\"vengine\" \
        variants=\"normal,crazyhouse,3check,kingofthehill,antichess,extinction,losalamos,capablanca,seirawan,xiangqi\" \
        done=1\nIllegal move: e7e4\nmove g6g7\n1-0 {White wins by checkmate}\n";
    let mut files = MemFiles::new(rt.alloc());
    says(
        &rt,
        &mut files,
        &["xboard"],
        lines.as_bytes(),
        0,
        text.as_bytes(),
    );
}
