//! Tests of `uci_front`.
use crate::expect::{expect, expect_eq, expect_eq_at, expect_of};
use foundation::Memory;
use io_ports::{
    Dialect, ListClock, MemFiles, MemSink, MemSource, OpenGate, PollsOwed, Ports, SearchFault,
};
use std::alloc::Global;
use std::process::Abort;
use std::sync::Wait;
use std::thread::Threads;
use uci_front::{Ended, UciSession, serve};
use variant_rules::{builtin, load};

/// Two files of variants, one of which has a fault.
fn own_files(alloc: Global) -> Result<MemFiles, Memory> {
    let mut files = MemFiles::new(alloc);
    files.add(
        b"own.ini",
        b"[own:chess]\nstartFen = 7k/8/5KQ1/8/8/8/8/8 w - - 0 1\n",
    )?;
    files.add(b"bad.ini", b"castling = true\n")?;
    Ok(files)
}

/// How a session of the lines of the source ends.
fn talk<R: Threads + Wait + Sync>(
    rt: &R,
    alloc: Global,
    session: &mut UciSession,
    source: &mut MemSource,
    sink: &mut MemSink,
    clock: &mut ListClock,
    files: &mut MemFiles,
) -> Result<Ended, SearchFault> {
    let mut ports = Ports {
        source,
        sink,
        clock,
        gate: &OpenGate,
        dialect: Dialect::Uci,
    };
    serve(rt, alloc, session, &mut ports, files)
}

/// How a session of these lines ends, with a clock that stands still and two files of variants, and what it wrote.
fn served<R: AllocGlobal + Threads + Wait + Sync>(
    rt: &R,
    input: &[u8],
    polls: PollsOwed,
    failing: &[u64],
    room: usize,
) -> Result<(Result<Ended, SearchFault>, MemSink), Memory> {
    let alloc = rt.alloc();
    let mut source = MemSource::new(alloc, input, polls, failing)?;
    let mut sink = MemSink::new(alloc, room)?;
    let mut clock = ListClock::new(alloc, &[0])?;
    let mut files = own_files(alloc)?;
    let sections = builtin(alloc)?;
    let variants = load(alloc, &sections)?;
    let mut session = UciSession::new(alloc, sections, variants, 1)?;
    let ended = talk(
        rt,
        alloc,
        &mut session,
        &mut source,
        &mut sink,
        &mut clock,
        &mut files,
    );
    Ok((ended, sink))
}

/// Serves these lines up to `quit`, and wants this text.
fn says<R: Abort + AllocGlobal + Threads + Wait + Sync>(
    rt: &R,
    polls: PollsOwed,
    input: &str,
    text: &str,
) {
    let (ended, sink) = served(rt, input.as_bytes(), polls, &[], 3000).expect(rt, "no fault");
    expect_of(rt, &input, ended == Ok(Ended::Quit));
    expect_eq_at(rt, input, sink.taken(), text.as_bytes());
}

/// How often a part stands in a text.
fn count(text: &[u8], part: &[u8]) -> usize {
    let mut times = 0usize;
    for at in 0..text.len() {
        if text[at..].starts_with(part) {
            times = times.saturating_add(1);
        }
    }
    times
}

#[test]
fn lines_set_and_answer(rt: HostRuntime) {
    let never = PollsOwed::Endless;
    let lines = "uci\nquit\n";
    let answers =
        "id name vengine\nid author vengine\noption name Threads type spin default 1 min 1 max 64\n\
                option name Hash type spin default 16 min 1 max 1024\n\
                option name MateFacts type spin default 4096 min 16 max 65536\n\
                option name VariantPath type string default <empty>\n\
                option name UCI_Variant type combo default chess var chess var crazyhouse var 3check \
                var kingofthehill var antichess var extinction var losalamos var capablanca var seirawan \
                var xiangqi\n\
                uciok\n";
    says(&rt, never, lines, answers);
    let lines =
        "\nwhat is this\nnow isready\ndebug on\nregister later\nstop\nponderhit\nquit now\nuci\n";
    let answers = "readyok\n";
    says(&rt, never, lines, answers);
    let lines = "checkers\nposition fen k7/8/8/8/8/8/1q6/K7 w - - 0 1\ncheckers\nmoves\nstrategy\n\
                position startpos moves f2f3 e7e5 g2g4 d8h4\nstatus\ncheckers\nmoves\ngo depth 1\nquit\n";
    let answers =
        "checkers -\ncheckers b2\na1b2\nmoves 1\ninfo string no strategy\nwon black checkmate\n\
                rnb1kbnr/pppp1ppp/8/4p3/6Pq/5P2/PPPPP2P/RNBQKBNR w KQkq - 1 3\ncheckers h4\nmoves 0\nbestmove (none)\n";
    says(&rt, never, lines, answers);
    let lines = "go perft 2\nposition startpos moves e2e4\ngo perft 1\nucinewgame\nstatus\nquit\n";
    let answers = "info string perft 2 400\ninfo string perft 1 20\nongoing\n\
                rnbqkbnr/pppppppp/8/8/8/8/PPPPPPPP/RNBQKBNR w KQkq - 0 1\n";
    says(&rt, never, lines, answers);
}

// A line that is refused leaves the game and the variant.
#[test]
fn lines_are_refused(rt: HostRuntime) {
    let never = PollsOwed::Endless;
    let lines =
        "position fen k7/8/8/8/8/8/1q6/K7 w - - 0 1\nposition startpos moves e2e4 e7e5 e4e5\n\
                position fen 8/8 w - - 0 1\nposition startpos moves e9\nposition\nstatus\nquit\n";
    let answers = "info string error PositionFault 2 BadMove 3 e4e5\n\
                info string error PositionFault 1 BadFen FenFault 2 Rank\n\
                info string error PositionFault 2 BadMove 1 e9\ninfo string error PositionFault 4 NoPosition\n\
                ongoing\nk7/8/8/8/8/8/1q6/K7 w - - 0 1\n";
    says(&rt, never, lines, answers);
    let lines =
        "setoption name Hash value 0\nsetoption name threads value 65\nsetoption name MateFacts\n\
                setoption name Other value 1\nsetoption name UCI_Variant value shogi\n\
                setoption name VariantPath value gone.ini\nsetoption name VariantPath value bad.ini\n\
                setoption name VariantPath value own.ini\nsetoption name UCI_Variant value own\n\
                setoption name VariantPath value gone.ini\nstatus\nsetoption name VariantPath value <empty>\n\
                setoption name UCI_Variant value own\nstatus\nquit\n";
    let answers =
        "info string error OptionFault 1 BadValue Hash\ninfo string error OptionFault 1 BadValue Threads\n\
                info string error OptionFault 1 BadValue MateFacts\n\
                info string error OptionFault 2 UnknownVariant shogi\ninfo string error FileFault 1 Missing\n\
                info string error IniFault 4 NoSection 1\ninfo string error FileFault 1 Missing\nongoing\n\
                7k/8/5KQ1/8/8/8/8/8 w - - 0 1\ninfo string error OptionFault 2 UnknownVariant own\nongoing\n\
                rnbqkbnr/pppppppp/8/8/8/8/PPPPPPPP/RNBQKBNR w KQkq - 0 1\n";
    says(&rt, never, lines, answers);
}

/// Serves these lines up to `quit`, and wants as many answers as given: three lines each, the first ones these.
fn tells_no_mate<R: Abort + AllocGlobal + Threads + Wait + Sync>(
    rt: &R,
    input: &str,
    start: &str,
    answers: usize,
) {
    let (ended, sink) = served(rt, input.as_bytes(), PollsOwed::Endless, &[], 3000).expect(
        rt, "no fault",
    );
    expect_of(rt, &input, ended == Ok(Ended::Quit));
    let text = sink.taken();
    expect_of(rt, &input, text.starts_with(start.as_bytes()));
    expect_eq_at(rt, input, count(text, start.as_bytes()), answers);
    expect_eq_at(rt, input, count(text, b"\nbestmove "), answers);
    expect_eq_at(rt, input, count(text, b"\n"), answers.saturating_mul(3));
}

// A mate that the counter would outrun but for the mate itself, one of two moves, and a side that is mated. With
// `nodes 0` nothing is searched.
#[test]
fn mates_are_found(rt: HostRuntime) {
    let never = PollsOwed::Endless;
    let lines =
        "position fen 7k/8/5KQ1/8/8/8/8/8 w - - 99 80\ngo mate 1\nsetoption name Threads value 4\ngo mate 2\n\
                quit\n";
    let answers =
        "info depth 1 score mate 1 pv g6g7\nbestmove g6g7\ninfo depth 1 score mate 1 pv g6g7\nbestmove g6g7\n";
    says(&rt, never, lines, answers);
    let lines =
        "position fen 7k/R7/5K2/8/8/8/8/8 w - - 0 1\ngo mate 2\nposition startpos\nstrategy\nquit\n";
    let answers = "info depth 3 score mate 2 pv f6g6\nbestmove f6g6\ninfo string no strategy\n";
    says(&rt, never, lines, answers);
    let lines = "position fen 7k/R7/6K1/8/8/8/8/8 b - - 1 1\ngo depth 3\nquit\n";
    let answers = "info depth 1 score cp -504 pv h8g8\ninfo depth 2 score mate -1 pv h8g8\n\
                info depth 3 score mate -1 pv h8g8\nbestmove h8g8\n";
    says(&rt, never, lines, answers);
    let lines = "position fen 7k/R7/5K2/8/8/8/8/8 w - - 0 1\ngo mate 1 nodes 0\nquit\n";
    let answers = "info string stopped\nbestmove a7a1\n";
    says(&rt, never, lines, answers);
}

// A mate that a third repetition forbids; the search of depth 1 comes then. With `nodes 0` a fact that was kept
// answers, also in another game.
#[test]
fn no_mates_are_told(rt: HostRuntime) {
    tells_no_mate(
        &rt,
        "position fen 7k/R7/6K1/8/8/8/8/8 b - - 0 1 moves h8g8 g6f6 g8h8 f6g6 h8g8 g6f6 g8h8\ngo mate 2\nquit\n",
        "info string no mate in 2\ninfo depth 1 score cp ",
        1,
    );
    tells_no_mate(
        &rt,
        "position fen 7k/R7/5K2/8/8/8/8/8 w - - 0 1\ngo mate 1\ngo mate 1 nodes 0\nquit\n",
        "info string no mate in 1\ninfo depth 1 score cp ",
        2,
    );
    tells_no_mate(
        &rt,
        "position fen 7k/R7/5K2/8/8/8/8/8 w - - 0 1\ngo mate 1\nucinewgame\n\
        position fen 7k/R7/5K2/8/8/8/8/8 w - - 0 1\ngo mate 1 nodes 0\nquit\n",
        "info string no mate in 1\ninfo depth 1 score cp ",
        2,
    );
}

// The king's one move is to take the queen. A best move that is held back comes at the next line that stops a search,
// which is answered next, and at the end of the lines.
#[test]
fn a_best_move_is_held_back(rt: HostRuntime) {
    let never = PollsOwed::Endless;
    let lines =
        "position fen 7k/8/5KQ1/8/8/8/8/8 w - - 0 1\ngo infinite mate 1\nisready\ndebug on\n\nstatus\nquit\n";
    let answers =
        "info depth 1 score mate 1 pv g6g7\nreadyok\nbestmove g6g7\nongoing\n7k/8/5KQ1/8/8/8/8/8 w - - 0 1\n";
    says(&rt, never, lines, answers);
    let lines = "position fen 7k/8/5KQ1/8/8/8/8/8 w - - 0 1\ngo ponder mate 1\nquit\nuci\n";
    let answers = "info depth 1 score mate 1 pv g6g7\nbestmove g6g7\n";
    says(&rt, never, lines, answers);
}

// The polls let `isready` in while depths are searched, and then `stop`.
#[test]
fn lines_are_heard_in_a_search(rt: HostRuntime) {
    let input =
        "position startpos\ngo infinite\nisready\nstop\nposition startpos moves e2e4 e7e5 e4e5\nstatus\nquit\n";
    let (ended, sink) = served(&rt, input.as_bytes(), PollsOwed::Number(2), &[], 3000).expect(
        &rt, "no fault",
    );
    expect(&rt, ended == Ok(Ended::Quit));
    let text = sink.taken();
    expect(&rt, text.starts_with(b"info depth 1 score cp "));
    expect_eq(&rt, count(text, b"\nreadyok\n"), 1usize);
    expect_eq(&rt, count(text, b"\nbestmove "), 1usize);
    let end = b"\ninfo string error PositionFault 2 BadMove 3 e4e5\nongoing\n\
        rnbqkbnr/pppppppp/8/8/8/8/PPPPPPPP/RNBQKBNR w KQkq - 0 1\n";
    expect(&rt, text.ends_with(end));
}

/// Asserts how a session with a source that fails at these calls and a sink with this room ends, and what it wrote.
fn expect_end<R: Abort + AllocGlobal + Threads + Wait + Sync>(
    rt: &R,
    failing: &[u64],
    room: usize,
    end: Result<Ended, SearchFault>,
    text: &str,
) {
    let (ended, sink) = served(rt, b"isready\nstrategy", PollsOwed::Endless, failing, room).expect(
        rt, "no fault",
    );
    expect_of(rt, &text, ended == end && sink.taken() == text.as_bytes());
}

#[test]
fn faults_end_a_session(rt: HostRuntime) {
    let both = "readyok\ninfo string no strategy\n";
    expect_end(&rt, &[], 100, Ok(Ended::InputEnded), both);
    expect_end(&rt, &[0], 100, Err(SearchFault::ReadFault), "");
    expect_end(&rt, &[1], 100, Err(SearchFault::ReadFault), "readyok\n");
    expect_end(&rt, &[], 11, Err(SearchFault::WriteFault), "readyok\ninf");
}

#[test]
fn a_line_that_is_too_long_is_answered(rt: HostRuntime) {
    let mut input = Vec::new(rt.alloc());
    for _ in 0..131_073 {
        input.push(b' ').expect(&rt, "no fault");
    }
    input
        .extend_from_slice(b"\nisready\n")
        .expect(&rt, "no fault");
    let (ended, sink) = served(&rt, input.as_slice(), PollsOwed::Endless, &[], 100).expect(
        &rt, "no fault",
    );
    expect(&rt, ended == Ok(Ended::InputEnded));
    expect_eq(
        &rt,
        sink.taken(),
        b"info string error LineFault 1 TooLong\nreadyok\n".as_slice(),
    );
}
