//! Runs over ports in memory, and what they answer.
use crate::expect::{expect, expect_eq};
use commands::run;
use io_ports::{Files, ListClock, MemFiles, MemSink, MemSource, OpenGate, PollsOwed};
use std::alloc::Global;
use std::process::Abort;
use std::sync::Wait;
use std::thread::Threads;

/// The answer to words that are no command.
pub const USAGE_LINE: &str = "usage: vengine [--variants FILE] [--threads N] [COMMAND]\n";

/// The lines of the variants that are built in.
pub const BUILTIN: &str =
    "chess ok\ncrazyhouse ok\n3check ok\nkingofthehill ok\nantichess ok\nextinction ok\n\
    losalamos ok\ncapablanca ok\nseirawan ok\nxiangqi ok\n";

/// More bytes than any of these runs writes.
pub const ROOM: usize = 1_000_000;

/// A run over these files, this source and this sink.
pub fn ran_over<R: Abort + AllocGlobal + Threads + Wait + Sync, F: Files>(
    rt: &R,
    files: &mut F,
    words: &[&str],
    mut source: MemSource,
    mut sink: MemSink,
) -> (u8, MemSink) {
    let alloc = rt.alloc();
    let mut list = Vec::new(alloc);
    for word in words {
        list.push(String::from_str(alloc, *word).expect(rt, "no fault"))
            .expect(rt, "no fault");
    }
    let mut clock = ListClock::new(alloc, &[]).expect(rt, "no fault");
    let status = run(
        rt,
        alloc,
        list.as_slice(),
        &mut source,
        &mut sink,
        files,
        &mut clock,
        &OpenGate,
    );
    (status, sink)
}

/// A run over these files: a source that fails at these calls, and a sink that has room for `room` bytes.
pub fn ran<R: Abort + AllocGlobal + Threads + Wait + Sync, F: Files>(
    rt: &R,
    files: &mut F,
    words: &[&str],
    input: &[u8],
    failing: &[u64],
    room: usize,
) -> (u8, MemSink) {
    let source = MemSource::new(rt.alloc(), input, PollsOwed::Endless, failing).expect(
        rt, "no fault",
    );
    let sink = MemSink::new(rt.alloc(), room).expect(rt, "no fault");
    ran_over(rt, files, words, source, sink)
}

/// Runs words over these files and this input, with a sink that has room for 1,000 bytes, and asserts the status and
/// the text.
pub fn answers<R: Abort + AllocGlobal + Threads + Wait + Sync, F: Files>(
    rt: &R,
    files: &mut F,
    words: &[&str],
    input: &[u8],
    status: u8,
    text: &[u8],
) {
    let (answered, sink) = ran(rt, files, words, input, &[], 1000);
    expect_eq(rt, answered, status);
    expect_eq(rt, sink.taken(), text);
}

/// The same over the files of `some_files`, of texts.
pub fn answers_over_files<R: Abort + AllocGlobal + Threads + Wait + Sync>(
    rt: &R,
    words: &[&str],
    input: &str,
    status: u8,
    text: &str,
) {
    let mut files = some_files(rt, rt.alloc());
    answers(
        rt,
        &mut files,
        words,
        input.as_bytes(),
        status,
        text.as_bytes(),
    );
}

/// Asserts that words over those files are answered by the text, with status 0.
pub fn tells<R: Abort + AllocGlobal + Threads + Wait + Sync>(
    rt: &R,
    words: &[&str],
    input: &str,
    text: &str,
) {
    answers_over_files(rt, words, input, 0, text);
}

/// Asserts that words over those files are refused by the text, with status 3.
pub fn refuses<R: Abort + AllocGlobal + Threads + Wait + Sync>(
    rt: &R,
    words: &[&str],
    input: &str,
    text: &str,
) {
    answers_over_files(rt, words, input, 3, text);
}

/// As `answers`, with a sink that has room for every text.
pub fn says<R: Abort + AllocGlobal + Threads + Wait + Sync, F: Files>(
    rt: &R,
    files: &mut F,
    words: &[&str],
    input: &[u8],
    status: u8,
    text: &[u8],
) {
    let (answered, sink) = ran(rt, files, words, input, &[], ROOM);
    expect_eq(rt, answered, status);
    expect_eq(rt, sink.taken(), text);
}

/// Runs words over a sink with room for each number of bytes below that of the text, and asserts status 5, one fault,
/// and the front part of the text that has room.
pub fn is_cut<R: Abort + AllocGlobal + Threads + Wait + Sync, F: Files>(
    rt: &R,
    files: &mut F,
    words: &[&str],
    input: &[u8],
    text: &[u8],
) {
    for room in 0..text.len() {
        let (answered, sink) = ran(rt, files, words, input, &[], room);
        expect(
            rt,
            answered == 5 && sink.taken() == &text[..room] && sink.faults() == 1,
        );
    }
}

/// Sections of which each has a parent. The option of `d` is not supported, and `e` is its child.
const SECTIONS: &str = "[a:chess]\nnMoveRule = 40\n[b:a]\ncastling = false\n\
    startFen = rnbqkbnr/pppppppp/8/8/8/8/PPPPPPPP/RNBQKBNR w - - 0 1\n\
    [c:b]\nnFoldRule = 2\n[d:chess]\nblastOnCapture = true\n[e:d]\n";

/// A variant that may not castle, by the start of chess, whose king and rooks may.
const UNSTARTED: &str = "[a:chess]\n[b:a]\ncastling = false\n";

/// A variant of shogi on a board of 5 by 5 squares.
const MINI: &str =
    "[mini]\nmaxRank = 5\nmaxFile = e\nking = k\nrook = r\nbishop = b\ngold = g\nsilver = s\n\
    shogiPawn = p\ndragon = d\ndragonHorse = h\npromotedPieceType = s:g r:d b:h p:g\npieceDrops = true\n\
    capturesToHand = true\ndropNoDoubled = p\nimmobilityIllegal = true\ncastling = false\nnMoveRule = 0\n\
    nFoldRule = 4\npromotionRegionWhite = *5\npromotionRegionBlack = *1\nstartFen = rbsgk/4p/5/P4/KGSBR[-] w 0 1\n";

/// The largest board, as many pieces of one's own as a variant may have, and five of each in the hand.
const LARGE: &str =
    "[large]\nmaxFile = 12\nmaxRank = 10\nking = k\ncastling = false\ndoubleStep = false\n\
    pieceDrops = true\ncapturesToHand = true\nnFoldRule = 2\nnMoveRule = 0\n\
    customPiece1 = a:W\ncustomPiece2 = b:F\ncustomPiece3 = c:N\ncustomPiece4 = d:R\ncustomPiece5 = e:B\n\
    customPiece6 = f:D\ncustomPiece7 = g:A\ncustomPiece8 = h:L\ncustomPiece9 = i:H\ncustomPiece10 = j:mRcpR\n\
    customPiece11 = l:WF\ncustomPiece12 = m:RN\ncustomPiece13 = n:BN\ncustomPiece14 = o:nN\n\
    customPiece15 = p:gR\ncustomPiece16 = q:pB\ncustomPiece17 = r:C\ncustomPiece18 = s:Z\n\
    customPiece19 = t:mNcB\ncustomPiece20 = u:fsW\ncustomPiece21 = v:Q\ncustomPiece22 = w:RF\n\
    customPiece23 = x:BW\ncustomPiece24 = y:G\n\
    startFen = k10a/12/12/12/12/12/12/12/12/K10A[AAAAABBBBBCCCCCDDDDDEEEEEFFFFFGGGGGHHHHHIIIIIJJJJJLLLLLMMMMM\
    NNNNNOOOOOPPPPPQQQQQRRRRRSSSSSTTTTTUUUUUVVVVVWWWWWXXXXXYYYYY] w - - 0 1\n";

/// Chess in which a capture must be made, and chess in which no move may give check.
const MOODS: &str = "[must:chess]\nmustCapture = true\n[calm:chess]\nchecking = false\n";

/// Files of variants, each by its name.
pub fn some_files(rt: &impl Abort, alloc: Global) -> MemFiles {
    let mut files = MemFiles::new(alloc);
    files.add(b"f", SECTIONS.as_bytes()).expect(rt, "no fault");
    files
        .add(b"unstarted", UNSTARTED.as_bytes())
        .expect(rt, "no fault");
    files.add(b"mini", MINI.as_bytes()).expect(rt, "no fault");
    files.add(b"large", LARGE.as_bytes()).expect(rt, "no fault");
    files.add(b"moods", MOODS.as_bytes()).expect(rt, "no fault");
    files.add(b"empty", b"").expect(rt, "no fault");
    files
        .add(b"pair", b"castling = true\n")
        .expect(rt, "no fault");
    files
}
