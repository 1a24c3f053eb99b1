//! `rules`: what a variant tells of its rules.
use crate::expect::{expect, expect_eq};
use crate::runs::{ROOM, is_cut, ran, refuses, some_files, tells};
use io_ports::{MemFiles, MemSink};
use std::alloc::Global;
use std::process::Abort;
use std::sync::Wait;
use std::thread::Threads;

/// What chess tells.
const CHESS: &str =
    "bishop = b\nking = k\nknight = n\npawn = p\npromotionPieceTypes = nbrq\nqueen = q\nrook = r\n\
    startFen = rnbqkbnr/pppppppp/8/8/8/8/PPPPPPPP/RNBQKBNR w KQkq - 0 1\n";

/// What antichess tells: it has no king, which chess has.
const ANTICHESS: &str =
    "bishop = b\ncastling = false\ncommoner = k\nextinctionPieceTypes = *\nextinctionValue = win\n\
    knight = n\nmustCapture = true\npawn = p\npromotionPieceTypes = nbrqk\nqueen = q\nrook = r\n\
    stalemateValue = win\nstartFen = rnbqkbnr/pppppppp/8/8/8/8/PPPPPPPP/RNBQKBNR w - - 0 1\n";

/// The section `c` of the file `f`, whose parent and whose parent's parent have options too.
const GRANDCHILD: &str =
    "bishop = b\ncastling = false\nking = k\nknight = n\nnFoldRule = 2\nnMoveRule = 40\npawn = p\n\
    promotionPieceTypes = nbrq\nqueen = q\nrook = r\n\
    startFen = rnbqkbnr/pppppppp/8/8/8/8/PPPPPPPP/RNBQKBNR w - - 0 1\n";

/// The lines are in byte order of their keys.
#[test]
fn the_rules_of_a_variant_are_told(rt: HostRuntime) {
    tells(&rt, &["rules", "chess"], "a line\n", CHESS);
    tells(&rt, &["rules", "antichess"], "", ANTICHESS);
    let words = ["--variants", "f", "rules", "c"].as_slice();
    tells(&rt, words, "", GRANDCHILD);
}

#[test]
fn rules_of_no_variant_are_refused(rt: HostRuntime) {
    let unknown = "error GameFault 2 UnknownVariant Chess\n";
    refuses(&rt, &["rules", "Chess"], "", unknown);
    let words = ["--variants", "f", "rules", "d"].as_slice();
    let why = "error GameFault 3 RefusedVariant SectionFault 4 UnsupportedOption blastOnCapture\n";
    refuses(&rt, words, "", why);
    let words = ["--variants", "f", "rules", "e"].as_slice();
    let why = "error GameFault 3 RefusedVariant SectionFault 3 RefusedParent\n";
    refuses(&rt, words, "", why);
}

/// A front part of the lines is written where the sink has room for no more. The source, which fails, is not asked.
#[test]
fn rules_are_cut_short(rt: HostRuntime) {
    let mut files = MemFiles::new(rt.alloc());
    is_cut(&rt, &mut files, &["rules", "chess"], b"", CHESS.as_bytes());
    let (status, sink) = ran(&rt, &mut files, &["rules", "chess"], b"", &[0], ROOM);
    expect(&rt, status == 0 && sink.taken() == CHESS.as_bytes());
}

/// The rules of a variant of these files.
fn told<R: Abort + AllocGlobal + Threads + Wait + Sync>(
    rt: &R,
    files: &mut MemFiles,
    file: &str,
    name: &str,
) -> MemSink {
    let words = ["--variants", file, "rules", name];
    let (status, sink) = ran(rt, files, words.as_slice(), b"", &[], ROOM);
    expect_eq(rt, status, 0);
    sink
}

/// A file of a header and these lines.
fn file_of(rt: &impl Abort, alloc: Global, lines: &[u8]) -> Vec<u8> {
    let mut bytes = Vec::new(alloc);
    bytes.extend_from_slice(b"[again]\n").expect(rt, "no fault");
    bytes.extend_from_slice(lines).expect(rt, "no fault");
    bytes
}

/// Asserts that the rules of a variant, below a header, tell themselves.
fn is_told_again<R: Abort + AllocGlobal + Threads + Wait + Sync>(rt: &R, file: &str, name: &str) {
    let mut files = some_files(rt, rt.alloc());
    let first = told(rt, &mut files, file, name);
    let bytes = file_of(rt, rt.alloc(), first.taken());
    files.add(b"again", bytes.as_slice()).expect(rt, "no fault");
    let second = told(rt, &mut files, "again", "again");
    expect(rt, first.taken() == second.taken());
}

#[test]
fn rules_below_a_header_are_a_variant(rt: HostRuntime) {
    is_told_again(&rt, "f", "c");
    is_told_again(&rt, "mini", "mini");
    is_told_again(&rt, "large", "large");
    is_told_again(&rt, "empty", "xiangqi");
}
