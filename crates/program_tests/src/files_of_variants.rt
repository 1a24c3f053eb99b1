//! The file of variants: when it is read, and its faults.
use crate::expect::expect_eq;
use crate::runs::{BUILTIN, USAGE_LINE, ran, says, some_files};
use io_ports::{Files, Given, MemFiles};
use std::alloc::Global;
use std::process::Abort;
use std::sync::Wait;
use std::thread::Threads;

/// Files that fail at every call.
#[derive(Drop)]
struct FailingFiles {
    faults: u64,
}

impl Files for FailingFiles {
    ghost use Rattle.std.specs.Prelude.{None};

    ghost contents = { λ files. None };

    ghost faults = { λ files. files.faults };

    fn read(&mut self, _name: &[u8], _out: &mut Vec<u8>) -> Given {
        self.faults = self.faults.saturating_add(1);
        Given::Failed
    }
}

/// A file of the most bytes that one may have, all of them comments.
fn largest_file(rt: &impl Abort, alloc: Global) -> Vec<u8> {
    let mut bytes = Vec::new(alloc);
    for _ in 0..1024 {
        bytes
            .extend_from_slice(&[b'#'; 1023])
            .expect(rt, "no fault");
        bytes.push(b'\n').expect(rt, "no fault");
    }
    bytes
}

/// Runs words over these files and a source that fails at its first call, and asserts the status and the text.
fn fails<R: Abort + AllocGlobal + Threads + Wait + Sync, F: Files>(
    rt: &R,
    files: &mut F,
    words: &[&str],
    status: u8,
    text: &[u8],
) {
    let (answered, sink) = ran(rt, files, words, b"chess\n", &[0], 1000);
    expect_eq(rt, answered, status);
    expect_eq(rt, sink.taken(), text);
}

/// Files of variants of the most bytes, and of one more.
fn large_files(rt: &impl Abort, alloc: Global) -> MemFiles {
    let mut files = some_files(rt, alloc);
    let mut bytes = largest_file(rt, alloc);
    files
        .add(b"largest", bytes.as_slice())
        .expect(rt, "no fault");
    bytes.push(b'#').expect(rt, "no fault");
    files
        .add(b"larger", bytes.as_slice())
        .expect(rt, "no fault");
    files
}

/// A file that is missing, too large, or no list of sections.
#[test]
fn the_file_of_variants_is_judged_before_the_command(rt: HostRuntime) {
    let mut files = large_files(&rt, rt.alloc());
    let missing = b"error FileFault 1 Missing\n";
    let reach = ["--variants=none", "reach", "fN", "i9"].as_slice();
    fails(&rt, &mut files, reach, 6, missing);
    let words = ["--variants", "larger", "moves"].as_slice();
    fails(&rt, &mut files, words, 6, b"error FileFault 2 TooLarge\n");
    let words = ["--variants", "pair", "moves"].as_slice();
    fails(&rt, &mut files, words, 3, b"error IniFault 4 NoSection 1\n");
    let words = ["--variants", "none", "uci"].as_slice();
    fails(&rt, &mut files, words, 6, missing);
}

/// The source fails at its first call, so that a command that is reached and reads it has status 4; other words are
/// refused before the file is read.
#[test]
fn the_command_comes_after_the_file_of_variants(rt: HostRuntime) {
    let mut files = large_files(&rt, rt.alloc());
    fails(&rt, &mut files, &["--variants", "largest", "moves"], 4, b"");
    fails(&rt, &mut files, &["moves"], 4, b"");
    let usage = USAGE_LINE.as_bytes();
    fails(
        &rt,
        &mut files,
        &["--variants", "pair", "reach", "N"],
        2,
        usage,
    );
    let words = ["--variants", "empty", "reach", "N", "i9"].as_slice();
    fails(
        &rt,
        &mut files,
        words,
        3,
        b"error ReachFault 1 BadSquare i9\n",
    );
}

#[test]
fn files_that_fail_have_a_status(rt: HostRuntime) {
    let mut files = FailingFiles { faults: 0 };
    let words = ["--variants", "f", "moves"].as_slice();
    fails(&rt, &mut files, words, 6, b"error FileFault 3 Failed\n");
}

/// Asserts that a file of variants is refused, with this text, before each kind of command: the source, which fails at
/// its first call, is not asked.
fn refuses_each<R: Abort + AllocGlobal + Threads + Wait + Sync>(
    rt: &R,
    files: &mut MemFiles,
    name: &str,
    text: &str,
) {
    let text = text.as_bytes();
    fails(rt, files, &["--variants", name, "moves"], 3, text);
    fails(rt, files, &["--variants", name, "variants"], 3, text);
    fails(rt, files, &["--variants", name, "uci"], 3, text);
    fails(rt, files, &["--variants", name, "xboard"], 3, text);
}

/// A line of a file with one byte too many, and a file with one section too many.
fn add_long_and_many(rt: &impl Abort, alloc: Global, files: &mut MemFiles) {
    let mut long = Vec::new(alloc);
    long.resize(1025, b'[').expect(rt, "no fault");
    let mut many = Vec::new(alloc);
    for _ in 0..513 {
        many.extend_from_slice(b"[a]\n").expect(rt, "no fault");
    }
    files.add(b"long", long.as_slice()).expect(rt, "no fault");
    files.add(b"many", many.as_slice()).expect(rt, "no fault");
}

#[test]
fn a_faulty_file_of_variants_stops_each_command(rt: HostRuntime) {
    let mut files = MemFiles::new(rt.alloc());
    add_long_and_many(&rt, rt.alloc(), &mut files);
    files.add(b"open", b"[a").expect(&rt, "no fault");
    files.add(b"byte", b"\xff").expect(&rt, "no fault");
    refuses_each(&rt, &mut files, "open", "error IniFault 5 BadLine 1\n");
    refuses_each(&rt, &mut files, "byte", "error IniFault 2 NotAscii 1\n");
    refuses_each(&rt, &mut files, "long", "error IniFault 3 LineTooLong 1\n");
    let many = "error IniFault 6 TooManySections 513\n";
    refuses_each(&rt, &mut files, "many", many);
}

/// A section for each fault that one may have.
const REFUSED: &str = "[chess]\n[orphan:nobody]\n[key:chess]\nblastOnCapture = true\n[child:key]\n\
    [value:chess]\nmaxRank = 11\n[word:chess]\ncustomPiece1 = w:fC\n[letter:chess]\nwazir = q\nfers = q\n\
    [start:chess]\ncastling = false\n[bare]\n[promotes:chess]\npromotionPieceTypes = p\n\
    [pairs:chess]\npromotedPieceType = p:q\n[gates:chess]\nseirawanGating = true\n\
    [ranks:chess]\ngating = true\ncastlingRank = 2\n";

/// The lines of `variants` on the sections of `REFUSED`.
const JUDGED: &str = "chess SectionFault 1 DuplicateName\norphan SectionFault 2 UnknownParent\n\
    key SectionFault 4 UnsupportedOption blastOnCapture\nchild SectionFault 3 RefusedParent\n\
    value SectionFault 5 BadValue maxRank\n\
    word SectionFault 6 BadPiece customPiece1 BetzaFault 6 AmbiguousDirection 0\n\
    letter SectionFault 7 LetterTwice q\nstart SectionFault 8 BadStart FenFault 7 Rights\n\
    bare SectionFault 9 Inconsistent 1\npromotes SectionFault 9 Inconsistent 2\n\
    pairs SectionFault 9 Inconsistent 3\ngates SectionFault 9 Inconsistent 4\n\
    ranks SectionFault 9 Inconsistent 5\n";

/// Files of variants that are refused in a session, which then has the sections and the game that it had.
const PATHS: &str = "setoption name UCI_Variant value b\nposition startpos moves e2e4\n\
    setoption name UCI_Variant value key\nsetoption name UCI_Variant value none\n\
    setoption name VariantPath value larger\nsetoption name VariantPath value refused\n\
    setoption name UCI_Variant value d\nstatus\nquit\n";

/// What the session of `PATHS` answers.
const KEPT: &str = "info string error OptionFault 2 UnknownVariant key\n\
    info string error OptionFault 2 UnknownVariant none\ninfo string error FileFault 2 TooLarge\n\
    info string error FileFault 3 Failed\n\
    info string error SectionFault 4 UnsupportedOption blastOnCapture\n\
    ongoing\nrnbqkbnr/pppppppp/8/8/4P3/8/PPPP1PPP/RNBQKBNR b - - 0 1\n";

#[test]
fn each_section_is_judged_by_itself(rt: HostRuntime) {
    let mut larger = largest_file(&rt, rt.alloc());
    larger.push(b'#').expect(&rt, "no fault");
    let mut files = some_files(&rt, rt.alloc());
    files
        .add(b"refused", REFUSED.as_bytes())
        .expect(&rt, "no fault");
    files
        .add(b"larger", larger.as_slice())
        .expect(&rt, "no fault");
    let listed = format!(in rt.alloc(); "{BUILTIN}{JUDGED}").expect(&rt, "no fault");
    let words = ["--variants", "refused", "variants"].as_slice();
    says(&rt, &mut files, words, b"", 0, listed.as_bytes());
    files.fail_at(3).expect(&rt, "no fault");
    let words = ["--variants", "f", "uci"].as_slice();
    says(&rt, &mut files, words, PATHS.as_bytes(), 0, KEPT.as_bytes());
}
