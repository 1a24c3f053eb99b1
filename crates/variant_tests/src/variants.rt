//! Tests of `variant_rules`.
use crate::expect::{expect, expect_eq};
use rules_model::Rules;
use std::alloc::{AllocError, Global};
use std::process::Abort;
use variant_rules::{Found, SectionFault, Variants, builtin, load};

// a changes one option of chess, b one of a, c one of b; d has an option that is refused by its name, and e is its
// child.
const CHAIN: &[u8] = b"[a:chess]\n\
    nMoveRule = 40\n\
    [b:a]\n\
    castling = false\n\
    startFen = rnbqkbnr/pppppppp/8/8/8/8/PPPPPPPP/RNBQKBNR w - - 0 1\n\
    [c:b]\n\
    nFoldRule = 2\n\
    [d:chess]\n\
    blastOnCapture = true\n\
    [e:d]";

// The built-in variants and those of a file.
fn variants_with(rt: &impl Abort, alloc: Global, file: &[u8]) -> Variants {
    let mut sections = builtin(alloc).expect(rt, "no fault");
    sections.add(file).ok().expect(rt, "no fault");
    load(alloc, &sections).expect(rt, "no fault")
}

// How an entry prints.
fn printed(alloc: Global, entry: Result<&Rules, &SectionFault>) -> Result<String, AllocError> {
    match entry {
        Ok(_) => String::from_str(alloc, "ok"),
        Err(fault) => format!(in alloc; "{fault}"),
    }
}

/// Each entry: its name, and how it prints.
fn entries_of(alloc: Global, variants: &Variants) -> Result<Vec<u8>, AllocError> {
    let mut told = Vec::new(alloc);
    for place in 0..variants.len() {
        let (name, entry) = variants.entry(place);
        told.extend_from_slice(name)?;
        told.push(b':')?;
        let text = printed(alloc, entry)?;
        told.extend_from_slice(text.as_bytes())?;
        told.push(b'\n')?;
    }
    Ok(told)
}

#[test]
fn a_file_stands_below_the_built_in_variants(rt: HostRuntime) {
    let variants = variants_with(&rt, rt.alloc(), CHAIN);
    let told = entries_of(rt.alloc(), &variants).expect(&rt, "no fault");
    let wanted = b"\
        chess:ok\n\
        crazyhouse:ok\n\
        3check:ok\n\
        kingofthehill:ok\n\
        antichess:ok\n\
        extinction:ok\n\
        losalamos:ok\n\
        capablanca:ok\n\
        seirawan:ok\n\
        xiangqi:ok\n\
        a:ok\n\
        b:ok\n\
        c:ok\n\
        d:SectionFault 4 UnsupportedOption blastOnCapture\n\
        e:SectionFault 3 RefusedParent\n";
    expect(&rt, told.as_slice() == wanted.as_slice());
}

/// The numbers of a variant's move and repetition rules, and whether kings castle there.
fn counts_of(found: Found) -> Option<(u16, u16, bool)> {
    match found {
        Found::Rules(rules) => Some((rules.n_move, rules.n_fold, rules.castling)),
        _ => None,
    }
}

/// What becomes of those that are no variants: one that has a refused parent, and an unknown name.
fn are_refused(variants: &Variants) -> bool {
    matches!(
        variants.find(b"e"),
        Found::Refused(SectionFault::RefusedParent)
    ) && matches!(variants.find(b"f"), Found::Unknown)
}

#[test]
fn options_come_from_all_parents(rt: HostRuntime) {
    let variants = variants_with(&rt, rt.alloc(), CHAIN);
    let counts = counts_of(variants.find(b"c"));
    expect_eq(&rt, counts, Some((40, 2, false)));
    expect(&rt, are_refused(&variants));
}

/// How the first section of each file that bars separate prints, on a line for each.
fn first_entries(rt: &impl Abort, alloc: Global, files: &[u8]) -> Vec<u8> {
    let mut told = Vec::new(alloc);
    for file in files.split(|byte| *byte == b'|') {
        let variants = variants_with(rt, alloc, file);
        if 10 < variants.len() {
            let (_, entry) = variants.entry(10);
            let text = printed(alloc, entry).expect(rt, "no fault");
            told.extend_from_slice(text.as_bytes())
                .expect(rt, "no fault");
        }
        told.push(b'\n').expect(rt, "no fault");
    }
    told
}

#[test]
fn the_first_fault_is_the_answer(rt: HostRuntime) {
    let files =
        b"[chess]\nblast = 1|[x:x]\nblast = 1|[x:y]\n[y:chess]|[x:chess]\nblast = 1\nnFoldRule = 1|\
        [x:chess]\nnFoldRule = 1\nblast = 1|[x:chess]\ncustomPiece1 = a:fN|\
        [x]\nqueen = Q\namazon = q\nrook = a\nbishop = a\nseirawanGating = true";
    let told = first_entries(&rt, rt.alloc(), files);
    let wanted = b"\
        SectionFault 1 DuplicateName\n\
        SectionFault 2 UnknownParent\n\
        SectionFault 2 UnknownParent\n\
        SectionFault 4 UnsupportedOption blast\n\
        SectionFault 5 BadValue nFoldRule\n\
        SectionFault 6 BadPiece customPiece1 BetzaFault 6 AmbiguousDirection 0\n\
        SectionFault 7 LetterTwice a\n";
    expect(&rt, told.as_slice() == wanted.as_slice());
    let files = b"[x:chess]\nseirawanGating = true\nstartFen = none|[x]|[x:chess]\nstartFen = none|\
        [x:chess]\ncastling = false|[x:chess]";
    let told = first_entries(&rt, rt.alloc(), files);
    let wanted = b"\
        SectionFault 9 Inconsistent 4\n\
        SectionFault 9 Inconsistent 1\n\
        SectionFault 8 BadStart FenFault 1 Length\n\
        SectionFault 8 BadStart FenFault 7 Rights\n\
        ok\n";
    expect(&rt, told.as_slice() == wanted.as_slice());
}
