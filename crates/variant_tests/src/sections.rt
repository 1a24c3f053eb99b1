//! Tests of the faults and the rules of a section, of `variant_rules`.
use crate::expect::{expect, expect_eq};
use rules_model::{Kind, KindRule, Memory, Rules, Square};
use std::alloc::Global;
use std::io::Write;
use std::process::Abort;
use std::test::Fail;
use variant_ini::Sections;
use variant_model::SectionFault;
use variant_rules::{LetteredSections, Resolved, bare_rules, own_fault, rules_fault};

fn sections_of(alloc: Global, text: &[u8]) -> Result<Sections, Fail> {
    let mut sections = Sections::new(alloc);
    sections.add(text).map_err(|_| "sections")?;
    Ok(sections)
}

// The first fault of the last section but for those of its header and its start.
fn judged(alloc: Global, sections: &Sections) -> Result<Option<SectionFault>, Memory> {
    if sections.len() == 0 {
        return Ok(Some(SectionFault::Inconsistent(0)));
    }
    let place = sections.len() - 1;
    let own = own_fault(alloc, sections, place)?;
    if own.is_some() {
        return Ok(own);
    }
    let lettered = LetteredSections::new(alloc, sections)?;
    let section = Resolved::new(&lettered, place);
    let rules = bare_rules(alloc, &section)?;
    rules_fault(alloc, &section, &rules)
}

/// What `judged` says of the sections of each text that bars separate.
fn faults_of(alloc: Global, texts: &[u8]) -> Result<Vec<u8>, Fail> {
    let mut told = Vec::new(alloc);
    for text in texts.split(|byte| *byte == b'|') {
        let sections = sections_of(alloc, text)?;
        match judged(alloc, &sections) {
            Ok(None) => told.extend_from_slice(b"none\n")?,
            Ok(Some(fault)) => writeln!(told, "{fault}")?,
            Err(_) => told.extend_from_slice(b"no memory\n")?,
        }
    }
    Ok(told)
}

#[test]
fn faults_of_lines(rt: HostRuntime) -> Result<(), Fail> {
    let texts =
        b"[a]\nrook = r|[a]\nrook = r\nblast = 1\nmaxRank = 11|[a]\nrook = r\nmaxRank = 11\nblast = 1|\
        [a]\nking = k:X|[a]\nrook = r\nking = r\nqueen = b\nbishop = b|[a]\nrook = r\n[b:a]\nqueen = r";
    let told = faults_of(rt.alloc(), texts)?;
    let wanted = b"\
        none\n\
        SectionFault 4 UnsupportedOption blast\n\
        SectionFault 5 BadValue maxRank\n\
        SectionFault 6 BadPiece king BetzaFault 3 UnknownAtom 0\n\
        SectionFault 7 LetterTwice b\n\
        none\n";
    expect(&rt, told.as_slice() == wanted.as_slice());
    Ok(())
}

#[test]
fn contradictions(rt: HostRuntime) -> Result<(), Fail> {
    let texts = b"[a]\nmaxRank = 8|[a]\npawn = p\nrook = r\npromotionPieceTypes = rp|\
        [a]\nsilver = s\ngold = g\npromotedPieceType = s:g s:s|[a]\nsilver = s\npromotedPieceType = s:z z:s|\
        [a]\nking = k\nseirawanGating = true|[a]\nking = k\ngating = true\nmaxFile = 10|\
        [a]\nking = k\ngating = true\nmaxFile = k";
    let told = faults_of(rt.alloc(), texts)?;
    let wanted = b"\
        SectionFault 9 Inconsistent 1\n\
        SectionFault 9 Inconsistent 2\n\
        SectionFault 9 Inconsistent 3\n\
        none\n\
        SectionFault 9 Inconsistent 4\n\
        none\n\
        SectionFault 9 Inconsistent 5\n";
    expect(&rt, told.as_slice() == wanted.as_slice());
    Ok(())
}

const CHAIN: &[u8] = b"[a]
pawn = p
king = k:W
rook = r
nMoveRule = 40
maxFile = 9
[b:a]
chancellor = R
flagPiece = q
mobilityRegionBlackKing = *1 *2
[c:b]
checkCounting = true
nFoldRule = 5
startFen = x";

/// The numbers of `c`, which come from all three sections.
fn expect_numbers(rt: &impl Abort, rules: &Rules) {
    let found = [
        rules.n_move,
        rules.n_fold,
        u16::from(rules.files),
        u16::from(rules.ranks),
    ];
    expect_eq(rt, found, [40, 5, 9, 8]);
}

/// The kinds that `c` names. The letter of the rook is the chancellor's.
fn expect_kinds(rt: &impl Abort, rules: &Rules) {
    let found = [rules.king, rules.flag_kind, rules.soldier];
    expect_eq(rt, found, [Some(Kind(10)), None, None]);
    expect(rt, rules.check_counting && !rules.castle_rooks[17]);
}

/// How many terms a kind has, and whether it is the chess pawn.
fn steps_of(rule: &Option<KindRule>) -> (usize, bool) {
    match rule {
        Some(rule) => (rule.terms.items.len(), rule.pawn),
        None => (0, false),
    }
}

/// The steps of the chancellor and of the king, whose word is the value's own.
fn expect_steps(rt: &impl Abort, rules: &Rules) {
    let found = (steps_of(&rules.kinds[17]), steps_of(&rules.kinds[10]));
    expect_eq(rt, found, ((12, false), (4, false)));
}

/// Whether each region has its own squares of the board, and none beside it.
fn expect_regions(rt: &impl Abort, rules: &Rules) {
    let palace = match &rules.kinds[10] {
        Some(king) => king.mobility[1],
        None => rules.promotion[1],
    };
    let found = [
        palace.squares[Square::at(8, 1).0 as usize],
        palace.squares[Square::at(9, 1).0 as usize],
        palace.squares[Square::at(8, 2).0 as usize],
        rules.promotion[0].squares[Square::at(8, 7).0 as usize],
        rules.promotion[0].squares[Square::at(9, 7).0 as usize],
    ];
    expect_eq(rt, found, [true, false, false, true, false]);
}

/// The rules of the last section, and whether its start is of this text.
fn last_rules(alloc: Global, start: &[u8]) -> Result<(Rules, bool), Fail> {
    let sections = sections_of(alloc, CHAIN)?;
    if sections.len() != 3 {
        return Err("three sections".into());
    }
    let lettered = LetteredSections::new(alloc, &sections)?;
    let section = Resolved::new(&lettered, 2);
    let rules = bare_rules(alloc, &section)?;
    Ok((rules, section.start_text() == start))
}

#[test]
fn fields(rt: HostRuntime) -> Result<(), Fail> {
    let (rules, has_start) = last_rules(rt.alloc(), b"x")?;
    expect(&rt, has_start);
    expect_numbers(&rt, &rules);
    expect_kinds(&rt, &rules);
    expect_steps(&rt, &rules);
    expect_regions(&rt, &rules);
    Ok(())
}
