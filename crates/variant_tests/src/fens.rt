//! Tests of `variant_fen`.
ghost use Rattle.rules_model.specs.Fit.{IsFit};

use crate::expect::{expect, expect_of};
use rules_model::Rules;
use sample_rules::{chess, leapers, shouse, xiangqi};
use std::alloc::Global;
use std::io::{self, Write};
use std::process::Abort;
use std::test::Fail;
use variant_fen::{FenFault, read_fen, write_fen};

// The leapers on the largest board, with counted checks.
fn wide() -> Rules
    ensures { IsFit result }
{
    let mut rules = leapers();
    rules.files = 12;
    rules.ranks = 10;
    rules.check_counting = true;
    rules
}

/// The text is read, and the position prints as the second text.
fn prints_as(rt: &impl Abort, alloc: Global, rules: &Rules, text: &str, printed: &str)
    requires { IsFit rules.now }
{
    match read_fen(rules, text.as_bytes()) {
        Ok(p) => {
            let written = write_fen(alloc, rules, &p).expect(rt, "no fault");
            expect_of(rt, &text, written.items.as_slice() == printed.as_bytes());
        }
        Err(fault) => assert!(rt; false, "{text}: {fault}"),
    }
}

/// Each text is read, and the position prints as the second text of its row.
fn all_print(rt: &impl Abort, alloc: Global, rules: &Rules, rows: &str)
    requires { IsFit rules.now }
{
    for row in rows.split('\n') {
        let (text, printed) = row.split_once('|').unwrap_or((row, row));
        prints_as(rt, alloc, rules, text, printed);
    }
}

// A text as it prints; where no pawn could take en passant, and where one could; and without rights and en passant.
#[test]
fn positions_of_chess(rt: HostRuntime) {
    let rows = "\
        rnbqkbnr/pppppppp/8/8/8/8/PPPPPPPP/RNBQKBNR w KQkq - 0 1\n\
        4k3/8/8/8/4P3/8/8/4K3 b - e3 0 1|4k3/8/8/8/4P3/8/8/4K3 b - - 0 1\n\
        4k3/8/8/8/3pP3/8/8/4K3 b - e3 0 1\n\
        4k3/8/8/8/8/8/8/4K3 w 5 7|4k3/8/8/8/8/8/8/4K3 w - - 5 7";
    all_print(&rt, rt.alloc(), &chess(), rows);
}

// A promoted pawn, and a hand for each side; and the rights give the gates of kings and rooks.
#[test]
fn positions_with_hands(rt: HostRuntime) {
    let rows = "\
        4k3/8/8/8/8/3q~4/4P3/4K3[nH] w - - 0 1|4k3/8/8/8/8/3q~4/4P3/4K3[Hn] w - - 0 1\n\
        rnbqkbnr/pppppppp/8/8/8/8/PPPPPPPP/RNBQKBNR[HEhe] w KQBCDFGkqbcdfg - 0 1|\
        rnbqkbnr/pppppppp/8/8/8/8/PPPPPPPP/RNBQKBNR[EHeh] w KQBCDFGkqbcdfg - 0 1";
    all_print(&rt, rt.alloc(), &shouse(), rows);
}

// A text as it prints; the counts are left out, and the number 0 is read as 1.
#[test]
fn positions_of_large_boards(rt: HostRuntime) {
    let rows = "\
        k11/12/12/6n5/12/12/12/12/12/KCNCNCNCNCNC b - - 99+0 9999 9999\n\
        11k/12/12/12/12/12/12/12/12/11K w - - 0+3|11k/12/12/12/12/12/12/12/12/11K w - - 0+3 0 1\n\
        11k/12/12/12/12/12/12/12/12/11K w - - 1+1 7 0|11k/12/12/12/12/12/12/12/12/11K w - - 1+1 7 1";
    all_print(&rt, rt.alloc(), &wide(), rows);
    let start = "rnbakabnr/9/1c5c1/p1p1p1p1p/9/9/P1P1P1P1P/1C5C1/9/RNBAKABNR w - - 0 1";
    all_print(&rt, rt.alloc(), &xiangqi(), start);
}

#[test]
fn faults_print(rt: HostRuntime) -> Result<(), Fail> {
    let faults = [
        FenFault::Length,
        FenFault::Rank,
        FenFault::Letter,
        FenFault::Width,
        FenFault::Pocket,
        FenFault::Side,
        FenFault::Rights,
        FenFault::EnPassant,
        FenFault::Checks,
        FenFault::Counter,
        FenFault::Kings,
        FenFault::OpponentAttacked,
        FenFault::TooMany,
    ];
    let mut told = Vec::new(rt.alloc());
    for fault in faults {
        writeln!(told, "{fault}")?;
    }
    let wanted = b"\
        FenFault 1 Length\n\
        FenFault 2 Rank\n\
        FenFault 3 Letter\n\
        FenFault 4 Width\n\
        FenFault 5 Pocket\n\
        FenFault 6 Side\n\
        FenFault 7 Rights\n\
        FenFault 8 EnPassant\n\
        FenFault 9 Checks\n\
        FenFault 10 Counter\n\
        FenFault 11 Kings\n\
        FenFault 12 OpponentAttacked\n\
        FenFault 13 TooMany\n";
    expect(&rt, told.as_slice() == wanted.as_slice());
    Ok(())
}

/// Writes the fault of a text, or that there is none.
fn tell(told: &mut Vec<u8>, rules: &Rules, text: &str) -> io::Result<()>
    requires { IsFit rules.now }
{
    match read_fen(rules, text.as_bytes()) {
        Ok(_) => writeln!(told, "none"),
        Err(fault) => writeln!(told, "{fault}"),
    }
}

/// The faults of the texts that bars separate.
fn faults_of(alloc: Global, rules: &Rules, texts: &str) -> Result<Vec<u8>, io::Error>
    requires { IsFit rules.now }
{
    let mut told = Vec::new(alloc);
    for text in texts.split('|') {
        tell(&mut told, rules, text)?;
    }
    Ok(told)
}

#[test]
fn the_first_fault_is_answered(rt: HostRuntime) {
    let texts =
        "4k3/8/8 w|4k3/8/8 w - - 0 1|4k3/8/8/8/8/8/8/4K2z w - - 0 1|4k4/8/8/8/8/8/8/4K3 w - - 0 1|\
        4k3/8/8/8/8/8/8/4K3[K] x - - 0 1|4k3/8/8/8/8/8/8/4K3 x K - 0 1|4k3/8/8/8/8/8/8/4K3 w K e6 0 1|\
        4k3/8/8/8/8/8/8/4K3 w - e6 10000 1|8/8/8/8/8/8/8/4K3 w - - 10000 1|8/4R3/8/8/8/8/8/4K3 w - - 0 1|\
        4k3/4R3/8/8/8/8/8/4K3 w - - 0 1";
    let told = faults_of(rt.alloc(), &shouse(), texts).expect(&rt, "no fault");
    let wanted = b"\
        FenFault 1 Length\n\
        FenFault 2 Rank\n\
        FenFault 3 Letter\n\
        FenFault 4 Width\n\
        FenFault 5 Pocket\n\
        FenFault 6 Side\n\
        FenFault 7 Rights\n\
        FenFault 8 EnPassant\n\
        FenFault 10 Counter\n\
        FenFault 11 Kings\n\
        FenFault 12 OpponentAttacked\n";
    expect(&rt, told.as_slice() == wanted.as_slice());
}

/// The faults of a position on a wide board, for each row of its first rank and what follows the side.
fn wide_faults(alloc: Global, rows: &str) -> Result<Vec<u8>, io::Error> {
    let rules = wide();
    let mut told = Vec::new(alloc);
    for row in rows.split('\n') {
        let (rank, last) = row.split_once('|').unwrap_or((row, ""));
        let text = format!(in alloc; "{rank}/12/12/12/12/12/12/12/12/11K w - {last}")?;
        tell(&mut told, &rules, text.as_str())?;
    }
    Ok(told)
}

#[test]
fn ranks_and_checks_have_bounds(rt: HostRuntime) {
    let rows =
        "11k|- 3+2 0 1\n12k|- 3+2 0 1\n10k|- 3+2 0 1\n011k|- 3+2 0 1\n56k|- 3+2 0 1\n11k|- 99+99 0 1\n\
        11k|- 100+3 0 1\n11k|- 3+100 0 1\n11k|- 3 0 1\n11k|- 3+ 0 1\n11k|- 3+2+1 0 1\n11k|- 03+2 0 1";
    let told = wide_faults(rt.alloc(), rows).expect(&rt, "no fault");
    let wanted = b"\
        none\n\
        FenFault 4 Width\n\
        FenFault 4 Width\n\
        FenFault 4 Width\n\
        FenFault 4 Width\n\
        none\n\
        FenFault 9 Checks\n\
        FenFault 9 Checks\n\
        FenFault 9 Checks\n\
        FenFault 9 Checks\n\
        FenFault 9 Checks\n\
        FenFault 9 Checks\n";
    expect(&rt, told.as_slice() == wanted.as_slice());
}

#[test]
fn counts_have_bounds(rt: HostRuntime) {
    let rows =
        "11k|- x 10000 1\n11k|- 0 1\n11k|- 3+2 9999 9999\n11k|- 3+2 10000 1\n11k|- 3+2 0 10000\n\
        11k|- 3+2 01 1\n11k|- 3+2 0 99999999999999999999";
    let told = wide_faults(rt.alloc(), rows).expect(&rt, "no fault");
    let wanted = b"\
        FenFault 9 Checks\n\
        FenFault 1 Length\n\
        none\n\
        FenFault 10 Counter\n\
        FenFault 10 Counter\n\
        FenFault 10 Counter\n\
        FenFault 10 Counter\n";
    expect(&rt, told.as_slice() == wanted.as_slice());
}

// Two kings and this many knights in a hand: the text has 31 bytes besides.
#[test]
fn pieces_and_bytes_have_bounds(rt: HostRuntime) -> Result<(), Fail> {
    let rules = shouse();
    let mut told = Vec::new(rt.alloc());
    for count in [238, 239, 993, 994] {
        let knights = "n".repeat(rt.alloc(), count)?;
        let text = format!(in rt.alloc(); "4k3/8/8/8/8/8/8/4K3[{knights}] w - - 0 1")?;
        tell(&mut told, &rules, text.as_str())?;
    }
    let wanted = b"none\nFenFault 13 TooMany\nFenFault 13 TooMany\nFenFault 1 Length\n";
    expect(&rt, told.as_slice() == wanted.as_slice());
    Ok(())
}
