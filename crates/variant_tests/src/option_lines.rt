//! Tests of `variant_options`.
use crate::expect::expect;
use std::alloc::Global;
use std::io::{self, Write};
use std::test::Fail;
use variant_options::{LineFault, line_fault};

/// Writes the fault of a line, on a line.
fn tell(told: &mut Vec<u8>, fault: Option<LineFault>) -> io::Result<()> {
    match fault {
        None => writeln!(told, "None"),
        Some(LineFault::UnsupportedOption) => writeln!(told, "UnsupportedOption"),
        Some(LineFault::BadValue) => writeln!(told, "BadValue"),
        Some(LineFault::BadPiece(why)) => writeln!(told, "BadPiece {why}"),
    }
}

/// The fault of each line of a key and a value, on a line for each.
fn faults_of(alloc: Global, lines: &str) -> Result<Vec<u8>, Fail> {
    let mut told = Vec::new(alloc);
    for line in lines.split('\n') {
        let (key, value) = line.split_once('=').unwrap_or((line, ""));
        match line_fault(alloc, key.as_bytes(), value.as_bytes()) {
            Ok(fault) => tell(&mut told, fault)?,
            Err(_) => told.extend_from_slice(b"no memory\n")?,
        }
    }
    Ok(told)
}

// Each bad line is nearly a good one.
#[test]
fn lines_and_their_faults(rt: HostRuntime) -> Result<(), Fail> {
    let good =
        "maxRank=10\nmaxFile=L\nstartFen=\ndoubleStep=false\nnFoldRule=0\nextinctionValue=none\n\
        extinctionPieceTypes=*\nflagPiece=K\npromotionPieceTypes=n b R\npromotedPieceType=s:g  P:g\n\
        flagRegionWhite=d4 *10\nmobilityRegionBlackCustomPiece24=*1\npocketSize=6\nking=k:WF";
    let told = faults_of(rt.alloc(), good)?;
    let wanted =
        "None\nNone\nNone\nNone\nNone\nNone\nNone\nNone\nNone\nNone\nNone\nNone\nNone\nNone\n";
    expect(&rt, told.as_slice() == wanted.as_bytes());
    let bad =
        "maxRank=11\nmaxFile=13\ndoubleStep=False\nnFoldRule=1\nstalemateValue=none\nnMoveRuleTypes=*\n\
        promotionPieceTypes=n,b\npromotedPieceType=s:\nflagRegionWhite=m4\nmobilityRegionBlackPawn=*1\n\
        blastOnCapture=true\ncustomPiece1=c:fN";
    let told = faults_of(rt.alloc(), bad)?;
    let wanted = "\
        BadValue\n\
        BadValue\n\
        BadValue\n\
        BadValue\n\
        BadValue\n\
        BadValue\n\
        BadValue\n\
        BadValue\n\
        BadValue\n\
        UnsupportedOption\n\
        UnsupportedOption\n\
        BadPiece BetzaFault 6 AmbiguousDirection 0\n";
    expect(&rt, told.as_slice() == wanted.as_bytes());
    Ok(())
}
