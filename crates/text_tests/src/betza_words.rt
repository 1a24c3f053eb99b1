//! Tests of `betza_text`.
ghost use Rattle.std.specs.Prelude.{◌<◌};

use crate::expect::{expect, expect_eq};
use betza_text::{BetzaFault, HopKind, Part, parse, part_steps};
use std::alloc::{AllocError, Global};
use std::io::{self, Write};
use std::process::Abort;

/// Writes the steps of a part.
fn tell_steps(told: &mut Vec<u8>, part: &Part) -> io::Result<()> {
    let steps = part_steps(part);
    for step in steps.items.iter() {
        write!(told, " {},{}", step.dx, step.dy)?;
    }
    Ok(())
}

/// The steps of the first part of each word that blanks separate, on a line for each.
fn steps(rt: &impl Abort, alloc: Global, words: &[u8]) -> Vec<u8> {
    let mut told = Vec::new(alloc);
    for word in words.split(|byte| *byte == b' ') {
        let betza = parse(alloc, word).expect(rt, "no fault");
        told.extend_from_slice(word).expect(rt, "no fault");
        tell_steps(
            &mut told,
            betza.items.first().ok_or("no part").expect(rt, "no fault"),
        )
        .expect(rt, "no fault");
        told.push(b'\n').expect(rt, "no fault");
    }
    told
}

/// The fault of each word that bars separate, on a line for each.
fn faults_of(alloc: Global, words: &[u8]) -> Result<Vec<u8>, io::Error> {
    let mut told = Vec::new(alloc);
    for word in words.split(|byte| *byte == b'|') {
        match parse(alloc, word) {
            Ok(_) => told.extend_from_slice(b"none\n")?,
            Err(fault) => writeln!(told, "{fault}")?,
        }
    }
    Ok(told)
}

/// The answer to a word as a sign: a word of Betza, or the kind of its fault.
fn sign_of(alloc: Global, word: &[u8]) -> u8 {
    match parse(alloc, word) {
        Ok(_) => b'+',
        Err(BetzaFault::UnknownAtom(_)) => b'u',
        Err(BetzaFault::UnsupportedModifier(_)) => b'm',
        Err(BetzaFault::DoubledModifier(_)) => b'd',
        Err(BetzaFault::AmbiguousDirection(_)) => b'?',
        Err(BetzaFault::BadLame(_)) => b'n',
        Err(_) => b'!',
    }
}

/// The signs of the words that blanks separate.
fn signs(alloc: Global, words: &[u8]) -> Result<Vec<u8>, AllocError> {
    let mut told = Vec::new(alloc);
    for word in words.split(|byte| *byte == b' ') {
        told.push(sign_of(alloc, word))?;
    }
    Ok(told)
}

#[test]
fn one_direction_letter(rt: HostRuntime) {
    let orthogonal = steps(&rt, rt.alloc(), b"fW bD lH rR vW sD");
    let wanted = b"fW 0,1\nbD 0,-2\nlH -3,0\nrR 1,0\nvW 0,-1 0,1\nsD -2,0 2,0\n";
    expect(&rt, orthogonal.as_slice() == wanted.as_slice());
    let diagonal = steps(&rt, rt.alloc(), b"fF bA lG rB vF sA");
    let wanted = b"\
        fF -1,1 1,1\n\
        bA -2,-2 2,-2\n\
        lG -3,-3 -3,3\n\
        rB 1,-1 1,1\n\
        vF -1,-1 1,-1 -1,1 1,1\n\
        sA -2,-2 2,-2 -2,2 2,2\n";
    expect(&rt, diagonal.as_slice() == wanted.as_slice());
    let royal = steps(&rt, rt.alloc(), b"fK bQ lK rQ");
    let wanted = b"fK 0,1 -1,1 1,1\nbQ 0,-1 -1,-1 1,-1\nlK -1,0 -1,-1 -1,1\nrQ 1,0 1,-1 1,1\n";
    expect(&rt, royal.as_slice() == wanted.as_slice());
}

#[test]
fn more_direction_letters(rt: HostRuntime) {
    let leaps = steps(
        &rt,
        rt.alloc(),
        b"ffN llN fsN bhN rhN vvN ssN ffbsN ffffN fsL llJ bsZ ffC",
    );
    let wanted = b"\
        ffN -1,2 1,2\n\
        llN -2,-1 -2,1\n\
        fsN -2,1 2,1\n\
        bhN -1,-2 1,-2 -2,-1 2,-1\n\
        rhN 1,-2 2,-1 2,1 1,2\n\
        vvN -1,-2 1,-2 -1,2 1,2\n\
        ssN -2,-1 2,-1 -2,1 2,1\n\
        ffbsN -2,-1 2,-1 -1,2 1,2\n\
        ffffN -1,2 1,2\n\
        fsL -3,1 3,1\n\
        llJ -3,-2 -3,2\n\
        bsZ -3,-2 3,-2\n\
        ffC -1,3 1,3\n";
    expect(&rt, leaps.as_slice() == wanted.as_slice());
    let others = steps(
        &rt,
        rt.alloc(),
        b"flA frblF brF ffF fbF lrsG fflW sfD mfcrW",
    );
    let wanted = b"\
        flA -2,2\n\
        frblF -1,-1 1,1\n\
        brF 1,-1\n\
        ffF -1,1 1,1\n\
        fbF -1,-1 1,-1 -1,1 1,1\n\
        lrsG -3,-3 3,-3 -3,3 3,3\n\
        fflW -1,0 0,1\n\
        sfD -2,0 2,0 0,2\n\
        mfcrW 1,0 0,1\n";
    expect(&rt, others.as_slice() == wanted.as_slice());
}

// `h` has a meaning beside another letter of a leap alone, and `v` and `s` have none for a piece that goes both ways.
#[test]
fn some_letters_have_no_one_meaning(rt: HostRuntime) {
    let singles = signs(rt.alloc(), b"hW hD hF hA vK sK hK vQ fN bL lC rJ vZ sN hL").expect(
        &rt, "no fault",
    );
    expect(&rt, singles.as_slice() == b"???????????????".as_slice());
    let more = b"fbN sfN hhN vsN fffN hfN rsL flJ vhN shN lfF flfF flrF fsF hhW ffK flQ";
    let found = signs(rt.alloc(), more).expect(&rt, "no fault");
    expect(&rt, found.as_slice() == b"?????????????????".as_slice());
}

/// Writes what a part says: how it moves (`m`, `c`, `n`, `p` and `g`), its directions, its atom, whether that is
/// doubled (`*`), and its number.
fn tell_part(told: &mut Vec<u8>, part: &Part) -> Result<(), io::Error> {
    let signs = [
        (part.quiet, b'm'),
        (part.takes, b'c'),
        (part.lame, b'n'),
        (matches!(part.hop, HopKind::Over), b'p'),
        (matches!(part.hop, HopKind::Behind), b'g'),
    ];
    for (is_there, sign) in signs {
        if is_there {
            told.push(sign)?;
        }
    }
    told.extend_from_slice(part.dirs.items.as_slice())?;
    told.push(part.atom)?;
    if part.doubled {
        told.push(b'*')?;
    }
    if let Some(number) = part.number {
        write!(told, "{number}")?;
    }
    Ok(told.push(b' ')?)
}

/// The parts of the words that blanks separate.
fn parts_of(rt: &impl Abort, alloc: Global, words: &[u8]) -> Vec<u8> {
    let mut told = Vec::new(alloc);
    for word in words.split(|byte| *byte == b' ') {
        let betza = parse(alloc, word).expect(rt, "no fault");
        for part in betza.items.iter() {
            tell_part(&mut told, part).expect(rt, "no fault");
        }
        told.push(b'/').expect(rt, "no fault");
    }
    told
}

#[test]
fn a_word_has_parts(rt: HostRuntime) {
    let atoms = parts_of(&rt, rt.alloc(), b"N NN NNN NNNN0 R3R WmW W10F11 KKfQ9 LCJZ");
    let wanted =
        b"mcN /mcN* /mcN* mcN /mcN* mcN*0 /mcR3 mcR /mcW mW /mcW10 mcF11 /mcK* mcfQ9 /mcL mcC mcJ mcZ /";
    expect(&rt, atoms.as_slice() == wanted.as_slice());
    let modified = parts_of(&rt, rt.alloc(), b"mW cW cmW mnN fcpfR lgrR2 bnfmsD");
    let wanted = b"mW /cW /mcW /mnN /cpffR /mcglrR2 /mnbfsD /";
    expect(&rt, modified.as_slice() == wanted.as_slice());
}

#[test]
fn a_fault_has_a_kind_and_a_place(rt: HostRuntime) {
    let first = faults_of(rt.alloc(), b"|m|E|2W|W W|W\xff|m\0|Wf|mxW|[W]|W)|WF}|W-F").expect(
        &rt, "no fault",
    );
    let wanted = b"\
        BetzaFault 1 Empty 0\n\
        BetzaFault 3 UnknownAtom 1\n\
        BetzaFault 3 UnknownAtom 0\n\
        BetzaFault 3 UnknownAtom 0\n\
        BetzaFault 3 UnknownAtom 1\n\
        BetzaFault 3 UnknownAtom 1\n\
        BetzaFault 3 UnknownAtom 1\n\
        BetzaFault 3 UnknownAtom 2\n\
        BetzaFault 4 UnsupportedModifier 1\n\
        BetzaFault 4 UnsupportedModifier 0\n\
        BetzaFault 4 UnsupportedModifier 1\n\
        BetzaFault 4 UnsupportedModifier 2\n\
        BetzaFault 4 UnsupportedModifier 1\n";
    expect(&rt, first.as_slice() == wanted.as_slice());
    let words = b"cfcW|nfnR|gpgR|mfnhW|WmfN|fmnW|nNN|nN1|pnL|pgR|gfpmR|npN|R12|R100|R01|mRR20W";
    let later = faults_of(rt.alloc(), words).expect(&rt, "no fault");
    let wanted = b"\
        BetzaFault 5 DoubledModifier 2\n\
        BetzaFault 5 DoubledModifier 2\n\
        BetzaFault 5 DoubledModifier 2\n\
        BetzaFault 6 AmbiguousDirection 1\n\
        BetzaFault 6 AmbiguousDirection 2\n\
        BetzaFault 7 BadLame 2\n\
        BetzaFault 7 BadLame 0\n\
        BetzaFault 7 BadLame 0\n\
        BetzaFault 7 BadLame 1\n\
        BetzaFault 8 BadHopper 1\n\
        BetzaFault 8 BadHopper 2\n\
        BetzaFault 8 BadHopper 1\n\
        BetzaFault 9 BadNumber 1\n\
        BetzaFault 9 BadNumber 1\n\
        BetzaFault 9 BadNumber 1\n\
        BetzaFault 9 BadNumber 3\n";
    expect(&rt, later.as_slice() == wanted.as_slice());
}

// The first fault is told: of two modifiers, of a number and a direction, and of two parts.
#[test]
fn the_first_fault_is_told(rt: HostRuntime) {
    let words =
        b"xmm|mmx|fN12|fNx|NnnN|pgN|NLJNLJNLJ|NLJNLJNLmfW|NLJNLJNLpW|NLJNLJNfhNNhhN|NLJNLJNLWx|NLJNLJNL";
    let found = faults_of(rt.alloc(), words).expect(&rt, "no fault");
    let wanted = b"\
        BetzaFault 4 UnsupportedModifier 0\n\
        BetzaFault 5 DoubledModifier 1\n\
        BetzaFault 9 BadNumber 2\n\
        BetzaFault 6 AmbiguousDirection 0\n\
        BetzaFault 5 DoubledModifier 2\n\
        BetzaFault 8 BadHopper 1\n\
        BetzaFault 10 TooManyTerms 8\n\
        BetzaFault 10 TooManyTerms 10\n\
        BetzaFault 8 BadHopper 8\n\
        BetzaFault 6 AmbiguousDirection 11\n\
        BetzaFault 10 TooManyTerms 8\n\
        none\n";
    expect(&rt, found.as_slice() == wanted.as_slice());
}

#[test]
fn a_word_has_at_most_64_bytes(rt: HostRuntime) {
    let mut word = [b'f'; 64];
    let atomless = faults_of(rt.alloc(), &word).expect(&rt, "no fault");
    expect(
        &rt,
        atomless.as_slice() == b"BetzaFault 3 UnknownAtom 64\n".as_slice(),
    );
    word[63] = b'W';
    let long = faults_of(rt.alloc(), &word).expect(&rt, "no fault");
    expect(&rt, long.as_slice() == b"none\n".as_slice());
    let longer = faults_of(rt.alloc(), &[b'x'; 65]).expect(&rt, "no fault");
    expect(
        &rt,
        longer.as_slice() == b"BetzaFault 2 TooLong 64\n".as_slice(),
    );
}

/// The bytes that give `cfW2` this sign where they are put at this place, after the sign.
fn bytes_with(alloc: Global, place: usize, sign: u8) -> Result<Vec<u8>, AllocError>
    requires { place < 4 }
{
    let mut word = *b"cfW2";
    let mut told = Vec::from_slice(alloc, &[sign])?;
    for byte in 0..=255 {
        word[place] = byte;
        if sign_of(alloc, &word) == sign {
            told.push(byte)?;
        }
    }
    Ok(told)
}

/// The bytes of each sign at this place.
fn bytes_at(alloc: Global, place: usize) -> Result<Vec<u8>, AllocError>
    requires { place < 4 }
{
    let mut told = Vec::new(alloc);
    for sign in *b"+?ndm!" {
        let bytes = bytes_with(alloc, place, sign)?;
        told.extend_from_slice(&bytes)?;
        told.push(b' ')?;
    }
    Ok(told)
}

// One byte of `cfW2` changed, in every way: the bytes of each sign. All others are no atoms.
/// Asserts the bytes of each sign at the place.
fn expect_bytes_at(rt: &impl Abort, alloc: Global, place: usize, wanted: &[u8])
    requires { place < 4 }
{
    let found = bytes_at(alloc, place).expect(rt, "no fault");
    expect_eq(rt, found.as_slice(), wanted);
}

#[test]
fn one_byte_changed(rt: HostRuntime) {
    let first = b"+ABCDFGHJKLNQRWZbcfglmprsv ?h nn d m()-[]adeijkoqtuwxyz{} ! ";
    expect_bytes_at(&rt, rt.alloc(), 0, first);
    let second = b"+ABCDFGHJKLNQRWZbfglmprsv ?h nn dc m()-[]adeijkoqtuwxyz{} ! ";
    expect_bytes_at(&rt, rt.alloc(), 1, second);
    let atom = b"+ABDFGHKQRW ?CJLNZ n dc m()-[]adeijkoqtuwxyz{} ! ";
    expect_bytes_at(&rt, rt.alloc(), 2, atom);
    let number = b"+0123456789ABCDFGHJKLNQRWZ ? n d m()-[]adeijkoqtuwxyz{} ! ";
    expect_bytes_at(&rt, rt.alloc(), 3, number);
}
