//! Tests of `variant_ini`.
use crate::expect::{expect, expect_eq};
use std::alloc::{AllocError, Global};
use std::io::{self, Write};
use std::process::Abort;
use variant_ini::{IniFault, Sections};

const BASE: &[u8] =
    b"; variants\r\n\r\n[a]\r\n nMoveRule\t= 40 \r\nx = 1\nx = 2 # two\n[b:a]\nX=\n";

const MORE: &[u8] = b"[a:b]\nx = 3\n[c:b]\n[d:e]\n[e]\nx=4\n[=x:a]";

/// The sections of both texts.
fn both(rt: &impl Abort, alloc: Global) -> Sections {
    let mut sections = Sections::new(alloc);
    sections.add(BASE).ok().expect(rt, "no fault");
    sections.add(MORE).ok().expect(rt, "no fault");
    sections
}

/// Writes a value, or a dash where there is none.
fn tell(told: &mut Vec<u8>, value: Option<&[u8]>) -> Result<(), AllocError> {
    told.extend_from_slice(value.unwrap_or(b"-".as_slice()))?;
    Ok(told.push(b'|')?)
}

/// The value of the key in each section.
fn values(alloc: Global, sections: &Sections, key: &[u8]) -> Result<Vec<u8>, AllocError> {
    let mut told = Vec::new(alloc);
    for section in 0..sections.len() {
        tell(&mut told, sections.resolve(section, key))?;
    }
    Ok(told)
}

/// The same, but of each section itself.
fn own_values(alloc: Global, sections: &Sections, key: &[u8]) -> Result<Vec<u8>, AllocError> {
    let mut told = Vec::new(alloc);
    for section in 0..sections.len() {
        tell(&mut told, sections.own_value(section, key))?;
    }
    Ok(told)
}

/// Asserts the values of the key.
fn expect_values(rt: &impl Abort, alloc: Global, sections: &Sections, key: &[u8], wanted: &[u8]) {
    let found = values(alloc, sections, key).expect(rt, "no fault");
    expect_eq(rt, found.as_slice(), wanted);
}

#[test]
fn options_come_from_the_nearest_section(rt: HostRuntime) {
    let alloc = rt.alloc();
    let sections = both(&rt, alloc);
    let wanted = b"2 # two|2 # two|3|2 # two|-|4|2 # two|";
    expect_values(&rt, alloc, &sections, b"x", wanted);
    expect_values(&rt, alloc, &sections, b"X", b"-||||-|-|-|");
    let wanted = b"40|40|40|40|-|-|40|";
    expect_values(&rt, alloc, &sections, b"nMoveRule", wanted);
    expect_values(&rt, alloc, &sections, b"nmoverule", b"-|-|-|-|-|-|-|");
}

#[test]
fn own_values_are_not_inherited(rt: HostRuntime) {
    let sections = both(&rt, rt.alloc());
    let found = own_values(rt.alloc(), &sections, b"x").expect(&rt, "no fault");
    expect(&rt, found.as_slice() == b"2 # two|-|3|-|-|4|-|".as_slice());
    let found = own_values(rt.alloc(), &sections, b"X").expect(&rt, "no fault");
    expect(&rt, found.as_slice() == b"-||-|-|-|-|-|".as_slice());
}

/// Each section: its name, its parent, the place of that, and the number of its lines.
fn heads(alloc: Global, sections: &Sections) -> Result<Vec<u8>, io::Error> {
    let mut told = Vec::new(alloc);
    for section in 0..sections.len() {
        tell(&mut told, Some(sections.name(section)))?;
        tell(&mut told, sections.parent(section))?;
        let (place, lines) = (sections.parent_place(section), sections.lines(section));
        writeln!(told, "{place:?} {}", lines.len())?;
    }
    Ok(told)
}

#[test]
fn sections_have_names_parents_and_lines(rt: HostRuntime) {
    let sections = both(&rt, rt.alloc());
    let told = heads(rt.alloc(), &sections).expect(&rt, "no fault");
    let wanted = b"\
        a|-|None 3\n\
        b|a|Some(0) 1\n\
        a|b|Some(1) 1\n\
        c|b|Some(1) 0\n\
        d|e|None 0\n\
        e|-|None 1\n\
        =x|a|Some(0) 0\n";
    expect(&rt, told.as_slice() == wanted.as_slice());
    let places = [
        sections.place_of(b"a"),
        sections.place_of(b"=x"),
        sections.place_of(b"x"),
    ];
    expect_eq(&rt, places, [Some(0), Some(6), None]);
}

/// Writes a fault, with its line where it has one.
fn tell_fault(told: &mut Vec<u8>, fault: IniFault) -> io::Result<()> {
    match fault {
        IniFault::TooLarge => write!(told, "TooLarge "),
        IniFault::NotAscii(line) => write!(told, "NotAscii({line}) "),
        IniFault::LineTooLong(line) => write!(told, "LineTooLong({line}) "),
        IniFault::NoSection(line) => write!(told, "NoSection({line}) "),
        IniFault::BadLine(line) => write!(told, "BadLine({line}) "),
        IniFault::TooManySections(line) => write!(told, "TooManySections({line}) "),
        IniFault::Memory => write!(told, "Memory "),
    }
}

/// What comes of each text that bars separate, where it is added: how many sections more there are, or the fault.
fn additions(alloc: Global, sections: &mut Sections, texts: &[u8]) -> Result<Vec<u8>, io::Error> {
    let mut told = Vec::new(alloc);
    for text in texts.split(|byte| *byte == b'|') {
        let before = sections.len();
        match sections.add(text) {
            Ok(()) => write!(told, "{} ", sections.len().wrapping_sub(before))?,
            Err(fault) => tell_fault(&mut told, fault)?,
        }
    }
    Ok(told)
}

#[test]
fn a_bad_line_is_a_fault(rt: HostRuntime) {
    let mut sections = both(&rt, rt.alloc());
    let texts =
        b"# c\n= 1\n[a]|[a]\n\nword\nword|[a]\n = 1|[a|[]|[a:]|[:a]|[a:b:c]|[a b]|[a(b]|[a}]|[a]]|[a\x7f]|[a]x|[a] ; c";
    let told = additions(rt.alloc(), &mut sections, texts).expect(&rt, "no fault");
    let wanted =
        b"BadLine(2) BadLine(3) BadLine(2) BadLine(1) BadLine(1) BadLine(1) BadLine(1) BadLine(1) BadLine(1) \
        BadLine(1) BadLine(1) BadLine(1) BadLine(1) BadLine(1) BadLine(1) ";
    expect(&rt, told.as_slice() == wanted.as_slice());
    expect_eq(&rt, sections.len(), 7);
}

#[test]
fn the_first_fault_is_the_answer(rt: HostRuntime) {
    let mut sections = both(&rt, rt.alloc());
    let texts =
        b"castling = true|[a = b|[a]\rx = 1|\xff|#\xff\n;\xc3\xa4\n[a]\nx = \x80|word\n\xff|\xef\xbb\xbf[a]";
    let told = additions(rt.alloc(), &mut sections, texts).expect(&rt, "no fault");
    let wanted =
        b"NoSection(1) NoSection(1) NoSection(1) NotAscii(1) NotAscii(4) BadLine(1) NotAscii(1) ";
    expect(&rt, told.as_slice() == wanted.as_slice());
    expect_eq(&rt, sections.len(), 7);
}

#[test]
fn texts_without_a_fault_are_added(rt: HostRuntime) {
    let mut sections = both(&rt, rt.alloc());
    let texts =
        b"|\r|\n\n| ;\xff| \t[a]\t \r\n|[a=b]|[a]\nk = v\rw|[a]\n[b = c]\n[kept]|[a:a]\n[b:none]\n\x01 = 1";
    let told = additions(rt.alloc(), &mut sections, texts).expect(&rt, "no fault");
    expect(&rt, told.as_slice() == b"0 0 0 0 1 1 1 2 2 ".as_slice());
    expect_eq(&rt, sections.len(), 14);
}

/// A front, a piece this often, and a back.
fn repeated(
    alloc: Global,
    front: &[u8],
    piece: &[u8],
    times: usize,
    back: &[u8],
) -> Result<Vec<u8>, AllocError> {
    let mut text = Vec::from_slice(alloc, front)?;
    for _ in 0..times {
        text.extend_from_slice(piece)?;
    }
    text.extend_from_slice(back)?;
    Ok(text)
}

/// What comes of a text that is added to no sections.
fn only(alloc: Global, text: Vec<u8>) -> Result<Vec<u8>, io::Error> {
    let mut sections = Sections::new(alloc);
    additions(alloc, &mut sections, text.as_slice())
}

/// Writes what comes of a text of a front, a piece this often, and a back.
fn tell_size(
    told: &mut Vec<u8>,
    front: &[u8],
    piece: &[u8],
    times: usize,
    back: &[u8],
) -> Result<(), io::Error> {
    let alloc = *told.allocator();
    let text = repeated(alloc, front, piece, times, back)?;
    let found = only(alloc, text)?;
    Ok(told.extend_from_slice(&found)?)
}

#[test]
fn files_have_a_greatest_size(rt: HostRuntime) {
    let mut told = Vec::new(rt.alloc());
    tell_size(&mut told, b"", b"\n", 1_048_576, b"").expect(&rt, "no fault");
    tell_size(&mut told, b"\xff", b"\n", 1_048_576, b"").expect(&rt, "no fault");
    tell_size(&mut told, b"", b"[a]\n", 512, b"").expect(&rt, "no fault");
    tell_size(&mut told, b"", b"[a]\n", 513, b"").expect(&rt, "no fault");
    tell_size(&mut told, b"", b"[a]\n", 512, b"#\nx=1\n[a\n[b]").expect(&rt, "no fault");
    expect(
        &rt,
        told.as_slice() == b"0 TooLarge 512 TooManySections(513) BadLine(515) ".as_slice(),
    );
}

#[test]
fn names_have_a_greatest_size(rt: HostRuntime) {
    let mut told = Vec::new(rt.alloc());
    tell_size(&mut told, b"[", b"n", 64, b"]").expect(&rt, "no fault");
    tell_size(&mut told, b"[", b"n", 65, b"]").expect(&rt, "no fault");
    tell_size(&mut told, b"[a:", b"n", 64, b"]").expect(&rt, "no fault");
    tell_size(&mut told, b"[a:", b"n", 65, b"]").expect(&rt, "no fault");
    expect(
        &rt,
        told.as_slice() == b"1 BadLine(1) 1 BadLine(1) ".as_slice(),
    );
}

#[test]
fn lines_have_a_greatest_size(rt: HostRuntime) {
    let mut told = Vec::new(rt.alloc());
    tell_size(&mut told, b"\n#", b" ", 1_023, b"\n").expect(&rt, "no fault");
    tell_size(&mut told, b"\n#", b" ", 1_023, b"\r").expect(&rt, "no fault");
    tell_size(&mut told, b"\n", b"\xff", 1_025, b"").expect(&rt, "no fault");
    tell_size(&mut told, b"[a]\nk=", b"v", 1_022, b"\n[b:a]\n[c:b]").expect(&rt, "no fault");
    expect(
        &rt,
        told.as_slice() == b"0 LineTooLong(2) LineTooLong(2) 3 ".as_slice(),
    );
}

// A chain of 512 parents in a file of about a mebibyte: each section but the first has 227 keys of its own.
fn chain(alloc: Global) -> Result<Vec<u8>, AllocError> {
    let mut text = Vec::from_slice(alloc, b"[zz]\nfirst = 0\n")?;
    let mut parent = [b'z', b'z'];
    for i in 0..511u16 {
        let name = [b'a' + (i / 26) as u8, b'a' + (i % 26) as u8];
        text.extend_from_slice(&[
            b'[', name[0], name[1], b':', parent[0], parent[1], b']', b'\n',
        ])?;
        for key in 0..227u8 {
            text.extend_from_slice(&[name[0], name[1], b'a' + key / 16, b'a' + key % 16])?;
            text.extend_from_slice(b" = 1")?;
            text.push(b'\n')?;
        }
        parent = name;
    }
    Ok(text)
}

#[test]
fn a_long_chain_is_walked(rt: HostRuntime) {
    let text = chain(rt.alloc()).expect(&rt, "no fault");
    let mut sections = Sections::new(rt.alloc());
    sections.add(text.as_slice()).ok().expect(&rt, "no fault");
    assert!(rt; sections.len() == 512);
    expect(
        &rt,
        sections.resolve(511, b"first") == Some(b"0".as_slice()),
    );
    expect(&rt, sections.resolve(511, b"last").is_none());
}
