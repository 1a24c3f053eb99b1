//! Tests of `betza_compile`.
use crate::expect::expect;
use betza_compile::compile;
use betza_text::parse;
use rules_model::{Term, Way};
use std::alloc::Global;
use std::io::{self, Write};
use std::process::Abort;

/// Writes how a term goes (`m` where it moves and `c` where it takes), how far, and its step.
fn tell_term(told: &mut Vec<u8>, term: &Term) -> io::Result<()> {
    let way = match term.way {
        Way::Leap => "leap",
        Way::Lame => "lame",
        Way::Slide => "slide",
        Way::Hop => "hop",
        Way::Grass => "grass",
    };
    let moves = if term.quiet { "m" } else { "" };
    let takes = if term.takes { "c" } else { "" };
    write!(
        told,
        "{moves}{takes} {way} {} {},{}|",
        term.limit, term.dx, term.dy
    )
}

/// The terms of each word that blanks separate, on a line for each.
fn terms_of(rt: &impl Abort, alloc: Global, words: &[u8]) -> Vec<u8> {
    let mut told = Vec::new(alloc);
    for word in words.split(|byte| *byte == b' ') {
        let betza = parse(alloc, word).expect(rt, "no fault");
        let terms = compile(&betza);
        for term in terms.items.iter() {
            tell_term(&mut told, term).expect(rt, "no fault");
        }
        told.push(b'\n').expect(rt, "no fault");
    }
    told
}

#[test]
fn all_steps_in_their_order(rt: HostRuntime) {
    let told = terms_of(&rt, rt.alloc(), b"N cmK R");
    let wanted = b"\
        mc leap 1 -1,-2|mc leap 1 1,-2|mc leap 1 -2,-1|mc leap 1 2,-1|\
        mc leap 1 -2,1|mc leap 1 2,1|mc leap 1 -1,2|mc leap 1 1,2|\n\
        mc leap 1 0,-1|mc leap 1 -1,0|mc leap 1 1,0|mc leap 1 0,1|\
        mc leap 1 -1,-1|mc leap 1 1,-1|mc leap 1 -1,1|mc leap 1 1,1|\n\
        mc slide 11 0,-1|mc slide 11 -1,0|mc slide 11 1,0|mc slide 11 0,1|\n";
    expect(&rt, told.as_slice() == wanted.as_slice());
}

// Words of one direction: its way, its limit, and whether it moves and takes.
#[test]
fn ways_and_limits(rt: HostRuntime) {
    let words = b"ffnN fmK fcK fcmQ fKK ffNN ffNN3 fR0 fW0 fW1 fR10 fcpR fgW4 fpWW";
    let told = terms_of(&rt, rt.alloc(), words);
    let wanted = b"\
        mc lame 1 -1,2|mc lame 1 1,2|\n\
        m leap 1 0,1|m leap 1 -1,1|m leap 1 1,1|\n\
        c leap 1 0,1|c leap 1 -1,1|c leap 1 1,1|\n\
        mc slide 11 0,1|mc slide 11 -1,1|mc slide 11 1,1|\n\
        mc slide 11 0,1|mc slide 11 -1,1|mc slide 11 1,1|\n\
        mc slide 11 -1,2|mc slide 11 1,2|\n\
        mc slide 3 -1,2|mc slide 3 1,2|\n\
        mc slide 11 0,1|\n\
        mc slide 11 0,1|\n\
        mc slide 1 0,1|\n\
        mc slide 10 0,1|\n\
        c hop 11 0,1|\n\
        mc grass 4 0,1|\n\
        mc hop 11 0,1|\n";
    expect(&rt, told.as_slice() == wanted.as_slice());
}

// A rook that moves and, over one piece, takes: the parts stand in order.
#[test]
fn two_parts(rt: HostRuntime) {
    let told = terms_of(&rt, rt.alloc(), b"fmRfcpR");
    expect(
        &rt,
        told.as_slice() == b"m slide 11 0,1|c hop 11 0,1|\n".as_slice(),
    );
}
