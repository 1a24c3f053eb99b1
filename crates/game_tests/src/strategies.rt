//! Tests of `strategy`.
use crate::expect::{expect, expect_of};
use crate::helpers::ROOK_MATE;
use sample_rules::chess;
use std::alloc::Global;
use std::process::Abort;
use strategy::{cut_line, read, write};

#[test]
fn a_text_is_read_and_written(rt: HostRuntime) {
    let rules = chess();
    let s = read(rt.alloc(), &rules, ROOK_MATE.as_bytes()).expect(&rt, "no fault");
    let text = write(rt.alloc(), &rules, &s).expect(&rt, "no fault");
    expect(&rt, text.items.as_slice() == ROOK_MATE.as_bytes());
}

/// Asserts how the fault of the text prints.
fn expect_fault(rt: &impl Abort, alloc: Global, text: &str, printed: &str) {
    match read(alloc, &chess(), text.as_bytes()) {
        Ok(_) => expect_of(rt, &text, false),
        Err(fault) => {
            let found = format!(in alloc; "{fault}").expect(rt, "no fault");
            assert!(rt; found.as_str() == printed, "{text}: {found}");
        }
    }
}

/// The text, cut after some of its lines, and with a line more.
#[test]
fn a_text_ends_with_its_last_line(rt: HostRuntime) {
    let alloc = rt.alloc();
    let (open, _end) = ROOK_MATE
        .split_once("end")
        .ok_or("an end")
        .expect(&rt, "no fault");
    let more = format!(in alloc; "{ROOK_MATE}end\n").expect(&rt, "no fault");
    expect_fault(&rt, alloc, "", "StrategyFault 6 Ended 1");
    expect_fault(&rt, alloc, "strategy 1\n", "StrategyFault 6 Ended 2");
    expect_fault(&rt, alloc, open, "StrategyFault 6 Ended 11");
    expect_fault(&rt, alloc, more.as_str(), "StrategyFault 6 Ended 12");
}

#[test]
fn a_line_is_cut_off(rt: HostRuntime) {
    let (line, rest) = cut_line(b"end\r\nmore\n");
    expect(
        &rt,
        line == b"end".as_slice() && rest == b"more\n".as_slice(),
    );
}

/// A node of a strategy's text whose number and position follow.
const ONE: &str = "strategy 1\nattacker black\nnodes 1\nnode 0 ";

/// Asserts how the fault of the text of one node prints.
fn expect_one(rt: &impl Abort, alloc: Global, node: &str, printed: &str) {
    let text = format!(in alloc; "{ONE}{node}").expect(rt, "no fault");
    expect_fault(rt, alloc, text.as_str(), printed);
}

#[test]
fn the_first_fault_of_a_node_is_the_answer(rt: HostRuntime) {
    let alloc = rt.alloc();
    let narrow = "0 7k/R6/5K2/8/8/8/8/8 w - - 0 1\n";
    expect_one(
        &rt,
        alloc,
        narrow,
        "StrategyFault 3 BadPosition 4 FenFault 4 Width",
    );
    let moved = "0 7k/R7/5K2/8/8/8/8/8 w - - 0 1\nedge g6f6 0\n";
    expect_one(&rt, alloc, moved, "StrategyFault 4 BadMove 5");
    let large = "65536 7k/R7/5K2/8/8/8/8/8 w - - 0 1\n";
    expect_one(&rt, alloc, large, "StrategyFault 5 BadNumber 4");
}

/// A number of nodes that never come, and one more than a number may be.
#[test]
fn the_first_fault_is_the_answer(rt: HostRuntime) {
    let alloc = rt.alloc();
    expect_fault(&rt, alloc, "strategy 2\n", "StrategyFault 1 Header 1");
    let no_node = "strategy 1\r\nattacker black\r\nnodes 1\r\nedge f6g6 0\r\n";
    expect_fault(&rt, alloc, no_node, "StrategyFault 2 BadLine 4");
    let most = "strategy 1\nattacker black\nnodes 18446744073709551615\nend\n";
    expect_fault(&rt, alloc, most, "StrategyFault 5 BadNumber 4");
    let over = "strategy 1\nattacker black\nnodes 18446744073709551616\n\
        node 0 0 7k/R7/5K2/8/8/8/8/8 w - - 0 1\nend\n";
    expect_fault(&rt, alloc, over, "StrategyFault 5 BadNumber 5");
}
