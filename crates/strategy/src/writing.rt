//! Writes the text of a strategy.
ghost use Rattle.std.specs.Prelude.{◌≡◌, ◌++◌, ◌∷◌, [], IfOk, map, Ok, OnOk, true};
ghost use Rattle.std.specs.Fmt.{decimal};
ghost use Rattle.rules_model.specs.Fit.{IsFit};
ghost use Rattle.rules_model.specs.Sound.{is_sound};
ghost use Rattle.io_ports.specs.Lines.{lines_of};
ghost use Rattle.strategy.specs.Reading.{AreSound, strategy_of};
ghost use Rattle.strategy.specs.Writing as Writing;

use crate::nodes::{Edge, Node, Strategy};
use move_text::write_move;
use rules_model::{Memory, Rules, Side, Text};
use std::alloc::Global;
use variant_fen::write_fen;

/// Appends bytes.
pub fn push_text(text: &mut Vec<u8>, bytes: &[u8]) -> Result<(), Memory>
    ensures { OnOk result (text.new.items ≡ text.old.items ++ bytes.now) }
{
    text.extend_from_slice(bytes)?;
    Ok(())
}

/// Appends a number in decimal digits.
pub fn push_number(text: &mut Vec<u8>, n: u64) -> Result<(), Memory>
    ensures { OnOk result (text.new.items ≡ text.old.items ++ decimal n) }
{
    if n >= 10 {
        push_number(text, n / 10)?;
    }
    text.push(b'0' + (n % 10) as u8)?;
    Ok(())
}

/// Appends a text and the end of its line.
pub fn push_line(text: &mut Vec<u8>, line: &[u8]) -> Result<(), Memory>
    ensures { OnOk result (text.new.items ≡ text.old.items ++ Writing.ended_line line.now) }
{
    push_text(text, line)?;
    push_text(text, b"\n")
}

/// Appends the line of an edge.
#[tactic(auto, unfolding(crate::specs::Writing::edge_text))]
fn push_edge(text: &mut Vec<u8>, edge: &Edge) -> Result<(), Memory>
    ensures { OnOk result (text.new.items ≡ text.old.items ++ Writing.ended_line (Writing.edge_text edge.now)) }
{
    push_text(text, b"edge ")?;
    push_text(text, write_move(&edge.chosen).items.as_slice())?;
    push_text(text, b" ")?;
    push_number(text, edge.to)?;
    push_text(text, b"\n")
}

/// Appends the lines of edges.
#[tactic(auto, unfolding(crate::specs::Writing::ended_lines))]
fn push_edges(text: &mut Vec<u8>, edges: &[Edge]) -> Result<(), Memory>
    ensures { OnOk result (text.new.items ≡ text.old.items ++ Writing.ended_lines (map Writing.edge_text edges.now)) }
{
    for edge in edges {
        push_edge(text, edge)?;
    }
    Ok(())
}

/// Appends the line of a node without its edges.
#[tactic(auto, unfolding(crate::specs::Writing::node_text))]
fn push_node_line(
    alloc: Global,
    rules: &Rules,
    text: &mut Vec<u8>,
    number: u64,
    node: &Node,
) -> Result<(), Memory>
    requires fit { IsFit rules.now }
    requires sound { is_sound rules.now node.now.position ≡ true }
    ensures { let line = Writing.node_text rules.now number node.now in
        OnOk result (text.new.items ≡ text.old.items ++ Writing.ended_line line) }
{
    let fen = write_fen(alloc, rules, &node.position)?;
    push_text(text, b"node ")?;
    push_number(text, number)?;
    push_text(text, b" ")?;
    push_number(text, u64::from(node.rank))?;
    push_text(text, b" ")?;
    push_text(text, fen.items.as_slice())?;
    push_text(text, b"\n")
}

/// Appends the lines of a node and of its edges.
#[tactic(auto, unfolding(crate::specs::Writing::ended_lines))]
fn push_node(
    alloc: Global,
    rules: &Rules,
    text: &mut Vec<u8>,
    number: u64,
    node: &Node,
) -> Result<(), Memory>
    requires fit { IsFit rules.now }
    requires sound { is_sound rules.now node.now.position ≡ true }
    ensures { let lines = Writing.node_texts rules.now number node.now in
        OnOk result (text.new.items ≡ text.old.items ++ Writing.ended_lines lines) }
{
    push_node_line(alloc, rules, text, number, node)?;
    let edges = &node.edges;
    push_edges(text, edges.items.as_slice())
}

/// Appends the lines of the nodes.
fn push_nodes(
    alloc: Global,
    rules: &Rules,
    text: &mut Vec<u8>,
    nodes: &[Node],
) -> Result<(), Memory>
    requires fit { IsFit rules.now }
    requires sound { AreSound rules.now nodes.now }
    ensures { let lines = Writing.nodes_texts rules.now 0 nodes.now in
        OnOk result (text.new.items ≡ text.old.items ++ Writing.ended_lines lines) }
{
    for number in 0..nodes.len() {
        push_node(alloc, rules, text, number as u64, &nodes[number])?;
    }
    Ok(())
}

fn attacker_text(attacker: Side) -> &'static [u8]
    ensures { result.now ≡ Writing.attacker_text attacker }
{
    match attacker {
        Side::White => b"attacker white",
        Side::Black => b"attacker black",
    }
}

/// Appends the line that says how many nodes there are.
fn push_count(text: &mut Vec<u8>, count: u64) -> Result<(), Memory>
    ensures { OnOk result (text.new.items ≡ text.old.items ++ Writing.ended_line (Writing.count_text count)) }
{
    push_text(text, b"nodes ")?;
    push_number(text, count)?;
    push_text(text, b"\n")
}

/// Appends the first three lines.
#[tactic(auto, unfolding(crate::specs::Writing::ended_lines))]
fn push_header(text: &mut Vec<u8>, s: &Strategy) -> Result<(), Memory>
    ensures { OnOk result (text.new.items ≡ text.old.items ++ Writing.ended_lines (Writing.header_texts s.now)) }
{
    push_line(text, b"strategy 1")?;
    push_line(text, attacker_text(s.attacker))?;
    let nodes = &s.nodes;
    push_count(text, nodes.len() as u64)
}

/// Writes the text of a strategy, whose positions are sound. Each line ends with LF. Reading the text gives the
/// strategy back, where its positions have the number 1, its edges lead to its nodes, and their moves are read back as
/// themselves.
///
/// `Memory` is the answer where there was none for the text.
pub fn write(alloc: Global, rules: &Rules, s: &Strategy) -> Result<Text, Memory>
    requires fit { IsFit rules.now }
    requires sound { AreSound rules.now s.now.nodes }
    ensures text { IfOk result (λ text. text ≡ Writing.strategy_text rules.now s.now) }
    ensures back { IfOk result (λ text.
        Writing.AreReadable rules.now s.now.nodes → strategy_of rules.now (lines_of text) ≡ Ok s.now) }
{
    let mut text = Vec::new(alloc);
    push_header(&mut text, s)?;
    let nodes = &s.nodes;
    push_nodes(alloc, rules, &mut text, nodes.items.as_slice())?;
    push_line(&mut text, b"end")?;
    Ok(Text { items: text })
}
