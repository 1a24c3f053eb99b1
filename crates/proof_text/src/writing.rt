//! Writes a proof text.
ghost use Rattle.std.specs.Prelude.{◌≡◌, ◌++◌, ◌<◌, ◌≤◌, ◌^◌, drop, IfOk, Ok, OnOk, length, map, slice_index_or, true};
ghost use Rattle.std.specs.Fmt.{decimal};
ghost use Rattle.rules_model.specs.Fit.{IsFit};
ghost use Rattle.rules_model.specs.MoveText.{text_of};
ghost use Rattle.rules_model.specs.Sound.{is_sound};
ghost use Rattle.io_ports.specs.Lines.{lines_of};
ghost use Rattle.variant_ini.specs.FileLines.{AreFileLines};
ghost use Rattle.variant_ini.specs.LineView.{pair_view};
ghost use Rattle.variant_model.specs.Entry.{entry};
ghost use Rattle.variant_model.specs.Told as Told;
ghost use Rattle.strategy.specs.Reading.{AreSound};
ghost use Rattle.strategy.specs.Writing.{AreReadable, ended_line, ended_lines};
ghost use Rattle.proof_text.specs.Reading.{proof_of};
ghost use Rattle.proof_text.specs.Writing as Writing;

use crate::laws::written_proofs_are_read_back;
use crate::rule_pairs::rule_pairs;
use foundation::{Memory, Text};
use game_play::Game;
use move_text::write_move;
use rules_model::{Move, Position, Rules, Side};
use std::alloc::Global;
use strategy::{Strategy, push_line, push_number, push_text, write};
use variant_fen::write_fen;
use variant_ini::{Pair, Sections};
use variant_rules::LetteredSections;

/// The bytes of `strategy 1` and of its line feed.
const FIRST_LINE: usize = 11;

/// Appends words, a number and a line feed.
fn push_counted(text: &mut Vec<u8>, words: &[u8], n: u64) -> Result<(), Memory>
    ensures { OnOk result (text.new.items ≡ text.old.items ++ ended_line (words.now ++ decimal n)) }
{
    push_text(text, words)?;
    push_number(text, n)?;
    push_text(text, b"\n")
}

/// Appends `key = value`.
fn push_pair(text: &mut Vec<u8>, pair: &Pair<'_>) -> Result<(), Memory>
    ensures { let line = Writing.pair_text (pair_view pair.now) in
        OnOk result (text.new.items ≡ text.old.items ++ ended_line line) }
{
    push_text(text, pair.key)?;
    push_text(text, b" = ")?;
    push_text(text, pair.value)?;
    push_text(text, b"\n")
}

/// Appends the lines of pairs.
#[tactic(auto, unfolding(strategy::specs::Writing::ended_lines))]
fn push_pairs(text: &mut Vec<u8>, pairs: &[Pair<'_>]) -> Result<(), Memory>
    ensures { let lines = map (λ pair. Writing.pair_text (pair_view pair)) pairs.now in
        OnOk result (text.new.items ≡ text.old.items ++ ended_lines lines) }
{
    for pair in pairs {
        push_pair(text, pair)?;
    }
    Ok(())
}

/// Appends the lines of the rules that pairs tell.
fn push_rules(text: &mut Vec<u8>, pairs: &[Pair<'_>]) -> Result<(), Memory>
    ensures { let lines = Writing.rules_texts (map pair_view pairs.now) in
        OnOk result (text.new.items ≡ text.old.items ++ ended_lines lines) }
{
    push_counted(text, b"rules ", pairs.len() as u64)?;
    push_pairs(text, pairs)?;
    Ok(())
}

/// The first of positions, of which there is one.
fn first_of(positions: &[Position]) -> &Position
    requires { 0 < length positions.now }
    ensures { (d : Position) → result.now ≡ slice_index_or positions.now 0 d }
{
    &positions[0]
}

/// The position from which the game started.
fn start_of(game: &Game) -> &Position
    ensures is { result.now ≡ game.now.start }
    ensures sound { is_sound game.now.rules result.now ≡ true }
{
    // The start is sound, as that of each game that was played.
    game.prove_played();
    first_of(game.history())
}

/// Appends the line of the start.
fn push_start(
    alloc: Global,
    text: &mut Vec<u8>,
    rules: &Rules,
    start: &Position,
) -> Result<(), Memory>
    requires fit { IsFit rules.now }
    requires sound { is_sound rules.now start.now ≡ true }
    ensures { let line = Writing.start_line rules.now start.now in
        OnOk result (text.new.items ≡ text.old.items ++ ended_line line) }
{
    let fen = write_fen(alloc, rules, start)?;
    push_text(text, b"start ")?;
    push_line(text, fen.items.as_slice())?;
    Ok(())
}

/// Appends the lines of moves.
#[tactic(auto, unfolding(strategy::specs::Writing::ended_lines))]
fn push_moves(text: &mut Vec<u8>, moves: &[Move]) -> Result<(), Memory>
    ensures { OnOk result (text.new.items ≡ text.old.items ++ ended_lines (map text_of moves.now)) }
{
    for chosen in moves {
        push_line(text, write_move(chosen).items.as_slice())?;
    }
    Ok(())
}

/// Appends the lines of the history.
fn push_history(text: &mut Vec<u8>, moves: &[Move]) -> Result<(), Memory>
    ensures { OnOk result (text.new.items ≡ text.old.items ++ ended_lines (Writing.history_texts moves.now)) }
{
    push_counted(text, b"history ", moves.len() as u64)?;
    push_moves(text, moves)?;
    Ok(())
}

/// Appends the line of the goal.
fn push_goal(text: &mut Vec<u8>, attacker: Side, n: u16) -> Result<(), Memory>
    ensures { OnOk result (text.new.items ≡ text.old.items ++ ended_line (Writing.goal_text attacker n)) }
{
    match attacker {
        Side::White => push_counted(text, b"goal white ", u64::from(n)),
        Side::Black => push_counted(text, b"goal black ", u64::from(n)),
    }
}

/// The bytes after the first line of a strategy.
fn after_line(bytes: &[u8]) -> &[u8]
    requires { 11 ≤ length bytes.now }
    ensures { result.now ≡ drop 11 bytes.now }
{
    &bytes[FIRST_LINE..]
}

/// The bytes of the text of a strategy after its first line.
fn after_first(text: &Text) -> &[u8]
    requires { 11 ≤ length text.now }
    ensures { result.now ≡ drop 11 text.now }
{
    after_line(text.items.as_slice())
}

/// Appends the lines of a strategy after its first.
fn push_body(
    alloc: Global,
    text: &mut Vec<u8>,
    rules: &Rules,
    strategy: &Strategy,
) -> Result<(), Memory>
    requires fit { IsFit rules.now }
    requires sound { AreSound rules.now strategy.now.nodes }
    ensures { let lines = Writing.body_texts rules.now strategy.now in
        OnOk result (text.new.items ≡ text.old.items ++ ended_lines lines) }
{
    let whole = write(alloc, rules, strategy)?;
    push_text(text, after_first(&whole))?;
    Ok(())
}

/// Appends the lines of a game: its start and its moves.
fn push_game(alloc: Global, text: &mut Vec<u8>, game: &Game) -> Result<(), Memory>
    ensures { let lines = Writing.game_texts game.now in
        OnOk result (text.new.items ≡ text.old.items ++ ended_lines lines) }
{
    // The rules are fit, and at most 8,192 moves were played.
    game.prove_played();
    push_start(alloc, text, game.rules(), start_of(game))?;
    push_history(text, game.moves())?;
    Ok(())
}

/// Appends the lines of the rules of a section.
fn push_section(
    alloc: Global,
    text: &mut Vec<u8>,
    sections: &Sections,
    section: usize,
) -> Result<(), Memory>
    requires { section < length sections.now }
    ensures { let lines = Writing.rules_texts (Told.told sections.now section) in
        OnOk result (text.new.items ≡ text.old.items ++ ended_lines lines) }
{
    let lettered = LetteredSections::new(alloc, sections)?;
    let pairs = rule_pairs(alloc, &lettered, section)?;
    push_rules(text, pairs.as_slice())?;
    Ok(())
}

/// Writes the lines `key = value` of the rules of a section, as a proof text of it has them after the line `rules K`:
/// each key that has a value in the section or in one that it comes from, and each piece that it has, in byte order.
/// Each line ends with LF. Under a header they are a variants file of the same rules, where no line has more than 1,024
/// bytes: `told_rules_are_read_back` of `laws`.
///
/// # Errors
///
/// `Memory` where there was not enough.
pub fn write_rules(alloc: Global, sections: &Sections, section: usize) -> Result<Text, Memory>
    requires { section < length sections.now }
    ensures { IfOk result (λ text. text ≡ Writing.section_text sections.now section) }
{
    let lettered = LetteredSections::new(alloc, sections)?;
    let pairs = rule_pairs(alloc, &lettered, section)?;
    let mut items = Vec::new(alloc);
    push_pairs(&mut items, pairs.as_slice())?;
    Ok(Text { items })
}

/// A strategy has fewer nodes than there are addresses.
fn prove_nodes_fit(strategy: &Strategy)
    ensures { length strategy.now.nodes < 2 ^ 64 }
{
    let _nodes = strategy.nodes.items.len();
}

/// Writes the proof text, version 2, of a section's rules, of a game by them, of a goal and of a strategy. The goal is
/// that the strategy's side mates within `n` of its own moves, 1 to 100. The section is accepted and its rules are the
/// game's, and the positions of the strategy are sound: without that the text would say something else than it was
/// made of, or nothing. Whether the strategy reaches the goal in the game is not asked.
///
/// The rules are told by each key that has a value in the section or in one that it comes from, and by each piece that
/// it has, in byte order. Each line ends with LF. `read_proof` gives back the game, the goal and the strategy, where
/// the sections are of files and the strategy's own text would be read back.
///
/// `Memory` is the answer where there was not enough.
pub fn write_proof(
    alloc: Global,
    sections: &Sections,
    section: usize,
    game: &Game,
    n: u16,
    strategy: &Strategy,
) -> Result<Text, Memory>
    requires section { section < length sections.now }
    requires accepted { entry sections.now section ≡ Ok game.now.rules }
    requires some { 1 ≤ n }
    requires few { n ≤ 100 }
    requires sound { AreSound game.now.rules strategy.now.nodes }
    ensures is { let said = Writing.proof_text sections.now section game.now n strategy.now in
        IfOk result (λ text. text ≡ said) }
    ensures back { AreFileLines sections.now → AreReadable game.now.rules strategy.now.nodes
        → let proof = Writing.proof_with game.now n strategy.now in
        IfOk result (λ text. proof_of (lines_of text) ≡ Ok proof) }
{
    // The rules are fit, as the strategy's positions need.
    game.prove_played();
    prove_nodes_fit(strategy);
    written_proofs_are_read_back();
    let mut text = Vec::new(alloc);
    push_line(&mut text, b"strategy 2")?;
    push_section(alloc, &mut text, sections, section)?;
    push_game(alloc, &mut text, game)?;
    push_goal(&mut text, strategy.attacker, n)?;
    push_body(alloc, &mut text, game.rules(), strategy)?;
    Ok(Text { items: text })
}
