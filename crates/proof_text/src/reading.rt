//! Reads a proof text, line by line.
ghost use Rattle.std.specs.Prelude.{◌≡◌, ◌-◌, ◌≤◌, ◌∷◌, [], codes, IfOk};
ghost use Rattle.io_ports.specs.Cause.{HasCause};
ghost use Rattle.io_ports.specs.Lines.{Text as line_text, lines_of};
ghost use Rattle.rules_model.specs.Fit.{IsFit};
ghost use Rattle.variant_ini.specs.Lone.{lone_section};
ghost use Rattle.game_text.specs.HeardLines.{HeardLines};
ghost use Rattle.strategy.specs.Reading.{AreSound};
ghost use Rattle.variant_rules.specs.Entries.{entries};
ghost use Rattle.variant_rules.specs.Playable.{IsPlayable};
ghost use Rattle.variant_rules.specs.View.{lent};
ghost use Rattle.proof_text.specs.Reading as Said;
ghost use Rattle.proof_text.specs.TakingView.{HearsProof, IsUnread, SaysProof};

use crate::body::body_why;
use crate::fault::ProofFault;
use crate::head::{take_goal, take_history, take_rules, take_start, take_version};
use crate::history::take_moves;
use crate::pairs::take_pairs;
use crate::proof::Proof;
use crate::source_lines::NoProof;
use crate::strategy_lines::read_body;
use crate::text_source::TextSource;
use crate::words::is_version;
use foundation::Memory;
use game_play::Game;
use game_text::{Goal, copy_of};
use io_ports::{LineBuf, Source};
use rules_model::Rules;
use std::alloc::Global;
use variant_ini::{KeyLine, Sections};
use variant_model::SectionFault;
use variant_rules::{Variants, load};

// Reads the strategy, from the line of this number on.
fn read_on_body<S: Source>(
    alloc: Global,
    source: &mut S,
    line: &mut LineBuf,
    number: u64,
    game: Game,
    goal: Goal,
) -> Result<Proof, NoProof>
    requires low { 2 ≤ number }
    ensures heard { HearsProof (S.left source.old) (S.left source.new) (Said.body_on number game goal) result }
    ensures sound { IfOk result (λ p. AreSound p.game.rules p.strategy.nodes) }
    ensures cause { HasCause (S.faults source.old) (S.faults source.new) (IsUnread result) }
{
    // Tells the prover that the game's rules are fit and that it has at most 8,192 plies. Nothing is done.
    game.prove_played();
    match read_body(alloc, game.rules(), source, line) {
        Ok(strategy) => Ok(Proof {
            game,
            attacker: goal.attacker,
            n: goal.moves,
            strategy,
        }),
        Err(why) => Err(body_why(number - 2, why)),
    }
}

// Reads on from the goal, the line of this number.
fn read_on_goal<S: Source>(
    alloc: Global,
    source: &mut S,
    line: &mut LineBuf,
    number: u64,
    game: Game,
) -> Result<Proof, NoProof>
    requires low { 1 ≤ number }
    requires high { number ≤ 8710 }
    ensures heard { HearsProof (S.left source.old) (S.left source.new) (Said.goal_on number game) result }
    ensures sound { IfOk result (λ p. AreSound p.game.rules p.strategy.nodes) }
    ensures cause { HasCause (S.faults source.old) (S.faults source.new) (IsUnread result) }
{
    let goal = take_goal(source, line, number, &game)?;
    read_on_body(alloc, source, line, number + 1, game, goal)
}

// Reads on from the history, the line of this number.
fn read_on_history<S: Source>(
    alloc: Global,
    source: &mut S,
    line: &mut LineBuf,
    number: u64,
    mut game: Game,
) -> Result<Proof, NoProof>
    requires low { 1 ≤ number }
    requires high { number ≤ 516 }
    ensures heard { HearsProof (S.left source.old) (S.left source.new) (Said.history_on number game) result }
    ensures sound { IfOk result (λ p. AreSound p.game.rules p.strategy.nodes) }
    ensures cause { HasCause (S.faults source.old) (S.faults source.new) (IsUnread result) }
{
    let count = take_history(source, line, number, &game)?;
    take_moves(alloc, source, line, number + 1, count, &mut game)?;
    read_on_goal(alloc, source, line, number + 1 + count as u64, game)
}

// Reads on from the start, the line of this number.
fn read_on_start<S: Source>(
    alloc: Global,
    source: &mut S,
    line: &mut LineBuf,
    number: u64,
    rules: &Rules,
) -> Result<Proof, NoProof>
    requires fit { IsFit rules.now }
    requires low { 1 ≤ number }
    requires high { number ≤ 515 }
    ensures heard { HearsProof (S.left source.old) (S.left source.new) (Said.start_on number rules.now) result }
    ensures sound { IfOk result (λ p. AreSound p.game.rules p.strategy.nodes) }
    ensures cause { HasCause (S.faults source.old) (S.faults source.new) (IsUnread result) }
{
    let game = take_start(alloc, source, line, number, rules)?;
    read_on_history(alloc, source, line, number + 1, game)
}

/// The variants of one section, `proof`, that has these pairs.
fn variants_of(alloc: Global, pairs: &[KeyLine]) -> Result<Variants, Memory>
    ensures { IfOk result (λ variants. variants ≡ entries (lone_section (codes "proof") pairs.now ∷ [])) }
{
    let sections = Sections::of_one(alloc, b"proof", pairs)?;
    load(alloc, &sections)
}

// Reads on after the lines of the rules, by the entry of their section.
fn read_on_entry<S: Source>(
    alloc: Global,
    source: &mut S,
    line: &mut LineBuf,
    number: u64,
    found: Result<&Rules, &SectionFault>,
) -> Result<Proof, NoProof>
    requires playable { IfOk found (λ rules. IsPlayable rules.now) }
    requires low { 1 ≤ number }
    requires high { number ≤ 515 }
    ensures heard { HearsProof (S.left source.old) (S.left source.new)
        (Said.with_rules number (lent found.entry)) result }
    ensures sound { IfOk result (λ p. AreSound p.game.rules p.strategy.nodes) }
    ensures cause { HasCause (S.faults source.old) (S.faults source.new) (IsUnread result) }
{
    match found {
        Ok(rules) => read_on_start(alloc, source, line, number, rules),
        Err(why) => Err(NoProof::Faulty(ProofFault::RefusedRules(copy_of(alloc, why)?))),
    }
}

// Reads on after the lines of the rules, which have these pairs.
fn read_on_pairs<S: Source>(
    alloc: Global,
    source: &mut S,
    line: &mut LineBuf,
    number: u64,
    pairs: &[KeyLine],
) -> Result<Proof, NoProof>
    requires low { 1 ≤ number }
    requires high { number ≤ 515 }
    ensures heard { HearsProof (S.left source.old) (S.left source.new)
        (Said.with_rules number (Said.rules_of pairs.now)) result }
    ensures sound { IfOk result (λ p. AreSound p.game.rules p.strategy.nodes) }
    ensures cause { HasCause (S.faults source.old) (S.faults source.new) (IsUnread result) }
{
    let variants = variants_of(alloc, pairs)?;
    let (_name, found) = variants.entry(0);
    read_on_entry(alloc, source, line, number, found)
}

// Reads on from line 2.
fn read_on_rules<S: Source>(
    alloc: Global,
    source: &mut S,
    line: &mut LineBuf,
) -> Result<Proof, NoProof>
    ensures heard { HearsProof (S.left source.old) (S.left source.new) Said.rules_on result }
    ensures sound { IfOk result (λ p. AreSound p.game.rules p.strategy.nodes) }
    ensures cause { HasCause (S.faults source.old) (S.faults source.new) (IsUnread result) }
{
    let count = take_rules(source, line)?;
    let pairs = take_pairs(alloc, source, line, 3, count)?;
    read_on_pairs(alloc, source, line, 3 + count as u64, pairs.as_slice())
}

/// Reads a proof text from a source, after its first line, which was taken already, to its end or to its first faulty
/// line.
///
/// # Errors
///
/// The first fault in the order of the text; the rules are judged after the last of their lines. No line after the
/// first faulty one is taken. `Unread` where the source failed; then nothing is known of the text.
pub fn read_proof_after<S: Source>(
    alloc: Global,
    first: &[u8],
    source: &mut S,
) -> Result<Proof, NoProof>
    ensures heard { HeardLines (S.left source.old) (S.left source.new)
        (λ lines. Said.lines_of_proof (line_text first.now ∷ lines) - 1)
        (λ lines. SaysProof (Said.proof_of (line_text first.now ∷ lines)) result) }
    ensures sound { IfOk result (λ p. AreSound p.game.rules p.strategy.nodes) }
    ensures cause { HasCause (S.faults source.old) (S.faults source.new) (IsUnread result) }
{
    if !is_version(first) {
        return Err(NoProof::Faulty(ProofFault::Header(1)));
    }
    let mut line = LineBuf::new(alloc)?;
    read_on_rules(alloc, source, &mut line)
}

// Reads a proof text from a source.
fn read_from<S: Source>(alloc: Global, source: &mut S) -> Result<Proof, NoProof>
    ensures heard { HearsProof (S.left source.old) (S.left source.new) Said.proof_on result }
    ensures sound { IfOk result (λ p. AreSound p.game.rules p.strategy.nodes) }
    ensures cause { HasCause (S.faults source.old) (S.faults source.new) (IsUnread result) }
{
    let mut line = LineBuf::new(alloc)?;
    take_version(source, &mut line)?;
    read_on_rules(alloc, source, &mut line)
}

/// Reads a proof text, version 2: a game by rules that the text itself states, the side that is to win it within a
/// number of moves, and a strategy for it.
///
/// Lines end with LF, which the last may lack; a CR at the end of a line is dropped. The positions of the strategy are
/// sound.
///
/// # Errors
///
/// The first fault in the order of the text; the rules are judged after the last of their lines.
pub fn read_proof(alloc: Global, text: &[u8]) -> Result<Proof, ProofFault>
    ensures answer { Said.Answers (Said.proof_of (lines_of text.now)) result }
    ensures sound { IfOk result (λ p. AreSound p.game.rules p.strategy.nodes) }
{
    let mut source = TextSource::new(text);
    match read_from(alloc, &mut source) {
        Ok(proof) => Ok(proof),
        Err(NoProof::Faulty(fault)) => Err(fault),
        Err(NoProof::Unread) => unreachable!(),
    }
}
