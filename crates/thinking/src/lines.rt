//! The lines of a depth, in both protocols.
ghost use Rattle.std.specs.Prelude.{◌≡◌, ◌++◌, [], ◌∷◌, IfOk, IfSome, OnOk, string_bytes, true};
ghost use Rattle.std.specs.List.{concat, flat_map};
ghost use Rattle.rules_model.specs.Fit.{IsFit};
ghost use Rattle.rules_model.specs.Sound.{is_sound};
ghost use Rattle.session_model.specs.CecpSession as CecpSession;
ghost use Rattle.session_model.specs.Mates as Mates;
ghost use Rattle.session_model.specs.UciTexts as UciTexts;
ghost use Rattle.thinking.specs.Tells.{lines_by};
ghost use Rattle.thinking.specs.Views.{evidence_of, report_of, score_seen};

use crate::depth_result::{DepthResult, Evidence, Score};
use crate::style::Style;
use foundation::{Memory, Text};
use move_text::write_move;
use rules_model::{Move, Position, Repeat, Rules};
use std::alloc::{AllocError, Global};
use variant_fen::write_fen;

/// The position of a repeat with this counter and the number 1.
fn position_at(repeat: &Repeat, counter: u16) -> Position
    ensures { result ≡ Mates.position_at repeat.now counter }
{
    Position {
        cells: repeat.cells,
        hands: repeat.hands,
        gates: repeat.gates,
        counter,
        number: 1,
        rights: repeat.rights,
        checks: repeat.checks,
        ep: repeat.ep,
        side: repeat.side,
    }
}

fn push_counter(alloc: Global, text: &mut Vec<u8>, counter: u16) -> Result<(), AllocError>
    ensures { OnOk result (text.new.items ≡ text.old.items ++ UciTexts.counter_text counter) }
{
    let number = format!(in alloc; " {counter}")?;
    text.extend_from_slice(number.as_bytes())
}

fn push_counters(alloc: Global, text: &mut Vec<u8>, counters: &[u16]) -> Result<(), AllocError>
    ensures { OnOk result (text.new.items ≡ text.old.items ++ flat_map UciTexts.counter_text counters.now) }
{
    for counter in counters {
        push_counter(alloc, text, *counter)?;
    }
    Ok(())
}

/// The line that a mate stays unsettled: the position at its first counter, and all counters.
///
/// # Errors
///
/// `Memory`.
pub fn unsettled_line(alloc: Global, rules: &Rules, e: &Evidence) -> Result<Text, Memory>
    requires fit { IsFit rules.now }
    requires sound { is_sound rules.now (Mates.position_at e.now.repeat e.now.first) ≡ true }
    ensures { IfOk result (λ text. text ≡ UciTexts.unsettled_line rules.now (evidence_of e.now)) }
{
    let fen = write_fen(alloc, rules, &position_at(&e.repeat, e.first))?;
    let mut items = b"info string mate unsettled ".to_vec(alloc)?;
    items.extend_from_slice(fen.items.as_slice())?;
    push_counter(alloc, &mut items, e.first)?;
    push_counters(alloc, &mut items, e.others.items.as_slice())?;
    items.push(b'\n')?;
    Ok(Text { items })
}

fn uci_score(alloc: Global, score: &Score) -> Result<String, AllocError>
    ensures { IfOk result (λ text. string_bytes text ≡ UciTexts.score_text (score_seen score.now)) }
{
    match score {
        Score::Points(points) => format!(in alloc; "cp {points}"),
        Score::Mates(moves, _) => format!(in alloc; "mate {moves}"),
        Score::Mated(moves, _) => format!(in alloc; "mate -{moves}"),
    }
}

/// The line of a depth in UCI: its score and best move.
///
/// # Errors
///
/// `Memory`.
pub(crate) fn depth_line(
    alloc: Global,
    depth: u8,
    score: &Score,
    best: &Move,
) -> Result<Text, Memory>
    ensures { IfOk result (λ text. text ≡ UciTexts.depth_line depth (score_seen score.now) best.now) }
{
    let score = uci_score(alloc, score)?;
    let mut items = format!(in alloc; "info depth {depth} score {score} pv ")?.into_bytes();
    items.extend_from_slice(write_move(best).items.as_slice())?;
    items.push(b'\n')?;
    Ok(Text { items })
}

fn cecp_score(alloc: Global, score: &Score) -> Result<String, AllocError>
    ensures { IfOk result (λ text. string_bytes text ≡ CecpSession.score_text (score_seen score.now)) }
{
    match score {
        Score::Points(points) => format!(in alloc; "{points}"),
        Score::Mates(moves, _) => format!(in alloc; "{}", 100_000 + u32::from(*moves)),
        Score::Mated(moves, _) => format!(in alloc; "-{}", 100_000 + u32::from(*moves)),
    }
}

/// The line of a depth in CECP: its score, the centiseconds from the first reading, the nodes and the best move.
fn post_line(
    alloc: Global,
    first: u64,
    depth: u8,
    found: &DepthResult,
    clock: u64,
) -> Result<Text, Memory>
    ensures { IfOk result (λ text. text ≡ CecpSession.post_line first depth (report_of found.now clock)) }
{
    let score = cecp_score(alloc, &found.score)?;
    let time = clock.saturating_sub(first) / 10;
    let nodes = found.nodes;
    let mut items = format!(in alloc; "{depth} {score} {time} {nodes} ")?.into_bytes();
    items.extend_from_slice(write_move(&found.best).items.as_slice())?;
    items.push(b'\n')?;
    Ok(Text { items })
}

fn uci_lines(alloc: Global, rules: &Rules, depth: u8, found: &DepthResult) -> Result<Text, Memory>
    requires fit { IsFit rules.now }
    requires sound { IfSome found.now.unsettled
        (λ e. is_sound rules.now (Mates.position_at e.repeat e.first) ≡ true) }
    ensures { IfOk result (λ text. text ≡ concat (UciTexts.unsettled_lines rules.now (report_of found.now 0).unsettled)
        ++ UciTexts.depth_line depth (score_seen found.now.score) found.now.best) }
{
    let line = depth_line(alloc, depth, &found.score, &found.best)?;
    match &found.unsettled {
        None => Ok(line),
        Some(e) => {
            let mut text = unsettled_line(alloc, rules, e)?;
            text.items.extend_from_slice(line.items.as_slice())?;
            Ok(text)
        }
    }
}

/// The lines of a depth, one after the other. `first` is the reading of the clock at the start, `clock` that after the
/// depth, in milliseconds.
///
/// # Errors
///
/// `Memory`.
pub fn depth_lines(
    alloc: Global,
    style: Style,
    rules: &Rules,
    first: u64,
    depth: u8,
    found: &DepthResult,
    clock: u64,
) -> Result<Text, Memory>
    requires fit { IsFit rules.now }
    requires sound { IfSome found.now.unsettled
        (λ e. is_sound rules.now (Mates.position_at e.repeat e.first) ≡ true) }
    ensures { IfOk result (λ text. text ≡ concat
        (lines_by style rules.now first depth (report_of found.now clock ∷ []))) }
{
    match style {
        Style::Uci => uci_lines(alloc, rules, depth, found),
        Style::Post => post_line(alloc, first, depth, found, clock),
        Style::Silent => Ok(Text {
            items: Vec::new(alloc),
        }),
    }
}
