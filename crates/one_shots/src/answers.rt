//! What a command is answered.
ghost use Rattle.std.specs.Prelude.{◌≡◌, ◌≤◌, false, true, IfOk};
ghost use Rattle.io_ports.specs.Cause.{HasCause};
ghost use Rattle.one_shots.specs.Commands.{is_refereed, lines_needed, reads_input};
ghost use Rattle.game_text.specs.HeardLines.{HeardLines};
ghost use Rattle.one_shot_checks.specs.Fault.{usage_line};
ghost use Rattle.one_shot_checks.specs.NoAnswerView.{Answers, IsUnheard};
ghost use Rattle.one_shot_checks.specs.StopView.{IsUnread, IsUnsaid};
ghost use Rattle.one_shots.specs.OutcomeView.{OutcomeOf};
ghost use Rattle.one_shots.specs.Sessions.{is_session};
ghost use Rattle.one_shots.specs.Shot.{SaysCommand};
ghost use Rattle.words.specs.View.{HasPlies, command_seen};

use crate::first_moves::keys_text;
use crate::generating::generate;
use crate::opening::Opened;
use crate::pn_mate_text::pn_mate_text;
use crate::refereed::{is_refereed, refereed_text};
use crate::suite_text::suite_text;
use foundation::Text;
use io_ports::{Gate, Source};
use one_shot_checks::{NoAnswer, Stop};
use std::alloc::{AllocError, Global};
use std::sync::Wait;
use std::thread::Threads;
use variant_ini::Sections;
use words::Command;

/// What a run answers.
#[derive(Drop)]
pub struct Answer {
    /// The status with which the program ends.
    pub status: u8,
    /// What is written: what the command prints, the line of a fault, or the usage line.
    pub text: Text,
}

const USAGE: &[u8] = b"usage: vengine [--variants FILE] [--threads N] [COMMAND]\n";

// The text of a one-shot command that no referee answers, where there are these sections. This number of threads may
// work on it, and they pass the gate.
fn searched_text<'a, R: Threads + Wait + Sync, S: Source, G: Gate + Sync>(
    rt: &R,
    alloc: Global,
    command: Command<'a>,
    sections: &Sections,
    source: &mut S,
    threads: u32,
    gate: &G,
) -> Result<Text, NoAnswer<'a>>
    requires one_shot { is_session (command_seen command) ≡ false }
    requires searched { is_refereed (command_seen command) ≡ false }
    requires plies { HasPlies command }
    requires threads { (1 ≤ threads) × (threads ≤ 64) }
    ensures heard { HeardLines (S.left source.old) (S.left source.new)
        (lines_needed sections.now (command_seen command.entry))
        (λ lines. Answers result (SaysCommand sections.now (command_seen command.entry) lines)) }
    ensures cause { HasCause (S.faults source.old) (S.faults source.new) (IsUnheard result) }
    ensures unread { reads_input (command_seen command.entry) ≡ false → source.new ≡ source.old }
{
    match command {
        Command::Generate {
            name,
            number,
            plies,
        } => generate(rt, alloc, sections, name, number, plies),
        Command::Suite => suite_text(rt, alloc, sections, source, threads, gate),
        Command::PnMate(moves) => pn_mate_text(alloc, moves, sections, source),
        Command::Keys(moves) => keys_text(rt, alloc, moves, sections, source),
        Command::Uci
        | Command::Xboard
        | Command::Moves
        | Command::Status
        | Command::Checkers
        | Command::Perft(_)
        | Command::Check
        | Command::SelfMate(_)
        | Command::HelpMate(_)
        | Command::CheckCert
        | Command::Variants
        | Command::Reach { .. }
        | Command::RulesOf(_)
        | Command::Help
        | Command::Version => unreachable!(),
    }
}

// The text of a one-shot command, where there are these sections. This number of threads may work on it, and they pass
// the gate.
fn command_text<'a, R: Threads + Wait + Sync, S: Source, G: Gate + Sync>(
    rt: &R,
    alloc: Global,
    command: Command<'a>,
    sections: &Sections,
    source: &mut S,
    threads: u32,
    gate: &G,
) -> Result<Text, NoAnswer<'a>>
    requires one_shot { is_session (command_seen command) ≡ false }
    requires plies { HasPlies command }
    requires threads { (1 ≤ threads) × (threads ≤ 64) }
    ensures heard { HeardLines (S.left source.old) (S.left source.new)
        (lines_needed sections.now (command_seen command.entry))
        (λ lines. Answers result (SaysCommand sections.now (command_seen command.entry) lines)) }
    ensures cause { HasCause (S.faults source.old) (S.faults source.new) (IsUnheard result) }
    ensures unread { reads_input (command_seen command.entry) ≡ false → source.new ≡ source.old }
{
    if is_refereed(&command) {
        refereed_text(alloc, command, sections, source)
    } else {
        searched_text(rt, alloc, command, sections, source, threads, gate)
    }
}

fn usage(alloc: Global) -> Result<Text, AllocError>
    ensures { IfOk result (λ text. text ≡ usage_line) }
{
    let items = USAGE.to_vec(alloc)?;
    Ok(Text { items })
}

/// The status and the text of an outcome.
///
/// # Errors
///
/// What cut the run short; or there was no memory for the text.
pub fn answer_of<'a>(alloc: Global, outcome: Result<Text, NoAnswer<'a>>) -> Result<Answer, Stop>
    ensures { OutcomeOf outcome.entry result }
{
    match outcome {
        Ok(text) => Ok(Answer { status: 0, text }),
        Err(NoAnswer::Usage) => Ok(Answer {
            status: 2,
            text: usage(alloc)?,
        }),
        Err(NoAnswer::Fault(fault)) => Ok(Answer {
            status: fault.status(),
            text: fault.line(alloc)?,
        }),
        Err(NoAnswer::Stop(stop)) => Err(stop),
    }
}

/// The answer of a one-shot command, with what it reads of the source. Workers pass the gate before each piece of work.
///
/// # Errors
///
/// The source failed; or there was no memory.
pub fn answer_to<R: Threads + Wait + Sync, S: Source, G: Gate + Sync>(
    rt: &R,
    alloc: Global,
    opened: &Opened,
    source: &mut S,
    gate: &G,
) -> Result<Answer, Stop>
    requires one_shot { is_session (command_seen opened.now.asked.command) ≡ false }
    requires plies { HasPlies opened.now.asked.command }
    requires threads { (1 ≤ opened.now.asked.threads) × (opened.now.asked.threads ≤ 64) }
    ensures heard { HeardLines (S.left source.old) (S.left source.new)
        (lines_needed opened.now.sections (command_seen opened.now.asked.command)) (λ lines. IfOk result (λ answer.
        SaysCommand opened.now.sections (command_seen opened.now.asked.command) lines answer.status answer.text)) }
    ensures cause { HasCause (S.faults source.old) (S.faults source.new) (IsUnread result) }
    ensures unsaid { ¬ (IsUnsaid result) }
    ensures unread { reads_input (command_seen opened.now.asked.command) ≡ false → source.new ≡ source.old }
{
    let threads = opened.asked.threads as u32;
    let outcome = command_text(
        rt,
        alloc,
        opened.asked.command,
        &opened.sections,
        source,
        threads,
        gate,
    );
    answer_of(alloc, outcome)
}

/// The answer of a command that a referee answers, with what it reads of the source.
///
/// # Errors
///
/// The source failed; or there was no memory.
pub fn answer_refereed<S: Source>(
    alloc: Global,
    opened: &Opened,
    source: &mut S,
) -> Result<Answer, Stop>
    requires refereed { is_refereed (command_seen opened.now.asked.command) ≡ true }
    requires plies { HasPlies opened.now.asked.command }
    ensures heard { HeardLines (S.left source.old) (S.left source.new)
        (lines_needed opened.now.sections (command_seen opened.now.asked.command)) (λ lines. IfOk result (λ answer.
        SaysCommand opened.now.sections (command_seen opened.now.asked.command) lines answer.status answer.text)) }
    ensures cause { HasCause (S.faults source.old) (S.faults source.new) (IsUnread result) }
    ensures unsaid { ¬ (IsUnsaid result) }
    ensures unread { reads_input (command_seen opened.now.asked.command) ≡ false → source.new ≡ source.old }
{
    let outcome = refereed_text(alloc, opened.asked.command, &opened.sections, source);
    answer_of(alloc, outcome)
}
