//! What is answered to a line that asks no search.
ghost use Rattle.std.specs.Prelude.{◌≡◌, [], IfOk, OnErr};
ghost use Rattle.std.specs.Option.{option_copied};
ghost use Rattle.io_ports.specs.Trace.{Reads};
ghost use Rattle.variant_rules.specs.Looked.{Looked};
ghost use Rattle.uci_lines.specs.SettingView.{setting_seen};
ghost use Rattle.uci_lines.specs.View.{command_with};
ghost use Rattle.uci_front.specs.Outcomes.{LoadsFile, SetsBy};
ghost use Rattle.uci_front.specs.Plain.{IsAtOnce, IsPlainKind, IsTold, Plainly, file_of, outcome_said};
ghost use Rattle.uci_front.specs.PlanView.{words_said};

use crate::UciSession;
use crate::refusal::{Refusal, refused_file};
use crate::texts::{READY, error_line};
use checkers::checkers_of;
use foundation::{Memory, Text};
use game_text::{moves_of, status_of};
use io_ports::{Dialect, Files, too_long_answer};
use session_model::options::NO_FILE;
use std::alloc::Global;
use uci_lines::{CommandKind, Setting, read_placing, read_setting, words_in};
use variant_rules::{NoSections, read_sections};

// Loads the sections that are built in and those of a file, and sets chess.
fn load_file<F: Files>(
    alloc: Global,
    session: &mut UciSession,
    files: &mut F,
    name: &[u8],
) -> Result<(), Refusal>
    ensures loads { Looked (Reads F.contents F.faults files.old files.new)
        (λ reads. LoadsFile name.now session.old session.new reads result) }
    ensures refused { OnErr result (session.new ≡ session.old) }
{
    match read_sections(alloc, files, name) {
        Ok(sections) => session.load(alloc, sections),
        Err(NoSections::Fault(fault)) => Err(refused_file(alloc, fault)),
        Err(NoSections::Memory) => Err(Refusal::Memory),
    }
}

// The name of the file that a setting reads, where it reads one.
fn file_named(setting: &Setting) -> Option<&[u8]>
    ensures { option_copied result ≡ file_of (setting_seen setting.now) }
{
    let Setting::VariantPath(Some(name)) = setting else {
        return None;
    };
    let name = name.items.as_slice();
    if name == NO_FILE { None } else { Some(name) }
}

// Sets an option.
fn set_option<F: Files>(
    alloc: Global,
    session: &mut UciSession,
    files: &mut F,
    setting: &Setting,
) -> Result<(), Refusal>
    ensures sets { Looked (Reads F.contents F.faults files.old files.new)
        (λ reads. SetsBy (file_of (setting_seen setting.now)) session.old session.new
        (setting_seen setting.now) reads result) }
    ensures refused { OnErr result (session.new ≡ session.old) }
{
    match file_named(setting) {
        Some(name) => load_file(alloc, session, files, name),
        None => session.set(alloc, setting),
    }
}

// What is said of what a line set: nothing, or its fault.
fn outcome_text(alloc: Global, outcome: Result<(), Refusal>) -> Result<Option<Text>, Memory>
    ensures { IfOk result (λ text. (text ≡ outcome_said outcome) × IsTold outcome) }
{
    match outcome {
        Ok(()) => Ok(None),
        Err(Refusal::Fault(fault)) => Ok(Some(error_line(alloc, fault.items.as_slice())?)),
        Err(Refusal::Memory) => Err(Memory),
    }
}

// What is answered to `setoption` with these words.
fn answer_option<F: Files>(
    alloc: Global,
    session: &mut UciSession,
    files: &mut F,
    rest: Option<&[u8]>,
) -> Result<Option<Text>, Memory>
    ensures { Looked (Reads F.contents F.faults files.old files.new)
        (λ reads. Plainly session.old session.new (command_with CommandKind.SetOption (words_said rest.entry))
        reads result) }
{
    let words = words_in(alloc, rest)?;
    let setting = read_setting(alloc, &words)?;
    let outcome = set_option(alloc, session, files, &setting);
    outcome_text(alloc, outcome)
}

// What is answered to `position` with these words.
fn answer_position(
    alloc: Global,
    session: &mut UciSession,
    rest: Option<&[u8]>,
) -> Result<Option<Text>, Memory>
    ensures { Plainly session.old session.new (command_with CommandKind.Position (words_said rest.entry)) [] result }
{
    let words = words_in(alloc, rest)?;
    let placing = read_placing(alloc, &words)?;
    let outcome = session.place(alloc, &placing);
    outcome_text(alloc, outcome)
}

fn copy_of(alloc: Global, bytes: &[u8]) -> Result<Text, Memory>
    ensures { IfOk result (λ text. text ≡ bytes.now) }
{
    let items = bytes.to_vec(alloc)?;
    Ok(Text { items })
}

// What is answered without a file.
fn answer_at_once(
    alloc: Global,
    session: &mut UciSession,
    kind: CommandKind,
    rest: Option<&[u8]>,
) -> Result<Option<Text>, Memory>
    requires { IsAtOnce kind }
    ensures { Plainly session.old session.new (command_with kind (words_said rest.entry)) [] result }
{
    match kind {
        CommandKind::Uci => Ok(Some(session.uci_text(alloc)?)),
        CommandKind::IsReady => Ok(Some(copy_of(alloc, READY)?)),
        CommandKind::NewGame => {
            session.new_game(alloc)?;
            Ok(None)
        }
        CommandKind::Position => answer_position(alloc, session, rest),
        CommandKind::Stop | CommandKind::Idle => Ok(None),
        CommandKind::Moves => Ok(Some(moves_of(alloc, session.game())?)),
        CommandKind::Status => Ok(Some(status_of(alloc, session.game())?)),
        CommandKind::Checkers => Ok(Some(checkers_of(alloc, session.game())?)),
        CommandKind::Strategy => Ok(Some(session.strategy_text(alloc)?)),
        CommandKind::TooLong => Ok(Some(copy_of(alloc, too_long_answer(Dialect::Uci))?)),
        CommandKind::SetOption | CommandKind::Go | CommandKind::Quit => unreachable!(),
    }
}

/// The answer to a line that asks no search, if it has one. What the line sets is set.
pub(crate) fn answer_plain<F: Files>(
    alloc: Global,
    session: &mut UciSession,
    files: &mut F,
    kind: CommandKind,
    rest: Option<&[u8]>,
) -> Result<Option<Text>, Memory>
    requires { IsPlainKind kind }
    ensures { Looked (Reads F.contents F.faults files.old files.new)
        (λ reads. Plainly session.old session.new (command_with kind (words_said rest.entry)) reads result) }
{
    match kind {
        CommandKind::SetOption => answer_option(alloc, session, files, rest),
        _ => answer_at_once(alloc, session, kind, rest),
    }
}
