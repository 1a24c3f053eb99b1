//! The command of a line.
ghost use Rattle.std.specs.Prelude.{◌≡◌, IfOk};
ghost use Rattle.io_ports.specs.Lines.{Text as TextLine};
ghost use Rattle.game_text.specs.Playing.{words_of};
ghost use Rattle.session_model.specs.CecpLines as CecpLines;
ghost use Rattle.session_model.specs.CecpSession.{is_quit};
ghost use Rattle.cecp_front.specs.View.{command_by, command_seen};
ghost use Rattle.uci_lines.specs.View.{line_got, texts};

use crate::verb::{Verb, read_verb};
use crate::words::{find_word, first_number, first_word, is_base};
use foundation::{Memory, Text, are_digits};
use io_ports::Got;
use std::alloc::Global;
use uci_lines::{joined, number, words_in};

/// The most digits of a `ping`.
const MOST_DIGITS: usize = 20;

/// A limit of the searches that follow.
#[derive(Clone, Copy, PartialEq, Eq)]
pub enum Limit {
    /// The seconds a move.
    St(u64),
    /// The depth.
    Sd(u64),
    /// The moves of a session, and the increment in seconds.
    Level { moves: u64, increment: u64 },
    /// The centiseconds that are left.
    Time(u64),
}

/// What a line asks.
#[derive(Drop)]
pub enum Command<'a> {
    /// It does nothing.
    Idle,
    Protover,
    New,
    Variant(&'a [u8]),
    /// `force` and `result`.
    Force,
    Go,
    PlayOther,
    UserMove(&'a [u8]),
    SetBoard(Text),
    Ping(&'a [u8]),
    /// `undo` and `remove`: one ply, and two.
    TakeBack(u8),
    /// `post` and `nopost`.
    Post(bool),
    Limit(Limit),
    Quit,
    BadNumber,
    Unknown,
    /// The line is longer than a line may be.
    TooLong,
}

// `ping` with 1 to 20 digits.
fn read_ping(word: &[u8]) -> Command<'_>
    ensures { command_seen result ≡ CecpLines.ping_of word.now }
{
    if are_digits(word) && word.len() <= MOST_DIGITS {
        Command::Ping(word)
    } else {
        Command::BadNumber
    }
}

// `level` with the moves of a session, a base, which is read and not used, and the increment.
fn read_level(words: &[&[u8]]) -> Command<'static>
    ensures { command_seen result ≡ CecpLines.level_of (texts words.now) }
{
    let [moves, base, increment, ..] = words else {
        return Command::BadNumber;
    };
    match (number(moves), is_base(base), number(increment)) {
        (Some(moves), true, Some(increment)) => Command::Limit(Limit::Level { moves, increment }),
        _ => Command::BadNumber,
    }
}

// The command of a verb, with the words after it.
fn read_command<'a>(alloc: Global, verb: Verb, words: &[&'a [u8]]) -> Result<Command<'a>, Memory>
    ensures { IfOk result (λ command. command_seen command ≡ command_by verb (texts words.now)) }
{
    Ok(match verb {
        Verb::Idle => Command::Idle,
        Verb::Protover => first_number(words).map_or(Command::BadNumber, |_| Command::Protover),
        Verb::New => Command::New,
        Verb::Variant => Command::Variant(first_word(words)),
        Verb::Force => Command::Force,
        Verb::Go => Command::Go,
        Verb::PlayOther => Command::PlayOther,
        Verb::UserMove => Command::UserMove(first_word(words)),
        Verb::SetBoard => Command::SetBoard(joined(alloc, words)?),
        Verb::Ping => read_ping(first_word(words)),
        Verb::Undo => Command::TakeBack(1),
        Verb::Remove => Command::TakeBack(2),
        Verb::Post => Command::Post(true),
        Verb::NoPost => Command::Post(false),
        Verb::St => first_number(words).map_or(
            Command::BadNumber,
            |n| Command::Limit(Limit::St(n)),
        ),
        Verb::Sd => first_number(words).map_or(
            Command::BadNumber,
            |n| Command::Limit(Limit::Sd(n)),
        ),
        Verb::Level => read_level(words),
        Verb::Time => first_number(words).map_or(
            Command::BadNumber,
            |n| Command::Limit(Limit::Time(n)),
        ),
        Verb::OpponentTime => first_number(words).map_or(Command::BadNumber, |_| Command::Idle),
        Verb::Quit => Command::Quit,
        Verb::Unknown => Command::Unknown,
    })
}

// The command of a line that is not empty. One of spaces and tabs alone has none.
fn read_text<'a>(alloc: Global, text: &'a [u8]) -> Result<Command<'a>, Memory>
    ensures { IfOk result (λ command. command_seen command ≡ CecpLines.command_in (words_of text.now)) }
{
    let Some((word, after)) = find_word(text) else {
        return Ok(Command::Unknown);
    };
    let words = words_in(alloc, after)?;
    read_command(alloc, read_verb(word), words.as_slice())
}

/// The command of the line that was taken: its first word, with what the words after that say. An empty line does
/// nothing.
///
/// # Errors
///
/// `Memory`.
#[tactic(auto, unfolding(session_model::specs::CecpLines::command_of))]
pub fn read_line<'a>(alloc: Global, next: Got, line: &'a [u8]) -> Result<Command<'a>, Memory>
    ensures { IfOk result (λ command. command_seen command ≡ CecpLines.command_of (line_got next line.now)) }
{
    match next {
        Got::Line if line.is_empty() => Ok(Command::Idle),
        Got::Line => read_text(alloc, line),
        Got::TooLong | Got::End | Got::Failed => Ok(Command::TooLong),
    }
}

/// Whether a search that the line stops makes no move.
#[tactic(auto, unfolding(session_model::specs::CecpLines::command_of))]
pub fn gives_up(line: &[u8]) -> bool
    ensures { result ≡ CecpLines.gives_up (CecpLines.command_of (TextLine line.now)) }
{
    match find_word(line) {
        Some((word, _)) => read_verb(word).gives_up(),
        None => false,
    }
}

/// Whether the line ends a session.
#[tactic(auto, unfolding(session_model::specs::CecpLines::command_of))]
pub(crate) fn quits(line: &[u8]) -> bool
    ensures { result ≡ is_quit (CecpLines.command_of (TextLine line.now)) }
{
    match find_word(line) {
        Some((word, _)) => read_verb(word).quits(),
        None => false,
    }
}
