//! The command of a line.
ghost use Rattle.std.specs.Prelude.{◌≡◌};
ghost use Rattle.std.specs.List.{filter};
ghost use Rattle.std.specs.Option.{option_copied};
ghost use Rattle.foundation.specs.Cuts.{is_blank, parts_after};
ghost use Rattle.game_text.specs.Playing.{is_word};
ghost use Rattle.session_model.specs.UciLines.{command_of};
ghost use Rattle.uci_lines.specs.View.{command_with, kind_named, line_got};

use io_ports::{Got, UciWord, find_command};

/// What a line asks, but for what the words after its command say.
#[derive(Clone, Copy, PartialEq, Eq)]
pub enum CommandKind {
    Uci,
    IsReady,
    NewGame,
    SetOption,
    Position,
    Go,
    /// `stop` and `ponderhit`, which stop a search and do nothing else.
    Stop,
    /// `debug`, `register`, and a line without a command word, which do nothing.
    Idle,
    Moves,
    Status,
    Checkers,
    Strategy,
    Quit,
    /// The line is longer than a line may be.
    TooLong,
}

fn kind_named(word: UciWord) -> CommandKind
    ensures { result ≡ kind_named word }
{
    match word {
        UciWord::Uci => CommandKind::Uci,
        UciWord::IsReady => CommandKind::IsReady,
        UciWord::UciNewGame => CommandKind::NewGame,
        UciWord::SetOption => CommandKind::SetOption,
        UciWord::Position => CommandKind::Position,
        UciWord::Go => CommandKind::Go,
        UciWord::Stop => CommandKind::Stop,
        UciWord::PonderHit => CommandKind::Stop,
        UciWord::Debug => CommandKind::Idle,
        UciWord::Register => CommandKind::Idle,
        UciWord::Moves => CommandKind::Moves,
        UciWord::Status => CommandKind::Status,
        UciWord::Checkers => CommandKind::Checkers,
        UciWord::Strategy => CommandKind::Strategy,
        UciWord::Quit => CommandKind::Quit,
    }
}

/// The command of the line that was taken, and the text after its command word, where the line goes on. What stands
/// before the command word is skipped.
pub fn read_line<'a>(next: Got, line: &'a [u8]) -> (CommandKind, Option<&'a [u8]>)
    ensures { command_with result.0 (filter is_word (parts_after is_blank (option_copied result.1)))
        ≡ command_of (line_got next line.now) }
{
    match next {
        Got::Line => match find_command(line) {
            Some((word, after)) => (kind_named(word), after),
            None => (CommandKind::Idle, None),
        },
        Got::TooLong | Got::End | Got::Failed => (CommandKind::TooLong, None),
    }
}
