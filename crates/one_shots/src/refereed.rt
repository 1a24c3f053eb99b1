//! The texts of the commands that a referee answers. One thread works each of them out, without waiting.
ghost use Rattle.std.specs.Prelude.{◌≡◌, ◌≤◌, false, true};
ghost use Rattle.io_ports.specs.Cause.{HasCause};
ghost use Rattle.one_shots.specs.Commands.{is_refereed, lines_needed, reads_input};
ghost use Rattle.variant_rules.specs.Entries.{entries};
ghost use Rattle.game_text.specs.GameText.{lines_of_game};
ghost use Rattle.game_text.specs.HeardLines.{HeardLines};
ghost use Rattle.game_text.specs.GameTexts as print;
ghost use Rattle.checkers.specs.CheckersText as check;
ghost use Rattle.one_shot_checks.specs.GameTexts as stipulate;
ghost use Rattle.one_shot_checks.specs.NoAnswerView.{Answers, IsUnheard};
ghost use Rattle.one_shots.specs.Shot.{SaysCommand, SaysOfGame, SaysReach};
ghost use Rattle.one_shots.specs.HelpText.{help_text, version_text};
ghost use Rattle.one_shots.specs.VariantsText.{variants_text};
ghost use Rattle.words.specs.View.{HasPlies, command_seen};

use crate::game::game_in;
use crate::help_text::{help_of, version_of};
use crate::rules_text::rules_text;
use crate::variants::variants_of;
use betza_compile::compile;
use betza_text::parse;
use checkers::checkers_of;
use foundation::Text;
use game_text::{moves_of, perft_of, status_of};
use io_ports::Source;
use one_shot_checks::{
    NoAnswer, cert_check_text, check_text, help_mate_of, reach_text, self_mate_of, set_up,
};
use std::alloc::Global;
use variant_ini::Sections;
use words::Command;

// The text of `reach`.
fn reach<'a>(
    alloc: Global,
    word: &str,
    square: &'a str,
    own: &'a str,
    enemy: &'a str,
) -> Result<Text, NoAnswer<'a>>
    ensures answers { Answers result (SaysReach word.now square.now own.now enemy.now) }
    ensures reads_nothing { ¬ (IsUnheard result) }
{
    let betza = parse(alloc, word.as_bytes())?;
    let setup = set_up(square, own, enemy)?;
    let terms = compile(&betza);
    Ok(reach_text(alloc, &setup.cells, terms.items.as_slice(), setup.from)?)
}

// The text of `moves`, whose input is a game text.
fn moves<S: Source>(
    alloc: Global,
    sections: &Sections,
    source: &mut S,
) -> Result<Text, NoAnswer<'static>>
    ensures heard { HeardLines (S.left source.old) (S.left source.new) (lines_of_game (entries sections.now))
        (λ lines. Answers result (SaysOfGame print.moves_of sections.now lines)) }
    ensures cause { HasCause (S.faults source.old) (S.faults source.new) (IsUnheard result) }
{
    let game = game_in(alloc, sections, source)?;
    Ok(moves_of(alloc, &game)?)
}

// The text of `status`, whose input is a game text.
fn status<S: Source>(
    alloc: Global,
    sections: &Sections,
    source: &mut S,
) -> Result<Text, NoAnswer<'static>>
    ensures heard { HeardLines (S.left source.old) (S.left source.new) (lines_of_game (entries sections.now))
        (λ lines. Answers result (SaysOfGame print.status_of sections.now lines)) }
    ensures cause { HasCause (S.faults source.old) (S.faults source.new) (IsUnheard result) }
{
    let game = game_in(alloc, sections, source)?;
    Ok(status_of(alloc, &game)?)
}

// The text of `checkers`, whose input is a game text.
fn checkers_text<S: Source>(
    alloc: Global,
    sections: &Sections,
    source: &mut S,
) -> Result<Text, NoAnswer<'static>>
    ensures heard { HeardLines (S.left source.old) (S.left source.new) (lines_of_game (entries sections.now))
        (λ lines. Answers result (SaysOfGame check.checkers_of sections.now lines)) }
    ensures cause { HasCause (S.faults source.old) (S.faults source.new) (IsUnheard result) }
{
    let game = game_in(alloc, sections, source)?;
    Ok(checkers_of(alloc, &game)?)
}

// The text of `perft`, whose input is a game text.
fn perft<S: Source>(
    alloc: Global,
    plies: u8,
    sections: &Sections,
    source: &mut S,
) -> Result<Text, NoAnswer<'static>>
    requires least { 1 ≤ plies }
    requires most { plies ≤ 9 }
    ensures heard { HeardLines (S.left source.old) (S.left source.new) (lines_of_game (entries sections.now))
        (λ lines. Answers result (SaysOfGame (print.perft_of plies) sections.now lines)) }
    ensures cause { HasCause (S.faults source.old) (S.faults source.new) (IsUnheard result) }
{
    let game = game_in(alloc, sections, source)?;
    Ok(perft_of(alloc, plies, &game)?)
}

// The text of `stipulate self N`, whose input is a game text.
fn self_mate<S: Source>(
    alloc: Global,
    moves: u16,
    sections: &Sections,
    source: &mut S,
) -> Result<Text, NoAnswer<'static>>
    requires least { 1 ≤ moves }
    requires most { moves ≤ 6 }
    ensures heard { HeardLines (S.left source.old) (S.left source.new) (lines_of_game (entries sections.now))
        (λ lines. Answers result (SaysOfGame (stipulate.self_mate_of moves) sections.now lines)) }
    ensures cause { HasCause (S.faults source.old) (S.faults source.new) (IsUnheard result) }
{
    let game = game_in(alloc, sections, source)?;
    Ok(self_mate_of(alloc, moves, &game)?)
}

// The text of `stipulate help N`, whose input is a game text.
fn help_mate<S: Source>(
    alloc: Global,
    moves: u16,
    sections: &Sections,
    source: &mut S,
) -> Result<Text, NoAnswer<'static>>
    requires least { 1 ≤ moves }
    requires most { moves ≤ 6 }
    ensures heard { HeardLines (S.left source.old) (S.left source.new) (lines_of_game (entries sections.now))
        (λ lines. Answers result (SaysOfGame (stipulate.help_mate_of moves) sections.now lines)) }
    ensures cause { HasCause (S.faults source.old) (S.faults source.new) (IsUnheard result) }
{
    let game = game_in(alloc, sections, source)?;
    Ok(help_mate_of(alloc, moves, &game)?)
}

// The text of `variants`.
fn variants(alloc: Global, sections: &Sections) -> Result<Text, NoAnswer<'static>>
    ensures answers { Answers result (λ status text. (status ≡ 0) × (text ≡ variants_text (entries sections.now))) }
    ensures reads_nothing { ¬ (IsUnheard result) }
{
    Ok(variants_of(alloc, sections)?)
}

// The text of `help`.
fn help(alloc: Global) -> Result<Text, NoAnswer<'static>>
    ensures answers { Answers result (λ status text. (status ≡ 0) × (text ≡ help_text)) }
    ensures reads_nothing { ¬ (IsUnheard result) }
{
    Ok(help_of(alloc)?)
}

// The text of `--version`.
fn version(alloc: Global) -> Result<Text, NoAnswer<'static>>
    ensures answers { Answers result (λ status text. (status ≡ 0) × (text ≡ version_text)) }
    ensures reads_nothing { ¬ (IsUnheard result) }
{
    Ok(version_of(alloc)?)
}

/// Whether a referee answers a command: it is no session, and none of `generate`, `suite`, `pnmate` and `keys`.
pub fn is_refereed(command: &Command) -> bool
    ensures { result ≡ is_refereed (command_seen command.now) }
{
    match command {
        Command::Uci
        | Command::Xboard
        | Command::Generate { .. }
        | Command::Suite
        | Command::PnMate(_)
        | Command::Keys(_) => false,
        Command::Moves
        | Command::Status
        | Command::Checkers
        | Command::Perft(_)
        | Command::Check
        | Command::SelfMate(_)
        | Command::HelpMate(_)
        | Command::CheckCert
        | Command::Variants
        | Command::Reach { .. }
        | Command::RulesOf(_)
        | Command::Help
        | Command::Version => true,
    }
}

/// The text of a command that a referee answers, where there are these sections.
pub(crate) fn refereed_text<'a, S: Source>(
    alloc: Global,
    command: Command<'a>,
    sections: &Sections,
    source: &mut S,
) -> Result<Text, NoAnswer<'a>>
    requires refereed { is_refereed (command_seen command) ≡ true }
    requires plies { HasPlies command }
    ensures heard { HeardLines (S.left source.old) (S.left source.new)
        (lines_needed sections.now (command_seen command.entry))
        (λ lines. Answers result (SaysCommand sections.now (command_seen command.entry) lines)) }
    ensures cause { HasCause (S.faults source.old) (S.faults source.new) (IsUnheard result) }
    ensures unread { reads_input (command_seen command.entry) ≡ false → source.new ≡ source.old }
{
    match command {
        Command::Moves => moves(alloc, sections, source),
        Command::Status => status(alloc, sections, source),
        Command::Checkers => checkers_text(alloc, sections, source),
        Command::Perft(plies) => perft(alloc, plies, sections, source),
        Command::Check => check_text(alloc, sections, source),
        Command::SelfMate(moves) => self_mate(alloc, moves, sections, source),
        Command::HelpMate(moves) => help_mate(alloc, moves, sections, source),
        Command::CheckCert => cert_check_text(alloc, sections, source),
        Command::Variants => variants(alloc, sections),
        Command::Reach {
            word,
            square,
            own,
            enemy,
        } => reach(alloc, word, square, own, enemy),
        Command::RulesOf(name) => rules_text(alloc, sections, name),
        Command::Help => help(alloc),
        Command::Version => version(alloc),
        Command::Uci
        | Command::Xboard
        | Command::Generate { .. }
        | Command::Suite
        | Command::PnMate(_)
        | Command::Keys(_) => unreachable!(),
    }
}
