//! Reads a game text from a source.
ghost use Rattle.std.specs.Prelude.{◌≡◌, ◌∷◌, [], take, true, IfOk};
ghost use Rattle.game_text.specs.declared.unmade.Unmade.TheVariants as NoGame;
ghost use Rattle.io_ports.specs.Cause.{HasCause};
ghost use Rattle.io_ports.specs.Lines.{Text};
ghost use Rattle.rules_model.specs.Fit.{IsFit};
ghost use Rattle.rules_model.specs.Sound.{is_sound};
ghost use Rattle.variant_rules.specs.Entries.{found};
ghost use Rattle.game_text.specs.GameText as GameText;
ghost use Rattle.game_text.specs.HeardLines.{HeardLines};
ghost use Rattle.game_text.specs.ReadView.{IsUnread, Says, SaysGame};

use crate::copies::{copy_of, text_of};
use crate::fault::{GameFault, NoGame};
use crate::play::play_line;
use game_play::Game;
use io_ports::{Got, LineBuf, Source};
use rules_model::{Position, Rules};
use std::alloc::{AllocError, Global};
use variant_fen::{FenFault, read_fen};
use variant_model::SectionFault;
use variant_rules::{Found, Variants};

// Plays the moves of the lines after line 2 to the end.
fn read_moves<S: Source>(
    alloc: Global,
    game: &mut Game,
    source: &mut S,
    line: &mut LineBuf,
) -> Result<(), NoGame>
    ensures heard { HeardLines (S.left source.old) (S.left source.new) (GameText.lines_on game.old)
        (λ lines. Says (GameText.game_on 3 game.old lines) game.new result) }
    ensures cause { HasCause (S.faults source.old) (S.faults source.new) (IsUnread result) }
{
    for number in 3..u64::MAX {
        match source.next_line(line) {
            Got::Line => play_line(alloc, game, line.text())?,
            Got::TooLong => return Err(NoGame::Faulty(GameFault::LineTooLong(number))),
            Got::End => return Ok(()),
            Got::Failed => return Err(NoGame::Unread),
        }
    }
    Err(NoGame::Memory)
}

/// The position that a text says: `startpos`, the start of these rules, or a FEN.
///
/// # Errors
///
/// The fault of the FEN.
pub fn position_of(rules: &Rules, text: &[u8]) -> Result<Position, FenFault>
    requires fit { IsFit rules.now }
    requires start { is_sound rules.now rules.now.start ≡ true }
    ensures is { result ≡ GameText.position_of rules.now text.now }
    ensures sound { IfOk result (λ p. is_sound rules.now p ≡ true) }
{
    if text == b"startpos".as_slice() {
        Ok(rules.start)
    } else {
        read_fen(rules, text)
    }
}

// The game that begins with the position that line 2 says.
fn started(alloc: Global, rules: &Rules, text: &[u8]) -> Result<Game, NoGame>
    requires fit { IsFit rules.now }
    requires start { is_sound rules.now rules.now.start ≡ true }
    ensures says { SaysGame (GameText.game_by rules.now (Text text.now ∷ [])) result }
    ensures heard { ¬ (IsUnread result) }
{
    match position_of(rules, text) {
        Ok(p) => Ok(Game::new(alloc, rules, &p)?),
        Err(fault) => Err(NoGame::Faulty(GameFault::BadPosition(fault))),
    }
}

// Reads line 2.
fn read_position<S: Source>(
    alloc: Global,
    rules: &Rules,
    source: &mut S,
    line: &mut LineBuf,
) -> Result<Game, NoGame>
    requires fit { IsFit rules.now }
    requires start { is_sound rules.now rules.now.start ≡ true }
    ensures heard { HeardLines (S.left source.old) (S.left source.new)
        (λ lines. GameText.lines_by rules.now (take 1 lines))
        (λ lines. SaysGame (GameText.game_by rules.now (take 1 lines)) result) }
    ensures cause { HasCause (S.faults source.old) (S.faults source.new) (IsUnread result) }
{
    match source.next_line(line) {
        Got::Line => started(alloc, rules, line.text()),
        Got::TooLong => Err(NoGame::Faulty(GameFault::LineTooLong(2))),
        Got::End => Err(NoGame::Faulty(GameFault::Missing(2))),
        Got::Failed => Err(NoGame::Unread),
    }
}

fn unknown_variant(alloc: Global, name: &[u8]) -> Result<NoGame, AllocError>
    ensures { IfOk result (λ why. why ≡ NoGame.Faulty (GameFault.UnknownVariant name.now)) }
{
    let name = text_of(alloc, name)?;
    Ok(NoGame::Faulty(GameFault::UnknownVariant(name)))
}

fn refused_variant(alloc: Global, why: &SectionFault) -> Result<NoGame, AllocError>
    ensures { IfOk result (λ no_game. no_game ≡ NoGame.Faulty (GameFault.RefusedVariant why.now)) }
{
    let why = copy_of(alloc, why)?;
    Ok(NoGame::Faulty(GameFault::RefusedVariant(why)))
}

/// Reads line 2 after line 1, which the buffer holds.
pub(crate) fn read_variant<S: Source>(
    alloc: Global,
    variants: &Variants,
    source: &mut S,
    line: &mut LineBuf,
) -> Result<Game, NoGame>
    ensures heard { HeardLines (S.left source.old) (S.left source.new)
        (λ lines. GameText.lines_in (found variants.now line.old) (take 1 lines))
        (λ lines. SaysGame (GameText.game_of variants.now (Text line.old ∷ take 1 lines)) result) }
    ensures cause { HasCause (S.faults source.old) (S.faults source.new) (IsUnread result) }
{
    match variants.find(line.text()) {
        Found::Rules(rules) => read_position(alloc, rules, source, line),
        Found::Refused(why) => Err(refused_variant(alloc, why)?),
        Found::Unknown => Err(unknown_variant(alloc, line.text())?),
    }
}

/// Reads lines 1 and 2 of a game text: the game before its first move, or the first fault.
pub(crate) fn read_start<S: Source>(
    alloc: Global,
    variants: &Variants,
    source: &mut S,
    line: &mut LineBuf,
) -> Result<Game, NoGame>
    ensures heard { HeardLines (S.left source.old) (S.left source.new)
        (λ lines. GameText.lines_of_game variants.now (take 2 lines))
        (λ lines. SaysGame (GameText.game_of variants.now (take 2 lines)) result) }
    ensures cause { HasCause (S.faults source.old) (S.faults source.new) (IsUnread result) }
{
    match source.next_line(line) {
        Got::Line => read_variant(alloc, variants, source, line),
        Got::TooLong => Err(NoGame::Faulty(GameFault::LineTooLong(1))),
        Got::End => Err(NoGame::Faulty(GameFault::Missing(1))),
        Got::Failed => Err(NoGame::Unread),
    }
}

/// Reads a game text of one of these variants to its end or to its first faulty line, in one pass.
///
/// The answer is the game that the text says, after all its moves.
///
/// # Errors
///
/// The text's first fault: that of the first faulty line, and on a line that of the first faulty word. No line after it
/// is taken. `Unread` where the source failed, and `Memory` where there was none; then nothing is known of the text.
pub fn read_game<S: Source>(
    alloc: Global,
    variants: &Variants,
    source: &mut S,
) -> Result<Game, NoGame>
    ensures heard { HeardLines (S.left source.old) (S.left source.new) (GameText.lines_of_game variants.now)
        (λ lines. SaysGame (GameText.game_of variants.now lines) result) }
    ensures cause { HasCause (S.faults source.old) (S.faults source.new) (IsUnread result) }
{
    let mut line = LineBuf::new(alloc)?;
    let mut game = read_start(alloc, variants, source, &mut line)?;
    read_moves(alloc, &mut game, source, &mut line)?;
    Ok(game)
}
