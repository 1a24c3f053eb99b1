//! A game that is kept: begun by a game text, and moved on by the texts of moves.
ghost use Rattle.std.specs.Prelude.{◌≡◌, IfOk, OnErr};
ghost use Rattle.std.specs.Option.{option_copied};
ghost use Rattle.game_text.specs.Playing.{play};
ghost use Rattle.referee.specs.Games.{Begins, HasGiven, IsBegun, MovesOn, SaysInput};

use crate::given_file::GivenFile;
use foundation::Memory;
use game_play::Game;
use game_text::play_move;
use io_ports::{MemSource, PollsOwed};
use one_shot_checks::NoAnswer;
use one_shots::{Answer, answer_of, game_in, sections_with};
use std::alloc::Global;
use variant_ini::Sections;

/// What a game text begins.
#[derive(Drop)]
pub enum Begun {
    /// The game that the text says, after all its moves.
    Kept(Game),
    /// What the program answers where the file of variants or the text has a fault.
    Refused(Answer),
}

// The sections that are built in, and those of the file, where there is one.
fn sections_of(alloc: Global, file: Option<&[u8]>) -> Result<Sections, NoAnswer<'static>>
    ensures { HasGiven (option_copied file.entry) result }
{
    let mut files = GivenFile { bytes: file };
    match file {
        None => sections_with(alloc, &mut files, None),
        Some(_) => sections_with(alloc, &mut files, Some("")),
    }
}

// The game that the text says, of a variant of these sections.
fn game_in_text(alloc: Global, sections: &Sections, input: &[u8]) -> Result<Game, NoAnswer<'static>>
    ensures { SaysInput sections.now input.now result }
{
    let mut source = MemSource::new(alloc, input, PollsOwed::Number(0), &[])?;
    game_in(alloc, sections, &mut source)
}

// The game that the text says, of the variants that are built in and of those of the file.
fn game_of(alloc: Global, file: Option<&[u8]>, input: &[u8]) -> Result<Game, NoAnswer<'static>>
    ensures { Begins (option_copied file.entry) input.now result }
{
    match sections_of(alloc, file) {
        Ok(sections) => game_in_text(alloc, &sections, input),
        Err(why) => Err(why),
    }
}

/// Begins the game that a game text says, of the variants that are built in and of those of the file, where there is
/// one.
///
/// # Errors
///
/// There was no memory.
pub fn begin(alloc: Global, file: Option<&[u8]>, input: &[u8]) -> Result<Begun, Memory>
    ensures { IfOk result (IsBegun (option_copied file.entry) input.now) }
{
    match game_of(alloc, file, input) {
        Ok(game) => Ok(Begun::Kept(game)),
        Err(why) => match answer_of(alloc, Err(why)) {
            Ok(answer) => Ok(Begun::Refused(answer)),
            Err(_) => Err(Memory),
        },
    }
}

/// Plays the legal move with this text, which is all of the text. Where it is none, the answer is what the program
/// says of it, and the game is what it was.
///
/// # Errors
///
/// There was no memory; then the game is what it was.
pub fn play(alloc: Global, game: &mut Game, text: &[u8]) -> Result<Option<Answer>, Memory>
    ensures plays { IfOk result (MovesOn (play game.old text.now) game.old game.new) }
    ensures refused { OnErr result (game.new ≡ game.old) }
{
    match play_move(alloc, game, text) {
        Ok(()) => Ok(None),
        Err(why) => match answer_of(alloc, Err(NoAnswer::from(why))) {
            Ok(answer) => Ok(Some(answer)),
            Err(_) => Err(Memory),
        },
    }
}
