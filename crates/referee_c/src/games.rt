//! Games that C holds: begun by a game text, moved on, asked and ended.
ghost use Rattle.std.specs.Prelude.{◌≡◌, Some, None};
ghost use Rattle.checkers.specs.CheckersText.{checkers_of};
ghost use Rattle.game_play.specs.Played.{Played};
ghost use Rattle.game_text.specs.GameTexts as print;
ghost use Rattle.game_text.specs.Playing.{play};
ghost use Rattle.referee_c.specs.HeldGames.{BeginsHeld, IsTold, KeepsHeld, PlaysHeld, TakesBack, TellsHeld};
ghost use Rattle.referee_c.specs.Written.{file_of};

use crate::held::HeldGame;
use crate::{DONE, NO_MEMORY, Reply, no_text, write};
use checkers::checkers_of;
use foundation::{Memory, Text};
use game_play::Game;
use game_text::{moves_of, status_of};
use referee::{Begun, begin, play};
use std::alloc::Global;

// Keeps a game, where there is memory for it.
fn keep(alloc: Global, game: &mut HeldGame, kept: Game) -> Reply
    requires closed { game.old.game ≡ None }
    ensures { KeepsHeld kept game.new.game result }
{
    match Box::new(alloc, kept) {
        Ok(kept) => {
            game.put(kept);
            no_text(DONE)
        }
        Err(_) => no_text(NO_MEMORY),
    }
}

// The text of a game, where there was memory for it.
fn told(text: Result<Text, Memory>, room: &mut [u8]) -> Reply
    ensures { IsTold text room.old room.new result }
{
    match text {
        Ok(text) => write(0, text.items.as_slice(), room),
        Err(_) => no_text(NO_MEMORY),
    }
}

/// Begins the game that a game text says, of the variants that are built in and of those of the file. Where the file or
/// the text has a fault, there is none, and the text is what the program says of it.
#[unsafe(no_mangle)]
pub extern "C" fn vengine_begin(
    alloc: Global,
    game: &mut HeldGame,
    has_file: bool,
    file: &[u8],
    input: &[u8],
    room: &mut [u8],
) -> Reply
    requires closed { game.old.game ≡ None }
    ensures { BeginsHeld (file_of has_file file.now) input.now game.new.game room.old room.new result }
{
    let file = if has_file { Some(file) } else { None };
    match begin(alloc, file, input) {
        Ok(Begun::Kept(kept)) => keep(alloc, game, kept),
        Ok(Begun::Refused(answer)) => write(answer.status, answer.text.items.as_slice(), room),
        Err(_) => no_text(NO_MEMORY),
    }
}

/// Plays the legal move with this text, which is all of the text. Where it is none, the game is what it was, and the
/// text is what the program says of it.
#[unsafe(no_mangle)]
pub extern "C" fn vengine_play(
    alloc: Global,
    game: &mut HeldGame,
    text: &[u8],
    room: &mut [u8],
) -> Reply
    ghost g: { Played }
    requires open { game.old.game ≡ Some g }
    ensures { PlaysHeld (play g text.now) g game.new.game room.old room.new result }
{
    let mut kept = game.take(alloc);
    let played = play(alloc, &mut kept, text);
    game.put(kept);
    match played {
        Ok(None) => no_text(DONE),
        Ok(Some(answer)) => write(answer.status, answer.text.items.as_slice(), room),
        Err(_) => no_text(NO_MEMORY),
    }
}

/// Takes the last move back, and says whether there was one.
#[unsafe(no_mangle)]
pub extern "C" fn vengine_undo(alloc: Global, game: &mut HeldGame) -> bool
    ghost g: { Played }
    requires open { game.old.game ≡ Some g }
    ensures { TakesBack g game.new.game result }
{
    let mut kept = game.take(alloc);
    let undone = kept.undo();
    game.put(kept);
    match undone {
        Ok(()) => true,
        Err(_) => false,
    }
}

/// The legal moves of the last position, and then their number, as `moves` prints them.
#[unsafe(no_mangle)]
pub extern "C" fn vengine_moves(alloc: Global, game: &mut HeldGame, room: &mut [u8]) -> Reply
    ghost g: { Played }
    requires open { game.old.game ≡ Some g }
    ensures told { TellsHeld (print.moves_of g) room.old room.new result }
    ensures same { game.new.game ≡ Some g }
{
    let kept = game.take(alloc);
    let text = moves_of(alloc, &kept);
    game.put(kept);
    told(text, room)
}

/// How the game stands, and on a second line its last position, as `status` prints them.
#[unsafe(no_mangle)]
pub extern "C" fn vengine_status(alloc: Global, game: &mut HeldGame, room: &mut [u8]) -> Reply
    ghost g: { Played }
    requires open { game.old.game ≡ Some g }
    ensures told { TellsHeld (print.status_of g) room.old room.new result }
    ensures same { game.new.game ≡ Some g }
{
    let kept = game.take(alloc);
    let text = status_of(alloc, &kept);
    game.put(kept);
    told(text, room)
}

/// The squares of the pieces that attack the king of the side to move, as `checkers` prints them.
#[unsafe(no_mangle)]
pub extern "C" fn vengine_checkers(alloc: Global, game: &mut HeldGame, room: &mut [u8]) -> Reply
    ghost g: { Played }
    requires open { game.old.game ≡ Some g }
    ensures told { TellsHeld (checkers_of g) room.old room.new result }
    ensures same { game.new.game ≡ Some g }
{
    let kept = game.take(alloc);
    let text = checkers_of(alloc, &kept);
    game.put(kept);
    told(text, room)
}

/// Ends a game: all that it holds is freed.
#[unsafe(no_mangle)]
pub extern "C" fn vengine_end(alloc: Global, game: &mut HeldGame)
    ghost g: { Played }
    requires open { game.old.game ≡ Some g }
    ensures { game.new.game ≡ None }
{
    let _ended = game.take(alloc);
}
