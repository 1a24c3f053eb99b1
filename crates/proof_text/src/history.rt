//! Plays the moves of the history.
ghost use Rattle.std.specs.Prelude.{◌≡◌, ◌+◌, ◌<◌, ◌^◌, ℕ, suc, Ok, MatchResult};
ghost use Rattle.std.specs.Option.{option_copied};
ghost use Rattle.io_ports.specs.Cause.{HasCause};
ghost use Rattle.proof_text.specs.Reading.{goal_on, moves_on, played_by};
ghost use Rattle.proof_text.specs.TakingView.{HasWhy, IsUnread, Reads, text_said};

use crate::fault::ProofFault;
use crate::source_lines::{NoProof, take_text, text_if};
use game_play::Game;
use game_text::{NoGame, play_move};
use io_ports::{LineBuf, Source};
use std::alloc::Global;

// Plays the move that a text names; the line of this number has no text where it is missing or too long.
fn play_text(
    alloc: Global,
    number: u64,
    game: &mut Game,
    text: Option<&[u8]>,
) -> Result<(), NoProof>
    ensures says { let text = option_copied text.entry in
        let said = text_said (ProofFault.BadHistory number) (played_by game.old) text in
        MatchResult result (λ _. said ≡ Ok game.new) (HasWhy said) }
    ensures heard { ¬ (IsUnread result) }
{
    let Some(text) = text else {
        return Err(NoProof::Faulty(ProofFault::BadHistory(number)));
    };
    match play_move(alloc, game, text) {
        Ok(()) => Ok(()),
        Err(NoGame::Memory) => Err(NoProof::Faulty(ProofFault::Memory)),
        Err(_) => Err(NoProof::Faulty(ProofFault::BadHistory(number))),
    }
}

// Plays the move of the line of this number.
fn take_move<S: Source>(
    alloc: Global,
    source: &mut S,
    line: &mut LineBuf,
    number: u64,
    game: &mut Game,
) -> Result<(), NoProof>
    ensures reads { (count : ℕ) → Reads (S.left source.old) (S.left source.new)
        (moves_on (suc count) number game.old) (λ played. moves_on count (number + 1) game.new) result }
    ensures cause { HasCause (S.faults source.old) (S.faults source.new) (IsUnread result) }
{
    let is_there = take_text(source, line)?;
    play_text(alloc, number, game, text_if(is_there, line))
}

/// Plays the moves of this many lines from the line of this number on.
pub(crate) fn take_moves<S: Source>(
    alloc: Global,
    source: &mut S,
    line: &mut LineBuf,
    number: u64,
    count: u16,
    game: &mut Game,
) -> Result<(), NoProof>
    requires { number < 2 ^ 32 }
    ensures reads { Reads (S.left source.old) (S.left source.new)
        (moves_on count number game.old) (λ played. goal_on (number + count) game.new) result }
    ensures cause { HasCause (S.faults source.old) (S.faults source.new) (IsUnread result) }
{
    for done in 0..count {
        take_move(alloc, source, line, number + done as u64, game)?;
    }
    Ok(())
}
