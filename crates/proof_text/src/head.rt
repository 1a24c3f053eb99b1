//! Takes the lines of the head.
ghost use Rattle.std.specs.Prelude.{◌+◌, ◌≤◌, [], IfOk};
ghost use Rattle.io_ports.specs.Cause.{HasCause};
ghost use Rattle.rules_model.specs.Fit.{IsFit};
ghost use Rattle.game_play.specs.declared.game.TheConstants.{MOST_PLIES};
ghost use Rattle.fen_model.specs.Reading.{fen_of};
ghost use Rattle.proof_text.specs.Reading as Said;
ghost use Rattle.proof_text.specs.TakingView.{IsUnread, Reads, Starts};

use crate::fault::ProofFault;
use crate::source_lines::{NoProof, take_text, text_if};
use crate::words::{read_goal, read_history, read_rules, read_start, read_version};
use game_play::Game;
use game_text::Goal;
use io_ports::{LineBuf, Source};
use rules_model::Rules;
use std::alloc::Global;
use variant_fen::read_fen;

/// Takes `strategy 2`.
pub(crate) fn take_version<S: Source>(source: &mut S, line: &mut LineBuf) -> Result<(), NoProof>
    ensures reads { Reads (S.left source.old) (S.left source.new) Said.proof_on (λ version. Said.rules_on) result }
    ensures cause { HasCause (S.faults source.old) (S.faults source.new) (IsUnread result) }
{
    let is_there = take_text(source, line)?;
    match text_if(is_there, line).and_then(read_version) {
        Some(()) => Ok(()),
        None => Err(NoProof::Faulty(ProofFault::Header(1))),
    }
}

/// Takes `rules K`.
pub(crate) fn take_rules<S: Source>(source: &mut S, line: &mut LineBuf) -> Result<u16, NoProof>
    ensures reads { Reads (S.left source.old) (S.left source.new)
        Said.rules_on (λ count. Said.pairs_on count 3 []) result }
    ensures within { IfOk result (λ count. count ≤ 512) }
    ensures cause { HasCause (S.faults source.old) (S.faults source.new) (IsUnread result) }
{
    let is_there = take_text(source, line)?;
    match text_if(is_there, line).and_then(read_rules) {
        Some(count) => Ok(count),
        None => Err(NoProof::Faulty(ProofFault::Header(2))),
    }
}

// The game from the start that a FEN says.
fn started(alloc: Global, rules: &Rules, number: u64, fen: &[u8]) -> Result<Game, NoProof>
    requires fit { IsFit rules.now }
    ensures starts { Starts number rules.now (fen_of rules.now fen.now) result }
    ensures heard { ¬ (IsUnread result) }
{
    match read_fen(rules, fen) {
        Ok(start) => Ok(Game::new(alloc, rules, &start)?),
        Err(why) => Err(NoProof::Faulty(ProofFault::BadStart(number, why))),
    }
}

/// Takes `start FEN`, the line of this number: the game from that start.
pub(crate) fn take_start<S: Source>(
    alloc: Global,
    source: &mut S,
    line: &mut LineBuf,
    number: u64,
    rules: &Rules,
) -> Result<Game, NoProof>
    requires fit { IsFit rules.now }
    ensures reads { Reads (S.left source.old) (S.left source.new)
        (Said.start_on number rules.now) (λ game. Said.history_on (number + 1) game) result }
    ensures cause { HasCause (S.faults source.old) (S.faults source.new) (IsUnread result) }
{
    let is_there = take_text(source, line)?;
    match text_if(is_there, line).and_then(read_start) {
        Some(fen) => started(alloc, rules, number, fen),
        None => Err(NoProof::Faulty(ProofFault::Header(number))),
    }
}

/// Takes `history N`, the line of this number.
pub(crate) fn take_history<S: Source>(
    source: &mut S,
    line: &mut LineBuf,
    number: u64,
    game: &Game,
) -> Result<u16, NoProof>
    ensures reads { Reads (S.left source.old) (S.left source.new)
        (Said.history_on number game.now) (λ count. Said.moves_on count (number + 1) game.now) result }
    ensures within { IfOk result (λ count. count ≤ MOST_PLIES) }
    ensures cause { HasCause (S.faults source.old) (S.faults source.new) (IsUnread result) }
{
    let is_there = take_text(source, line)?;
    match text_if(is_there, line).and_then(read_history) {
        Some(count) => Ok(count),
        None => Err(NoProof::Faulty(ProofFault::Header(number))),
    }
}

/// Takes `goal SIDE N`, the line of this number.
pub(crate) fn take_goal<S: Source>(
    source: &mut S,
    line: &mut LineBuf,
    number: u64,
    game: &Game,
) -> Result<Goal, NoProof>
    ensures reads { Reads (S.left source.old) (S.left source.new)
        (Said.goal_on number game.now) (λ goal. Said.body_on (number + 1) game.now goal) result }
    ensures cause { HasCause (S.faults source.old) (S.faults source.new) (IsUnread result) }
{
    let is_there = take_text(source, line)?;
    match text_if(is_there, line).and_then(read_goal) {
        Some(goal) => Ok(goal),
        None => Err(NoProof::Faulty(ProofFault::Header(number))),
    }
}
