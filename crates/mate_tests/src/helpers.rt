//! Positions and games of chess, frames and shards.
ghost use Rattle.std.specs.Prelude.{IfOk};
ghost use Rattle.rules_model.specs.Fit.{IsFit};
ghost use Rattle.mate_shards.specs.Grown.{HaveParts};
ghost use Rattle.mate_shards.specs.Views.{ArePassesOf};
ghost use Rattle.mate_search.specs.Solves.{IsFrameFor};

use game_play::Game;
use mate_core::Frame;
use mate_search::frame_of as frame_for;
use mate_shards::{Passes, Shards};
use rules_model::{Blocked, Memory, Position, Side, repeat_of, sound};
use sample_rules::{chess, position};
use std::alloc::Global;
use std::process::Abort;

/// The pieces, with this side to move.
pub fn placed(pieces: &str, side: Side) -> Position {
    Position {
        side,
        ..position(pieces)
    }
}

/// The game of chess from the position, without a move.
pub fn game_from(rt: &impl Abort, alloc: Global, p: &Position) -> Game {
    let rules = chess();
    assert!(rt; sound(&rules, p));
    Game::new(alloc, &rules, p).expect(rt, "no fault")
}

/// White attacks in chess, where this position may not be entered again.
pub fn frame_of(rt: &impl Abort, alloc: Global, again: &Position) -> Frame
    ensures { IsFit result.rules }
{
    let items = vec![in alloc; repeat_of(again)].expect(rt, "no fault");
    Frame {
        rules: chess(),
        blocked: Blocked { items },
        attacker: Side::White,
    }
}

/// Four shards without facts for wins of the game by the side.
pub fn shards_for(alloc: Global, game: &Game, attacker: Side) -> Result<(Shards, Passes), Memory>
    ensures frame { IfOk result (λ made. IsFrameFor game.now attacker made.0.frame) }
    ensures passes { IfOk result (λ made. ArePassesOf made.0 made.1) }
    ensures parts { IfOk result (λ made. HaveParts 65536 made.1) }
{
    let frame = frame_for(alloc, game, attacker)?;
    let (shards, passes) = Shards::new(alloc, frame, 4, 4096)?;
    Ok((shards, passes))
}
