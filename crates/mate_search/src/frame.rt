//! The frame of a game, and copies of frames.
ghost use Rattle.std.specs.Prelude.{◌≡◌, IfOk};
ghost use Rattle.mate_search.specs.Solves.{IsFrameFor};

use game_play::Game;
use mate_core::Frame;
use rules_model::{Blocked, Memory, Side, copy_of_rules};
use std::alloc::Global;

fn blocked_of(alloc: Global, blocked: &Blocked) -> Result<Blocked, Memory>
    ensures { IfOk result (λ copy. copy ≡ blocked.now) }
{
    let items = Vec::from_slice(alloc, blocked.items.as_slice())?;
    Ok(Blocked { items })
}

/// The same frame.
///
/// # Errors
///
/// `Memory`.
pub fn copy_of_frame(alloc: Global, frame: &Frame) -> Result<Frame, Memory>
    ensures { IfOk result (λ copy. copy ≡ frame.now) }
{
    let blocked = blocked_of(alloc, &frame.blocked)?;
    Ok(Frame {
        rules: copy_of_rules(&frame.rules),
        blocked,
        attacker: frame.attacker,
    })
}

/// The game's rules and blocked positions, and the side that attacks in it; or `Memory`.
pub fn frame_of(alloc: Global, game: &Game, attacker: Side) -> Result<Frame, Memory>
    ensures { IfOk result (IsFrameFor game.now attacker) }
{
    Ok(Frame {
        rules: copy_of_rules(game.rules()),
        blocked: game.blocked(alloc)?,
        attacker,
    })
}
