//! Frames of chess.
ghost use Rattle.rules_model.specs.Fit.{IsFit};

use mate_core::Frame;
use rules_model::{Blocked, Repeat, Side};
use sample_rules::chess;

/// White attacks in chess, where these positions may not be entered again.
pub fn frame_of(blocked: Vec<Repeat>) -> Frame
    ensures { IsFit result.rules }
{
    Frame {
        rules: chess(),
        blocked: Blocked { items: blocked },
        attacker: Side::White,
    }
}
