//! How a position is ended, looked at without its history.
ghost use Rattle.std.specs.Prelude.{◌≡◌};
ghost use Rattle.forced_wins.specs.Wins.{is_in};
ghost use Rattle.mate_fact.specs.InFrame.{end_in};
ghost use Rattle.rules_model.specs.Legal as Legal;
ghost use Rattle.rules_model.specs.Repeats as Repeats;

use end_rules::is_run_out;
use forced_wins::won_by;
use mate_core::Frame;
use rules_model::{Blocked, Outcome, Position, is_same_repeat, repeat_of};

/// Whether the position may not be entered again.
pub fn is_blocked(blocked: &Blocked, p: &Position) -> bool
    ensures { result ≡ is_in blocked.now (Repeats.repeat_of p.now) }
{
    if blocked.items.is_empty() {
        return false;
    }
    let repeat = repeat_of(p);
    blocked
        .items
        .iter()
        .any(|barred| is_same_repeat(&repeat, barred))
}

/// How the position is ended in the frame: whether the attacker has won; None where it is ongoing. `own` is the end
/// that it has by itself. One that may not be entered again, or whose counter has run out, is not won.
#[tactic(auto, unfolding(forced_wins::specs::Wins::near_end))]
pub fn end_of(frame: &Frame, p: &Position, own: Outcome) -> Option<bool>
    requires own { own ≡ Legal.own_end frame.now.rules (Repeats.repeat_of p.now) }
    ensures { result ≡ end_in frame.now p.now }
{
    let won = won_by(frame.attacker, own);
    if won.is_some() {
        return won;
    }
    if is_blocked(&frame.blocked, p) || is_run_out(&frame.rules, p.counter) {
        Some(false)
    } else {
        None
    }
}
