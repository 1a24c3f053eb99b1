//! The limits of a search.
ghost use Rattle.std.specs.Prelude.{◌≡◌, is_some, if◌then◌else◌};
ghost use Rattle.session_model.specs.CecpSession as CecpSession;
ghost use Rattle.session_model.specs.declared.limits.TheConstants.{MOST_DEPTH, SHORT_DEPTH};

use session_model::limits::{MOST_DEPTH, SHORT_DEPTH};
use uci_lines::allowance;

/// The time of a search in milliseconds, where it has a deadline: the seconds a move, or else by the level, which is
/// the moves of a session and the increment in seconds, and the centiseconds that are left.
pub fn time_for(st: Option<u64>, level: Option<(u64, u64)>, left: Option<u64>) -> Option<u64>
    ensures { result ≡ CecpSession.time_by st level left }
{
    if let Some(seconds) = st {
        return Some(seconds.saturating_mul(1000));
    }
    let (moves, increment) = level?;
    let left = left?.saturating_mul(10);
    Some(allowance(left, increment.saturating_mul(1000), Some(moves)))
}

/// The last depth of a search: 64 where it has a deadline, else 4. A depth that is set lowers it.
pub fn depth_for(time: Option<u64>, depth: Option<u64>) -> u8
    ensures { result ≡ CecpSession.lowered (if is_some time then MOST_DEPTH else SHORT_DEPTH) depth }
{
    let most = if time.is_some() {
        MOST_DEPTH
    } else {
        SHORT_DEPTH
    };
    let depth = match depth {
        Some(depth) => most.min(depth.min(MOST_DEPTH).max(1)),
        None => most,
    };
    depth as u8
}
