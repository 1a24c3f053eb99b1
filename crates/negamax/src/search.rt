//! The search of all moves, ply by ply.
ghost use Rattle.std.specs.Prelude.{◌≡◌, ◌+◌, ◌≤◌, length, IfOk, OnOk, IsErrOf};
ghost use Rattle.evaluation.specs.Tallies.{IsTally};
ghost use Rattle.game_line.specs.Lined.{story_of_line};
ghost use Rattle.evaluation.specs.Laws.{Within};
ghost use Rattle.evaluation.specs.Values.{play, tree_size, value};
ghost use Rattle.watching.specs.declared.halt.Halt.{Halt};
ghost use Rattle.negamax.specs.Windows.{Bounds};

use crate::ends::{end_where, piece_values_of, play};
use crate::last_ply::last_ply;
use crate::move_order::better;
use crate::quiescence::{CAPTURES, quiescence};
use crate::scored_moves::take_best;
use crate::search_state::{SearchState, hint_of};
use crate::window::{WORST, Window, raised};
use evaluation::{PieceValues, Tally};
use game_line::Line;
use watching::{Halt, Watch};

/// What the window asks of the value of the line at a depth, at a number of plies from the root.
pub(crate) fn search<W: Watch>(
    line: &mut Line,
    values: &PieceValues,
    state: &mut SearchState,
    watch: &mut W,
    tally: Tally,
    depth: u8,
    ply: u8,
    window: Window,
) -> Result<i32, Halt>
    requires values { values.now ≡ line.old.rules }
    requires tally { IsTally line.old.rules (story_of_line line.old).last tally }
    requires room { length line.old.moves + depth + 4 ≤ line.old.room }
    requires plies { ply + depth ≤ 70 }
    ensures bounds { IfOk result (λ v. Bounds window.alpha window.beta v
        (value (play line.old.rules) depth ply (story_of_line line.old))) }
    ensures within { IfOk result Within }
    ensures gone { OnOk result
        (W.gone watch.old watch.new (tree_size line.old.rules (depth + 4) (story_of_line line.old))) }
    ensures ended { (why : Halt) → IsErrOf result why
        → W.ended watch.old watch.new (tree_size line.old.rules (depth + 4) (story_of_line line.old)) why }
    ensures line { OnOk result (line.new ≡ line.old) }
    ensures waiting { OnOk result (state.new.waiting.items ≡ state.old.waiting.items) }
{
    if depth == 0 {
        let resting = quiescence(line, values, state, watch, tally, CAPTURES, ply, window)?;
        return Ok(resting);
    }
    if depth == 1 {
        return last_ply(line, values, state, watch, tally, ply, window);
    }
    watch.enter()?;
    let key = line.key();
    let mut slot = state.hint(key);
    let first = state.waiting.len();
    let any = state.push_moves(line.board(), values, slot, ply)?;
    if let Some(worth) = end_where(line, ply, any) {
        state.waiting.truncate(first);
        return Ok(worth);
    }
    let mut best = WORST;
    while best < window.beta && state.waiting.len() > first {
        let m = take_best(&mut state.waiting, first);
        let next = play(line, values, tally, &m);
        let found = search(
            line,
            values,
            state,
            watch,
            next,
            depth - 1,
            ply + 1,
            window.of_reply(best),
        )?;
        line.back();
        slot = better(slot, &m, window.alpha.max(best), found);
        best = raised(best, found);
    }
    state.waiting.truncate(first);
    let hint = hint_of(depth, slot, best);
    let cuts = best >= window.beta;
    state.leave(line.board().position(), key, ply, hint, cuts);
    Ok(best)
}

/// What the window asks of the value of the line at a depth and at a number of plies from the root, which are together
/// at most 70. The line needs room for the depth and four moves more.
///
/// # Errors
///
/// What ended the watch; nothing is said then of the line and the search state.
pub fn value_within<W: Watch>(
    line: &mut Line,
    state: &mut SearchState,
    watch: &mut W,
    depth: u8,
    ply: u8,
    window: Window,
) -> Result<i32, Halt>
    requires room { length line.old.moves + depth + 4 ≤ line.old.room }
    requires plies { ply + depth ≤ 70 }
    ensures bounds { IfOk result (λ v. Bounds window.alpha window.beta v
        (value (play line.old.rules) depth ply (story_of_line line.old))) }
    ensures within { IfOk result Within }
    ensures gone { OnOk result
        (W.gone watch.old watch.new (tree_size line.old.rules (depth + 4) (story_of_line line.old))) }
    ensures ended { (why : Halt) → IsErrOf result why
        → W.ended watch.old watch.new (tree_size line.old.rules (depth + 4) (story_of_line line.old)) why }
    ensures kept { OnOk result (line.new ≡ line.old) }
{
    state.clear();
    let values = piece_values_of(line);
    let tally = values.tally(line.board().position());
    search(line, &values, state, watch, tally, depth, ply, window)
}
