//! The last ply before the search of captures.
ghost use Rattle.std.specs.Prelude.{◌≡◌, ◌+◌, ◌≤◌, length, IfOk, OnOk, IsErrOf};
ghost use Rattle.evaluation.specs.Tallies.{IsTally};
ghost use Rattle.game_line.specs.Lined.{story_of_line};
ghost use Rattle.evaluation.specs.Laws.{Within};
ghost use Rattle.evaluation.specs.Values.{play, tree_size, value};
ghost use Rattle.watching.specs.declared.halt.Halt.{Halt};
ghost use Rattle.negamax.specs.Windows.{Bounds};

use crate::ends::end_where;
use crate::move_order::better;
use crate::quiescence::{CAPTURES, settle_or_search};
use crate::scored_moves::take_best;
use crate::search_state::{SearchState, hint_of};
use crate::settling::Settling;
use crate::window::{WORST, Window, greater};
use evaluation::{PieceValues, Tally};
use game_line::Line;
use watching::{Halt, Watch};

/// What the window asks of the value of the line at depth 1, at a number of plies from the root.
pub(crate) fn last_ply<W: Watch>(
    line: &mut Line,
    values: &PieceValues,
    state: &mut SearchState,
    watch: &mut W,
    tally: Tally,
    ply: u8,
    window: Window,
) -> Result<i32, Halt>
    requires values { values.now ≡ line.old.rules }
    requires tally { IsTally line.old.rules (story_of_line line.old).last tally }
    requires room { length line.old.moves + 5 ≤ line.old.room }
    requires plies { ply ≤ 69 }
    ensures bounds { IfOk result (λ v. Bounds window.alpha window.beta v
        (value (play line.old.rules) 1 ply (story_of_line line.old))) }
    ensures within { IfOk result Within }
    ensures gone { OnOk result
        (W.gone watch.old watch.new (tree_size line.old.rules 5 (story_of_line line.old))) }
    ensures ended { (why : Halt) → IsErrOf result why
        → W.ended watch.old watch.new (tree_size line.old.rules 5 (story_of_line line.old)) why }
    ensures line { OnOk result (line.new ≡ line.old) }
    ensures waiting { OnOk result (state.new.waiting.items ≡ state.old.waiting.items) }
{
    watch.enter()?;
    let key = line.key();
    let mut slot = state.hint(key);
    let first = state.waiting.len();
    let any = state.push_moves(line.board(), values, slot, ply)?;
    if let Some(worth) = end_where(line, ply, any) {
        state.waiting.truncate(first);
        return Ok(worth);
    }
    let mut best = WORST;
    let mut settling = Settling::of(line);
    while best < window.beta && state.waiting.len() > first {
        let m = take_best(&mut state.waiting, first);
        let asked = window.above(best);
        let score = settle_or_search(
            line,
            values,
            state,
            watch,
            tally,
            &mut settling,
            &m,
            CAPTURES,
            ply,
            asked,
        )?;
        slot = better(slot, &m, asked.alpha, -score);
        best = greater(best, score);
    }
    state.waiting.truncate(first);
    let cuts = best >= window.beta;
    let hint = hint_of(1, slot, best);
    state.leave(line.board().position(), key, ply, hint, cuts);
    Ok(best)
}
