//! The search of captures at the end of a line.
ghost use Rattle.std.specs.Prelude.{◌≡◌, ◌+◌, ◌≤◌, neg_ℤ, length, IfOk, OnOk, IsErrOf};
ghost use Rattle.foundation.specs.Member.{Member};
ghost use Rattle.rules_model.specs.Games.{played};
ghost use Rattle.evaluation.specs.Tallies.{IsTally};
ghost use Rattle.game_line.specs.Lined.{legal_in, story_of_line};
ghost use Rattle.evaluation.specs.Laws.{Within};
ghost use Rattle.evaluation.specs.Values.{play, quiet, tree_size};
ghost use Rattle.watching.specs.declared.halt.Halt.{Halt};
ghost use Rattle.negamax.specs.Settling.{Knows};
ghost use Rattle.negamax.specs.Windows.{Bounds};

use crate::ends::{end_where, put, resting, stand_pat, sums_after};
use crate::scored_moves::take_best;
use crate::search_state::SearchState;
use crate::settling::Settling;
use crate::window::{Window, greater};
use evaluation::{PieceValues, Tally};
use game_line::Line;
use rules_model::Move;
use watching::{Halt, Watch};

/// How many captures are searched behind the last ply.
pub(crate) const CAPTURES: u8 = 4;

/// What the window asks of the value of standing pat, or of the best line of at most N captures.
#[cycle(quiescence)]
pub(crate) fn quiescence<W: Watch>(
    line: &mut Line,
    values: &PieceValues,
    state: &mut SearchState,
    watch: &mut W,
    tally: Tally,
    limit: u8,
    ply: u8,
    window: Window,
) -> Result<i32, Halt>
    requires values { values.now ≡ line.old.rules }
    requires tally { IsTally line.old.rules (story_of_line line.old).last tally }
    requires room { length line.old.moves + limit ≤ line.old.room }
    requires plies { ply + limit ≤ 80 }
    ensures bounds { IfOk result (λ v. Bounds window.alpha window.beta v
        (quiet (play line.old.rules) limit ply (story_of_line line.old))) }
    ensures within { IfOk result Within }
    ensures gone { OnOk result (W.gone watch.old watch.new (tree_size line.old.rules limit (story_of_line line.old))) }
    ensures ended { (why : Halt) → IsErrOf result why
        → W.ended watch.old watch.new (tree_size line.old.rules limit (story_of_line line.old)) why }
    ensures line { OnOk result (line.new ≡ line.old) }
    ensures waiting { OnOk result (state.new.waiting.items ≡ state.old.waiting.items) }
{
    watch.enter()?;
    let mut best = stand_pat(line, tally);
    if limit == 0 || best >= window.beta {
        return Ok(resting(line, ply, best));
    }
    let first = state.waiting.len();
    let any = state.push_captures(line.board(), values)?;
    if let Some(worth) = end_where(line, ply, any) {
        state.waiting.truncate(first);
        return Ok(worth);
    }
    let mut settling = Settling::of(line);
    while best < window.beta && state.waiting.len() > first {
        let m = take_best(&mut state.waiting, first);
        let asked = window.above(best);
        let score = settle_or_search(
            line,
            values,
            state,
            watch,
            tally,
            &mut settling,
            &m,
            limit - 1,
            ply,
            asked,
        )?;
        best = greater(best, score);
    }
    state.waiting.truncate(first);
    Ok(best)
}

/// What the window asks of the score of the legal move, after which at most N captures are searched. Where it is known
/// at a glance that the move is not above the window, it is not entered.
#[cycle(quiescence)]
pub(crate) fn settle_or_search<W: Watch>(
    line: &mut Line,
    values: &PieceValues,
    state: &mut SearchState,
    watch: &mut W,
    tally: Tally,
    settling: &mut Settling,
    m: &Move,
    limit: u8,
    ply: u8,
    window: Window,
) -> Result<i32, Halt>
    requires values { values.now ≡ line.old.rules }
    requires tally { IsTally line.old.rules (story_of_line line.old).last tally }
    requires known { Knows line.old settling.old }
    requires legal { Member m.now (legal_in line.old) }
    requires room { length line.old.moves + limit + 1 ≤ line.old.room }
    requires plies { ply + limit + 1 ≤ 80 }
    ensures known { OnOk result (Knows line.old settling.new) }
    ensures bounds { IfOk result (λ v. Bounds window.alpha window.beta v
        (neg_ℤ (quiet (play line.old.rules) limit (ply + 1) (played line.old.rules (story_of_line line.old) m.now)))) }
    ensures within { IfOk result Within }
    ensures gone { OnOk result (W.gone watch.old watch.new
        (tree_size line.old.rules limit (played line.old.rules (story_of_line line.old) m.now))) }
    ensures ended { (why : Halt) → IsErrOf result why → W.ended watch.old watch.new
        (tree_size line.old.rules limit (played line.old.rules (story_of_line line.old) m.now)) why }
    ensures line { OnOk result (line.new ≡ line.old) }
    ensures waiting { OnOk result (state.new.waiting.items ≡ state.old.waiting.items) }
{
    let sums = sums_after(line, values, tally, m);
    if let Some(most) = settling.most(line, m, sums, window.alpha) {
        return Ok(most);
    }
    put(line, m);
    let asked = window.turned();
    let found = quiescence(line, values, state, watch, sums, limit, ply + 1, asked)?;
    line.back();
    Ok(-found)
}
