//! The leftmost line: at each of its positions the first move, whose value all others are held against.
ghost use Rattle.std.specs.Prelude.{◌≡◌, ◌+◌, ◌*◌, ◌<◌, ◌≤◌, length, IfOk, OnOk, IsErrOf};
ghost use Rattle.std.specs.List.Sorted.{IsPermutation};
ghost use Rattle.game_line.specs.Lined.{legal_in, story_of_line};
ghost use Rattle.evaluation.specs.Laws.{Within};
ghost use Rattle.evaluation.specs.Values.{play, tree_size, value};
ghost use Rattle.negamax.specs.Windows.{Bounds};
ghost use Rattle.watching.specs.declared.halt.Halt.{Halt};
ghost use Rattle.alpha_beta.specs.Workers.{most_nodes};

use crate::jobs::Job;
use crate::plan::Team;
use crate::sharing::share;
use foundation::Memory;
use game_line::Line;
use hint_table::HintTable;
use io_ports::Gate;
use negamax::{Best, SearchState, Window, end_where, root_rank, value_within};
use rules_model::{Move, MoveList};
use std::alloc::Global;
use std::thread::Threads;
use watching::{Halt, Watch};

/// How many plies a position has left at least, where its moves are shared. Less is not worth the start of the workers.
const LEAST_SHARED: u8 = 4;

/// The legal moves after the line, those first that promise most by the hints.
fn ranked(alloc: Global, line: &Line, hints: &HintTable) -> Result<MoveList, Memory>
    requires some { 0 < length (legal_in line.now) }
    ensures order { IfOk result (λ moves. IsPermutation (legal_in line.now) moves) }
    ensures some { IfOk result (λ moves. 0 < length moves) }
{
    let board = line.board();
    let mut moves = board.legal_moves(alloc)?;
    moves
        .items
        .sort_by_cached_key(|m: &Move| root_rank(board, hints, m))?;
    Ok(moves)
}

/// What the window asks of the value of the line, which is the leftmost one, at a depth and at a number of plies from
/// the root. The workers share the moves but the first of each position that has plies enough left.
pub(crate) fn left<R: Threads + Sync, W: Watch, G: Gate + Sync>(
    rt: &R,
    team: &Team<G>,
    line: &mut Line,
    state: &mut SearchState,
    jobs: &mut [Job],
    watch: &mut W,
    depth: u8,
    ply: u8,
    window: Window,
) -> Result<i32, Halt>
    requires plies { ply + depth ≤ 64 }
    requires room { length line.old.moves + depth + 4 ≤ line.old.room }
    requires count { length jobs.old ≤ 63 }
    ensures bounds { IfOk result (λ v. Bounds window.alpha window.beta v
        (value (play line.old.rules) depth ply (story_of_line line.old))) }
    ensures within { IfOk result Within }
    ensures few { OnOk result (most_nodes 0 jobs.new
        ≤ most_nodes 0 jobs.old + tree_size line.old.rules (depth + 4) (story_of_line line.old)) }
    ensures count { OnOk result (length jobs.new ≡ length jobs.old) }
    ensures gone { OnOk result
        (W.gone watch.old watch.new (2 * tree_size line.old.rules (depth + 4) (story_of_line line.old))) }
    ensures ended { (why : Halt) → IsErrOf result why
        → W.ended watch.old watch.new (2 * tree_size line.old.rules (depth + 4) (story_of_line line.old)) why }
    ensures kept { OnOk result (line.new ≡ line.old) }
{
    if depth < LEAST_SHARED {
        return value_within(line, state, watch, depth, ply, window);
    }
    watch.enter()?;
    let any = line.board().any_legal();
    if let Some(worth) = end_where(line, ply, any) {
        return Ok(worth);
    }
    let listed = ranked(team.alloc, line, team.hints)?;
    let moves = listed.items.as_slice();
    let chosen = moves[0];
    line.push(&chosen);
    let asked = window.turned();
    let found = left(
        rt,
        team,
        line,
        state,
        jobs,
        watch,
        depth - 1,
        ply + 1,
        asked,
    )?;
    line.back();
    let value = -found;
    let first = Best { value, chosen };
    let rest = &moves[1..];
    let best = share(
        rt, team, line, state, jobs, watch, depth, ply, rest, window, first,
    )?;
    state.leave_best(line.key(), depth, &best);
    Ok(best.value)
}
