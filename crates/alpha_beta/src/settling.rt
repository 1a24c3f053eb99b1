//! The moves of the root but the first, settled one by one.
ghost use Rattle.std.specs.Prelude.{◌≡◌, ◌+◌, ◌*◌, ◌≤◌, ℤ, pos, negsuc, length, IfOk, OnOk, IsErrOf};
ghost use Rattle.std.specs.List.{All};
ghost use Rattle.foundation.specs.Member.{Member};
ghost use Rattle.game_line.specs.Lined.{legal_in, story_of_line};
ghost use Rattle.evaluation.specs.Laws.{Within};
ghost use Rattle.evaluation.specs.Values.{greatest};
ghost use Rattle.negamax.specs.RootFacts.{Chooses, IsTrueFact, Settles, root_tree, score_of};
ghost use Rattle.negamax.specs.Windows.{Bounds};
ghost use Rattle.watching.specs.declared.halt.Halt.{Halt};
ghost use Rattle.alpha_beta.specs.Roots.{root_lines};
ghost use Rattle.alpha_beta.specs.Workers.{most_nodes};

use crate::jobs::Job;
use crate::left::left;
use crate::plan::Team;
use game_line::Line;
use io_ports::Gate;
use negamax::{Best, Fact, SearchState, Window, better_of, known_score};
use rules_model::Move;
use std::thread::Threads;
use watching::{Halt, Watch};

/// What the window asks of the score of a root move. The workers share its replies.
pub(crate) fn score_root<R: Threads + Sync, W: Watch, G: Gate + Sync>(
    rt: &R,
    team: &Team<G>,
    line: &mut Line,
    state: &mut SearchState,
    jobs: &mut [Job],
    watch: &mut W,
    depth: u8,
    chosen: &Move,
    window: Window,
) -> Result<i32, Halt>
    requires least { 1 ≤ depth }
    requires most { depth ≤ 64 }
    requires room { length line.old.moves + depth + 4 ≤ line.old.room }
    requires legal { Member chosen.now (legal_in line.old) }
    requires count { length jobs.old ≤ 63 }
    ensures bounds { IfOk result (λ score. Bounds window.alpha window.beta score
        (score_of line.old.rules depth 0 (story_of_line line.old) chosen.now)) }
    ensures within { IfOk result Within }
    ensures few { OnOk result (most_nodes 0 jobs.new
        ≤ most_nodes 0 jobs.old + root_tree line.old.rules depth (story_of_line line.old) chosen.now) }
    ensures count { OnOk result (length jobs.new ≡ length jobs.old) }
    ensures gone { OnOk result (W.gone watch.old watch.new
        (2 * root_tree line.old.rules depth (story_of_line line.old) chosen.now)) }
    ensures ended { (why : Halt) → IsErrOf result why → W.ended watch.old watch.new
        (2 * root_tree line.old.rules depth (story_of_line line.old) chosen.now) why }
    ensures kept { OnOk result (line.new ≡ line.old) }
{
    line.push(chosen);
    let asked = window.turned();
    let found = left(rt, team, line, state, jobs, watch, depth - 1, 1, asked)?;
    line.back();
    Ok(-found)
}

/// What the window asks of the score of a root move: what a fact says, or what the workers find.
fn score_in<R: Threads + Sync, W: Watch, G: Gate + Sync>(
    rt: &R,
    team: &Team<G>,
    line: &mut Line,
    state: &mut SearchState,
    jobs: &mut [Job],
    watch: &mut W,
    depth: u8,
    chosen: &Move,
    facts: &[Fact],
    window: Window,
) -> Result<i32, Halt>
    requires least { 1 ≤ depth }
    requires most { depth ≤ 64 }
    requires room { length line.old.moves + depth + 4 ≤ line.old.room }
    requires legal { Member chosen.now (legal_in line.old) }
    requires count { length jobs.old ≤ 63 }
    requires known { All (IsTrueFact line.old.rules depth 0 (story_of_line line.old)) facts.now }
    ensures bounds { IfOk result (λ score. Bounds window.alpha window.beta score
        (score_of line.old.rules depth 0 (story_of_line line.old) chosen.now)) }
    ensures within { IfOk result Within }
    ensures few { OnOk result (most_nodes 0 jobs.new
        ≤ most_nodes 0 jobs.old + root_tree line.old.rules depth (story_of_line line.old) chosen.now) }
    ensures count { OnOk result (length jobs.new ≡ length jobs.old) }
    ensures gone { OnOk result (W.gone watch.old watch.new
        (2 * root_tree line.old.rules depth (story_of_line line.old) chosen.now)) }
    ensures ended { (why : Halt) → IsErrOf result why → W.ended watch.old watch.new
        (2 * root_tree line.old.rules depth (story_of_line line.old) chosen.now) why }
    ensures kept { OnOk result (line.new ≡ line.old) }
{
    match known_score(line, depth, 0, facts, chosen, window) {
        Some(score) => Ok(score),
        None => score_root(rt, team, line, state, jobs, watch, depth, chosen, window),
    }
}

/// Settles one root move: a fact says enough of it, or the workers search it.
fn settle<R: Threads + Sync, W: Watch, G: Gate + Sync>(
    rt: &R,
    team: &Team<G>,
    line: &mut Line,
    state: &mut SearchState,
    jobs: &mut [Job],
    watch: &mut W,
    depth: u8,
    chosen: &Move,
    facts: &[Fact],
    best: Best,
) -> Result<Best, Halt>
    requires least { 1 ≤ depth }
    requires most { depth ≤ 64 }
    requires room { length line.old.moves + depth + 4 ≤ line.old.room }
    requires legal { Member chosen.now (legal_in line.old) }
    requires count { length jobs.old ≤ 63 }
    requires within { Within best.value }
    requires known { All (IsTrueFact line.old.rules depth 0 (story_of_line line.old)) facts.now }
    ensures settles { IfOk result (λ after. Settles line.old.rules depth 0 (story_of_line line.old)
        (negsuc 32001) (pos 32002) chosen.now best after) }
    ensures few { OnOk result (most_nodes 0 jobs.new
        ≤ most_nodes 0 jobs.old + root_tree line.old.rules depth (story_of_line line.old) chosen.now) }
    ensures count { OnOk result (length jobs.new ≡ length jobs.old) }
    ensures gone { OnOk result (W.gone watch.old watch.new
        (2 * root_tree line.old.rules depth (story_of_line line.old) chosen.now)) }
    ensures ended { (why : Halt) → IsErrOf result why → W.ended watch.old watch.new
        (2 * root_tree line.old.rules depth (story_of_line line.old) chosen.now) why }
    ensures kept { OnOk result (line.new ≡ line.old) }
{
    let window = Window::open();
    let asked = window.above(best.value);
    let score = score_in(
        rt, team, line, state, jobs, watch, depth, chosen, facts, asked,
    )?;
    Ok(better_of(best, chosen, asked.alpha, score))
}

/// The best of the root moves and of a best before them. The workers share those of which the facts do not say enough.
pub(crate) fn settle_all<R: Threads + Sync, W: Watch, G: Gate + Sync>(
    rt: &R,
    team: &Team<G>,
    line: &mut Line,
    state: &mut SearchState,
    jobs: &mut [Job],
    watch: &mut W,
    depth: u8,
    moves: &[Move],
    facts: &[Fact],
    first: Best,
) -> Result<Best, Halt>
    requires least { 1 ≤ depth }
    requires most { depth ≤ 64 }
    requires room { length line.old.moves + depth + 4 ≤ line.old.room }
    requires legal { All (λ m. Member m (legal_in line.old)) moves.now }
    requires count { length jobs.old ≤ 63 }
    requires within { Within first.value }
    requires known { All (IsTrueFact line.old.rules depth 0 (story_of_line line.old)) facts.now }
    ensures bounds { IfOk result (λ best. (v : ℤ) → Bounds (negsuc 32001) (pos 32002) first.value v
        → Bounds (negsuc 32001) (pos 32002) best.value
        (greatest v (score_of line.old.rules depth 0 (story_of_line line.old)) moves.now)) }
    ensures within { IfOk result (λ best. Within best.value) }
    ensures chosen { IfOk result
        (Chooses line.old.rules depth 0 (story_of_line line.old) (negsuc 32001) moves.now first) }
    ensures few { OnOk result (most_nodes 0 jobs.new
        ≤ most_nodes 0 jobs.old + root_lines line.old.rules depth (story_of_line line.old) moves.now) }
    ensures count { OnOk result (length jobs.new ≡ length jobs.old) }
    ensures gone { OnOk result (W.gone watch.old watch.new
        (2 * root_lines line.old.rules depth (story_of_line line.old) moves.now)) }
    ensures ended { (why : Halt) → IsErrOf result why → W.ended watch.old watch.new
        (2 * root_lines line.old.rules depth (story_of_line line.old) moves.now) why }
    ensures kept { OnOk result (line.new ≡ line.old) }
{
    let mut best = first;
    for m in moves {
        best = settle(rt, team, line, state, jobs, watch, depth, m, facts, best)?;
    }
    Ok(best)
}
