//! Moves of a position, one by one, and the best of them.
ghost use Rattle.std.specs.Prelude.{◌≡◌, ◌⊎◌, ◌+◌, ◌≤◌, ℤ, ◌<ℤ◌, ◌≤ℤ◌, All, length, sum_by, IfOk, OnOk, IsErrOf};
ghost use Rattle.std.specs.Int.{int_max};
ghost use Rattle.foundation.specs.Member.{Member};
ghost use Rattle.game_line.specs.Lined.{legal_in, story_of_line};
ghost use Rattle.evaluation.specs.Laws.{Within};
ghost use Rattle.evaluation.specs.Values.{greatest};
ghost use Rattle.watching.specs.declared.halt.Halt.{Halt};
ghost use Rattle.negamax.specs.RootFacts.{Chooses, IsTrueFact, Settles, root_tree, score_of};
ghost use Rattle.negamax.specs.Windows.{Bounds};

use crate::facts::{Best, Fact, fact_of, known_score};
use crate::search::value_within;
use crate::search_state::SearchState;
use crate::window::Window;
use game_line::Line;
use rules_model::Move;
use watching::{Halt, Watch};

/// What the window asks of the score of one move at a depth from 1 to 64, at a number of plies from the root. The line
/// needs room for the depth and four moves more.
///
/// # Errors
///
/// What ended the watch; nothing is said then of the line and the search state.
pub fn score_move<W: Watch>(
    line: &mut Line,
    state: &mut SearchState,
    watch: &mut W,
    depth: u8,
    ply: u8,
    chosen: &Move,
    window: Window,
) -> Result<i32, Halt>
    requires least { 1 ≤ depth }
    requires plies { ply + depth ≤ 64 }
    requires room { length line.old.moves + depth + 4 ≤ line.old.room }
    requires legal { Member chosen.now (legal_in line.old) }
    ensures bounds { IfOk result (λ score. Bounds window.alpha window.beta score
        (score_of line.old.rules depth ply (story_of_line line.old) chosen.now)) }
    ensures within { IfOk result Within }
    ensures gone { OnOk result
        (W.gone watch.old watch.new (root_tree line.old.rules depth (story_of_line line.old) chosen.now)) }
    ensures ended { (why : Halt) → IsErrOf result why
        → W.ended watch.old watch.new (root_tree line.old.rules depth (story_of_line line.old) chosen.now) why }
    ensures kept { OnOk result (line.new ≡ line.old) }
{
    line.push(chosen);
    let found = value_within(line, state, watch, depth - 1, ply + 1, window.turned())?;
    line.back();
    Ok(-found)
}

/// Searches one move at a depth from 1 to 64, at a number of plies from the root, and tells what the answer within the
/// window says of it. The line needs room for the depth and four moves more.
///
/// # Errors
///
/// What ended the watch; nothing is said then of the line and the search state.
pub fn search_move<W: Watch>(
    line: &mut Line,
    state: &mut SearchState,
    watch: &mut W,
    depth: u8,
    ply: u8,
    chosen: &Move,
    window: Window,
) -> Result<Fact, Halt>
    requires least { 1 ≤ depth }
    requires plies { ply + depth ≤ 64 }
    requires room { length line.old.moves + depth + 4 ≤ line.old.room }
    requires legal { Member chosen.now (legal_in line.old) }
    ensures fact { IfOk result (λ fact. IsTrueFact line.old.rules depth ply (story_of_line line.old) fact) }
    ensures chosen { IfOk result (λ fact. fact.chosen ≡ chosen.now) }
    ensures gone { OnOk result
        (W.gone watch.old watch.new (root_tree line.old.rules depth (story_of_line line.old) chosen.now)) }
    ensures ended { (why : Halt) → IsErrOf result why
        → W.ended watch.old watch.new (root_tree line.old.rules depth (story_of_line line.old) chosen.now) why }
    ensures kept { OnOk result (line.new ≡ line.old) }
{
    let score = score_move(line, state, watch, depth, ply, chosen, window)?;
    Ok(fact_of(line, depth, ply, chosen, window, score))
}

/// What the window asks of the score of one move: what a fact says, or what a search does.
fn score_in<W: Watch>(
    line: &mut Line,
    state: &mut SearchState,
    watch: &mut W,
    depth: u8,
    ply: u8,
    chosen: &Move,
    facts: &[Fact],
    window: Window,
) -> Result<i32, Halt>
    requires least { 1 ≤ depth }
    requires plies { ply + depth ≤ 64 }
    requires room { length line.old.moves + depth + 4 ≤ line.old.room }
    requires legal { Member chosen.now (legal_in line.old) }
    requires known { All (IsTrueFact line.old.rules depth ply (story_of_line line.old)) facts.now }
    ensures bounds { IfOk result (λ score. Bounds window.alpha window.beta score
        (score_of line.old.rules depth ply (story_of_line line.old) chosen.now)) }
    ensures within { IfOk result Within }
    ensures gone { OnOk result
        (W.gone watch.old watch.new (root_tree line.old.rules depth (story_of_line line.old) chosen.now)) }
    ensures ended { (why : Halt) → IsErrOf result why
        → W.ended watch.old watch.new (root_tree line.old.rules depth (story_of_line line.old) chosen.now) why }
    ensures kept { OnOk result (line.new ≡ line.old) }
{
    match known_score(line, depth, ply, facts, chosen, window) {
        Some(score) => Ok(score),
        None => score_move(line, state, watch, depth, ply, chosen, window),
    }
}

/// The better of the best so far and of a move, of whose score a window above the best, from the floor on, asked this.
pub fn better_of(best: Best, chosen: &Move, floor: i32, score: i32) -> Best
    requires low { best.value ≤ℤ floor }
    ensures value { result.value ≡ int_max best.value score }
    ensures chosen { ((result.chosen ≡ best.chosen) × (result.value ≤ℤ floor))
        ⊎ ((result.chosen ≡ chosen.now) × (floor <ℤ result.value) × (result.value ≡ score)) }
{
    if score > floor {
        Best {
            value: score,
            chosen: *chosen,
        }
    } else {
        Best {
            value: best.value.max(score),
            chosen: best.chosen,
        }
    }
}

/// Settles one move: a fact says enough of it, or it is searched.
fn settle<W: Watch>(
    line: &mut Line,
    state: &mut SearchState,
    watch: &mut W,
    depth: u8,
    ply: u8,
    chosen: &Move,
    facts: &[Fact],
    window: Window,
    best: Best,
) -> Result<Best, Halt>
    requires least { 1 ≤ depth }
    requires plies { ply + depth ≤ 64 }
    requires room { length line.old.moves + depth + 4 ≤ line.old.room }
    requires legal { Member chosen.now (legal_in line.old) }
    requires within { Within best.value }
    requires known { All (IsTrueFact line.old.rules depth ply (story_of_line line.old)) facts.now }
    ensures settles { IfOk result (λ after.
        Settles line.old.rules depth ply (story_of_line line.old) window.alpha window.beta chosen.now best after) }
    ensures gone { OnOk result
        (W.gone watch.old watch.new (root_tree line.old.rules depth (story_of_line line.old) chosen.now)) }
    ensures ended { (why : Halt) → IsErrOf result why
        → W.ended watch.old watch.new (root_tree line.old.rules depth (story_of_line line.old) chosen.now) why }
    ensures kept { OnOk result (line.new ≡ line.old) }
{
    if best.value >= window.beta {
        return Ok(best);
    }
    let asked = window.above(best.value);
    let score = score_in(line, state, watch, depth, ply, chosen, facts, asked)?;
    Ok(better_of(best, chosen, asked.alpha, score))
}

/// The best of the moves and of a best before them, as far as the window asks, whatever windows the facts are from.
/// Moves of which the facts do not say enough are searched.
///
/// # Errors
///
/// What ended the watch; nothing is said then of the line and the search state.
pub fn combine<W: Watch>(
    line: &mut Line,
    state: &mut SearchState,
    watch: &mut W,
    depth: u8,
    ply: u8,
    moves: &[Move],
    facts: &[Fact],
    window: Window,
    first: Best,
) -> Result<Best, Halt>
    requires least { 1 ≤ depth }
    requires plies { ply + depth ≤ 64 }
    requires room { length line.old.moves + depth + 4 ≤ line.old.room }
    requires legal { All (λ m. Member m (legal_in line.old)) moves.now }
    requires within { Within first.value }
    requires known { All (IsTrueFact line.old.rules depth ply (story_of_line line.old)) facts.now }
    ensures bounds { IfOk result (λ best. (v : ℤ) → Bounds window.alpha window.beta first.value v
        → Bounds window.alpha window.beta best.value
        (greatest v (score_of line.old.rules depth ply (story_of_line line.old)) moves.now)) }
    ensures within { IfOk result (λ best. Within best.value) }
    ensures chosen { IfOk result
        (Chooses line.old.rules depth ply (story_of_line line.old) window.alpha moves.now first) }
    ensures gone { OnOk result (W.gone watch.old watch.new
        (sum_by (root_tree line.old.rules depth (story_of_line line.old)) moves.now)) }
    ensures ended { (why : Halt) → IsErrOf result why → W.ended watch.old watch.new
        (sum_by (root_tree line.old.rules depth (story_of_line line.old)) moves.now) why }
    ensures kept { OnOk result (line.new ≡ line.old) }
{
    let mut best = first;
    for m in moves {
        best = settle(line, state, watch, depth, ply, m, facts, window, best)?;
    }
    Ok(best)
}
