//! What is known of the moves of a position.
ghost use Rattle.std.specs.Prelude.{◌≡◌, ℤ, ◌≤ℤ◌, All, IfSome, IsTrue};
ghost use Rattle.game_line.specs.Lined.{story_of_line};
ghost use Rattle.evaluation.specs.Laws.{Within};
ghost use Rattle.negamax.specs.RootFacts.{IsTrueFact, score_of};
ghost use Rattle.negamax.specs.Windows.{Bounds};

use crate::window::{BEST, WORST, Window};
use game_line::Line;
use rules_model::Move;

/// What a search of a move found: it scores at least the one value and at most the other.
#[derive(Clone, Copy)]
pub struct Fact {
    pub chosen: Move,
    pub least: i32,
    pub most: i32,
}

/// The best score of the moves, and a move that has it.
#[derive(Clone, Copy)]
pub struct Best {
    pub value: i32,
    pub chosen: Move,
}

fn are_same(a: &Move, b: &Move) -> bool
    ensures { IsTrue result → a.now ≡ b.now }
{
    a == b
}

/// The least that a value is, of which the window asked this.
fn least_of(window: Window, asked: i32) -> i32
    requires within { Within asked }
    ensures least { (v : ℤ) → Within v → Bounds window.alpha window.beta asked v → result ≤ℤ v }
    ensures within { Within result }
{
    if asked > window.alpha { asked } else { WORST }
}

/// The most that a value is, of which the window asked this.
fn most_of(window: Window, asked: i32) -> i32
    requires within { Within asked }
    ensures most { (v : ℤ) → Within v → Bounds window.alpha window.beta asked v → v ≤ℤ result }
    ensures within { Within result }
{
    if asked < window.beta { asked } else { BEST }
}

/// What the answer of a search within the window says of the move's score.
pub(crate) fn fact_of(
    line: &Line,
    depth: u8,
    ply: u8,
    chosen: &Move,
    window: Window,
    score: i32,
) -> Fact
    requires within { Within score }
    requires bounds { Bounds window.alpha window.beta score
        (score_of line.now.rules depth ply (story_of_line line.now) chosen.now) }
    ensures fact { IsTrueFact line.now.rules depth ply (story_of_line line.now) result }
    ensures chosen { result.chosen ≡ chosen.now }
{
    Fact {
        chosen: *chosen,
        least: least_of(window, score),
        most: most_of(window, score),
    }
}

/// What the window asks of the move's score, if the fact is of that move and says it.
fn says(line: &Line, depth: u8, ply: u8, fact: &Fact, chosen: &Move, window: Window) -> Option<i32>
    requires { IsTrueFact line.now.rules depth ply (story_of_line line.now) fact.now }
    ensures bounds { IfSome result (λ score. Bounds window.alpha window.beta score
        (score_of line.now.rules depth ply (story_of_line line.now) chosen.now)) }
    ensures within { IfSome result Within }
{
    if !are_same(&fact.chosen, chosen) {
        return None;
    }
    if fact.most <= window.alpha {
        return Some(fact.most);
    }
    if fact.least >= window.beta {
        return Some(fact.least);
    }
    if fact.least == fact.most {
        return Some(fact.most);
    }
    None
}

/// What the window asks of the move's score at a depth, at a number of plies from the root, where one of the facts says
/// it.
pub fn known_score(
    line: &Line,
    depth: u8,
    ply: u8,
    facts: &[Fact],
    chosen: &Move,
    window: Window,
) -> Option<i32>
    requires { All (IsTrueFact line.now.rules depth ply (story_of_line line.now)) facts.now }
    ensures bounds { IfSome result (λ score. Bounds window.alpha window.beta score
        (score_of line.now.rules depth ply (story_of_line line.now) chosen.now)) }
    ensures within { IfSome result Within }
{
    for fact in facts {
        let said = says(line, depth, ply, fact, chosen, window);
        if said.is_some() {
            return said;
        }
    }
    None
}
