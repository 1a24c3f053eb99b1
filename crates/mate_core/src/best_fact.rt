//! What lists of facts answer.
ghost use Rattle.std.specs.Prelude.{◌≡◌, ◌↔◌, ℕ, ◌<◌, ◌≤◌, true, false, List, [], length, Option, Some, None, slice_get};
ghost use Rattle.std.specs.Bool.{Decides};
ghost use Rattle.std.specs.List.{fold};
ghost use Rattle.rules_model.specs.declared.board.Repeat.{Repeat};
ghost use Rattle.forced_wins.specs.declared.fact.Fact.{Fact};
ghost use Rattle.forced_wins.specs.Facts as Facts;
ghost use Rattle.mate_core.specs.Best as Best;

use forced_wins::Fact;
use rules_model::{Repeat, is_same_repeat};

/// Whether the fact says if the attacker wins the repeat at the counter within so many of his moves.
#[tactic(auto, unfolding(forced_wins::specs::Facts::serves))]
pub fn serves(fact: &Fact, repeat: &Repeat, counter: u16, moves: u16) -> bool
    ensures { result ≡ Facts.serves fact.now repeat.now counter moves }
{
    is_same_repeat(&fact.repeat, repeat) && fact.covers(counter, moves)
}

/// Whether the first fact is of the repeat and the kind of the second, and answers all that the second answers.
#[tactic(auto, unfolding(crate::specs::Best::is_as_good))]
pub fn is_as_good(known: &Fact, fact: &Fact) -> bool
    ensures { result ≡ Best.is_as_good known.now fact.now }
{
    known.wins == fact.wins && serves(known, &fact.repeat, fact.counter, fact.moves)
}

/// The better of two answers, the first of which is of earlier facts: the one with fewer moves, else the first.
pub fn sooner(first: Option<Fact>, second: Option<Fact>) -> Option<Fact>
    ensures { result ≡ Best.sooner first second }
{
    match (first, second) {
        (Some(a), Some(b)) if b.moves < a.moves => Some(b),
        (None, b) => b,
        (a, _) => a,
    }
}

// The fact, if it answers the query.
fn if_serves(fact: &Fact, repeat: &Repeat, counter: u16, moves: u16) -> Option<Fact>
    ensures { result ≡ Best.if_serves fact.now repeat.now counter moves }
{
    if serves(fact, repeat, counter, moves) {
        Some(*fact)
    } else {
        None
    }
}

fn walk(facts: &[Fact], repeat: &Repeat, counter: u16, moves: u16) -> Option<Fact>
    ensures { result ≡ fold (λ found f. Best.sooner found (Best.if_serves f repeat.now counter moves)) None facts.now }
{
    facts.iter().fold(None, |found, fact| {
        sooner(found, if_serves(fact, repeat, counter, moves))
    })
}

/// The first of the facts with the least moves among those that answer the query.
pub fn best(facts: &[Fact], repeat: &Repeat, counter: u16, moves: u16) -> Option<Fact>
    ensures { result ≡ Best.best facts.now repeat.now counter moves }
{
    walk(facts, repeat, counter, moves)
}

/// Whether a fact of the list is as good as this one.
pub fn has_better(facts: &[Fact], fact: &Fact) -> bool
    ensures { result ≡ Best.has_better facts.now fact.now }
{
    facts.iter().any(|known| is_as_good(known, fact))
}

/// A fact that is as good as another is of its repeat and kind, and serves every query that the other serves. Where
/// one serves all those, it is as good.
pub fn as_good_facts_serve_as_much()
    ensures { (k f : Fact) → Decides (Best.is_as_good k f) (Best.ServesAsMuch k f) }
{}

/// The best answer of a list serves the query. No fact of the list that serves it has fewer moves, and none before it
/// has as few. There is none exactly where no fact serves.
pub fn best_is_the_first_of_the_least()
    ensures found { (fs : List Fact) (r : Repeat) (c n : ℕ) (f : Fact) → Best.best fs r c n ≡ Some f
        → Best.IsFirstOfLeast fs r c n f }
    ensures none { (fs : List Fact) (r : Repeat) (c n : ℕ) → (Best.best fs r c n ≡ None) ↔ Best.NoneServes fs r c n }
{}
