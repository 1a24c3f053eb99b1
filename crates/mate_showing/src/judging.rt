//! What the table of a win comes to.
ghost use Rattle.std.specs.Prelude.{◌≡◌, ◌∷◌, [], true, IfOk};
ghost use Rattle.game_play.specs.Played.{story};
ghost use Rattle.mate_showing.specs.Answers.{IsRight};
ghost use Rattle.mate_showing.specs.Counts as Counts;
ghost use Rattle.mate_showing.specs.Tabled.{IsKept};
ghost use Rattle.mate_showing.specs.declared.answer.Settled.TheVariants as Said;
ghost use Rattle.rules_model.specs.Repeats as Repeats;

use crate::answer::Settled;
use crate::plan::StrategyPlan;
use game_play::Game;
use mate_core::Frame;
use rules_model::{Memory, Position, Side, repeat_of, repeats};
use std::alloc::{AllocError, Global};
use strategy::{Counters, Node, Nodes, Strategy};

/// The answer that the game is won, by the strategy of these nodes.
pub(crate) fn shown(attacker: Side, nodes: Vec<Node>) -> Settled
    ensures { result ≡ Said.Shown (record { attacker = attacker; nodes = nodes.items }) }
{
    Settled::Shown(Strategy {
        attacker,
        nodes: Nodes { items: nodes },
    })
}

fn nodes_at(nodes: &[Node], p: &Position) -> usize
    ensures { result ≡ Counts.nodes_at (Repeats.repeat_of p.now) nodes.now }
{
    nodes.iter().filter(|v| repeats(&v.position, p)).count()
}

fn list_counters(alloc: Global, nodes: &[Node], p: &Position) -> Result<Vec<u16>, AllocError>
    ensures { IfOk result (λ cs. cs.items ≡ Counts.counters_of (Repeats.repeat_of p.now) nodes.now) }
{
    nodes
        .iter()
        .filter(|v| repeats(&v.position, p))
        .map(|v| v.position.counter)
        .collect(alloc)
}

fn counters_of(alloc: Global, nodes: &[Node], p: &Position) -> Result<Counters, Memory>
    ensures { IfOk result (λ cs. cs ≡ Counts.counters_of (Repeats.repeat_of p.now) nodes.now) }
{
    let items = list_counters(alloc, nodes, p)?;
    Ok(Counters { items })
}

fn two(alloc: Global, a: u16, b: u16) -> Result<Counters, Memory>
    ensures { IfOk result (λ cs. cs ≡ a ∷ b ∷ []) }
{
    let items = vec![in alloc; a, b]?;
    Ok(Counters { items })
}

// Whether the position's repeat stands in the game and in the nodes as often as the fold says, or more often.
fn is_often(game: &Game, fold: u16, nodes: &[Node], p: &Position) -> bool
    ensures { result ≡ Counts.is_often fold (story game.now) nodes.now (Repeats.repeat_of p.now) }
{
    let all = u128::from(game.repeats(p)) + nodes_at(nodes, p) as u128;
    0 < fold && u128::from(fold) <= all
}

/// What the table of a near win comes to near the move-count limit, where each counter has a node of its own: its
/// strategy; or a repeat that stands too often for one.
pub(crate) fn judge(
    alloc: Global,
    game: &Game,
    frame: &Frame,
    plan: &StrategyPlan,
    nodes: Vec<Node>,
) -> Result<Settled, Memory>
    requires tabled { Counts.IsTabledIn (story game.now) frame.now plan.now nodes.items }
    requires kept { IsKept frame.now plan.now nodes.items }
    requires exact { plan.now.exact ≡ true }
    ensures { IfOk result (IsRight frame.now.rules (story game.now) frame.now.attacker plan.now.whole) }
{
    let last = game.position();
    for i in 1..nodes.len() {
        let p = nodes[i].position;
        if repeats(&p, last) {
            let counters = two(alloc, last.counter, p.counter)?;
            return Ok(Settled::Unsettled {
                repeat: repeat_of(last),
                counters,
            });
        }
        if is_often(game, frame.rules.n_fold, nodes.as_slice(), &p) {
            let counters = counters_of(alloc, nodes.as_slice(), &p)?;
            return Ok(Settled::Unsettled {
                repeat: repeat_of(&p),
                counters,
            });
        }
    }
    Ok(shown(frame.attacker, nodes))
}
