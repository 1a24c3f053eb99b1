//! How the numbers of a node that has changed are carried up the tree.
ghost use Rattle.std.specs.Prelude.{◌≡◌, ℕ, ◌+◌, ◌<◌, ◌≤◌, length, take, drop};
ghost use Rattle.pn_search.specs.Numbers as Numbers;
ghost use Rattle.pn_search.specs.Shapes as Shapes;

use crate::node::{Node, State};
use crate::numbers::{INFINITE, OPEN, Pair, inner_pair};

/// The part of the pairs that belongs to the children.
pub(crate) fn children_of(pairs: &[Pair], first: u32, count: u32) -> &[Pair]
    requires { first + count ≤ length pairs.now }
    ensures { result.now ≡ take count (drop first pairs.now) }
{
    let first = first as usize;
    &pairs[first..first + count as usize]
}

// The pair of the node by those of its children.
fn numbers_of(node: &Node, pairs: &[Pair]) -> Pair
    requires { Shapes.AreWithin node.now.state (length pairs.now) }
    ensures { result ≡ Numbers.numbers_of node.now.state node.now.attacking
        (Numbers.of_children node.now.state pairs.now) }
{
    match node.state {
        State::Open => OPEN,
        State::Won => Pair {
            proof: 0,
            disproof: INFINITE,
        },
        State::Lost => Pair {
            proof: INFINITE,
            disproof: 0,
        },
        State::Inner { first, count } => {
            inner_pair(node.attacking, children_of(pairs, first, count))
        }
    }
}

/// Works out the pair of a node that has changed, and then those of the nodes above it, as far as they change.
pub(crate) fn carry(nodes: &[Node], pairs: &mut [Pair], changed: usize)
    requires within { changed < length nodes.now }
    requires len { length pairs.old ≡ length nodes.now }
    requires placed { Shapes.AreInPlace nodes.now }
    requires others { (i : ℕ) → (i ≡ changed → ⊥) → Shapes.IsNumbered nodes.now pairs.old i }
    ensures { pairs.new ≡ Numbers.pairs_of nodes.now }
{
    let mut at = changed;
    'up: loop {
        let pair = numbers_of(&nodes[at], pairs);
        if pair == pairs[at] {
            return;
        }
        pairs[at] = pair;
        if at == 0 {
            return;
        }
        at = nodes[at].parent as usize;
    }
}
