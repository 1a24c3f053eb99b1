//! The way down to the leaf that proves most.
ghost use Rattle.std.specs.Prelude.{◌≡◌, ◌==◌, ◌<◌, Some, IfSome, length, position};
ghost use Rattle.foundation.specs.Member.{Member};
ghost use Rattle.legality.specs.Stance.{legal_in};
ghost use Rattle.rules_model.specs.declared.moves.Move.{Move};
ghost use Rattle.pn_search.specs.Numbers as Numbers;
ghost use Rattle.pn_search.specs.Shapes as Shapes;
ghost use Rattle.pn_search.specs.Trees as Trees;

use crate::carrying::children_of;
use crate::node::{Node, State};
use crate::numbers::{Pair, own_number};
use playing::Board;
use rules_model::Move;

/// A node that is reached from the root, and its position.
#[derive(Drop)]
pub(crate) struct Leaf<'t> {
    pub place: usize,
    pub board: Board<'t>,
}

// The place among the children of the first that has the number.
fn first_with(attacking: bool, number: u32, children: &[Pair]) -> Option<usize>
    ensures first { result ≡ position (λ c. Numbers.own_number attacking c == number) children.now }
    ensures within { IfSome result (λ k. k < length children.now) }
{
    children
        .iter()
        .position(|child| own_number(attacking, child) == number)
}

/// The number of the child by which the way to the most-proving leaf goes on, if the node has children.
pub(crate) fn best_child(nodes: &[Node], pairs: &[Pair], at: usize) -> Option<usize>
    requires within { at < length nodes.now }
    requires len { length pairs.now ≡ length nodes.now }
    requires placed { Shapes.AreInPlace nodes.now }
    ensures child { result ≡ Trees.best_child_at nodes.now pairs.now at }
    ensures within { IfSome result (λ i. i < length nodes.now) }
{
    let node = &nodes[at];
    match node.state {
        State::Inner { first, count } => {
            let number = own_number(node.attacking, &pairs[at]);
            let place = first_with(node.attacking, number, children_of(pairs, first, count))?;
            Some(first as usize + place)
        }
        _ => None,
    }
}

/// The board after the move that leads to a node. No move leads to the root.
pub(crate) fn stepped<'t>(board: &Board<'t>, chosen: &Option<Move>) -> Board<'t>
    requires { (m : Move) → chosen.now ≡ Some m → Member m (legal_in board.now) }
    ensures rules { result.rules ≡ board.now.rules }
    ensures position { result.position ≡
        Trees.position_after board.now.rules board.now.position chosen.now }
{
    match chosen {
        Some(m) => board.asked_after(m),
        None => {
            board.prove_ready();
            Board::new(board.tables(), board.position())
        }
    }
}
