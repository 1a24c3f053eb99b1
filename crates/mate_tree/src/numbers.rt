//! Proof and disproof numbers.
ghost use Rattle.std.specs.Prelude.{◌≡◌, ◌<◌, length, not};
ghost use Rattle.mate_tree.specs.Numbers as Numbers;

use crate::node::Node;

/// No number is greater.
const MOST: u32 = 1 << 30;

/// The place of the child on the path to the most-proving leaf, and the numbers of the node.
#[derive(Clone, Copy)]
pub(crate) struct BestChild {
    pub place: usize,
    /// The least number of a child that the side to move wants small.
    pub own: u32,
    /// The sum of the children's other numbers.
    pub others: u32,
}

// The number that the side to move wants small: the proof number where the attacker moves, else the disproof number.
fn own_number(attacking: bool, node: &Node) -> u32
    ensures { result ≡ Numbers.own_number attacking node.now }
{
    if attacking { node.proof } else { node.disproof }
}

/// The first child whose own number is the least, with what the children's numbers come to.
pub(crate) fn best_child(attacking: bool, children: &[Node]) -> BestChild
    ensures place { 0 < length children.now → result.place < length children.now }
    ensures own { result.own ≡ Numbers.least_of attacking children.now }
    ensures others { result.others ≡ Numbers.sum_of (not attacking) children.now }
{
    let mut best = BestChild {
        place: 0,
        own: MOST,
        others: 0,
    };
    for i in 0..children.len() {
        let own = own_number(attacking, &children[i]);
        let other = own_number(!attacking, &children[i]);
        best.others = best.others.saturating_add(other).min(MOST);
        if own < best.own {
            best.own = own;
            best.place = i;
        }
    }
    best
}
