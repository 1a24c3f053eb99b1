//! Proof and disproof numbers.
ghost use Rattle.std.specs.Prelude.{◌≡◌, map, not};
ghost use Rattle.pn_search.specs.Numbers as Numbers;
ghost use Rattle.pn_search.specs.Trees as Trees;

/// The number of what cannot be.
pub const INFINITE: u32 = u32::MAX;

/// How many open leaves, at the least, have to be won so that the node is, and how many have to be lost so that it is.
#[derive(Clone, Copy, PartialEq, Eq)]
pub struct Pair {
    pub proof: u32,
    pub disproof: u32,
}

/// The pair of a node that was not looked at yet.
pub(crate) const OPEN: Pair = Pair {
    proof: 1,
    disproof: 1,
};

// The sum of two numbers: infinite where one of them is, else at most one less.
#[tactic(auto, unfolding(crate::specs::Numbers::plus))]
fn plus(a: u32, b: u32) -> u32
    ensures { result ≡ Numbers.plus a b }
{
    if a.max(b) == INFINITE {
        INFINITE
    } else {
        a.saturating_add(b).min(INFINITE - 1)
    }
}

/// The number that the side to move wants small: the proof number where the attacker moves, else the disproof number.
pub(crate) fn own_number(attacking: bool, pair: &Pair) -> u32
    ensures { result ≡ Numbers.own_number attacking pair.now }
{
    if attacking { pair.proof } else { pair.disproof }
}

fn pair_with(attacking: bool, own: u32, others: u32) -> Pair
    ensures { result ≡ Numbers.pair_with attacking own others }
{
    if attacking {
        Pair {
            proof: own,
            disproof: others,
        }
    } else {
        Pair {
            proof: others,
            disproof: own,
        }
    }
}

// The least of the numbers that the side to move wants small, and the sum of the others.
fn least_and_sum(attacking: bool, children: &[Pair]) -> (u32, u32)
    ensures least { result.0 ≡ Numbers.least_of (map (Numbers.own_number attacking) children.now) }
    ensures sum { result.1 ≡ Numbers.sum_of (map (Numbers.own_number (not attacking)) children.now) }
{
    let mut least = INFINITE;
    let mut sum = 0;
    for child in children {
        least = least.min(own_number(attacking, child));
        sum = plus(sum, own_number(!attacking, child));
    }
    (least, sum)
}

/// The pair of a node with children.
#[tactic(auto, unfolding(crate::specs::Numbers::inner_pair))]
pub(crate) fn inner_pair(attacking: bool, children: &[Pair]) -> Pair
    ensures { result ≡ Numbers.inner_pair attacking children.now }
{
    let (least, sum) = least_and_sum(attacking, children);
    pair_with(attacking, least, sum)
}

/// Whether one of the numbers is infinite.
pub(crate) fn is_settled_pair(pair: &Pair) -> bool
    ensures { result ≡ Trees.is_settled_pair pair.now }
{
    pair.proof == INFINITE || pair.disproof == INFINITE
}
