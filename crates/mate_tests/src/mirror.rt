//! A tree that is kept beside the one that is tested: each node has its position, and the numbers of all nodes are
//! worked out anew from their definition each time.
use attack_tables::Tables;
use playing::Board;
use pn_search::{INFINITE, Tree};
use rules_model::{Outcome, Position, Side, repeats, sound};
use std::alloc::Global;
use std::process::Abort;

/// What is known of a node; of an inner one, its first child and the node after its last child.
#[derive(Clone, Copy)]
enum Known {
    Open,
    Won,
    Lost,
    Inner(usize, usize),
}

/// A node with its position.
#[derive(Clone, Copy)]
struct Twin {
    position: Position,
    left: u16,
    known: Known,
}

impl Twin {
    /// Whether White, who attacks, is to move.
    fn is_attacking(&self) -> bool {
        self.position.side.is(Side::White)
    }
}

/// A tree for White as the attacker, whose counter cannot run out, and the position that may not be entered again.
#[derive(Drop)]
pub struct Mirror {
    again: Position,
    nodes: Vec<Twin>,
}

/// A proof number and a disproof number.
pub type Numbers = (u32, u32);

/// The numbers of a node by those of its children.
fn inner(attacking: bool, children: &[Numbers]) -> Numbers {
    let mut least = INFINITE;
    let mut sum: u64 = 0;
    let mut endless = false;
    for child in children {
        let (proof, disproof) = *child;
        let (own, other) = if attacking {
            (proof, disproof)
        } else {
            (disproof, proof)
        };
        least = least.min(own);
        sum = sum.saturating_add(u64::from(other));
        endless = endless || other == INFINITE;
    }
    let sum = if endless {
        INFINITE
    } else {
        sum.min(u64::from(INFINITE - 1)) as u32
    };
    if attacking {
        (least, sum)
    } else {
        (sum, least)
    }
}

/// The part of a list from a place up to another, or nothing where there is no such part.
fn part(numbers: &[Numbers], first: usize, until: usize) -> &[Numbers] {
    if first <= until && until <= numbers.len() {
        &numbers[first..until]
    } else {
        &[]
    }
}

/// The place of the first child that has the node's own number.
fn best_child(node: &Twin, numbers: &[Numbers], at: usize) -> Option<usize> {
    let Known::Inner(first, until) = node.known else {
        return None;
    };
    let own = if node.is_attacking() {
        numbers.get(at)?.0
    } else {
        numbers.get(at)?.1
    };
    for child in first..until {
        let (proof, disproof) = *numbers.get(child)?;
        if own == (if node.is_attacking() { proof } else { disproof }) {
            return Some(child);
        }
    }
    None
}

impl Mirror {
    /// The open root of a win within n moves.
    pub fn new(
        rt: &impl Abort,
        alloc: Global,
        again: &Position,
        root: &Position,
        n: u16,
    ) -> Mirror {
        let root = Twin {
            position: *root,
            left: n,
            known: Known::Open,
        };
        Mirror {
            again: *again,
            nodes: vec![in alloc; root].expect(rt, "no fault"),
        }
    }

    /// The numbers of all nodes: those of a node's children come after it, so the last node is the first that is
    /// worked out.
    pub fn numbers(&self, rt: &impl Abort, alloc: Global) -> Vec<Numbers> {
        let mut numbers = vec![in alloc; (1u32, 1u32); self.nodes.len()].expect(rt, "no fault");
        for back in 0..self.nodes.len() {
            let at = self.nodes.len() - 1 - back;
            let node = &self.nodes[at];
            let pair = match node.known {
                Known::Open => (1, 1),
                Known::Won => (0, INFINITE),
                Known::Lost => (INFINITE, 0),
                Known::Inner(first, until) => {
                    inner(node.is_attacking(), part(&numbers, first, until))
                }
            };
            if let Some(slot) = numbers.get_mut(at) {
                *slot = pair;
            }
        }
        numbers
    }

    /// The leaf to which the best children lead.
    pub fn most_proving(&self, numbers: &[Numbers]) -> usize {
        let mut at = 0;
        for _ in 0..self.nodes.len() {
            let Some(node) = self.nodes.get(at) else {
                return at;
            };
            match best_child(node, numbers, at) {
                Some(child) => at = child,
                None => return at,
            }
        }
        at
    }

    /// Makes a child for each legal move.
    fn add_children(&mut self, rt: &impl Abort, alloc: Global, board: &Board, left: u16) -> Known {
        let first = self.nodes.len();
        let legal = board.legal_moves(alloc).expect(rt, "no fault");
        for i in 0..legal.items.len() {
            let m = legal.items[i];
            // Always so: the test tells the prover.
            if board.is_legal(&m) {
                let next = board.after(&m);
                let child = Twin {
                    position: *next.position(),
                    left,
                    known: Known::Open,
                };
                self.nodes.push(child).expect(rt, "no fault");
            }
        }
        Known::Inner(first, self.nodes.len())
    }

    /// What becomes of a node that is expanded.
    fn known_of(
        &mut self,
        rt: &impl Abort,
        alloc: Global,
        board: &Board,
        at: usize,
        left: u16,
    ) -> Known {
        let attacking = board.position().side.is(Side::White);
        match board.own_end() {
            Outcome::Won(Side::White, _) => return Known::Won,
            Outcome::Won(Side::Black, _) | Outcome::Drawn(_) => return Known::Lost,
            Outcome::Ongoing => {}
        }
        if at != 0 && repeats(board.position(), &self.again) {
            return Known::Lost;
        }
        match (attacking, left) {
            (true, 0) => Known::Lost,
            (true, _) => self.add_children(rt, alloc, board, left.saturating_sub(1)),
            (false, _) => self.add_children(rt, alloc, board, left),
        }
    }

    /// Expands the node at the place.
    pub fn expand<R: Abort>(&mut self, rt: &R, alloc: Global, tables: &Tables, at: usize) {
        let node = *self.nodes.get(at).expect(rt, "no such node");
        assert!(rt; sound(tables.rules(), &node.position));
        let board = Board::new(tables, &node.position);
        let known = self.known_of(rt, alloc, &board, at, node.left);
        if let Some(node) = self.nodes.get_mut(at) {
            node.known = known;
        }
    }

    /// Whether the tree has as many nodes, and each of them its numbers.
    pub fn is_same(&self, numbers: &[Numbers], tree: &Tree) -> bool {
        if tree.len() != numbers.len() as u64 {
            return false;
        }
        for at in 0..numbers.len() {
            if tree.numbers(at as u64) != numbers[at] {
                return false;
            }
        }
        true
    }
}
