//! Proof trees.
ghost use Rattle.std.specs.Prelude.{◌≡◌, ◌<◌, ◌≤◌, ◌+◌, ℕ, ◌==◌, IfOk, IfSome, OnOk, OnErr, Some, None, length, slice_index_or, true};
ghost use Rattle.rules_model.specs.Repeats.{repeat_of};
ghost use Rattle.rules_model.specs.Sound.{is_sound};
ghost use Rattle.mate_core.specs.Claims.{fact_with};
ghost use Rattle.mate_core.specs.Runs.{IsTrueIn};
ghost use Rattle.pn_search.specs.declared.descending.Leaf.{Leaf};
ghost use Rattle.pn_search.specs.Finds.{IsAt};
ghost use Rattle.pn_search.specs.Kept as Kept;
ghost use Rattle.pn_search.specs.Meaning.{PairDecides, root_pair};
ghost use Rattle.pn_search.specs.Numbers as Numbers;
ghost use Rattle.pn_search.specs.Trees as Trees;
ghost use Rattle.pn_search.specs.Ways as Ways;

use crate::carrying::carry;
use crate::descending::{Leaf, best_child, stepped};
use crate::expanding::expand;
use crate::grew::Grew;
use crate::node::{Node, State};
use crate::numbers::{OPEN, Pair, is_settled_pair};
use attack_tables::Tables;
use mate_core::{Claim, Frame};
use mate_search::copy_of_frame;
use playing::Board;
use rules_model::{Memory, Position};
use std::alloc::Global;
use std::marker::Model;

/// A proof tree: the nodes in the order in which they were made, and the pair of each. Contracts see the frame, the
/// root's position, the number of moves and the nodes.
#[derive(Drop)]
pub struct Tree {
    frame: Frame,
    root: Position,
    moves: u16,
    nodes: Vec<Node>,
    pairs: Vec<Pair>,
}

impl Model for Tree {
    ghost use Rattle.pn_search.specs.Trees.{ProofTree};
    ghost use Rattle.pn_search.specs.Kept.{IsKept};

    ghost Value = { ProofTree };

    ghost view = { λ t. record { frame = t.frame; root = t.root; moves = t.moves; nodes = t.nodes.items } };

    ghost invariant = { λ t.
        IsKept (record { frame = t.frame; root = t.root; moves = t.moves; nodes = t.nodes.items }) t.pairs.items };
}

impl Tree {
    /// The tree of one open node for a win from the root within n moves of the attacker in the frame, which is copied.
    /// The root is sound and ongoing (`root_end`), and n is from 1 to 100.
    ///
    /// # Errors
    ///
    /// `Memory` where there is none.
    pub fn new(alloc: Global, frame: &Frame, root: &Position, n: u16) -> Result<Tree, Memory>
        requires sound { is_sound frame.now.rules root.now ≡ true }
        requires ongoing { Trees.end_at frame.now 0 root.now ≡ None }
        requires some { 0 < n }
        requires small { n ≤ 100 }
        ensures tree { IfOk result (λ t. t ≡ Trees.new_tree frame.now root.now n) }
        ensures frame { IfOk result (λ t. t.frame ≡ frame.now) }
        ensures root { IfOk result (λ t. t.root ≡ root.now) }
        ensures moves { IfOk result (λ t. t.moves ≡ n) }
    {
        let mut nodes = Vec::new(alloc);
        nodes.push(Node {
            parent: 0,
            state: State::Open,
            chosen: None,
            left: n as u8,
            attacking: root.side.is(frame.attacker),
        })?;
        let mut pairs = Vec::new(alloc);
        pairs.push(OPEN)?;
        Ok(Tree {
            frame: copy_of_frame(alloc, frame)?,
            root: *root,
            moves: n,
            nodes,
            pairs,
        })
    }

    /// How many nodes there are.
    pub fn len(&self) -> u64
        ensures nodes { result ≡ length self.now.nodes }
        ensures some { 0 < result }
    {
        self.nodes.len() as u64
    }

    /// The proof number and the disproof number of the node with the number.
    pub fn numbers(&self, node: u64) -> (u32, u32)
        requires { node < length self.now.nodes }
        ensures proof { result.0 ≡ (Numbers.pair_at (Numbers.pairs_of self.now.nodes) node).proof }
        ensures disproof { result.1 ≡ (Numbers.pair_at (Numbers.pairs_of self.now.nodes) node).disproof }
    {
        let pair = self.pairs[node as usize];
        (pair.proof, pair.disproof)
    }

    /// It is a tree after some number of expansions, and where its root is proved or disproved, its moves win or do
    /// not. Nothing is done: the call tells a proof.
    pub fn prove_grown(&self)
        ensures grown { Trees.HasGrown self.now }
        ensures decides { PairDecides self.now }
    {
        let _moves = self.moves;
    }

    // Whether one of the root's numbers is infinite.
    fn is_settled(&self) -> bool
        ensures { result ≡ Trees.is_settled self.now }
    {
        let root = self.pairs[0];
        is_settled_pair(&root)
    }

    /// Whether the root is proved.
    pub(crate) fn is_won(&self) -> bool
        ensures { result ≡ ((root_pair self.now).proof == 0) }
    {
        let root = self.pairs[0];
        root.proof == 0
    }

    /// What is known of the repeat of a settled node below the root, whose position this is.
    pub(crate) fn known_at(&self, place: usize, p: &Position) -> Option<Claim>
        requires below { 0 < place }
        requires at { IsAt self.now place p.now }
        ensures { IfSome result (λ claim. IsTrueIn self.now.frame (fact_with (repeat_of p.now) claim)) }
    {
        let pair = self.pairs[place];
        if !is_settled_pair(&pair) {
            return None;
        }
        Some(Claim {
            attacker: self.frame.attacker,
            moves: u16::from(self.nodes[place].left),
            counter: p.counter,
            best: None,
            wins: pair.proof == 0,
        })
    }

    /// How many children the node has.
    pub(crate) fn count_at(&self, place: usize) -> u32
        requires { place < length self.now.nodes }
    {
        match self.nodes[place].state {
            State::Inner { first: _, count } => count,
            _ => 0,
        }
    }

    /// The child of the node at this place among its children, if it is settled.
    pub(crate) fn settled_child<'t>(
        &self,
        place: usize,
        k: u32,
        board: &Board<'t>,
    ) -> Option<Leaf<'t>>
        requires rules { board.now.rules ≡ self.now.frame.rules }
        requires at { IsAt self.now place board.now.position }
        ensures deeper { IfSome result (λ leaf. place < leaf.place) }
        ensures rules { IfSome result (λ leaf. leaf.board.rules ≡ self.now.frame.rules) }
        ensures at { IfSome result (λ leaf. IsAt self.now leaf.place leaf.board.position) }
    {
        let node = self.nodes[place];
        let State::Inner { first, count } = node.state else {
            return None;
        };
        if k >= count {
            return None;
        }
        let child = first as usize + k as usize;
        if !is_settled_pair(&self.pairs[child]) {
            return None;
        }
        let m = self.nodes[child].chosen?;
        Some(Leaf {
            place: child,
            board: board.after(&m),
        })
    }

    /// The way that ends at the root.
    pub(crate) fn root_way<'t>(&self, tables: &'t Tables) -> Result<Vec<Leaf<'t>>, Memory>
        requires tables { tables.now ≡ self.now.frame.rules }
        ensures { IfOk result (λ way. Ways.IsWay self.now way.items) }
    {
        let mut way = Vec::new(*self.nodes.allocator());
        way.push(Leaf {
            place: 0,
            board: Board::new(tables, &self.root),
        })?;
        Ok(way)
    }

    // Leads the way from its node at the depth on to the best child. What the way has there is kept if it is that
    // child.
    fn step(&self, way: &mut Vec<Leaf<'_>>, depth: usize, child: usize) -> Result<(), Memory>
        requires way { Ways.IsWay self.now way.old.items }
        requires within { depth < length way.old.items }
        requires child { (d : Leaf) → Trees.best_child_at self.now.nodes (Numbers.pairs_of self.now.nodes)
            (slice_index_or way.old.items depth d).place ≡ Some child }
        ensures way { Ways.IsWay self.now way.new.items }
        ensures child { OnOk result (Ways.IsAtDepth way.new.items (depth + 1) child) }
    {
        let next = depth + 1;
        if next < way.len() && way[next].place == child {
            return Ok(());
        }
        let board = stepped(&way[depth].board, &self.nodes[child].chosen);
        way.truncate(next);
        way.push(Leaf {
            place: child,
            board,
        })?;
        Ok(())
    }

    // The depth of the most-proving leaf on the way, which is led there.
    fn most_proving(&self, way: &mut Vec<Leaf<'_>>) -> Result<usize, Memory>
        requires way { Ways.IsWay self.now way.old.items }
        ensures way { Ways.IsWay self.now way.new.items }
        ensures leaf { IfOk result (λ depth. Ways.IsAtDepth way.new.items depth (Trees.most_proving self.now).place) }
    {
        let mut depth = 0;
        let mut place = 0;
        while let Some(child) = best_child(self.nodes.as_slice(), self.pairs.as_slice(), place) {
            self.step(way, depth, child)?;
            depth += 1;
            place = child;
        }
        Ok(depth)
    }

    /// Expands the most-proving leaf, unless one of the root's numbers is infinite. The numbers of the leaf are carried
    /// up as far as they change.
    ///
    /// # Errors
    ///
    /// `Memory` where there is none, or where a node would have no number of 32 bits. The tree is as before.
    pub fn grow(&mut self, tables: &Tables) -> Result<Grew, Memory>
        requires tables { tables.now ≡ self.old.frame.rules }
        ensures grows { IfOk result (Kept.Grows self.old self.new) }
        ensures less { IfOk result (Kept.LeavesLess self.old self.new) }
        ensures tree { (k : ℕ) → Trees.IsPn k self.old
            → IfOk result (λ g. Trees.IsPn (k + Kept.expansions g) self.new) }
        ensures frame { self.new.frame ≡ self.old.frame }
        ensures root { self.new.root ≡ self.old.root }
        ensures moves { self.new.moves ≡ self.old.moves }
        ensures err { OnErr result (self.new ≡ self.old) }
    {
        let mut way = self.root_way(tables)?;
        self.grow_on(&mut way)
    }

    /// The same for a caller who keeps the way to the leaf: what of it leads to the next leaf is not made again.
    pub(crate) fn grow_on(&mut self, way: &mut Vec<Leaf<'_>>) -> Result<Grew, Memory>
        requires way { Ways.IsWay self.old way.old.items }
        ensures way { IfOk result (λ g. Ways.IsWay self.new way.new.items) }
        ensures grows { IfOk result (Kept.Grows self.old self.new) }
        ensures less { IfOk result (Kept.LeavesLess self.old self.new) }
        ensures tree { (k : ℕ) → Trees.IsPn k self.old
            → IfOk result (λ g. Trees.IsPn (k + Kept.expansions g) self.new) }
        ensures frame { self.new.frame ≡ self.old.frame }
        ensures root { self.new.root ≡ self.old.root }
        ensures moves { self.new.moves ≡ self.old.moves }
        ensures err { OnErr result (self.new ≡ self.old) }
    {
        if self.is_settled() {
            return Ok(Grew::Settled);
        }
        let depth = self.most_proving(way)?;
        let leaf = &way[depth];
        expand(&self.frame, leaf, &mut self.nodes, &mut self.pairs)?;
        carry(self.nodes.as_slice(), self.pairs.as_mut_slice(), leaf.place);
        Ok(Grew::Expanded(leaf.place as u64))
    }
}
