//! Games that are settled by their proof trees.
ghost use Rattle.std.specs.Prelude.{◌≡◌, ◌<◌, ◌≤◌, true, OnOk, IfOk};
ghost use Rattle.mate_search.specs.Handed.{AreHandedBack};
ghost use Rattle.mate_shards.specs.Views.{ArePassesOf};
ghost use Rattle.pn_search.specs.Finds as Finds;
ghost use Rattle.pn_search.specs.Trees as Trees;

use crate::grew::Grew;
use crate::tree::Tree;
use attack_tables::Tables;
use game_play::Game;
use mate_core::Frame;
use mate_shards::{Passes, Shards};
use playing::Board;
use rules_model::{Memory, Side};
use std::alloc::Global;
use std::sync::Wait;

/// Whether a game is won, and the tree that says so.
#[derive(Drop)]
pub struct Found {
    pub won: bool,
    pub tree: Tree,
}

// Grows the tree until its root is settled.
fn grow_out(tree: &mut Tree, tables: &Tables) -> Result<(), Memory>
    requires { tables.now ≡ tree.old.frame.rules }
    ensures settled { OnOk result (Trees.is_settled tree.new ≡ true) }
    ensures frame { tree.new.frame ≡ tree.old.frame }
    ensures root { tree.new.root ≡ tree.old.root }
    ensures moves { tree.new.moves ≡ tree.old.moves }
{
    let mut way = tree.root_way(tables)?;
    'growing: loop {
        match tree.grow_on(&mut way)? {
            Grew::Expanded(_) => {}
            Grew::Settled => return Ok(()),
        }
    }
}

// Publishes what is known of the node.
fn publish_at<R: Wait>(
    rt: &R,
    tree: &Tree,
    shards: &Shards,
    passes: &mut Passes,
    place: usize,
    board: &Board,
)
    requires frame { tree.now.frame ≡ shards.now.frame }
    requires at { Finds.IsAt tree.now place board.now.position }
    requires passes { ArePassesOf shards.now passes.old }
    ensures { AreHandedBack shards.now passes.old passes.new }
{
    if place == 0 {
        return;
    }
    let p = board.position();
    if let Some(claim) = tree.known_at(place, p) {
        shards.publish_by_key(rt, passes, p, board.board_key(), claim);
    }
}

// Publishes what is known of the node and of the settled nodes below it, as far as settled nodes lead to them.
fn publish_below<R: Wait>(
    rt: &R,
    tree: &Tree,
    shards: &Shards,
    passes: &mut Passes,
    place: usize,
    board: &Board,
)
    requires frame { tree.now.frame ≡ shards.now.frame }
    requires rules { board.now.rules ≡ tree.now.frame.rules }
    requires at { Finds.IsAt tree.now place board.now.position }
    requires passes { ArePassesOf shards.now passes.old }
    ensures { AreHandedBack shards.now passes.old passes.new }
{
    publish_at(rt, tree, shards, passes, place, board);
    for k in 0..tree.count_at(place) {
        if let Some(leaf) = tree.settled_child(place, k, board) {
            publish_below(rt, tree, shards, passes, leaf.place, &leaf.board);
        }
    }
}

/// Whether the attacker of the frame wins the ongoing game by force within n of its moves, with the tree that says so.
pub(crate) fn find_in(alloc: Global, game: &Game, frame: &Frame, n: u16) -> Result<Found, Memory>
    requires sought { Finds.IsSought game.now frame.now n }
    requires some { 0 < n }
    requires small { n ≤ 100 }
    ensures { IfOk result (λ f. Finds.IsFound game.now frame.now n f.won f.tree) }
{
    let mut tree = Tree::new(alloc, frame, game.position(), n)?;
    grow_out(&mut tree, game.tables())?;
    tree.prove_grown();
    Ok(Found {
        won: tree.is_won(),
        tree,
    })
}

// The same as `find` for the attacker of the shards' frame, with passes that are lent.
fn find_lent<R: Wait>(
    rt: &R,
    alloc: Global,
    game: &Game,
    n: u16,
    shards: &Shards,
    passes: &mut Passes,
) -> Result<Found, Memory>
    requires sought { Finds.IsSought game.now shards.now.frame n }
    requires some { 0 < n }
    requires small { n ≤ 100 }
    requires passes { ArePassesOf shards.now passes.old }
    ensures handed { AreHandedBack shards.now passes.old passes.new }
    ensures found { IfOk result (λ f. Finds.IsFound game.now shards.now.frame n f.won f.tree) }
{
    let found = find_in(alloc, game, shards.frame(), n)?;
    let board = Board::new(game.tables(), game.position());
    publish_below(rt, &found.tree, shards, passes, 0, &board);
    Ok(found)
}

/// Whether the side wins the ongoing game by force within n of its moves, n from 1 to 100, with the tree that says so.
/// The move-count rule cannot end the game within n moves, and `attacker` is that of the shards' frame, which is the
/// game's. What is known of the settled nodes is published; no clause says what. The passes are handed back after an
/// error too.
///
/// # Errors
///
/// `Memory` where there is none, or where the tree would have 2^32 nodes or more.
pub fn find<R: Wait>(
    rt: &R,
    alloc: Global,
    game: &Game,
    attacker: Side,
    n: u16,
    shards: &Shards,
    passes: Passes,
) -> (Passes, Result<Found, Memory>)
    requires attacker { attacker ≡ shards.now.frame.attacker }
    requires sought { Finds.IsSought game.now shards.now.frame n }
    requires some { 0 < n }
    requires small { n ≤ 100 }
    requires passes { ArePassesOf shards.now passes }
    ensures handed { AreHandedBack shards.now passes result.0 }
    ensures found { IfOk result.1 (λ f. Finds.IsFound game.now shards.now.frame n f.won f.tree) }
{
    let mut passes = passes;
    let answer = find_lent(rt, alloc, game, n, shards, &mut passes);
    (passes, answer)
}
