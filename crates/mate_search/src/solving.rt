//! What a game comes to within some number of moves, exactly, and what the shards are told of it.
ghost use Rattle.std.specs.Prelude.{◌≡◌, ◌+◌, ◌≤◌, ◌<◌, IfOk, OnOk, IsErrOf};
ghost use Rattle.forced_wins.specs.Wins.{IsInLimit};
ghost use Rattle.game_play.specs.Played.{story};
ghost use Rattle.mate_shards.specs.Views.{ArePassesOf};
ghost use Rattle.mate_showing.specs.Answers.{IsDecided, IsFrameOf, IsRight};
ghost use Rattle.mate_search.specs.Handed.{AreHandedBack, RootIsShared};
ghost use Rattle.mate_search.specs.Races.{closing_lines, tree_lines};
ghost use Rattle.watching.specs.declared.halt.Halt.{Halt};

use crate::ordering::{hinted_moves, leave_hint};
use crate::shared_root::{is_refuted, publish_root, publish_wins};
use crate::tree_round::grow_tree;
use game_play::Game;
use hint_table::HintTable;
use mate_settle::FactTable;
use mate_shards::{Passes, Shards};
use mate_showing::{Settled, decide, show};
use playing::Board;
use rules_model::{Memory, Move};
use std::alloc::Global;
use std::sync::Wait;
use watching::{Halt, Unwatched, Watch};

/// How many facts a worker keeps while it looks for a win within some number of moves. A short search meets few
/// positions, and each place costs time and memory before it begins.
pub(crate) fn room_for(n: u16) -> usize {
    match n {
        0 | 1 => 1 << 8,
        2 => 1 << 12,
        _ => 1 << 16,
    }
}

/// What the game comes to within n moves of the side that attacks in the frame of the shards, n from 1 to 100. The
/// shards are told the fact on the root and, where it is won, the wins that the table of facts keeps. A move may be
/// named that is tried first.
///
/// # Errors
///
/// What ends the watch; or `Memory`. The passes are handed back then too.
pub(crate) fn conclude<R: Wait, W: Watch>(
    rt: &R,
    alloc: Global,
    game: &Game,
    n: u16,
    first: Option<Move>,
    shards: &Shards,
    passes: &mut Passes,
    facts: &mut FactTable,
    watch: &mut W,
) -> Result<Settled, Halt>
    requires frame { IsFrameOf game.now shards.now.frame }
    requires facts { facts.old ≡ shards.now.frame }
    requires passes { ArePassesOf shards.now passes.old }
    requires some { 0 < n }
    requires small { n ≤ 100 }
    ensures handed { AreHandedBack shards.now passes.old passes.new }
    ensures shared { OnOk result (RootIsShared shards.now passes.new game.now n) }
    ensures right { IfOk result (IsRight game.now.rules (story game.now) shards.now.frame.attacker n) }
    ensures decided { IfOk result (λ m. IsInLimit game.now.rules n (story game.now) → IsDecided m) }
    ensures gone { OnOk result (W.gone watch.old watch.new (closing_lines shards.now.frame n (story game.now).last)) }
    ensures ended { (why : Halt) → IsErrOf result why →
        W.ended watch.old watch.new (closing_lines shards.now.frame n (story game.now).last) why }
{
    let board = Board::new(game.tables(), game.position());
    let verdict = decide(alloc, game, &board, n, first, facts, watch)?;
    publish_root(rt, shards, passes, game, &board, n, verdict, facts);
    if !verdict.won {
        return Ok(Settled::NoMate);
    }
    publish_wins(rt, shards, passes, facts);
    show(alloc, game, &board, n, facts, watch)
}

/// As `conclude`, after a tree is grown for `nodes` nodes: the move by which it wins is tried first.
fn conclude_grown<R: Wait, W: Watch>(
    rt: &R,
    alloc: Global,
    game: &Game,
    n: u16,
    first: Option<Move>,
    nodes: u64,
    shards: &Shards,
    passes: &mut Passes,
    facts: &mut FactTable,
    watch: &mut W,
) -> Result<Settled, Halt>
    requires frame { IsFrameOf game.now shards.now.frame }
    requires facts { facts.old ≡ shards.now.frame }
    requires passes { ArePassesOf shards.now passes.old }
    requires some { 0 < n }
    requires small { n ≤ 100 }
    ensures handed { AreHandedBack shards.now passes.old passes.new }
    ensures shared { OnOk result (RootIsShared shards.now passes.new game.now n) }
    ensures right { IfOk result (IsRight game.now.rules (story game.now) shards.now.frame.attacker n) }
    ensures decided { IfOk result (λ m. IsInLimit game.now.rules n (story game.now) → IsDecided m) }
    ensures ended { (why : Halt) → IsErrOf result why → W.ended watch.old watch.new
        (tree_lines shards.now.frame n (story game.now).last
        + closing_lines shards.now.frame n (story game.now).last) why }
{
    let board = Board::new(game.tables(), game.position());
    let best = grow_tree(rt, alloc, shards, &board, n, nodes, passes, facts, watch)?;
    conclude(
        rt,
        alloc,
        game,
        n,
        best.or(first),
        shards,
        passes,
        facts,
        watch,
    )
}

/// As `conclude`, with a table of facts of its own, and by the hints. Where the shards know that the root is not won,
/// nothing is searched. Memory alone can end it.
pub(crate) fn settle_alone<R: Wait>(
    rt: &R,
    alloc: Global,
    game: &Game,
    n: u16,
    shards: &Shards,
    passes: &mut Passes,
    hints: &HintTable,
) -> Result<Settled, Memory>
    requires frame { IsFrameOf game.now shards.now.frame }
    requires passes { ArePassesOf shards.now passes.old }
    requires some { 0 < n }
    requires small { n ≤ 100 }
    ensures handed { AreHandedBack shards.now passes.old passes.new }
    ensures shared { OnOk result (RootIsShared shards.now passes.new game.now n) }
    ensures right { IfOk result (IsRight game.now.rules (story game.now) shards.now.frame.attacker n) }
    ensures decided { IfOk result (λ m. IsInLimit game.now.rules n (story game.now) → IsDecided m) }
{
    if is_refuted(rt, shards, passes, game, n) {
        return Ok(Settled::NoMate);
    }
    let mut facts = FactTable::new(alloc, shards.frame(), room_for(n))?;
    let board = Board::new(game.tables(), game.position());
    let roots = hinted_moves(alloc, &board, n, &facts, hints)?;
    let first = roots.first().copied();
    let nodes = hints.nodes();
    let mut watch = Unwatched::new();
    let end = conclude_grown(
        rt, alloc, game, n, first, nodes, shards, passes, &mut facts, &mut watch,
    );
    leave_hint(hints, game, n, &end);
    hints.put_nodes(watch.nodes());
    match end {
        Ok(settled) => Ok(settled),
        Err(Halt::Fault(_)) => Err(Memory),
        Err(Halt::Cut(_)) => unreachable!(),
    }
}
