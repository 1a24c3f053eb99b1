//! What a game comes to within some number of moves, exactly.
ghost use Rattle.std.specs.Prelude.{◌≡◌, ◌+◌, ◌*◌, ◌≤◌, ◌<◌, ◌&&◌, ℕ, List, true, false, is_some};
ghost use Rattle.std.specs.Prelude.{IfOk, IfSome, OnOk, IsErrOf};
ghost use Rattle.forced_wins.specs.Wins.{IsInLimit, is_in, near_root};
ghost use Rattle.game_play.specs.Played.{story};
ghost use Rattle.mate_settle.specs.Lines.{lines_within, seen_in};
ghost use Rattle.mate_showing.specs.Answers.{IsDecided, IsFrameOf, IsRight, IsWinningMove, is_at_move};
ghost use Rattle.mate_showing.specs.Counts.{IsTabledIn};
ghost use Rattle.mate_showing.specs.Tabled.{IsKept};
ghost use Rattle.mate_showing.specs.Tables as Tables;
ghost use Rattle.strategy.specs.declared.nodes.Node.{Node};
ghost use Rattle.watching.specs.declared.halt.Halt.{Halt};

use crate::answer::Settled;
use crate::building::build;
use crate::judging::{judge, shown};
use crate::node_table::NodeTable;
use crate::ordering::moves_from;
use crate::plan::{StrategyPlan, plan_for};
use game_play::Game;
use mate_core::Frame;
use mate_fact::won_by;
use mate_settle::{FactTable, all_won, choose};
use playing::Board;
use rules_model::Move;
use std::alloc::Global;
use strategy::Node;
use watching::{Halt, Watch};

/// Whether a game is won by the attacker.
#[derive(Clone, Copy)]
pub struct Decision {
    pub won: bool,
    /// A move that wins. There is none where the game is not won or has ended, nor where the defender is to move.
    pub best: Option<Move>,
}

/// Whether the attacker wins the game within n of its moves, n from 1 to 1,000, the positions after its last one being
/// looked at without their history. A move may be named that is tried first. The board is that of the last position.
///
/// # Errors
///
/// What ends the watch; or `Memory`.
pub fn decide<W: Watch>(
    alloc: Global,
    game: &Game,
    board: &Board,
    n: u16,
    first: Option<Move>,
    facts: &mut FactTable,
    watch: &mut W,
) -> Result<Decision, Halt>
    requires frame { IsFrameOf game.now facts.old }
    requires board { board.now ≡ record { rules = game.now.rules; position = (story game.now).last } }
    requires some { 0 < n }
    requires small { n ≤ Tables.most }
    ensures frame { facts.new ≡ facts.old }
    ensures won { IfOk result (λ v. v.won ≡ near_root facts.old.rules n (story game.now) facts.old.attacker) }
    ensures best { IfOk result (λ v. IfSome v.best (IsWinningMove facts.old n board.now.position)) }
    ensures named { IfOk result (λ v. is_some v.best ≡ (v.won && is_at_move facts.old (story game.now))) }
    ensures gone { OnOk result (W.gone watch.old watch.new (lines_within (seen_in facts.old) n board.now.position)) }
    ensures ended { (why : Halt) → IsErrOf result why →
        W.ended watch.old watch.new (lines_within (seen_in facts.old) n board.now.position) why }
{
    let frame = facts.frame();
    if let Some(won) = won_by(frame.attacker, game.outcome()) {
        return Ok(Decision { won, best: None });
    }
    let order = moves_from(alloc, board, n, facts, first)?;
    if board.position().side.is(frame.attacker) {
        match choose(alloc, board, &order, n, facts, watch)? {
            Some(choice) => {
                return Ok(Decision {
                    won: true,
                    best: Some(choice.chosen),
                });
            }
            None => {
                return Ok(Decision {
                    won: false,
                    best: None,
                });
            }
        }
    }
    let won = all_won(alloc, board, &order, n, facts, watch)?;
    Ok(Decision { won, best: None })
}

/// The plan for a win of the game, whose last position the board has, within n moves.
fn plan_of(game: &Game, board: &Board, n: u16, frame: &Frame) -> StrategyPlan
    requires frame { IsFrameOf game.now frame.now }
    requires board { board.now ≡ record { rules = game.now.rules; position = (story game.now).last } }
    requires some { 0 < n }
    requires small { n ≤ Tables.most }
    requires won { near_root frame.now.rules n (story game.now) frame.now.attacker ≡ true }
    ensures root { result.root ≡ board.now.position }
    ensures whole { result.whole ≡ n }
    ensures in_limit { IsInLimit game.now.rules n (story game.now) → result.exact ≡ false }
    ensures next { Tables.IsNext (seen_in frame.now) (is_in frame.now.blocked) result result.whole board.now.position }
    ensures tabled { (nodes : List Node) → IsKept frame.now result nodes
        → ((i : ℕ) × Tables.Stands (seen_in frame.now) result.exact nodes board.now.position result.whole i)
        → IsTabledIn (story game.now) frame.now result nodes }
{
    game.prove_played();
    board.prove_ready();
    plan_for(frame, board.position(), n)
}

/// The nodes of a win, the root's first.
fn tabulate<W: Watch>(
    alloc: Global,
    board: &Board,
    plan: StrategyPlan,
    facts: &mut FactTable,
    watch: &mut W,
) -> Result<Vec<Node>, Halt>
    requires rules { board.now.rules ≡ facts.old.rules }
    requires root { plan.root ≡ board.now.position }
    requires small { plan.whole ≤ Tables.most }
    requires next { Tables.IsNext (seen_in facts.old) (is_in facts.old.blocked) plan plan.whole board.now.position }
    ensures frame { facts.new ≡ facts.old }
    ensures kept { IfOk result (λ s. IsKept facts.old plan s.items) }
    ensures stands { IfOk result (λ s. (i : ℕ) ×
        Tables.Stands (seen_in facts.old) plan.exact s.items board.now.position plan.whole i) }
    ensures gone { OnOk result (W.gone watch.old watch.new
        ((plan.whole + 1) * lines_within (seen_in facts.old) plan.whole board.now.position)) }
    ensures ended { (why : Halt) → IsErrOf result why → W.ended watch.old watch.new
        ((plan.whole + 1) * lines_within (seen_in facts.old) plan.whole board.now.position) why }
{
    let mut table = NodeTable::new(alloc, facts.frame(), board, plan)?;
    build(alloc, board, plan.whole, &mut table, facts, watch)?;
    Ok(table.into_nodes())
}

/// The strategy of a root that is won within n moves, n from 1 to 100, where positions are looked at without their
/// history, or what keeps it from being shown. The board is that of the last position.
///
/// # Errors
///
/// What ends the watch; or `Memory`.
pub fn show<W: Watch>(
    alloc: Global,
    game: &Game,
    board: &Board,
    n: u16,
    facts: &mut FactTable,
    watch: &mut W,
) -> Result<Settled, Halt>
    requires frame { IsFrameOf game.now facts.old }
    requires board { board.now ≡ record { rules = game.now.rules; position = (story game.now).last } }
    requires some { 0 < n }
    requires small { n ≤ 100 }
    requires won { near_root facts.old.rules n (story game.now) facts.old.attacker ≡ true }
    ensures frame { facts.new ≡ facts.old }
    ensures right { IfOk result (IsRight game.now.rules (story game.now) facts.old.attacker n) }
    ensures decided { IfOk result (λ m. IsInLimit game.now.rules n (story game.now) → IsDecided m) }
    ensures gone { OnOk result (W.gone watch.old watch.new
        ((n + 1) * lines_within (seen_in facts.old) n board.now.position)) }
    ensures ended { (why : Halt) → IsErrOf result why → W.ended watch.old watch.new
        ((n + 1) * lines_within (seen_in facts.old) n board.now.position) why }
{
    let frame = facts.frame();
    let plan = plan_of(game, board, n, frame);
    let nodes = tabulate(alloc, board, plan, facts, watch)?;
    if plan.exact {
        let answer = judge(alloc, game, frame, &plan, nodes)?;
        return Ok(answer);
    }
    Ok(shown(frame.attacker, nodes))
}
