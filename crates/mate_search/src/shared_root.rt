//! What a solve takes from the shards and leaves in them.
ghost use Rattle.std.specs.Prelude.{◌≡◌, ◌↔◌, true, false};
ghost use Rattle.forced_wins.specs.Facts as Facts;
ghost use Rattle.forced_wins.specs.Facts.{serves};
ghost use Rattle.forced_wins.specs.Wins.{near_root};
ghost use Rattle.game_play.specs.Played.{story};
ghost use Rattle.mate_core.specs.Claims.{fact_with};
ghost use Rattle.mate_core.specs.Runs.{IsTrueIn};
ghost use Rattle.mate_fact.specs.InFrame.{near_in};
ghost use Rattle.mate_shards.specs.Views.{ArePassesOf};
ghost use Rattle.rules_model.specs.Repeats as Repeats;
ghost use Rattle.mate_showing.specs.Answers.{IsFrameOf};
ghost use Rattle.mate_search.specs.Handed.{AreHandedBack, RootIsRefuted, RootIsShared};

use game_play::Game;
use mate_core::{Claim, Fact, Frame};
use mate_fact::is_blocked;
use mate_settle::{FactTable, Told};
use mate_shards::{Passes, Shards};
use mate_showing::Decision;
use playing::Board;
use rules_model::{Position, repeat_of};
use std::sync::Wait;

/// Whether the shards have a fact by which the game is not won within n moves, and its repeat is not blocked.
pub(crate) fn is_refuted<R: Wait>(
    rt: &R,
    shards: &Shards,
    passes: &mut Passes,
    game: &Game,
    n: u16,
) -> bool
    requires frame { IsFrameOf game.now shards.now.frame }
    requires passes { ArePassesOf shards.now passes.old }
    ensures handed { AreHandedBack shards.now passes.old passes.new }
    ensures known { (result ≡ true) ↔ RootIsRefuted shards.now passes.new game.now n }
    ensures lost { result ≡ true →
        near_root shards.now.frame.rules n (story game.now) shards.now.frame.attacker ≡ false }
{
    let p = game.position();
    if is_blocked(&shards.frame().blocked, p) {
        return false;
    }
    match shards.look(rt, passes, p, n) {
        Some(fact) => !fact.wins,
        None => false,
    }
}

/// What is known of the position: that it is won within n moves, or that it is not.
fn fact_on(frame: &Frame, p: &Position, n: u16, verdict: Decision) -> Fact
    requires { near_in frame.now n p.now ≡ verdict.won }
    ensures is { result ≡ Facts.fact_of p.now frame.now.attacker n verdict.best verdict.won }
    ensures truth { IsTrueIn frame.now result }
    ensures repeat { result.repeat ≡ Repeats.repeat_of p.now }
    ensures serves { serves result (Repeats.repeat_of p.now) p.now.counter n ≡ true }
{
    Fact {
        repeat: repeat_of(p),
        attacker: frame.attacker,
        moves: n,
        counter: p.counter,
        best: verdict.best,
        wins: verdict.won,
    }
}

/// What is told of the position, as it is published: no move is named.
pub(crate) fn claim_on(frame: &Frame, p: &Position, told: Told) -> Claim
    requires { near_in frame.now told.moves p.now ≡ told.wins }
    ensures { IsTrueIn frame.now (fact_with (Repeats.repeat_of p.now) result) }
{
    Claim {
        attacker: frame.attacker,
        moves: told.moves,
        counter: p.counter,
        best: None,
        wins: told.wins,
    }
}

/// Publishes whether the game is won, where its repeat is not blocked, and keeps it in a table.
pub(crate) fn publish_root<R: Wait>(
    rt: &R,
    shards: &Shards,
    passes: &mut Passes,
    game: &Game,
    board: &Board,
    n: u16,
    verdict: Decision,
    facts: &mut FactTable,
)
    requires frame { IsFrameOf game.now shards.now.frame }
    requires facts { facts.old ≡ shards.now.frame }
    requires passes { ArePassesOf shards.now passes.old }
    requires won { verdict.won ≡ near_root shards.now.frame.rules n (story game.now) shards.now.frame.attacker }
    ensures handed { AreHandedBack shards.now passes.old passes.new }
    ensures shared { RootIsShared shards.now passes.new game.now n }
    ensures facts { facts.new ≡ facts.old }
{
    let frame = shards.frame();
    let p = game.position();
    if !is_blocked(&frame.blocked, p) {
        let fact = fact_on(frame, p, n, verdict);
        shards.publish(rt, passes, &fact);
        facts.keep(board, fact);
    }
}

/// Publishes the wins that a worker keeps.
pub(crate) fn publish_wins<R: Wait>(rt: &R, shards: &Shards, passes: &mut Passes, facts: &FactTable)
    requires frame { facts.now ≡ shards.now.frame }
    requires passes { ArePassesOf shards.now passes.old }
    ensures { AreHandedBack shards.now passes.old passes.new }
{
    for place in 0..facts.room() {
        if let Some(fact) = facts.at(place) {
            if fact.wins {
                shards.publish(rt, passes, &fact);
            }
        }
    }
}
