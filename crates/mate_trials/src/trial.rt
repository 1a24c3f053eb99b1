//! One game, by the definition and by the solver.
ghost use Rattle.std.specs.Prelude.{◌<◌, ◌≤◌, IfOk};
ghost use Rattle.mate_search.specs.Solves.{IsFrameFor};
ghost use Rattle.mate_shards.specs.Grown.{HaveParts};
ghost use Rattle.mate_shards.specs.Views.{ArePassesOf};

use crate::asking::{Asked, Call, Said, ask};
use crate::plain::is_won;
use foundation::Memory;
use game_play::Game;
use mate_search::{frame_of, is_counted};
use mate_shards::{Passes, Shards};
use rules_model::Side;
use std::alloc::Global;
use std::sync::Wait;
use std::thread::Threads;

/// The most moves within which wins are looked for: answers have no more places, so that more are never asked for.
pub const MOST: u16 = 3;

/// For each number of moves from 1 on, whether the game is won within it.
pub type Answers = [bool; 3];

/// The least number of moves from 1 to the given one that an answer calls won.
pub fn least(answers: &Answers, most: u16) -> Option<u16> {
    for n in 1..most.min(MOST) + 1 {
        if answers[usize::from(n) - 1] {
            return Some(n);
        }
    }
    None
}

/// What the definition says.
pub fn by_definition(
    alloc: Global,
    game: &mut Game,
    attacker: Side,
    most: u16,
) -> Result<Answers, Memory> {
    let mut answers = [false; 3];
    for n in 1..most.min(MOST) + 1 {
        answers[usize::from(n) - 1] = is_won(alloc, game, n, attacker)?;
    }
    Ok(answers)
}

/// Shards of the frame of a game, and passes for all of them.
fn shards_for(alloc: Global, game: &Game, attacker: Side) -> Result<(Shards, Passes), Memory>
    ensures frame { IfOk result (λ made. IsFrameFor game.now attacker made.0.frame) }
    ensures passes { IfOk result (λ made. ArePassesOf made.0 made.1) }
    ensures parts { IfOk result (λ made. HaveParts 65536 made.1) }
{
    let frame = frame_of(alloc, game, attacker)?;
    let (shards, passes) = Shards::new(alloc, frame, 4, 1024)?;
    Ok((shards, passes))
}

/// What stands for an answer that the solver leaves open: the definition's, where the move count could end the game
/// within n moves; elsewhere the solver may leave nothing open, so the opposite, which counts as a difference.
fn answer_if_open(game: &Game, n: u16, won_by_definition: bool) -> bool {
    if is_counted(game.rules(), n, game.position()) {
        won_by_definition
    } else {
        !won_by_definition
    }
}

/// What a call of the solver says, each time with the facts that it kept before. `plain` is what the definition says:
/// see `answer_if_open`.
pub fn by_solver<R: Threads + Wait + Sync>(
    rt: &R,
    alloc: Global,
    game: &Game,
    attacker: Side,
    most: u16,
    call: Call,
    plain: &Answers,
) -> Result<Answers, Memory> {
    let (shards, mut passes) = shards_for(alloc, game, attacker)?;
    let mut answers = [false; 3];
    for n in 1..most.min(MOST) + 1 {
        let asked = Asked { game, attacker, n };
        let (handed_back, said) = ask(rt, alloc, asked, call, &shards, passes)?;
        passes = handed_back;
        let place = usize::from(n) - 1;
        answers[place] = match said {
            Said::Won => true,
            Said::NotWon => false,
            Said::Unsettled => answer_if_open(game, n, plain[place]),
        };
    }
    Ok(answers)
}

/// Whether the call leaves it open whether the side wins the game within n of its moves.
pub fn leaves_open<R: Threads + Wait + Sync>(
    rt: &R,
    alloc: Global,
    game: &Game,
    attacker: Side,
    n: u16,
    call: Call,
) -> Result<bool, Memory>
    requires some { 0 < n }
    requires small { n ≤ 100 }
{
    let (shards, passes) = shards_for(alloc, game, attacker)?;
    let asked = Asked { game, attacker, n };
    let (_, said) = ask(rt, alloc, asked, call, &shards, passes)?;
    Ok(said == Said::Unsettled)
}
