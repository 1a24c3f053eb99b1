//! One problem, solved by one worker.
ghost use Rattle.std.specs.Prelude.{IfOk};
ghost use Rattle.suite.specs.Winning.{IsLeastWin};
ghost use Rattle.suite.specs.Answers.{IsAnswer};
ghost use Rattle.suite.specs.Problems.{IsFair, game_of};

use crate::problem::{Answer, Problem};
use crate::{LeastWin, least_win};
use game_play::Game;
use rules_model::Memory;
use std::alloc::Global;
use std::sync::Wait;

// The answer to the problem, by how its position is won.
fn answer_of(problem: &Problem, won: Option<LeastWin>) -> Answer
    requires { IsLeastWin problem.now.rules (game_of problem.now) problem.now.position.side problem.now.n won }
    ensures { IsAnswer problem.now result }
{
    match won {
        Some(LeastWin { moves, strategy }) => Answer {
            least: Some(moves),
            strategy: Some(strategy),
        },
        None => Answer {
            least: None,
            strategy: None,
        },
    }
}

/// The answer to a problem, over facts of its own.
pub(crate) fn solve<R: Wait>(rt: &R, alloc: Global, problem: &Problem) -> Result<Answer, Memory>
    requires { IsFair problem.now }
    ensures { IfOk result (IsAnswer problem.now) }
{
    let game = Game::new(alloc, &problem.rules, &problem.position)?;
    let won = least_win(rt, alloc, &game, problem.position.side, problem.n)?;
    Ok(answer_of(problem, won))
}
