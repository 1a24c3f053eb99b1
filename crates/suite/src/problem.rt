//! Mate problems and their answers.
ghost use Rattle.std.specs.Prelude.{◌≡◌};

use rules_model::{Position, Rules};
use std::marker::Model;
use strategy::Strategy;

/// Within how many of its moves does the side that is to move win the position, looked at without moves before it?
#[derive(Drop)]
pub struct Problem {
    pub rules: Rules,
    pub position: Position,
    /// The most moves that are asked for, from 1 to 20.
    pub n: u16,
}

/// The answer to a problem.
#[derive(Drop)]
pub struct Answer {
    /// The least number of moves within which the side wins.
    pub least: Option<u16>,
    /// How it wins within that number.
    pub strategy: Option<Strategy>,
}

/// The answers to problems, in their order. Contracts see the list of these.
#[derive(Drop)]
pub struct Solved {
    pub items: Vec<Answer>,
}

impl Model for Solved {
    ghost use Rattle.std.specs.Prelude.{List};
    ghost use Rattle.suite.specs.declared.problem.Answer.{Answer};

    ghost Value = { List Answer };

    ghost view = { λ s. s.items.items };
}

impl Solved {
    /// The answers.
    pub fn answers(&self) -> &[Answer]
        ensures { result.now ≡ self.now }
    {
        self.items.as_slice()
    }
}
