//! Games from short texts of pieces and moves, and a strategy as text.
ghost use Rattle.rules_model.specs.Fit.{IsFit};

use crate::expect::expect_eq_at;
use game_play::Game;
use rules_model::{Move, Position, Promo, Rules, sound};
use sample_rules::{chess, position, square};
use std::alloc::Global;
use std::process::Abort;

/// The kings on their squares, and a rook that never moves.
pub const KINGS: &str = "Ke1 ke8 Ra1";

/// Both kings go one square, and come back.
pub const ROUND: &str = "e1d1 e8d8 d1e1 d8e8";

/// King and queen against a king.
pub const QUEEN: &str = "kh8 Kf6 Qg6";

/// A strategy: king and rook against king, mate in two.
pub const ROOK_MATE: &str = "strategy 1
attacker white
nodes 4
node 0 2 7k/R7/5K2/8/8/8/8/8 w - - 0 1
edge f6g6 1
node 1 1 7k/R7/6K1/8/8/8/8/8 b - - 1 1
edge h8g8 2
node 2 1 6k1/R7/6K1/8/8/8/8/8 w - - 2 1
edge a7a8 3
node 3 0 R5k1/8/6K1/8/8/8/8/8 b - - 3 1
end
";

/// The move of a text such as `e2e4`, without promotion.
pub fn go(text: &str) -> Move {
    let (from, to) = text.split_at_checked(2).unwrap_or(("", ""));
    Move::Go {
        from: square(from),
        to: square(to),
        promo: Promo::Stays,
        gate: None,
    }
}

/// Plays the moves of the text, which are separated by single spaces, and asserts that each is legal.
pub fn play_all(rt: &impl Abort, game: &mut Game, moves: &str) {
    for text in moves.split(' ') {
        if !text.is_empty() {
            expect_eq_at(rt, text, game.play(&go(text)), Ok(()));
        }
    }
}

/// The game of the moves from the position, by the rules. Asserts that the position is sound and each move legal.
pub fn game<R: Abort>(rt: &R, alloc: Global, rules: &Rules, start: &Position, moves: &str) -> Game
    requires { IsFit rules.now }
{
    assert!(rt; sound(rules, start));
    let mut game = Game::new(alloc, rules, start).expect(rt, "no fault");
    play_all(rt, &mut game, moves);
    game
}

/// The game of chess of the moves from the position.
pub fn chess_game<R: Abort>(rt: &R, alloc: Global, start: &Position, moves: &str) -> Game {
    game(rt, alloc, &chess(), start, moves)
}

/// The pieces, White to move, after `counter` plies without a capture or a pawn's move.
pub fn at_count(pieces: &str, counter: u16) -> Position {
    Position {
        counter,
        number: 80,
        ..position(pieces)
    }
}
