//! The positions along a line of moves after a game, with its history.
ghost use Rattle.std.specs.Prelude.{◌≡◌, ◌+◌, ◌||◌, [], true, take, length, OnOk, OnErr, IfOk, IsTrue, ◌↔◌};
ghost use Rattle.std.specs.List.{list_any};
ghost use Rattle.foundation.specs.Member.{Member};
ghost use Rattle.rules_model.specs.Games as Games;
ghost use Rattle.rules_model.specs.Repeats.{repeat_of};
ghost use Rattle.rules_model.specs.Sound.{is_sound};
ghost use Rattle.stipulation.specs.Lines.{AreSound, game_after, legal_after, result_after};
ghost use Rattle.stipulation.specs.Stipulations as Stipulations;

use end_rules::is_run_out;
use game_play::Game;
use legality::{apply, is_legal, legal_moves, own_end};
use rules_model::{Cause, Memory, Move, MoveList, Outcome, Position, Side, repeats};
use std::alloc::Global;
use std::marker::Model;

/// The positions along a line of moves after the last one of a game. It has no greatest length.
#[derive(Drop)]
pub struct Line {
    positions: Vec<Position>,
}

impl Model for Line {
    ghost use Rattle.std.specs.Prelude.{List};
    ghost use Rattle.rules_model.specs.declared.board.Position.{Position};

    ghost Value = { List Position };

    ghost view = { λ l. l.positions.items };
}

fn is_checkmate(cause: Cause) -> bool
    ensures { result ≡ Stipulations.is_checkmate cause }
{
    match cause {
        Cause::Checkmate => true,
        _ => false,
    }
}

/// Whether the side has won by checkmate, if the outcome is an end.
pub(crate) fn mated_by(winner: Side, outcome: Outcome) -> Option<bool>
    ensures { result ≡ Stipulations.mated_by winner outcome }
{
    match outcome {
        Outcome::Ongoing => None,
        Outcome::Won(side, cause) => Some(side.is(winner) && is_checkmate(cause)),
        Outcome::Drawn(_) => Some(false),
    }
}

/// How many of the positions have the position's repeat.
#[tactic(auto, unfolding(rules_model::specs::Games::times))]
fn standings(positions: &[Position], p: &Position) -> usize
    ensures { result ≡ Games.times (repeat_of p.now) positions.now }
{
    positions.iter().filter(|kept| repeats(*kept, p)).count()
}

impl Line {
    /// No move.
    pub fn new(alloc: Global) -> Line
        ensures { result ≡ [] }
    {
        Line {
            positions: Vec::new(alloc),
        }
    }

    /// How many moves there are.
    pub fn len(&self) -> usize
        ensures { result ≡ length self.now }
    {
        self.positions.len()
    }

    /// Takes moves back until N are left.
    pub fn cut(&mut self, plies: usize)
        ensures { self.new ≡ take plies self.old }
    {
        self.positions.truncate(plies);
    }

    /// The last position.
    pub fn last<'a>(&'a self, game: &'a Game) -> &'a Position
        requires sound { AreSound game.now.rules self.now }
        ensures is { result.now ≡ (game_after game.now self.now).last }
        ensures sound { is_sound game.now.rules result.now ≡ true }
    {
        let plies = self.positions.len();
        if plies == 0 {
            game.position()
        } else {
            &self.positions[plies - 1]
        }
    }

    /// Whether the game is ended by repetition.
    #[tactic(auto, unfolding(rules_model::specs::Games::is_repeated))]
    fn is_repeated(&self, game: &Game) -> bool
        requires sound { AreSound game.now.rules self.now }
        ensures { result ≡ Games.is_repeated game.now.rules (game_after game.now self.now) }
    {
        let fold = game.rules().n_fold;
        if fold == 0 {
            return false;
        }
        let last = self.last(game);
        let missing = u32::from(fold).saturating_sub(game.repeats(last));
        standings(self.positions.as_slice(), last) >= missing as usize
    }

    /// Whether the game is ended by repetition or by the move count.
    fn is_cut(&self, game: &Game) -> bool
        requires sound { AreSound game.now.rules self.now }
        ensures { let g = game_after game.now self.now in
            result ≡ (Games.is_repeated game.now.rules g || Games.is_run_out game.now.rules g.last.counter) }
    {
        self.is_repeated(game) || is_run_out(game.rules(), self.last(game).counter)
    }

    /// Whether the side has won by checkmate, where the game is ended after the line.
    pub fn end(&self, game: &Game, winner: Side) -> Option<bool>
        requires sound { AreSound game.now.rules self.now }
        ensures { result ≡ Stipulations.mated_by winner (result_after game.now self.now) }
    {
        game.prove_played();
        match own_end(game.tables(), self.last(game)) {
            Outcome::Ongoing => { if self.is_cut(game) { Some(false) } else { None } }
            end => mated_by(winner, end),
        }
    }

    /// Whether the move is legal after the line.
    pub fn is_legal(&self, game: &Game, m: &Move) -> bool
        requires sound { AreSound game.now.rules self.now }
        ensures { IsTrue result ↔ Member m.now (legal_after game.now self.now) }
    {
        game.prove_played();
        is_legal(game.rules(), game.tables(), self.last(game), m)
    }

    /// The legal moves after the line.
    pub fn legal_moves(&self, alloc: Global, game: &Game) -> Result<MoveList, Memory>
        requires sound { AreSound game.now.rules self.now }
        ensures { IfOk result (λ ms. ms ≡ legal_after game.now self.now) }
    {
        game.prove_played();
        legal_moves(alloc, game.rules(), game.tables(), self.last(game))
    }

    /// Makes a legal move. Without memory the line is what it was.
    pub fn push(&mut self, game: &Game, m: &Move) -> Result<(), Memory>
        requires sound { AreSound game.now.rules self.old }
        requires legal { Member m.now (legal_after game.now self.old) }
        ensures more { OnOk result (length self.new ≡ length self.old + 1) }
        ensures before { OnOk result (take (length self.old) self.new ≡ self.old) }
        ensures played { let before = game_after game.now self.old in
            OnOk result (game_after game.now self.new ≡ Games.played game.now.rules before m.now) }
        ensures sound { AreSound game.now.rules self.new }
        ensures refused { OnErr result (self.new ≡ self.old) }
    {
        game.prove_played();
        let mut next = *self.last(game);
        apply(game.rules(), game.tables(), &mut next, m);
        self.positions.push(next)?;
        Ok(())
    }
}
