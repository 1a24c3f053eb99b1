//! Reads a text line by line.
ghost use Rattle.std.specs.Prelude.{◌≡◌, Some, OnOk};
ghost use Rattle.io_ports.specs.Lines.{Text};
ghost use Rattle.game_play.specs.Played.{Played};
ghost use Rattle.game_text.specs.Playing.{move_in};
ghost use Rattle.stipulation.specs.Lines.{AreSound, game_after, legal_after};
ghost use Rattle.foundation.specs.Member.{Member};
ghost use Rattle.rules_model.specs.declared.moves.Move.{Move};
ghost use Rattle.cert_text.specs.Reading as Reading;
ghost use Rattle.cert_text.specs.View as View;

use crate::fault::CertFault;
use crate::said::{SaidText, is_title, read_said};
use game_play::Game;
use move_text::read_move;
use rules_model::Move;
use std::alloc::Global;
use stipulation::{Cert, Line, Step, Steps};

/// What the lines so far say. A text is read by `new`, `take_line` for each of its lines, and `finish`.
#[derive(Drop)]
pub(crate) struct Reader {
    /// The number of the next line, counted from 1.
    pub line: u64,
    pub steps: Vec<Step>,
    /// The positions along the moves to the last step.
    pub path: Line,
    /// Whether the end was said.
    pub is_ended: bool,
}

/// The legal move with this text after the line.
fn move_after(game: &Game, path: &Line, text: &[u8]) -> Option<Move>
    requires sound { AreSound game.now.rules path.now }
    ensures is { result ≡ move_in game.now.rules (game_after game.now path.now).last text.now }
    ensures legal { (m : Move) → result ≡ Some m → Member m (legal_after game.now path.now) }
{
    // Tells the prover that the game's rules are fit. Nothing is done.
    game.prove_played();
    let Some(m) = read_move(game.rules(), path.last(game), text) else {
        return None;
    };
    if path.is_legal(game, &m) {
        Some(m)
    } else {
        None
    }
}

impl Reader {
    /// Before the first line. Takes no memory.
    pub fn new(alloc: Global) -> Reader
        ensures said { View.so_far result ≡ Reading.begun }
        ensures path { (game : Played) → View.IsOnPath game result }
    {
        Reader {
            line: 1,
            steps: Vec::new(alloc),
            path: Line::new(alloc),
            is_ended: false,
        }
    }

    fn take_step(&mut self, game: &Game, ply: u16, text: &[u8]) -> Result<(), CertFault>
        requires path { View.IsOnPath game.now self.old }
        ensures takes { View.Takes (View.with_step game.now self.old ply text.now) self.new result }
        ensures path { OnOk result (View.IsOnPath game.now self.new) }
        ensures line { OnOk result (self.new.line ≡ self.old.line) }
    {
        if ply == 0 || usize::from(ply) - 1 > self.path.len() {
            return Err(CertFault::BadLine(self.line));
        }
        self.path.cut(usize::from(ply) - 1);
        let Some(chosen) = move_after(game, &self.path, text) else {
            return Err(CertFault::BadLine(self.line));
        };
        self.path.push(game, &chosen)?;
        self.steps.push(Step { ply, chosen })?;
        Ok(())
    }

    #[tactic(auto, unfolding(crate::specs::Reading::with_said))]
    fn take_said(&mut self, game: &Game, said: Option<SaidText<'_>>) -> Result<(), CertFault>
        requires path { View.IsOnPath game.now self.old }
        ensures takes { View.Takes (View.with_said game.now self.old said.entry) self.new result }
        ensures path { OnOk result (View.IsOnPath game.now self.new) }
        ensures line { OnOk result (self.new.line ≡ self.old.line) }
    {
        match said {
            None => Err(CertFault::BadLine(self.line)),
            Some(SaidText::Step { ply, chosen }) => self.take_step(game, ply, chosen),
            Some(SaidText::End) => {
                self.is_ended = true;
                Ok(())
            }
        }
    }

    #[tactic(auto, unfolding(crate::specs::Reading::with_text))]
    fn take_text(&mut self, game: &Game, text: &[u8]) -> Result<(), CertFault>
        requires path { View.IsOnPath game.now self.old }
        ensures takes { View.Takes (View.with_text game.now self.old text.now) self.new result }
        ensures path { OnOk result (View.IsOnPath game.now self.new) }
        ensures line { OnOk result (self.new.line ≡ self.old.line) }
    {
        if self.is_ended {
            return Err(CertFault::Ended(self.line));
        }
        if self.line != 1 {
            return self.take_said(game, read_said(text));
        }
        if is_title(text) {
            Ok(())
        } else {
            Err(CertFault::BadLine(self.line))
        }
    }

    /// The fault of a next line that is too long to be kept, whatever it says.
    pub fn fault_of_long_line(&self) -> CertFault
        ensures { result ≡ Reading.long_fault (View.so_far self.now) }
    {
        if self.is_ended {
            CertFault::Ended(self.line)
        } else {
            CertFault::BadLine(self.line)
        }
    }

    /// Takes the next line, without its end.
    ///
    /// `Memory` is also the answer at line 2^64 - 1.
    #[tactic(auto, unfolding(crate::specs::Reading::step))]
    pub fn take_line(&mut self, game: &Game, text: &[u8]) -> Result<(), CertFault>
        requires path { View.IsOnPath game.now self.old }
        ensures takes { View.Takes (View.step game.now self.old (Text text.now)) self.new result }
        ensures path { OnOk result (View.IsOnPath game.now self.new) }
    {
        if self.line == u64::MAX {
            return Err(CertFault::Memory);
        }
        self.take_text(game, text)?;
        self.line += 1;
        Ok(())
    }

    /// The certificate of the lines so far, where they are those of a whole text.
    pub fn finish(self) -> Result<Cert, CertFault>
        ensures { View.Answers (Reading.finished (View.so_far self)) result }
    {
        if !self.is_ended {
            return Err(CertFault::Ended(self.line));
        }
        Ok(Cert {
            steps: Steps { items: self.steps },
        })
    }
}
