//! The check of a certificate.
ghost use Rattle.std.specs.Prelude.{◌≡◌, ◌≤◌, ◌<◌, ◌+◌, ◌↔◌, ◌∷◌, [], true, length, take, drop, reverse, IfOk, IsTrue};
ghost use Rattle.std.specs.List.{list_any};
ghost use Rattle.foundation.specs.Member.{Member};
ghost use Rattle.foundation.specs.Tests.{is_nil};
ghost use Rattle.rules_model.specs.Moves.{same_move};
ghost use Rattle.game_play.specs.Played.{story};
ghost use Rattle.stipulation.specs.declared.verdict.CertVerdict.TheVariants as Said;
ghost use Rattle.stipulation.specs.Stipulations.{self_wins, HelpWins};
ghost use Rattle.stipulation.specs.Trees as Trees;
ghost use Rattle.stipulation.specs.Verdicts as Verdicts;
ghost use Rattle.stipulation.specs.AtTask as At;
ghost use Rattle.stipulation.specs.AtTree as Here;

use crate::cert::{Cert, Step};
use crate::line::Line;
use crate::task::Task;
use crate::tree::{first_missing, had_move, had_none, has_none};
use crate::verdict::CertVerdict;
use game_play::Game;
use rules_model::{Memory, Move};
use std::alloc::Global;

/// A certificate's steps beside the game that is their root.
#[derive(Drop)]
pub(crate) struct Tree<'a> {
    pub task: Task<'a>,
    pub n: u16,
    pub steps: &'a [Step],
}

/// The first of the steps whose ply cannot follow the one before.
#[tactic(auto, unfolding(crate::specs::Verdicts::plies_verdict))]
fn plies_verdict(steps: &[Step]) -> CertVerdict
    ensures { result ≡ Verdicts.plies_verdict 1 0 steps.now }
{
    let mut before = 0;
    for (i, s) in steps.iter().enumerate() {
        let ply = u32::from(s.ply);
        if ply == 0 || ply > before + 1 {
            return CertVerdict::BadPly(i as u64 + 1);
        }
        before = ply;
    }
    CertVerdict::Holds
}

/// The failure of an ongoing game where one move is to be chosen.
fn chosen_verdict(i: u64, later: &[Step], ply: u32) -> CertVerdict
    ensures { result ≡ Verdicts.fault_if (is_nil (Trees.moves_at ply later.now)) (Said.Unfinished i) }
{
    if has_none(later, ply) {
        CertVerdict::Unfinished(i)
    } else {
        CertVerdict::Holds
    }
}

/// The failure of a reply that is missing.
fn missing(i: u64, reply: Option<Move>) -> CertVerdict
    ensures { result ≡ Verdicts.missing i reply }
{
    match reply {
        None => CertVerdict::Holds,
        Some(m) => CertVerdict::MissingReply(i, m),
    }
}

impl Tree<'_> {
    /// Whether the move of the step may not follow its parent, at which the line ends.
    #[tactic(auto, unfolding(crate::specs::Verdicts::is_bad_move))]
    fn is_bad_move(&self, line: &Line, earlier: &[Step], s: &Step) -> bool
        requires sound { At.AreSound self.now.task line.now }
        ensures { result ≡ Here.is_bad_move self.now line.now earlier.now s.now }
    {
        let ply = u32::from(s.ply);
        self.task.end(line).is_some()
            || !self.task.is_legal(line, &s.chosen)
            || had_move(earlier, ply, &s.chosen)
            || (self.task.is_choosing(line) && !had_none(earlier, ply))
    }

    /// The first failure of the game at which the line ends, by the children of the ply at the front of the later
    /// steps.
    fn game_verdict(
        &self,
        alloc: Global,
        i: u64,
        line: &Line,
        later: &[Step],
        ply: u32,
    ) -> Result<CertVerdict, Memory>
        requires sound { At.AreSound self.now.task line.now }
        ensures { let children = Trees.moves_at ply later.now in
            IfOk result (λ v. v ≡ Here.game_verdict self.now i line.now children) }
    {
        match self.task.end(line) {
            Some(true) => return Ok(CertVerdict::Holds),
            Some(false) => return Ok(CertVerdict::NotMate(i)),
            None => {}
        }
        if self.task.is_choosing(line) {
            return Ok(chosen_verdict(i, later, ply));
        }
        let legal = line.legal_moves(alloc, self.task.game)?;
        Ok(missing(i, first_missing(later, ply, legal.items.as_slice())))
    }

    /// The first failure of the step at the place, by the line to the step before it. The line becomes the one to this
    /// step.
    #[tactic(auto, unfolding(crate::specs::Verdicts::step_verdict))]
    fn step_verdict(
        &self,
        alloc: Global,
        line: &mut Line,
        i: usize,
        s: &Step,
    ) -> Result<CertVerdict, Memory>
        requires there { i < length self.now.steps.now }
        requires sound { At.AreSound self.now.task line.old }
        requires before { At.IsLineTo self.now.task (reverse (take i self.now.steps.now)) line.old }
        requires least { 1 ≤ s.now.ply }
        requires next { s.now.ply ≤ length line.old + 1 }
        ensures verdict { IfOk result (λ v. v ≡ Here.step_verdict self.now i s.now) }
        ensures sound { At.AreSound self.now.task line.new }
        ensures long { IfOk result (λ v. v ≡ Said.Holds → length line.new ≡ s.now.ply) }
        ensures line { let earlier = reverse (take i self.now.steps.now) in
            IfOk result (λ v. v ≡ Said.Holds → At.IsLineTo self.now.task (s.now ∷ earlier) line.new) }
    {
        let number = i as u64 + 1;
        line.cut(usize::from(s.ply) - 1);
        if self.is_bad_move(line, &self.steps[..i], s) {
            return Ok(CertVerdict::BadMove(number));
        }
        if u32::from(s.ply) > 2 * u32::from(self.n) {
            return Ok(CertVerdict::TooDeep(number));
        }
        line.push(self.task.game, &s.chosen)?;
        let ply = u32::from(s.ply) + 1;
        self.game_verdict(alloc, number, line, &self.steps[i + 1..], ply)
    }

    /// The first failure of the steps, but for their plies.
    fn steps_verdict(&self, alloc: Global) -> Result<CertVerdict, Memory>
        requires plies { Verdicts.plies_verdict 1 0 self.now.steps.now ≡ Said.Holds }
        ensures { IfOk result (λ v. v ≡ Here.steps_verdict self.now) }
    {
        let mut line = Line::new(alloc);
        for (i, s) in self.steps.iter().enumerate() {
            match self.step_verdict(alloc, &mut line, i, s)? {
                CertVerdict::Holds => {}
                fault => return Ok(fault),
            }
        }
        Ok(CertVerdict::Holds)
    }

    /// The first failure of the tree.
    #[tactic(auto, unfolding(crate::specs::Verdicts::tree_verdict))]
    fn verdict(&self, alloc: Global) -> Result<CertVerdict, Memory>
        ensures { IfOk result (λ v. v ≡ Here.tree_verdict self.now) }
    {
        match plies_verdict(self.steps) {
            CertVerdict::Holds => {}
            fault => return Ok(fault),
        }
        let line = Line::new(alloc);
        match self.game_verdict(alloc, 0, &line, self.steps, 1)? {
            CertVerdict::Holds => {}
            fault => return Ok(fault),
        }
        self.steps_verdict(alloc)
    }

    /// Whether the game is ended, and there is no step.
    fn is_empty_end(&self, alloc: Global) -> bool
        ensures { result ≡ Here.is_empty_end self.now }
    {
        if self.steps.len() > 0 {
            return false;
        }
        let line = Line::new(alloc);
        self.task.end(&line).is_some()
    }
}

/// The verdict on the certificate of a selfmate, for the side that is to move in the game, within n moves of its own:
/// that it holds, or its first failure. Where it holds the side forces the other side to win by checkmate, whatever the
/// history of the game. `Memory` where there is none.
pub fn check_self(alloc: Global, game: &Game, n: u16, cert: &Cert) -> Result<CertVerdict, Memory>
    ensures verdict { IfOk result (λ v. v ≡ Verdicts.self_verdict game.now.rules n (story game.now) cert.now.steps) }
    ensures wins { IfOk result (λ v. v ≡ Said.Holds →
        self_wins game.now.rules n (story game.now) (story game.now).last.side ≡ true) }
{
    let tree = Tree {
        task: Task { game, help: false },
        n,
        steps: cert.steps.items.as_slice(),
    };
    tree.verdict(alloc)
}

/// The verdict on the certificate of a helpmate within n moves of each side, from the side that is to move in the game:
/// that it holds, or its first failure. Where it holds the moves lead to a checkmate by which the other side wins,
/// whatever the history of the game. `Memory` where there is none.
pub fn check_help(alloc: Global, game: &Game, n: u16, cert: &Cert) -> Result<CertVerdict, Memory>
    ensures verdict { IfOk result (λ v. v ≡ Verdicts.help_verdict game.now.rules n (story game.now) cert.now.steps) }
    ensures wins { IfOk result (λ v. v ≡ Said.Holds → HelpWins game.now.rules n (story game.now)) }
{
    let tree = Tree {
        task: Task { game, help: true },
        n,
        steps: cert.steps.items.as_slice(),
    };
    if tree.is_empty_end(alloc) {
        return Ok(CertVerdict::NotMate(0));
    }
    tree.verdict(alloc)
}
