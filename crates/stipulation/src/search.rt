//! The search of a game with its whole history: every move in turn, but none after a position from which what is aimed
//! at is not reached, whatever came before.
ghost use Rattle.std.specs.Prelude.{◌≡◌, ◌≤◌, ◌+◌, length, IfOk};
ghost use Rattle.foundation.specs.Member.{Member};
ghost use Rattle.rules_model.specs.Repeats.{repeat_of};
ghost use Rattle.stipulation.specs.AtTask as At;
ghost use Rattle.stipulation.specs.Bare as Bare;
ghost use Rattle.stipulation.specs.Searches as Searches;

use crate::cert::{Step, Steps};
use crate::line::Line;
use crate::reach_facts::ReachFacts;
use crate::task::Task;
use playing::Board;
use rules_model::{Memory, Move};
use std::alloc::Global;

impl Task<'_> {
    /// Whether what is aimed at is reached within N plies of the line's last position by itself. Where it is not,
    /// it is not after the line.
    fn may_reach(
        &self,
        alloc: Global,
        line: &Line,
        plies: u16,
        facts: &mut ReachFacts,
    ) -> Result<bool, Memory>
        requires task { facts.old ≡ self.now }
        requires sound { At.AreSound self.now line.now }
        ensures is { IfOk result (λ b. b ≡ Bare.reaches self.now plies (repeat_of (At.at self.now line.now).last)) }
        ensures task { facts.new ≡ facts.old }
    {
        let board = Board::new(self.game.tables(), line.last(self.game));
        facts.reaches(alloc, &board, plies)
    }

    /// Whether what is aimed at can be reached after the line within N plies; where it can, the steps are
    /// appended.
    #[cycle(search)]
    pub fn search(
        &self,
        alloc: Global,
        line: &mut Line,
        plies: u16,
        steps: &mut Steps,
        facts: &mut ReachFacts,
    ) -> Result<bool, Memory>
        requires task { facts.old ≡ self.now }
        requires sound { At.AreSound self.now line.old }
        requires few { length line.old + plies ≤ 12 }
        ensures found { let found = At.found_at self.now plies line.old in
            IfOk result (λ answer. Searches.IsFound found steps.old steps.new answer) }
        ensures line { IfOk result (λ _. line.new ≡ line.old) }
        ensures task { facts.new ≡ facts.old }
    {
        if !self.may_reach(alloc, line, plies, facts)? {
            return Ok(false);
        }
        self.play_on(alloc, line, plies, steps, facts)
    }

    /// The same by the end of the game or by its moves.
    #[cycle(search)]
    #[tactic(auto, unfolding(crate::specs::Searches::found))]
    fn play_on(
        &self,
        alloc: Global,
        line: &mut Line,
        plies: u16,
        steps: &mut Steps,
        facts: &mut ReachFacts,
    ) -> Result<bool, Memory>
        requires task { facts.old ≡ self.now }
        requires sound { At.AreSound self.now line.old }
        requires few { length line.old + plies ≤ 12 }
        ensures found { let found = At.found_at self.now plies line.old in
            IfOk result (λ answer. Searches.IsFound found steps.old steps.new answer) }
        ensures line { IfOk result (λ _. line.new ≡ line.old) }
        ensures task { facts.new ≡ facts.old }
    {
        if let Some(won) = self.end(line) {
            return Ok(won);
        }
        if plies == 0 {
            return Ok(false);
        }
        let legal = line.legal_moves(alloc, self.game)?;
        if self.is_choosing(line) {
            self.choose(alloc, line, plies - 1, legal.items.as_slice(), steps, facts)
        } else {
            self.reply_to_all(alloc, line, plies - 1, legal.items.as_slice(), steps, facts)
        }
    }

    /// The same by the first of the legal moves after which it can be reached within N plies.
    #[cycle(search)]
    #[tactic(auto, unfolding(crate::specs::Searches::first_of))]
    fn choose(
        &self,
        alloc: Global,
        line: &mut Line,
        plies: u16,
        moves: &[Move],
        steps: &mut Steps,
        facts: &mut ReachFacts,
    ) -> Result<bool, Memory>
        requires task { facts.old ≡ self.now }
        requires sound { At.AreSound self.now line.old }
        requires few { length line.old + plies ≤ 11 }
        requires legal { At.AreLegal self.now line.old moves.now }
        ensures found { let found = Searches.first_of (At.followed_at self.now plies line.old) moves.now in
            IfOk result (λ answer. Searches.IsFound found steps.old steps.new answer) }
        ensures line { IfOk result (λ _. line.new ≡ line.old) }
        ensures task { facts.new ≡ facts.old }
    {
        for m in moves {
            if self.follow(alloc, line, plies, m, steps, facts)? {
                return Ok(true);
            }
        }
        Ok(false)
    }

    /// The same by every one of the legal moves.
    #[cycle(search)]
    #[tactic(auto, unfolding(crate::specs::Searches::all_of))]
    fn reply_to_all(
        &self,
        alloc: Global,
        line: &mut Line,
        plies: u16,
        moves: &[Move],
        steps: &mut Steps,
        facts: &mut ReachFacts,
    ) -> Result<bool, Memory>
        requires task { facts.old ≡ self.now }
        requires sound { At.AreSound self.now line.old }
        requires few { length line.old + plies ≤ 11 }
        requires legal { At.AreLegal self.now line.old moves.now }
        ensures found { let found = Searches.all_of (At.followed_at self.now plies line.old) moves.now in
            IfOk result (λ answer. Searches.IsFound found steps.old steps.new answer) }
        ensures line { IfOk result (λ _. line.new ≡ line.old) }
        ensures task { facts.new ≡ facts.old }
    {
        let kept = steps.len();
        for m in moves {
            if !self.follow(alloc, line, plies, m, steps, facts)? {
                steps.cut(kept);
                return Ok(false);
            }
        }
        Ok(true)
    }

    /// The same by the legal move, within N plies after it.
    #[cycle(search)]
    fn follow(
        &self,
        alloc: Global,
        line: &mut Line,
        plies: u16,
        m: &Move,
        steps: &mut Steps,
        facts: &mut ReachFacts,
    ) -> Result<bool, Memory>
        requires task { facts.old ≡ self.now }
        requires sound { At.AreSound self.now line.old }
        requires few { length line.old + plies ≤ 11 }
        requires legal { Member m.now (At.legal_at self.now line.old) }
        ensures found { let found = At.followed_at self.now plies line.old m.now in
            IfOk result (λ answer. Searches.IsFound found steps.old steps.new answer) }
        ensures line { IfOk result (λ _. line.new ≡ line.old) }
        ensures task { facts.new ≡ facts.old }
    {
        let (ply, kept) = (line.len(), steps.len());
        steps.push(Step {
            ply: ply as u16 + 1,
            chosen: *m,
        })?;
        line.push(self.game, m)?;
        let is_found = self.search(alloc, line, plies, steps, facts)?;
        line.cut(ply);
        if !is_found {
            steps.cut(kept);
        }
        Ok(is_found)
    }
}
