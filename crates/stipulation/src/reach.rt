//! Whether what is aimed at is reached from a position by itself, whatever came before: a search that keeps facts.
ghost use Rattle.std.specs.Prelude.{◌≡◌, ◌≤◌, ◌+◌, not, None, IfOk};
ghost use Rattle.foundation.specs.Member.{Member, Lists};
ghost use Rattle.rules_model.specs.Legal.{own_end};
ghost use Rattle.rules_model.specs.Next.{next_repeat};
ghost use Rattle.legality.specs.Stance.{legal_in, repeat_in};
ghost use Rattle.stipulation.specs.Bare.{bare, reaches, IsOf};

use crate::line::mated_by;
use crate::reach_facts::ReachFacts;
use playing::Board;
use rules_model::{Memory, Move, Outcome};
use std::alloc::Global;

impl ReachFacts<'_> {
    /// Whether it is reached where the position is ended by itself, as its own end says.
    fn ended(&self, board: &Board, own: Outcome) -> Option<bool>
        requires rules { IsOf self.now board.now }
        requires own { own ≡ own_end board.now.rules (repeat_in board.now) }
        ensures { result ≡ (bare self.now).end (repeat_in board.now) }
    {
        let winner = self.task.game.position().side.other();
        mated_by(winner, own)
    }

    /// Whether the position is the mate that is aimed at.
    fn is_mate(&self, board: &Board) -> bool
        requires rules { IsOf self.now board.now }
        ensures { result ≡ reaches self.now 0 (repeat_in board.now) }
    {
        match self.ended(board, board.own_end()) {
            Some(won) => won,
            None => false,
        }
    }

    /// Whether one move is to be chosen, and not every move to be replied to.
    fn is_choosing(&self, board: &Board) -> bool
        ensures { result ≡ (bare self.now).attacking (repeat_in board.now) }
    {
        self.task.help || board.position().side.is(self.task.game.position().side)
    }

    /// Whether what is aimed at is reached from the board's position within N plies.
    ///
    /// # Errors
    ///
    /// `Memory`.
    #[cycle(reach)]
    pub fn reaches(&mut self, alloc: Global, board: &Board, plies: u16) -> Result<bool, Memory>
        requires rules { IsOf self.old board.now }
        ensures is { IfOk result (λ b. b ≡ reaches self.old plies (repeat_in board.now)) }
        ensures same { self.new ≡ self.old }
    {
        if plies == 0 {
            return Ok(self.is_mate(board));
        }
        if let Some(known) = self.look(board, plies) {
            return Ok(known);
        }
        let reached = self.settle(alloc, board, plies)?;
        self.keep(board, plies, reached)?;
        Ok(reached)
    }

    /// The same, by the end of the position or by its moves.
    #[cycle(reach)]
    fn settle(&mut self, alloc: Global, board: &Board, plies: u16) -> Result<bool, Memory>
        requires rules { IsOf self.old board.now }
        requires some { 1 ≤ plies }
        ensures is { IfOk result (λ b. b ≡ reaches self.old plies (repeat_in board.now)) }
        ensures same { self.new ≡ self.old }
    {
        let moves = board.list_legal(alloc)?;
        let moves = moves.items.as_slice();
        match self.ended(board, board.end_where(!moves.is_empty())) {
            Some(won) => Ok(won),
            None => self.by_moves(alloc, board, plies - 1, moves),
        }
    }

    /// The same by the legal moves, within N plies after each.
    #[cycle(reach)]
    fn by_moves(
        &mut self,
        alloc: Global,
        board: &Board,
        plies: u16,
        moves: &[Move],
    ) -> Result<bool, Memory>
        requires rules { IsOf self.old board.now }
        requires ongoing { (bare self.old).end (repeat_in board.now) ≡ None }
        requires listed { Lists (λ m. Member m (legal_in board.now)) moves.now }
        ensures is { IfOk result (λ b. b ≡ reaches self.old (plies + 1) (repeat_in board.now)) }
        ensures same { self.new ≡ self.old }
    {
        let choosing = self.is_choosing(board);
        for m in moves {
            if self.by_move(alloc, board, plies, m)? == choosing {
                return Ok(choosing);
            }
        }
        Ok(!choosing)
    }

    /// The same by one of them. As the last move only one that gives check can mate.
    #[cycle(reach)]
    fn by_move(
        &mut self,
        alloc: Global,
        board: &Board,
        plies: u16,
        m: &Move,
    ) -> Result<bool, Memory>
        requires rules { IsOf self.old board.now }
        requires legal { Member m.now (legal_in board.now) }
        ensures is { IfOk result
            (λ b. b ≡ reaches self.old plies (next_repeat self.old.game.now.rules (repeat_in board.now) m.now)) }
        ensures same { self.new ≡ self.old }
    {
        if plies == 0 && !board.gives_check(m) {
            return Ok(false);
        }
        let next = board.after(m);
        self.reaches(alloc, &next, plies)
    }
}
