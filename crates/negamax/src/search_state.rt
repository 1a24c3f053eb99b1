//! What a worker keeps while it searches.
ghost use Rattle.std.specs.Prelude.{◌≡◌, ◌==◌, length, not, IfOk, IsErrOf, OnOk};
ghost use Rattle.foundation.specs.Member.{Lists, Member};
ghost use Rattle.legality.specs.Stance.{legal_in, repeat_in};
ghost use Rattle.rules_model.specs.Legal.{is_stuck};
ghost use Rattle.io_ports.specs.declared.limits.SearchFault.TheVariants as fault;
ghost use Rattle.watching.specs.declared.halt.Halt.{Halt};
ghost use Rattle.watching.specs.declared.halt.Halt.TheVariants as halt;
ghost use Rattle.negamax.specs.Trials.{captures_in, Copies, Pushes};

use crate::facts::Best;
use crate::move_order::{MoveOrder, mvv_lva};
use crate::scored_moves::ScoredMove;
use evaluation::PieceValues;
use foundation::Memory;
use hint_table::{Hint, HintTable, NO_SLOT, Slot, slot_of};
use io_ports::SearchFault;
use playing::Board;
use rules_model::{Move, MoveList, Position};
use std::alloc::{AllocError, Global};
use watching::Halt;

/// What a worker keeps from one search to the next: the moves that wait to be searched, and what orders them. Any two
/// of them lead to the same values.
#[derive(Drop)]
pub struct SearchState<'h> {
    hints: &'h HintTable,
    pub(crate) waiting: Vec<ScoredMove>,
    listed: MoveList,
    order: MoveOrder,
}

impl<'h> SearchState<'h> {
    /// An empty one, some 200 KB, that takes its hints from the table and leaves its own there; or `Memory`.
    pub fn new(alloc: Global, hints: &'h HintTable) -> Result<SearchState<'h>, Memory> {
        Ok(SearchState {
            hints,
            waiting: Vec::new(alloc),
            listed: MoveList {
                items: Vec::new(alloc),
            },
            order: MoveOrder::new(alloc)?,
        })
    }

    /// The slot that the table gives for the key. It may be that of another position.
    pub(crate) fn hint(&self, key: u64) -> Slot {
        self.hints.get(key).map_or(NO_SLOT, |hint| hint.slot)
    }

    /// Leaves in the table what the search of a position came to, at a number of plies from the root, and remembers its
    /// move where that cut.
    pub(crate) fn leave(&mut self, p: &Position, key: u64, ply: u8, hint: Hint, cuts: bool)
        ensures { self.new.waiting.items ≡ self.old.waiting.items }
    {
        self.hints.put(key, hint);
        if cuts {
            self.order.remember(p, hint.slot, ply, hint.depth);
        }
    }

    /// Leaves in the table what the position of the key came to at a depth.
    pub fn leave_best(&self, key: u64, depth: u8, best: &Best) {
        self.hints
            .put(key, hint_of(depth, slot_of(&best.chosen), best.value));
    }

    /// No move waits.
    pub(crate) fn clear(&mut self) {
        self.waiting.clear();
    }

    /// Lists the legal moves, and tells whether there are any.
    fn list(&mut self, board: &Board) -> Result<bool, Memory>
        ensures any { IfOk result (λ any. any ≡ not (is_stuck board.now.rules (repeat_in board.now))) }
        ensures listed { OnOk result (Lists (λ m. Member m (legal_in board.now)) self.new.listed) }
        ensures waiting { OnOk result (self.new.waiting.items ≡ self.old.waiting.items) }
    {
        self.listed.items.clear();
        board.push_legal(&mut self.listed)?;
        Ok(has_moves(&self.listed))
    }

    /// Has all legal moves wait, at a number of plies from the root, and tells whether there are any.
    fn wait_all(
        &mut self,
        board: &Board,
        values: &PieceValues,
        hint: Slot,
        ply: u8,
    ) -> Result<bool, Memory>
        ensures any { IfOk result (λ any. any ≡ not (is_stuck board.now.rules (repeat_in board.now))) }
        ensures pushes { OnOk result
            (Pushes (λ m. Member m (legal_in board.now)) self.old.waiting.items self.new.waiting.items) }
    {
        let any = self.list(board)?;
        push_all(
            &mut self.waiting,
            self.listed.items.as_slice(),
            &self.order,
            values,
            board,
            hint,
            ply,
        )?;
        Ok(any)
    }

    /// Lists the legal captures, and tells whether any move is legal.
    fn list_captures(&mut self, board: &Board) -> Result<bool, Memory>
        ensures any { IfOk result (λ any. any ≡ not (is_stuck board.now.rules (repeat_in board.now))) }
        ensures listed { OnOk result (Lists (λ m. Member m (captures_in board.now)) self.new.listed) }
        ensures waiting { OnOk result (self.new.waiting.items ≡ self.old.waiting.items) }
    {
        let known = board.known();
        self.listed.items.clear();
        known.push_captures(&mut self.listed)?;
        if has_moves(&self.listed) {
            return Ok(true);
        }
        Ok(known.any_legal())
    }

    /// Has all legal captures wait, and tells whether any move is legal.
    fn wait_captures(&mut self, board: &Board, values: &PieceValues) -> Result<bool, Memory>
        ensures any { IfOk result (λ any. any ≡ not (is_stuck board.now.rules (repeat_in board.now))) }
        ensures pushes { OnOk result
            (Pushes (λ m. Member m (captures_in board.now)) self.old.waiting.items self.new.waiting.items) }
    {
        let any = self.list_captures(board)?;
        push_taking(
            &mut self.waiting,
            self.listed.items.as_slice(),
            values,
            board.position(),
        )?;
        Ok(any)
    }

    /// Has all legal moves wait, at a number of plies from the root, and tells whether there are any; or what ends the
    /// search where there is no memory.
    pub(crate) fn push_moves(
        &mut self,
        board: &Board,
        values: &PieceValues,
        hint: Slot,
        ply: u8,
    ) -> Result<bool, Halt>
        ensures any { IfOk result (λ any. any ≡ not (is_stuck board.now.rules (repeat_in board.now))) }
        ensures pushes { OnOk result
            (Pushes (λ m. Member m (legal_in board.now)) self.old.waiting.items self.new.waiting.items) }
        ensures memory { (why : Halt) → IsErrOf result why → why ≡ halt.Fault fault.Memory }
    {
        match self.wait_all(board, values, hint, ply) {
            Ok(any) => Ok(any),
            Err(_) => Err(Halt::Fault(SearchFault::Memory)),
        }
    }

    /// Has all legal captures wait, and tells whether any move is legal; or what ends the search where there is no
    /// memory.
    pub(crate) fn push_captures(
        &mut self,
        board: &Board,
        values: &PieceValues,
    ) -> Result<bool, Halt>
        ensures any { IfOk result (λ any. any ≡ not (is_stuck board.now.rules (repeat_in board.now))) }
        ensures pushes { OnOk result
            (Pushes (λ m. Member m (captures_in board.now)) self.old.waiting.items self.new.waiting.items) }
        ensures memory { (why : Halt) → IsErrOf result why → why ≡ halt.Fault fault.Memory }
    {
        match self.wait_captures(board, values) {
            Ok(any) => Ok(any),
            Err(_) => Err(Halt::Fault(SearchFault::Memory)),
        }
    }
}

/// What is left of a search at a depth: the move, and the value as far as it has room.
pub(crate) fn hint_of(depth: u8, slot: Slot, value: i32) -> Hint {
    let bound = value.clamp(-32_001, 32_001) as i16;
    Hint { depth, slot, bound }
}

fn has_moves(list: &MoveList) -> bool
    ensures { result ≡ not (length list.now == 0) }
{
    !list.items.is_empty()
}

/// Has all the moves wait.
fn push_all(
    waiting: &mut Vec<ScoredMove>,
    listed: &[Move],
    order: &MoveOrder,
    values: &PieceValues,
    board: &Board,
    hint: Slot,
    ply: u8,
) -> Result<(), AllocError>
    ensures { OnOk result (Copies listed.now waiting.old.items waiting.new.items) }
{
    for m in listed {
        let score = order.score(values, board, m, hint, ply);
        waiting.push(ScoredMove { chosen: *m, score })?;
    }
    Ok(())
}

/// Has all the captures wait.
fn push_taking(
    waiting: &mut Vec<ScoredMove>,
    listed: &[Move],
    values: &PieceValues,
    p: &Position,
) -> Result<(), AllocError>
    ensures { OnOk result (Copies listed.now waiting.old.items waiting.new.items) }
{
    for m in listed {
        let score = mvv_lva(values, p, m).unwrap_or(0);
        waiting.push(ScoredMove { chosen: *m, score })?;
    }
    Ok(())
}
