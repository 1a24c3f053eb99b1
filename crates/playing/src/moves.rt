//! The legal moves.
ghost use Rattle.std.specs.Prelude.{◌≡◌, ◌↔◌, ◌-◌, ◌^◌, min, not, length, IsTrue, OnOk, OnErr, IfOk};
ghost use Rattle.foundation.specs.Member.{Member, Appends, Lists};
ghost use Rattle.rules_model.specs.Allowed as Allowed;
ghost use Rattle.rules_model.specs.Legal as Legal;
ghost use Rattle.rules_model.specs.Next as Next;
ghost use Rattle.legality.specs.Asking as Asking;
ghost use Rattle.legality.specs.Stance as Stance;

use crate::board::Board;
use legality::{Asked, captures, is_legal_with};
use rules_model::{Memory, Move, MoveList};
use std::alloc::Global;

/// Most positions have no more legal moves.
const MOST_LEGAL: usize = 64;

impl Board<'_> {
    /// Whether the move is legal. Every value of `Move` may be asked for.
    pub fn is_legal(&self, m: &Move) -> bool
        ensures is { result ≡ Allowed.is_legal self.now.rules (Stance.repeat_in self.now) m.now }
        ensures member { IsTrue result ↔ Member m.now (Stance.legal_in self.now) }
    {
        is_legal_with(self.tables, &self.position, &self.sets, m)
    }

    /// Whether there is a legal move. It stops at the first.
    pub fn any_legal(&self) -> bool
        ensures { result ≡ not (Legal.is_stuck self.now.rules (Stance.repeat_in self.now)) }
    {
        self.known().any_legal()
    }

    /// How many legal moves there are, up to 2^128 - 1. No memory is taken.
    pub fn count_legal(&self) -> u128
        ensures { result ≡ min (length (Stance.legal_in self.now)) (2 ^ 128 - 1) }
    {
        self.known().count_legal()
    }

    /// Appends the legal moves, each once and in no special order. Without memory the list is as it was.
    pub fn push_legal(&self, out: &mut MoveList) -> Result<(), Memory>
        ensures ok { OnOk result (Appends (λ m. Member m (Stance.legal_in self.now)) out.old out.new) }
        ensures err { OnErr result (out.new ≡ out.old) }
    {
        self.known().push_legal(out)
    }

    /// The legal moves, each once and in no special order, or `Memory`.
    pub fn list_legal(&self, alloc: Global) -> Result<MoveList, Memory>
        ensures { IfOk result (Lists (λ m. Member m (Stance.legal_in self.now))) }
    {
        let mut moves = MoveList {
            items: Vec::with_capacity(alloc, MOST_LEGAL)?,
        };
        self.push_legal(&mut moves)?;
        Ok(moves)
    }

    /// Appends the legal moves that are asked for, each once and in no special order. Without memory the list is as it
    /// was.
    pub fn push_asked(&self, asked: &Asked, out: &mut MoveList) -> Result<(), Memory>
        ensures ok { OnOk result (Appends (Asking.IsAskedIn asked.now self.now) out.old out.new) }
        ensures err { OnErr result (out.new ≡ out.old) }
    {
        self.known().push_asked(asked, out)
    }

    /// Appends the legal moves that capture, each once and in no special order. Without memory the list is as it was.
    pub fn push_captures(&self, out: &mut MoveList) -> Result<(), Memory>
        ensures ok { OnOk result (Appends (Stance.IsCaptureIn self.now) out.old out.new) }
        ensures err { OnErr result (out.new ≡ out.old) }
    {
        self.known().push_captures(out)
    }

    /// Appends the legal moves that do not capture, each once and in no special order. Without memory the list is as it
    /// was.
    pub fn push_quiets(&self, out: &mut MoveList) -> Result<(), Memory>
        ensures ok { OnOk result (Appends (Stance.IsOtherIn self.now) out.old out.new) }
        ensures err { OnErr result (out.new ≡ out.old) }
    {
        self.known().push_quiets(out)
    }

    /// The legal moves, each once and in the byte order of their texts, or `Memory`.
    pub fn legal_moves(&self, alloc: Global) -> Result<MoveList, Memory>
        ensures { IfOk result (λ ms. ms ≡ Stance.legal_in self.now) }
    {
        self.known().legal_moves(alloc)
    }

    /// The same as a vector of moves, or `Memory`.
    pub fn legal_items(&self, alloc: Global) -> Result<Vec<Move>, Memory>
        ensures { IfOk result (λ ms. ms.items ≡ Stance.legal_in self.now) }
    {
        let moves = self.legal_moves(alloc)?;
        Ok(moves.items)
    }

    /// Whether the legal move captures. En passant is a capture.
    pub fn captures(&self, m: &Move) -> bool
        requires { Member m.now (Stance.legal_in self.now) }
        ensures { result ≡ Next.captures self.now.rules (Stance.repeat_in self.now) m.now }
    {
        captures(self.tables.rules(), &self.position, m)
    }
}
