//! What is known of positions by themselves.
ghost use Rattle.std.specs.Prelude.{◌≡◌, true, IfSome, IfOk};
ghost use Rattle.std.specs.Bool.{OnTrue};
ghost use Rattle.legality.specs.Stance.{repeat_in};
ghost use Rattle.rules_model.specs.Games.{same_repeat};
ghost use Rattle.stipulation.specs.Bare.{reaches, tells, IsTrueFact};

use crate::task::Task;
use playing::Board;
use position_key::Packed;
use rules_model::Memory;
use std::alloc::Global;
use std::marker::Model;

/// How many slots there are. A position has that of its key's remainder.
const SLOTS: usize = 0x4_0000;

/// The most facts that are kept, some 450 bytes each.
const MOST: usize = 0x4_0000;

/// The slot of no fact.
const NONE: u32 = u32::MAX;

/// Whether what is aimed at is reached from a position within N plies.
#[derive(Drop)]
pub(crate) struct Fact {
    pub position: Packed,
    pub plies: u16,
    pub reached: bool,
}

/// True facts, as far as there is room. Contracts see what is aimed at.
#[derive(Drop)]
pub(crate) struct ReachFacts<'t> {
    pub task: &'t Task<'t>,
    /// Where the fact of each slot is kept.
    slots: Vec<u32>,
    kept: Vec<Fact>,
}

impl<'t> Model for ReachFacts<'t> {
    ghost use Rattle.std.specs.Prelude.{◌≡◌, length};
    ghost use Rattle.stipulation.specs.declared.task.Task.{Task};
    ghost use Rattle.stipulation.specs.Bare.{HoldTruth};

    ghost Value = { Task };

    ghost view = { λ f. f.task.now };

    ghost invariant = { λ f. (length f.slots.items ≡ 262144) × HoldTruth f.task.now f.kept.items };
}

impl Fact {
    /// Whether it says what is reached within N plies, too.
    fn tells(&self, plies: u16) -> bool
        ensures { result ≡ tells self.now plies }
    {
        if self.reached {
            self.plies <= plies
        } else {
            plies <= self.plies
        }
    }

    /// Whether it is one of the board's position, which is packed where the keys agree.
    fn is_of(&self, board: &Board) -> bool
        ensures { OnTrue result (same_repeat self.now.position (repeat_in board.now) ≡ true) }
    {
        self.position.hash() == board.key()
            && self
                .position
                .is(&Packed::with_key(board.position(), board.board_key()))
    }
}

impl<'t> ReachFacts<'t> {
    /// No fact, with room for some; or `Memory`.
    pub fn new(alloc: Global, task: &'t Task<'t>) -> Result<ReachFacts<'t>, Memory>
        ensures { IfOk result (λ f. f ≡ task.now) }
    {
        Ok(ReachFacts {
            task,
            slots: vec![in alloc; NONE; SLOTS]?,
            kept: Vec::new(alloc),
        })
    }

    /// Where the fact is kept that has the key's slot: not among those that are, where there is none.
    fn place(&self, key: u64) -> usize {
        self.slots[(key % SLOTS as u64) as usize] as usize
    }

    /// The fact that has the key's slot, if one has: a true one.
    fn at(&self, key: u64) -> Option<&Fact>
        ensures { IfSome result (λ fact. IsTrueFact self.now fact.now) }
    {
        self.kept.get(self.place(key))
    }

    /// What the true fact says of the board's position and N plies, if it says it.
    fn said(&self, fact: &Fact, board: &Board, plies: u16) -> Option<bool>
        requires truth { IsTrueFact self.now fact.now }
        ensures { IfSome result (λ b. b ≡ reaches self.now plies (repeat_in board.now)) }
    {
        if fact.tells(plies) && fact.is_of(board) {
            Some(fact.reached)
        } else {
            None
        }
    }

    /// Whether what is aimed at is reached from the board's position within N plies, if that is known.
    pub fn look(&self, board: &Board, plies: u16) -> Option<bool>
        ensures { IfSome result (λ b. b ≡ reaches self.now plies (repeat_in board.now)) }
    {
        match self.at(board.key()) {
            Some(fact) => self.said(fact, board, plies),
            None => None,
        }
    }

    /// Keeps the fact, unless one of more plies has its slot. Without memory there are the same facts.
    pub fn keep(&mut self, board: &Board, plies: u16, reached: bool) -> Result<(), Memory>
        requires { reached ≡ reaches self.old plies (repeat_in board.now) }
        ensures { self.new ≡ self.old }
    {
        let key = board.key();
        let place = self.place(key);
        let fact = Fact {
            position: Packed::with_key(board.position(), board.board_key()),
            plies,
            reached,
        };
        if place < self.kept.len() {
            if self.kept[place].plies <= plies {
                self.kept[place] = fact;
            }
        } else if self.kept.len() < MOST {
            self.slots[(key % SLOTS as u64) as usize] = self.kept.len() as u32;
            self.kept.push(fact)?;
        }
        Ok(())
    }
}
