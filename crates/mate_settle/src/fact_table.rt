//! Facts that are kept while a frame is searched.
ghost use Rattle.std.specs.Prelude.{◌≡◌, ◌<◌, IfOk, IfSome};
ghost use Rattle.mate_core.specs.Runs.{IsTrueIn};
ghost use Rattle.mate_settle.specs.Known.{Answers};
ghost use Rattle.mate_settle.specs.Tellings.{IsTold};

use crate::told::Told;
use mate_core::{Fact, Frame, serves};
use playing::Board;
use rules_model::{Kind, Memory, Move, Square, repeat_of};
use std::alloc::Global;
use std::marker::Model;

/// How many numbers of moves left have a killer of their own.
const KILLERS: usize = 16;

/// How many of the last replies that refuted the attacker's last move are kept.
pub(crate) const REFUTERS: usize = 4;

/// The squares, the kinds on them, and the numbers of the attacker's moves that have counters of their own.
const SQUARES: usize = 128;

const REPLIES: usize = 26 * SQUARES;

const COUNTERS: usize = 8 * REPLIES;

/// A fact, and the key of its repeat.
#[derive(Clone, Copy)]
pub(crate) struct KeyedFact {
    pub key: u64,
    pub fact: Fact,
}

/// True facts of a frame, as far as there is room: a newer one takes the place of an older one. Contracts see the
/// frame.
#[derive(Drop)]
pub struct FactTable<'f> {
    frame: &'f Frame,
    /// For each remainder of a key, the number of the fact that is kept for it, from 1 on; 0 where there is none.
    numbers: Vec<u32>,
    kept: Vec<KeyedFact>,
    /// For each remainder of the attacker's moves, his move that won last with that many left.
    killers: [Option<Move>; KILLERS],
    /// The replies that refuted the attacker's last move, the newest first.
    refuters: [Option<Move>; REFUTERS],
    /// For each square the legal reply that met a check last which was given by a move to it.
    meeters: [Option<Move>; SQUARES],
    /// For each square the one that did so before it.
    elder_meeters: [Option<Move>; SQUARES],
    /// How often replies refuted, by the attacker's moves, the kind and the target: as many counters as there is room
    /// for facts, and no more than `COUNTERS`.
    counters: Vec<u8>,
}

impl<'f> Model for FactTable<'f> {
    ghost use Rattle.mate_core.specs.declared.frame.Frame.{Frame};
    ghost use Rattle.mate_settle.specs.Known.{HoldTruth};

    ghost Value = { Frame };

    ghost view = { λ t. t.frame.now };

    ghost invariant = { λ t. HoldTruth t.frame.now t.kept.items };
}

// The place for the number of a fact on a repeat with this key.
fn place(key: u64, places: usize) -> usize
    requires { 0 < places }
    ensures { result < places }
{
    (key % places as u64) as usize
}

// The number of the counter of replies by which a piece of the kind comes to the square.
fn counter_of(moves: u16, kind: Kind, to: Square) -> usize {
    let of_moves = usize::from(moves.min(7)) * REPLIES;
    of_moves + usize::from(kind.0.min(25)) * SQUARES + usize::from(to.0.min(127))
}

// Halves all counters.
fn halve(counters: &mut Vec<u8>) {
    for i in 0..counters.len() {
        if let Some(count) = counters.get_mut(i) {
            *count /= 2;
        }
    }
}

// Counts one more at the place, if there is such a place. Where the counter is full, all are halved.
fn count_at(counters: &mut Vec<u8>, at: usize) {
    if counters.get(at) == Some(&u8::MAX) {
        halve(counters);
    }
    if let Some(count) = counters.get_mut(at) {
        *count = count.saturating_add(1);
    }
}

// Brings the reply to the front: those before the place where it stood move back by one.
fn bring_to_front(replies: &mut [Option<Move>; REFUTERS], reply: Move) {
    let mut carried = Some(reply);
    for at in 0..REFUTERS {
        let next = replies[at];
        replies[at] = carried;
        if next == Some(reply) {
            return;
        }
        carried = next;
    }
}

/// The number of no fact, for each place.
fn no_numbers(alloc: Global, room: usize) -> Result<Vec<u32>, Memory> {
    let mut numbers = Vec::with_capacity(alloc, room)?;
    for _i in 0..room {
        numbers.push(0)?;
    }
    Ok(numbers)
}

/// Counters of replies that have refuted nothing yet.
fn no_counters(alloc: Global, many: usize) -> Result<Vec<u8>, Memory> {
    let mut counters = Vec::new(alloc);
    for _i in 0..many {
        counters.push(0)?;
    }
    Ok(counters)
}

impl<'f> FactTable<'f> {
    /// A table without facts and with room for this many, which may be none; or `Memory`.
    pub fn new(alloc: Global, frame: &'f Frame, room: usize) -> Result<FactTable<'f>, Memory>
        ensures { IfOk result (λ t. t ≡ frame.now) }
    {
        let numbers = no_numbers(alloc, room)?;
        let counters = no_counters(alloc, room.min(COUNTERS))?;
        let kept = Vec::new(alloc);
        Ok(FactTable {
            frame,
            numbers,
            kept,
            killers: [None; KILLERS],
            refuters: [None; REFUTERS],
            meeters: [None; SQUARES],
            elder_meeters: [None; SQUARES],
            counters,
        })
    }

    /// What its facts are true in.
    pub fn frame(&self) -> &'f Frame
        ensures { result.now ≡ self.now }
    {
        self.frame
    }

    /// How many facts there is room for.
    pub fn room(&self) -> usize {
        self.numbers.len()
    }

    /// The fact that is kept at a place, if there is one: a true one.
    pub fn at(&self, place: usize) -> Option<Fact>
        ensures { IfSome result (IsTrueIn self.now) }
    {
        match self.kept.get(place) {
            Some(kept) => Some(kept.fact),
            None => None,
        }
    }

    /// What is kept for the number, if it is one of a fact.
    fn numbered(&self, number: u32) -> Option<&KeyedFact>
        ensures { IfSome result (λ kept. IsTrueIn self.now kept.now.fact) }
    {
        if number == 0 {
            return None;
        }
        self.kept.get(number as usize - 1)
    }

    /// The fact that is kept for a position of this key, if there is one. It may be of another position.
    fn of_key(&self, key: u64) -> Option<&Fact>
        ensures { IfSome result (λ fact. IsTrueIn self.now fact.now) }
    {
        if self.numbers.is_empty() {
            return None;
        }
        let at = place(key, self.numbers.len());
        match self.numbered(self.numbers[at]) {
            Some(kept) if kept.key == key => Some(&kept.fact),
            _ => None,
        }
    }

    /// A kept fact that says whether the position is won within this many moves, if one is found at once.
    fn serving(&self, board: &Board, moves: u16) -> Option<&Fact>
        ensures serves { IfSome result (λ fact. Answers board.now moves fact.now) }
        ensures truth { IfSome result (λ fact. IsTrueIn self.now fact.now) }
    {
        let p = board.position();
        match self.of_key(board.key()) {
            Some(fact) if serves(fact, &repeat_of(p), p.counter, moves) => Some(fact),
            _ => None,
        }
    }

    /// A kept fact, copied, that says whether the attacker wins the position within this many moves, if one is found at
    /// once.
    pub fn look(&self, board: &Board, moves: u16) -> Option<Fact>
        ensures serves { IfSome result (Answers board.now moves) }
        ensures truth { IfSome result (IsTrueIn self.now) }
    {
        match self.serving(board, moves) {
            Some(fact) => Some(*fact),
            None => None,
        }
    }

    /// What that fact tells: whether he wins, and within how many moves.
    pub fn told(&self, board: &Board, moves: u16) -> Option<Told>
        ensures { IfSome result (IsTold self.now board.now.position moves) }
    {
        match self.serving(board, moves) {
            Some(fact) => Some(Told::of(fact)),
            None => None,
        }
    }

    /// Keeps a fact on the position, where there is memory for it.
    pub fn keep(&mut self, board: &Board, fact: Fact)
        requires { IsTrueIn self.old fact }
        ensures { self.new ≡ self.old }
    {
        if self.numbers.is_empty() {
            return;
        }
        let key = board.key();
        let at = place(key, self.numbers.len());
        let number = self.numbers[at] as usize;
        if 0 < number && number <= self.kept.len() {
            self.kept[number - 1] = KeyedFact { key, fact };
            return;
        }
        let next = self.kept.len();
        if next < u32::MAX as usize && self.kept.push(KeyedFact { key, fact }).is_ok() {
            self.numbers[at] = next as u32 + 1;
        }
    }

    /// The attacker's move that won last where he had this many moves left, or as many by the remainder, if one did. It
    /// may be of another position.
    pub(crate) fn killer(&self, moves: u16) -> Option<Move> {
        self.killers[usize::from(moves) % KILLERS]
    }

    /// Keeps the attacker's move that wins with this many left.
    pub(crate) fn keep_killer(&mut self, moves: u16, chosen: Move)
        ensures { self.new ≡ self.old }
    {
        self.killers[usize::from(moves) % KILLERS] = Some(chosen);
    }

    /// The best move of the fact that is kept for a position of this key, whatever it answers. It may be of another
    /// position.
    pub(crate) fn best_on(&self, board: &Board) -> Option<Move> {
        match self.of_key(board.key()) {
            Some(fact) => fact.best,
            None => None,
        }
    }

    /// The reply at this place of those that refuted the attacker's last move: 0 is the newest. It may be of another
    /// position.
    pub(crate) fn refuter(&self, at: usize) -> Option<Move> {
        match self.refuters.get(at) {
            Some(refuter) => *refuter,
            None => None,
        }
    }

    /// Whether the reply is one of those that refuted the attacker's last move.
    pub(crate) fn is_refuter(&self, reply: &Move) -> bool {
        self.refuters.iter().any(|kept| *kept == Some(*reply))
    }

    /// Keeps a reply that refutes the attacker's last move, as the newest.
    pub(crate) fn keep_refuter(&mut self, reply: Move)
        ensures { self.new ≡ self.old }
    {
        bring_to_front(&mut self.refuters, reply);
    }

    /// The legal reply that met a check last which was given by a move to the square. It may be of another position.
    pub(crate) fn meeter(&self, to: Square) -> Option<Move> {
        match self.meeters.get(usize::from(to.0)) {
            Some(meeter) => *meeter,
            None => None,
        }
    }

    /// The one before it.
    pub(crate) fn elder_meeter(&self, to: Square) -> Option<Move> {
        match self.elder_meeters.get(usize::from(to.0)) {
            Some(meeter) => *meeter,
            None => None,
        }
    }

    /// Makes the one before the last the last.
    pub(crate) fn bring_meeter(&mut self, to: Square)
        ensures { self.new ≡ self.old }
    {
        if let Some(reply) = self.elder_meeter(to) {
            self.keep_meeter(to, reply);
        }
    }

    /// Keeps a legal reply to a check by a move to the square.
    pub(crate) fn keep_meeter(&mut self, to: Square, reply: Move)
        ensures { self.new ≡ self.old }
    {
        let last = self.meeter(to);
        if let Some(elder) = self.elder_meeters.get_mut(usize::from(to.0)) {
            *elder = last;
        }
        if let Some(meeter) = self.meeters.get_mut(usize::from(to.0)) {
            *meeter = Some(reply);
        }
    }

    /// How often a reply by which a piece of the kind came to the square refuted, where the attacker had this many
    /// moves left: roughly, since counters are halved and shared.
    pub(crate) fn refuted(&self, moves: u16, kind: Kind, to: Square) -> u8 {
        if self.counters.is_empty() {
            return 0;
        }
        let at = counter_of(moves, kind, to) % self.counters.len();
        match self.counters.get(at) {
            Some(count) => *count,
            None => 0,
        }
    }

    /// Counts a reply that refuted.
    pub(crate) fn count_refuter(&mut self, moves: u16, kind: Kind, to: Square)
        ensures { self.new ≡ self.old }
    {
        if self.counters.is_empty() {
            return;
        }
        let at = counter_of(moves, kind, to) % self.counters.len();
        count_at(&mut self.counters, at);
    }
}
