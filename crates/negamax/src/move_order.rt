//! In which order moves are searched. No contract says anything of it, and no result depends on it.
use evaluation::{PieceValues, evaluate};
use foundation::Memory;
use hint_table::{HintTable, NO_SLOT, SLOTS, Slot, slot_of};
use playing::Board;
use rules_model::{Move, Position, Promo, SQUARES, Square, cell_at};
use std::alloc::Global;

/// How many plies from the root killers are kept.
const PLIES: usize = 72;

/// What the groups of moves are scored from, each above all scores of the next one. Captures that lose a piece are
/// last.
const HINTED: u32 = 1 << 31;

const TAKING: u32 = 1 << 30;

const KILLING: u32 = 1 << 29;

const QUIET: u32 = 1 << 23;

/// The most that history counts of a move.
const MOST_HISTORY: u32 = 1 << 28;

/// What moves did before: the last two that cut at each ply, and how often each cut.
#[derive(Drop)]
pub(crate) struct MoveOrder {
    killers: [[Slot; 2]; PLIES],
    history: Vec<u32>,
}

impl MoveOrder {
    pub fn new(alloc: Global) -> Result<MoveOrder, Memory> {
        Ok(MoveOrder {
            killers: [[NO_SLOT; 2]; PLIES],
            history: vec![in alloc; 0; SLOTS]?,
        })
    }

    /// Remembers that the move of the position cut, at a number of plies from the root and with a number of plies left.
    /// A capture is not remembered: it is tried early anyway, and would push out the quiet moves.
    pub fn remember(&mut self, p: &Position, slot: Slot, ply: u8, depth: u8) {
        if slot == NO_SLOT || takes(p, slot) {
            return;
        }
        if let Some(killers) = self.killers.get_mut(ply as usize) {
            if killers[0] != slot {
                killers[1] = killers[0];
                killers[0] = slot;
            }
        }
        if let Some(count) = self.history.get_mut(slot as usize) {
            let more = u32::from(depth) * u32::from(depth);
            *count = count.saturating_add(more).min(MOST_HISTORY);
        }
    }

    /// The score of a move that does not capture.
    fn quiet_score(&self, slot: Slot, ply: u8) -> u32 {
        if slot == NO_SLOT {
            return QUIET;
        }
        if let Some(killers) = self.killers.get(ply as usize) {
            if killers[0] == slot {
                return KILLING + 1;
            }
            if killers[1] == slot {
                return KILLING;
            }
        }
        let cuts = self.history.get(slot as usize).copied().unwrap_or(0);
        QUIET.saturating_add(cuts)
    }

    /// The score of a move at a number of plies from the root, where a hint names a move.
    pub fn score(&self, values: &PieceValues, board: &Board, m: &Move, hint: Slot, ply: u8) -> u32 {
        let slot = slot_of(m);
        if slot != NO_SLOT && slot == hint {
            return HINTED;
        }
        match mvv_lva(values, board.position(), m) {
            Some(score) if loses_a_piece(values, board, m) => score,
            Some(score) => TAKING.saturating_add(score),
            None => self.quiet_score(slot, ply),
        }
    }
}

/// Whether the move of the slot goes to a square on which a piece is.
fn takes(p: &Position, slot: Slot) -> bool {
    cell_at(&p.cells, Square((slot & 127) as u8)).is_some()
}

/// How much more than its victim a piece has to be worth to be lost for it.
const LEAST_LOSS: u32 = 40;

/// Whether a piece takes one that is worth less, on a square that the other side attacks. A pawn that promotes is not
/// counted as lost: what it becomes is worth a try.
fn loses_a_piece(values: &PieceValues, board: &Board, m: &Move) -> bool {
    let Move::Go {
        from,
        to,
        promo,
        ..
    } = *m
    else {
        return false;
    };
    if promo != Promo::Stays {
        return false;
    }
    let p = board.position();
    let victim = worth_on(values, p, to);
    let own = worth_on(values, p, from);
    victim.saturating_add(LEAST_LOSS) < own && is_attacked(board, to)
}

/// Whether a piece of the other side attacks the square, on which no king of the side to move is.
fn is_attacked(board: &Board, at: Square) -> bool {
    if usize::from(at.0) >= SQUARES {
        return false;
    }
    let p = board.position();
    let sets = board.sets();
    let by = p.side.other();
    board
        .tables()
        .piece_attacks(&p.cells, sets.enemies, sets.occupied(), at, by)
}

/// What the piece on the square is worth by its kind: 0 where there is none, and for the king.
fn worth_on(values: &PieceValues, p: &Position, at: Square) -> u32 {
    cell_at(&p.cells, at).map_or(0, |cell| u32::from(values.kind(cell.kind)))
}

/// What the king counts as where it takes, and what a piece counts as at most.
const DEAREST: u32 = 2047;

/// How many scores there are for one victim: more than `DEAREST / 16`.
const OF_ONE_VICTIM: u32 = 128;

/// The most valuable victim first, and the least valuable piece that takes it; the king last.
pub(crate) fn mvv_lva(values: &PieceValues, p: &Position, m: &Move) -> Option<u32> {
    let Move::Go {
        from,
        to,
        promo,
        ..
    } = *m
    else {
        return None;
    };
    let raised = if promo == Promo::Stays { 0 } else { 1 << 10 };
    if raised == 0 && cell_at(&p.cells, to).is_none() {
        return None;
    }
    let own = match worth_on(values, p, from) {
        0 => DEAREST,
        own => own.min(DEAREST),
    };
    let victim = worth_on(values, p, to).min(1 << 13);
    Some((victim + raised) * OF_ONE_VICTIM + (DEAREST - own) / 16)
}

/// The slot of the move, where it scored above the floor: the other side answers it by this. Else the slot so far.
pub(crate) fn better(slot: Slot, m: &Move, floor: i32, answered: i32) -> Slot {
    if floor < answered.saturating_neg() {
        slot_of(m)
    } else {
        slot
    }
}

/// What the position seems worth to the side to move: by a hint for it, or at a glance.
fn guessed_value(board: &Board, hints: &HintTable) -> i32 {
    match hints.get(board.key()) {
        Some(hint) => i32::from(hint.bound),
        None => {
            board.prove_ready();
            evaluate(board.rules(), board.position())
        }
    }
}

/// The rank of a move at the root, where those of the least rank are to be searched first: the move that a hint for the
/// position names, and then those that seem to leave the other side least.
pub fn root_rank(board: &Board, hints: &HintTable, m: &Move) -> i32 {
    let named = hints.get(board.key()).map_or(NO_SLOT, |hint| hint.slot);
    if named != NO_SLOT && named == slot_of(m) {
        return i32::MIN;
    }
    if !board.is_legal(m) {
        return i32::MAX;
    }
    guessed_value(&board.after(m), hints)
}
