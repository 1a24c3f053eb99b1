//! Moves as hints have them.
use rules_model::{Move, Promo};

/// A plain move as 16 bits: its form, where it goes from, or the kind that is dropped, and where it goes to.
pub type Slot = u16;

/// The slot of all moves that have none of their own: castles, promotions, gates.
pub const NO_SLOT: Slot = 0;

/// Above every slot.
pub const SLOTS: usize = 3 << 14;

const GO: Slot = 1 << 14;

const DROP: Slot = 2 << 14;

/// The slot of a move.
pub fn slot_of(m: &Move) -> Slot {
    match *m {
        Move::Go {
            from,
            to,
            promo: Promo::Stays,
            gate: None,
        } => GO | u16::from(from.0 & 127) << 7 | u16::from(to.0 & 127),
        Move::Drop { kind, to } => DROP | u16::from(kind.0 & 127) << 7 | u16::from(to.0 & 127),
        _ => NO_SLOT,
    }
}
