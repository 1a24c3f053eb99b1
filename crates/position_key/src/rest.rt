//! What a repetition compares besides the board.
ghost use Rattle.std.specs.Prelude.{◌≡◌};
ghost use Rattle.rules_model.specs.Repeats.{repeat_of};
ghost use Rattle.position_key.specs.Packed as Packed;

use rules_model::{Position, Repeat, Side, Square};

/// A repeat without its board.
#[derive(Clone, Copy)]
pub struct Rest {
    pub hands: [[u8; 26]; 2],
    pub gates: [u16; 2],
    pub rights: [[bool; 2]; 2],
    pub checks: [u8; 2],
    pub ep: Option<Square>,
    pub side: Side,
}

/// What a repetition compares besides the board, of a repeat.
pub fn rest_of(r: &Repeat) -> Rest
    ensures { result ≡ Packed.rest_of r.now }
{
    Rest {
        hands: r.hands,
        gates: r.gates,
        rights: r.rights,
        checks: r.checks,
        ep: r.ep,
        side: r.side,
    }
}

/// The same of the repeat of a position.
pub fn rest_of_position(p: &Position) -> Rest
    ensures { result ≡ Packed.rest_of (repeat_of p.now) }
{
    Rest {
        hands: p.hands,
        gates: p.gates,
        rights: p.rights,
        checks: p.checks,
        ep: p.ep,
        side: p.side,
    }
}
