//! The words of 64 bits that a key is the sum of, each computed from a small number: no table has to be passed around.
ghost use Rattle.std.specs.Prelude.{◌≡◌, ◌<◌};
ghost use Rattle.position_key.specs.Words as Words;

use rules_model::castling::holds_right;
use rules_model::{Cell, Side, Square, Wing};

// The two factors of MurmurHash3's finalizer.
const FIRST_FACTOR: u64 = 0xFF51_AFD7_ED55_8CCD;

const SECOND_FACTOR: u64 = 0xC4CE_B9FE_1A85_EC53;

// The numbers of hands are above those of pieces.
const HANDS: u64 = 0x4_0000;

/// Brings the high bits of a product down to the low ones.
pub(crate) fn folded(x: u64) -> u64
    ensures { result ≡ Words.folded x }
{
    x ^ (x >> 33)
}

/// The word of a number.
#[tactic(auto, unfolding(crate::specs::Words::word))]
pub(crate) fn word(number: u64) -> u64
    ensures { result ≡ Words.word number }
{
    folded(number.wrapping_mul(FIRST_FACTOR)).wrapping_mul(SECOND_FACTOR)
}

/// The word of what stands on the square, 0 where nothing does.
pub(crate) fn cell_word(at: Square, cell: Option<Cell>) -> u64
    ensures { result ≡ Words.cell_word at.0 cell }
{
    match cell {
        None => 0,
        Some(cell) => {
            let piece = u64::from(cell.kind.0) * 2 + cell.side.index() as u64;
            word(piece * 0x100 + u64::from(at.0) + 1)
        }
    }
}

/// The words of as many pieces of the kind in the side's hand.
pub(crate) fn hand_word(side: Side, kind: u8, count: u8) -> u64
    ensures { result ≡ Words.hand_word side kind count }
{
    let number = HANDS + u64::from(kind) * 2 + side.index() as u64;
    u64::from(count).wrapping_mul(word(number))
}

fn square_number(square: Option<Square>) -> u64
    ensures is { result ≡ Words.square_number square }
    ensures below { result < 257 }
{
    match square {
        None => 0,
        Some(square) => u64::from(square.0) + 1,
    }
}

fn rights_number(rights: &[[bool; 2]; 2]) -> u64
    ensures is { result ≡ Words.rights_number rights.now }
    ensures below { result < 16 }
{
    u64::from(holds_right(rights, Side::White, Wing::Kingside))
        + 2 * u64::from(holds_right(rights, Side::White, Wing::Queenside))
        + 4 * u64::from(holds_right(rights, Side::Black, Wing::Kingside))
        + 8 * u64::from(holds_right(rights, Side::Black, Wing::Queenside))
}

/// A number for each choice of what a repetition compares besides board and hands.
#[tactic(auto, unfolding(crate::specs::Words::rest_number))]
pub(crate) fn rest_number(
    gates: &[u16; 2],
    rights: &[[bool; 2]; 2],
    checks: &[u8; 2],
    ep: Option<Square>,
    side: Side,
) -> u64
    ensures { result ≡ Words.rest_number gates.now rights.now checks.now ep side }
{
    side.index() as u64
        + 2 * rights_number(rights)
        + 0x20 * u64::from(checks[0])
        + 0x2000 * u64::from(checks[1])
        + 0x20_0000 * u64::from(gates[0])
        + 0x20_0000_0000 * u64::from(gates[1])
        + 0x20_0000_0000_0000 * square_number(ep)
}
