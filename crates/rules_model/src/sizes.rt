//! The lengths of the lists that a position and rules hold. Their types fix them; reading an element makes them known
//! to a proof.
ghost use Rattle.std.specs.Prelude.{◌≡◌, ◌<◌, length, true};
ghost use Rattle.rules_model.specs.Repeats.{repeat_of};
ghost use Rattle.rules_model.specs.Sizes.{HasSizes, has_sizes};

use crate::board::{Cells, KINDS, Position, Region};

fn prove_hand_size(hand: &[u8; KINDS])
    ensures { length hand.now ≡ 26 }
{
    let _first = hand[0];
}

fn prove_rights_size(rights: &[bool; 2])
    ensures { length rights.now ≡ 2 }
{
    let _first = rights[0];
}

/// A position has 120 squares, and a part of each list for each side.
pub fn prove_position_sizes(p: &Position)
    ensures { HasSizes (repeat_of p.now) }
{
    let _cell = p.cells[0];
    let _white = p.gates[0];
    let _black = p.gates[1];
    let _checks = p.checks[0];
    prove_hand_size(&p.hands[0]);
    prove_hand_size(&p.hands[1]);
    prove_rights_size(&p.rights[0]);
    prove_rights_size(&p.rights[1]);
}

/// A board has 120 squares.
pub fn prove_board_size(cells: &Cells)
    ensures { length cells.now ≡ 120 }
{
    let _first = cells[0];
}

/// A region has a place for each of the 120 squares.
pub fn prove_region_size(region: &Region)
    ensures { length region.now.squares ≡ 120 }
{
    let _first = region.squares[0];
}
