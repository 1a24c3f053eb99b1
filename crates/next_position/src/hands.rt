//! The hands after a move.
ghost use Rattle.std.specs.Prelude.{◌≡◌, ◌<◌, slice_set};
ghost use Rattle.rules_model.specs.declared.board.Kind.{Kind};
ghost use Rattle.rules_model.specs.Hands as Hands;
ghost use Rattle.rules_model.specs.Next as Next;
ghost use Rattle.next_position.specs.Parts as Parts;

use rules_model::kinds::in_hand;
use rules_model::{Cell, Kind, Move, Placed, Rules, Side};

fn set_count(hand: &mut [u8; 26], kind: Kind, count: u8)
    ensures { hand.new ≡ slice_set hand.old kind.0 count }
{
    if kind.0 < 26 {
        hand[kind.0 as usize] = count;
    }
}

fn set_hand(hands: &mut [[u8; 26]; 2], side: Side, kind: Kind, count: u8)
    ensures { hands.new ≡ Hands.with_hand hands.old side kind count }
{
    set_count(&mut hands[side.index()], kind, count);
}

fn take_in(hands: &mut [[u8; 26]; 2], side: Side, kind: Kind)
    requires { Hands.in_hand hands.old side kind < 255 }
    ensures { hands.new ≡ Hands.taken_in hands.old side kind }
{
    let held = in_hand(hands, side, kind);
    set_hand(hands, side, kind, held + 1);
}

fn put_down(hands: &mut [[u8; 26]; 2], side: Side, kind: Kind)
    ensures { hands.new ≡ Hands.put_down hands.old side kind }
{
    let held = in_hand(hands, side, kind);
    set_hand(hands, side, kind, held.saturating_sub(1));
}

fn put_at_gate(hands: &mut [[u8; 26]; 2], side: Side, gate: Option<Kind>)
    ensures { hands.new ≡ Hands.put_at_gate hands.old side gate }
{
    if let Some(kind) = gate {
        put_down(hands, side, kind);
    }
}

/// The kind that a taken piece has in a hand.
pub fn hand_kind(piece: Cell) -> Kind
    ensures { result ≡ Next.hand_kind piece }
{
    piece.origin.unwrap_or(piece.kind)
}

/// Takes the piece into the hand, where the variant does so.
fn take_piece(rules: &Rules, hands: &mut [[u8; 26]; 2], side: Side, taken: Option<Cell>)
    requires { (kind : Kind) → Hands.in_hand hands.old side kind < 255 }
    ensures { hands.new ≡ Next.take_into rules.now.to_hand hands.old side taken }
{
    if let Some(piece) = taken {
        if rules.to_hand {
            take_in(hands, side, hand_kind(piece));
        }
    }
}

fn placed_kind(gate: Option<Placed>) -> Option<Kind>
    ensures { result ≡ Next.placed_kind gate }
{
    match gate {
        None => None,
        Some(placed) => Some(placed.kind),
    }
}

/// Puts the taken piece into the hand of the side that moves, and takes out what it drops or gates.
pub(crate) fn change(
    rules: &Rules,
    side: Side,
    taken: Option<Cell>,
    m: &Move,
    hands: &mut [[u8; 26]; 2],
)
    requires { (kind : Kind) → Hands.in_hand hands.old side kind < 255 }
    ensures { hands.new ≡ Parts.hands_by rules.now side taken m.now hands.old }
{
    match *m {
        Move::Go { gate, .. } => {
            take_piece(rules, hands, side, taken);
            put_at_gate(hands, side, gate);
        }
        Move::Castle { gate, .. } => put_at_gate(hands, side, placed_kind(gate)),
        Move::Drop { kind, .. } => put_down(hands, side, kind),
    }
}
