//! The text of a move.
ghost use Rattle.std.specs.Prelude.{◌≡◌, ◌≤◌, ◌+◌, ◌++◌, length};
ghost use Rattle.rules_model.specs.MoveText as Text;

use arrayvec::ArrayVec;
use rules_model::{Kind, Move, Placed, Promo, Square};
use std::marker::Model;

/// The bytes of a move's text: at most 8.
#[derive(Drop)]
pub struct MoveText {
    pub items: ArrayVec<u8, 8>,
}

impl Model for MoveText {
    ghost use Rattle.std.specs.Prelude.{List, ℕ};

    ghost Value = { List ℕ };

    ghost view = { λ t. t.items.items };
}

/// The small letter of a kind.
pub fn lower(kind: Kind) -> u8
    ensures { result ≡ Text.lower kind }
{
    b'a' + kind.0 % 26
}

/// The capital letter of a kind.
pub fn upper(kind: Kind) -> u8
    ensures { result ≡ Text.upper kind }
{
    b'A' + kind.0 % 26
}

fn push_square(text: &mut MoveText, square: Square)
    requires { length text.old ≤ 5 }
    ensures is { text.new ≡ text.old ++ Text.square_text square }
    ensures len { length text.new ≤ length text.old + 3 }
{
    text.items.push(b'a' + square.0 % 12);
    let rank = square.0 / 12 + 1;
    if rank < 10 {
        text.items.push(b'0' + rank);
    } else {
        text.items.push(b'0' + rank / 10);
        text.items.push(b'0' + rank % 10);
    }
}

/// The text of a square: the letter of its file and the number of its rank.
pub fn square_text(square: Square) -> MoveText
    ensures { result ≡ Text.square_text square }
{
    let mut text = MoveText {
        items: ArrayVec::new(),
    };
    push_square(&mut text, square);
    text
}

fn push_promo(text: &mut MoveText, promo: Promo)
    requires { length text.old ≤ 7 }
    ensures is { text.new ≡ text.old ++ Text.promo_text promo }
    ensures len { length text.new ≤ length text.old + 1 }
{
    match promo {
        Promo::Stays => {}
        Promo::Pawn(kind) => text.items.push(lower(kind)),
        Promo::Plus => text.items.push(b'+'),
    }
}

fn push_gate(text: &mut MoveText, gate: Option<Kind>)
    requires { length text.old ≤ 7 }
    ensures { text.new ≡ text.old ++ Text.gate_text gate }
{
    match gate {
        None => {}
        Some(kind) => text.items.push(lower(kind)),
    }
}

fn push_castle(text: &mut MoveText, from: Square, to: Square, rook: Square, gate: Option<Placed>)
    requires { length text.old ≤ 0 }
    ensures { text.new ≡ text.old ++ Text.castle_text from to rook gate }
{
    match gate {
        None => {
            push_square(text, from);
            push_square(text, to);
        }
        Some(placed) => {
            if placed.at.0 == rook.0 {
                push_square(text, rook);
                push_square(text, from);
            } else {
                push_square(text, from);
                push_square(text, to);
            }
            text.items.push(lower(placed.kind));
        }
    }
}

/// The text of the move: the start and the target, what a piece becomes, and the kind that is gated. A castle is the
/// king's move, or with a gate on the rook's square the rook's square and the king's; a drop is the kind in upper case,
/// `@` and the target. Every value of `Move` has a text, also one that no variant allows.
#[tactic(auto, unfolding(rules_model::specs::MoveText::text_of))]
pub fn write_move(m: &Move) -> MoveText
    ensures { result ≡ Text.text_of m.now }
{
    let mut text = MoveText {
        items: ArrayVec::new(),
    };
    match *m {
        Move::Go {
            from,
            to,
            promo,
            gate,
        } => {
            push_square(&mut text, from);
            push_square(&mut text, to);
            push_promo(&mut text, promo);
            push_gate(&mut text, gate);
        }
        Move::Castle {
            from,
            to,
            rook,
            gate,
        } => push_castle(&mut text, from, to, rook, gate),
        Move::Drop { kind, to } => {
            text.items.push(upper(kind));
            text.items.push(b'@');
            push_square(&mut text, to);
        }
    }
    text
}
