//! Writing the fields beside the placement.
ghost use Rattle.std.specs.Prelude.{◌≡◌, ◌<◌, ◌+◌, ◌-◌, ◌++◌, ◌∷◌, [], replicate, OnOk};
ghost use Rattle.rules_model.specs.Fit.{IsFit};
ghost use Rattle.rules_model.specs.MoveText.{square_text};
ghost use Rattle.rules_model.specs.Repeats.{repeat_of};
ghost use Rattle.fen_model.specs.Printing as Printing;
ghost use Rattle.variant_fen.specs.Blanks.{blanked};

use crate::held::{HELD_LETTERS, right_gives};
use crate::pocket::has_hands;
use crate::write::{kind_letter, push_number};
use move_text::square_text;
use rules_model::castling::{has_gate, holds_right};
use rules_model::kinds::in_hand;
use rules_model::{Kind, Memory, Position, Rules, Side, Square, Wing};

// ---- the pocket

/// Appends a letter some times.
fn push_letters(text: &mut Vec<u8>, letter: u8, count: u8) -> Result<(), Memory>
    ensures { OnOk result (text.new.items ≡ text.old.items ++ replicate count letter) }
{
    for _pushed in 0..count {
        text.push(letter)?;
    }
    Ok(())
}

/// Appends the letters of a hand in alphabetical order.
#[tactic(auto, using(crate::proofs::PushLemmas::hands))]
fn push_hand(text: &mut Vec<u8>, hands: &[[u8; 26]; 2], side: Side) -> Result<(), Memory>
    ensures { OnOk result (text.new.items ≡ text.old.items ++ Printing.hand_text hands.now side) }
{
    for kind in 0..26 {
        let kind = Kind(kind);
        push_letters(text, kind_letter(side, kind), in_hand(hands, side, kind))?;
    }
    Ok(())
}

/// Appends the pocket, in a variant with hands: White's letters and then Black's.
#[tactic(auto, unfolding(fen_model::specs::Printing::pocket_text))]
fn push_pocket(rules: &Rules, text: &mut Vec<u8>, hands: &[[u8; 26]; 2]) -> Result<(), Memory>
    ensures { OnOk result (text.new.items ≡ text.old.items ++ Printing.pocket_text rules.now hands.now) }
{
    if !has_hands(rules) {
        return Ok(());
    }
    text.push(b'[')?;
    push_hand(text, hands, Side::White)?;
    push_hand(text, hands, Side::Black)?;
    text.push(b']')?;
    Ok(())
}

// ---- rights and gates

fn right_implies(rules: &Rules, p: &Position, side: Side, file: u8, wing: Wing) -> bool
    requires { IsFit rules.now }
    ensures { result ≡ Printing.right_implies rules.now (repeat_of p.now) side file wing }
{
    holds_right(&p.rights, side, wing) && right_gives(rules, &p.cells, side, wing, file)
}

/// Whether the gate is printed: the side holds it, and no right that it holds gives it.
fn prints_gate(rules: &Rules, p: &Position, side: Side, file: u8) -> bool
    requires fit { IsFit rules.now }
    requires file { file < 16 }
    ensures { result ≡ Printing.prints_gate rules.now (repeat_of p.now) side file }
{
    has_gate(&p.gates, side, file)
        && !(right_implies(rules, p, side, file, Wing::Kingside)
            || right_implies(rules, p, side, file, Wing::Queenside))
}

/// Whether the letter of a right or of a gate is printed.
#[tactic(auto, unfolding(fen_model::specs::Printing::is_printed))]
fn is_printed(rules: &Rules, p: &Position, letter: u8) -> bool
    requires { IsFit rules.now }
    ensures { result ≡ Printing.is_printed rules.now (repeat_of p.now) letter }
{
    match letter {
        b'K' => holds_right(&p.rights, Side::White, Wing::Kingside),
        b'Q' => holds_right(&p.rights, Side::White, Wing::Queenside),
        b'k' => holds_right(&p.rights, Side::Black, Wing::Kingside),
        b'q' => holds_right(&p.rights, Side::Black, Wing::Queenside),
        b'A'..=b'J' => prints_gate(rules, p, Side::White, letter - b'A'),
        b'a'..=b'j' => prints_gate(rules, p, Side::Black, letter - b'a'),
        _ => false,
    }
}

/// Appends White's rights and gates, and then Black's, or `-`.
fn push_held(rules: &Rules, text: &mut Vec<u8>, p: &Position) -> Result<(), Memory>
    requires { IsFit rules.now }
    ensures { OnOk result (text.new.items ≡ text.old.items ++ Printing.rights_text rules.now (repeat_of p.now)) }
{
    let start = text.len();
    for letter in HELD_LETTERS {
        if is_printed(rules, p, *letter) {
            text.push(*letter)?;
        }
    }
    if text.len() == start {
        text.push(b'-')?;
    }
    Ok(())
}

// ---- the other fields

/// Appends a square: the letter of its file and the number of its rank.
fn push_square(text: &mut Vec<u8>, square: Square) -> Result<(), Memory>
    ensures { OnOk result (text.new.items ≡ text.old.items ++ square_text square) }
{
    text.extend_from_slice(square_text(square).items.as_slice())?;
    Ok(())
}

fn push_ep(text: &mut Vec<u8>, ep: Option<Square>) -> Result<(), Memory>
    ensures { OnOk result (text.new.items ≡ text.old.items ++ Printing.ep_text ep) }
{
    match ep {
        None => text.push(b'-')?,
        Some(square) => push_square(text, square)?,
    }
    Ok(())
}

fn side_letter(side: Side) -> u8
    ensures { Printing.side_text side ≡ result ∷ [] }
{
    match side {
        Side::White => b'w',
        Side::Black => b'b',
    }
}

/// Appends the side to move, the rights and the en passant square, each after a blank.
fn push_state(rules: &Rules, text: &mut Vec<u8>, p: &Position) -> Result<(), Memory>
    requires { IsFit rules.now }
    ensures { OnOk result (text.new.items ≡ text.old.items ++ blanked (Printing.state_texts rules.now p.now)) }
{
    text.push(b' ')?;
    text.push(side_letter(p.side))?;
    text.push(b' ')?;
    push_held(rules, text, p)?;
    text.push(b' ')?;
    push_ep(text, p.ep)
}

/// Appends the checks left after a blank, in a variant that counts them.
fn push_checks(rules: &Rules, text: &mut Vec<u8>, checks: [u8; 2]) -> Result<(), Memory>
    ensures { OnOk result (text.new.items ≡ text.old.items ++ blanked (Printing.checks_texts rules.now checks)) }
{
    if rules.check_counting {
        text.push(b' ')?;
        push_number(text, u16::from(checks[0]))?;
        text.push(b'+')?;
        push_number(text, u16::from(checks[1]))?;
    }
    Ok(())
}

/// Appends the checks left and the counts, each after a blank.
fn push_counts(rules: &Rules, text: &mut Vec<u8>, p: &Position) -> Result<(), Memory>
    ensures { OnOk result (text.new.items ≡ text.old.items ++ blanked (Printing.count_texts rules.now p.now)) }
{
    push_checks(rules, text, p.checks)?;
    text.push(b' ')?;
    push_number(text, p.counter)?;
    text.push(b' ')?;
    push_number(text, p.number)
}

/// Appends what follows the board: the pocket and the other fields.
pub(crate) fn push_fields(rules: &Rules, text: &mut Vec<u8>, p: &Position) -> Result<(), Memory>
    requires { IsFit rules.now }
    ensures { OnOk result (text.new.items
        ≡ text.old.items ++ Printing.pocket_text rules.now p.now.hands
        ++ blanked (Printing.state_texts rules.now p.now ++ Printing.count_texts rules.now p.now)) }
{
    push_pocket(rules, text, &p.hands)?;
    push_state(rules, text, p)?;
    push_counts(rules, text, p)
}
