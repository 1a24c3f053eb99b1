//! Castling rights and gates.
ghost use Rattle.std.specs.Prelude.{◌≡◌, ◌<◌, ◌&&◌};
ghost use Rattle.std.specs.List.{list_all};
ghost use Rattle.fen_model.specs.Held as Said;
ghost use Rattle.rules_model.specs.Fit.{IsFit};

use crate::may_hold::may_hold;
use crate::pocket::says_none;
use fen_model::{FenFault, Held};
use rules_model::castling::rook_file;
use rules_model::{Cells, Rules, Side, Wing};

/// The letters of rights and gates, in the order in which they are printed.
pub(crate) const HELD_LETTERS: &[u8] = b"KQABCDEFGHIJkqabcdefghij";

const GATE_FILES: u8 = 10;

const NOTHING_HELD: Held = Held {
    rights: [[false; 2]; 2],
    gates: [0; 2],
};

#[tactic(auto, unfolding(fen_model::specs::Held::has))]
fn has(letter: u8, text: &[u8]) -> bool
    ensures { result ≡ Said.has letter text.now }
{
    text.iter().any(|byte| *byte == letter)
}

fn stands_once(text: &[u8], letter: u8) -> bool
    ensures { result ≡ Said.stands_once text.now letter }
{
    text.iter().filter(|byte| **byte == letter).count() == 1
}

/// Whether the byte is a letter of a right or a gate that stands in the text once.
fn is_letter_once(text: &[u8], letter: u8) -> bool
    ensures { result ≡ (Said.has letter Said.held_letters && Said.stands_once text.now letter) }
{
    has(letter, HELD_LETTERS) && stands_once(text, letter)
}

fn has_letters_alone(text: &[u8]) -> bool
    ensures { result ≡ list_all (λ b. Said.has b Said.held_letters && Said.stands_once text.now b) text.now }
{
    text.iter().all(|byte| is_letter_once(text, *byte))
}

/// Whether the text is one letter or more of rights and gates, each once.
#[tactic(auto, unfolding(fen_model::specs::Held::are_letters))]
fn are_letters(text: &[u8]) -> bool
    ensures { result ≡ Said.are_letters text.now }
{
    !text.is_empty() && has_letters_alone(text)
}

fn right_letter(side: Side, wing: Wing) -> u8
    ensures { result ≡ Said.right_letter side wing }
{
    match (side, wing) {
        (Side::White, Wing::Kingside) => b'K',
        (Side::White, Wing::Queenside) => b'Q',
        (Side::Black, Wing::Kingside) => b'k',
        (Side::Black, Wing::Queenside) => b'q',
    }
}

fn gate_letter(side: Side, file: u8) -> u8
    requires { file < 12 }
    ensures { result ≡ Said.gate_letter side file }
{
    match side {
        Side::White => b'A' + file,
        Side::Black => b'a' + file,
    }
}

/// Whether the right gives the gate of the file: that of the king or that of its rook.
pub(crate) fn right_gives(rules: &Rules, cells: &Cells, side: Side, wing: Wing, file: u8) -> bool
    requires { IsFit rules.now }
    ensures { result ≡ Said.right_gives rules.now cells.now side wing file }
{
    file == rules.castle_king
        || match rook_file(rules, cells, side, wing) {
            None => false,
            Some(rook) => rook == file,
        }
}

fn right_says(rules: &Rules, cells: &Cells, text: &[u8], side: Side, file: u8, wing: Wing) -> bool
    requires { IsFit rules.now }
    ensures { result ≡ Said.right_says rules.now cells.now text.now side file wing }
{
    has(right_letter(side, wing), text) && right_gives(rules, cells, side, wing, file)
}

#[tactic(auto, unfolding(fen_model::specs::Held::gate_said))]
fn gate_said(rules: &Rules, cells: &Cells, text: &[u8], side: Side, file: u8) -> bool
    requires fit { IsFit rules.now }
    requires file { file < 10 }
    ensures { result ≡ Said.gate_said rules.now cells.now text.now side file }
{
    has(gate_letter(side, file), text)
        || (rules.gating
            && (right_says(rules, cells, text, side, file, Wing::Kingside)
                || right_says(rules, cells, text, side, file, Wing::Queenside)))
}

/// The gates that the letters say, as bits of their files.
#[tactic(auto, using(crate::proofs::HeldLemmas::gates))]
fn gates_said(rules: &Rules, cells: &Cells, text: &[u8], side: Side) -> u16
    requires { IsFit rules.now }
    ensures { result ≡ Said.bits_of (Said.gate_said rules.now cells.now text.now side) 10 }
{
    let mut gates = 0;
    for file in 0..GATE_FILES {
        if gate_said(rules, cells, text, side, file) {
            gates += 1 << file;
        }
    }
    gates
}

fn rights_said(text: &[u8], side: Side) -> [bool; 2]
    ensures { result ≡ Said.rights_said text.now side }
{
    [
        has(right_letter(side, Wing::Kingside), text),
        has(right_letter(side, Wing::Queenside), text),
    ]
}

fn held_said(rules: &Rules, cells: &Cells, text: &[u8]) -> Held
    requires { IsFit rules.now }
    ensures { result ≡ Said.held_said rules.now cells.now text.now }
{
    Held {
        rights: [
            rights_said(text, Side::White),
            rights_said(text, Side::Black),
        ],
        gates: [
            gates_said(rules, cells, text, Side::White),
            gates_said(rules, cells, text, Side::Black),
        ],
    }
}

/// Reads the rights and gates of a field: `-` for none.
#[tactic(auto, unfolding(fen_model::specs::Held::held_of))]
pub(crate) fn read_held(rules: &Rules, cells: &Cells, text: &[u8]) -> Result<Held, FenFault>
    requires { IsFit rules.now }
    ensures { result ≡ Said.held_of rules.now cells.now text.now }
{
    if says_none(text) {
        return Ok(NOTHING_HELD);
    }
    if !are_letters(text) {
        return Err(FenFault::Rights);
    }
    let held = held_said(rules, cells, text);
    if may_hold(rules, cells, &held) {
        Ok(held)
    } else {
        Err(FenFault::Rights)
    }
}
