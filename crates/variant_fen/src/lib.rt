//! Reads and writes FEN of variants, positions as texts.
#![tactic(auto)]

ghost use Rattle.std.specs.Prelude.{◌≡◌, true, IfOk};
ghost use Rattle.rules_model.specs.Fit.{IsFit};
ghost use Rattle.rules_model.specs.Sound.{is_sound};
ghost use Rattle.fen_model.specs.Printing.{fen_text};
ghost use Rattle.fen_model.specs.Reading.{Fen, fen_of};

mod board;
mod counts;
mod cut;
mod fields;
mod held;
mod judge;
mod may_hold;
mod number;
mod passed;
mod pieces;
mod pocket;
mod read;
mod write;
mod write_fields;

pub use fen_model::FenFault;
use fields::read_fields;
use read::read_position;
use rules_model::{Memory, Position, Rules, Text};
use std::alloc::Global;
use write::push_board;
use write_fields::push_fields;

/// Reads FEN.
///
/// The answer is the position that the text says, which is sound, or the text's first fault.
pub fn read_fen(rules: &Rules, text: &[u8]) -> Result<Position, FenFault>
    requires { IsFit rules.now }
    ensures answer { result ≡ fen_of rules.now text.now }
    ensures sound { IfOk result (λ p. is_sound rules.now p ≡ true) }
{
    read_position(rules, read_fields(rules, text)?)
}

/// Writes the one FEN of a sound position. Reading the text gives the position back.
///
/// `Memory` is the answer where there was none for the text.
pub fn write_fen(alloc: Global, rules: &Rules, p: &Position) -> Result<Text, Memory>
    requires fit { IsFit rules.now }
    requires sound { is_sound rules.now p.now ≡ true }
    ensures text { IfOk result (λ text. text ≡ fen_text rules.now p.now) }
    ensures back { IfOk result (λ text. Fen rules.now text p.now) }
{
    let mut text = Vec::new(alloc);
    push_board(rules, &mut text, &p.cells)?;
    push_fields(rules, &mut text, p)?;
    Ok(Text { items: text })
}
