//! Reads Betza words, the notation in which variants say how a piece moves.
//!
//! The notation is Ralph Betza's ("funny notation" for fairy pieces, 1992 and later).
#![tactic(auto)]

ghost use Rattle.std.specs.Prelude.{◌≡◌, ◌≢◌, Ok, Err, ◌⊎◌, ◌≤◌, List, ℕ, IfOk, IfErr};
ghost use Rattle.betza_text.specs.Steps.{step_count};
ghost use Rattle.betza_text.specs.Word.{Spells, BetzaBad};

mod fault;
mod judge;
mod legs;
mod letters;
mod part;
mod read;
mod split_part;
mod steps;

pub use fault::BetzaFault;
use judge::first_fault;
pub use legs::steps_go_by_legs;
pub use part::{Betza, Dirs, HopKind, Part};
use read::read;
use split_part::SplitPart;
use std::alloc::Global;
pub use steps::{Step, Steps, part_steps};

/// The most bytes of a word.
const MOST_BYTES: usize = 64;

/// Every text spells a word or has a fault, and not both; there is one such word or fault.
pub fn one_answer()
    ensures some { (text : List ℕ) → ((b : List Part) × Spells text b) ⊎ ((f : BetzaFault) × BetzaBad text f) }
    ensures not_both { (text : List ℕ) (b : List Part) (f : BetzaFault) → Spells text b → BetzaBad text f → ⊥ }
    ensures one_word { (text : List ℕ) (b c : List Part) → Spells text b → Spells text c → b ≡ c }
    ensures one_fault { (text : List ℕ) (f g : BetzaFault) → BetzaBad text f → BetzaBad text g → f ≡ g }
{}

/// Reads a Betza word of at most 64 bytes: one or more parts, each of modifiers in any order, an atom, perhaps the same
/// letter again, and perhaps a number.
///
/// The answer lists the word's parts in order, or is the first fault with its byte place, counted from 0.
pub fn parse(alloc: Global, text: &[u8]) -> Result<Betza, BetzaFault>
    ensures read { IfOk result (Spells text.now) }
    ensures few { IfOk result (λ b. step_count b ≤ 64) }
    ensures only_spelled { (b : List Part) → Spells text.now b → (result ≡ Ok b) ⊎ (result ≡ Err BetzaFault.Memory) }
    ensures fault { IfErr result (λ f. f ≢ BetzaFault.Memory → BetzaBad text.now f) }
    ensures only_bad { (f : BetzaFault) → BetzaBad text.now f → (result ≡ Err f) ⊎ (result ≡ Err BetzaFault.Memory) }
{
    if text.is_empty() {
        return Err(BetzaFault::Empty(0));
    }
    if text.len() > MOST_BYTES {
        return Err(BetzaFault::TooLong(MOST_BYTES));
    }
    let mut parts = Vec::new(alloc);
    let mut place = 0;
    let mut terms = 0;
    while place < text.len() {
        let rest = &text[place..];
        let cut = SplitPart::of(rest);
        let part = read(rest, cut);
        if let Some(fault) = first_fault(place, terms, rest, cut, &part) {
            return Err(fault);
        }
        place += cut.len();
        terms += part_steps(&part).items.len();
        parts.push(part)?;
    }
    Ok(Betza { items: parts })
}
