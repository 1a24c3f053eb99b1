//! The terms of a Betza word: what each of its parts lets White's piece do.
#![tactic(auto)]

ghost use Rattle.std.specs.Prelude.{◌≡◌, ◌+◌, ◌≤◌, ◌++◌, map, length};
ghost use Rattle.arrayvec.specs.ArrayVec.{array_vec_len};
ghost use Rattle.betza_text.specs.Steps.{steps_of, step_count};
ghost use Rattle.betza_compile.specs.Terms.{terms_of_part, terms, term_of, limit_of, way_of};

use arrayvec::ArrayVec;
use betza_text::{Betza, HopKind, Part, Step, part_steps};
use rules_model::{Term, Terms, Way};

/// The most steps that a piece goes on any board.
const FARTHEST: u8 = 11;

#[tactic(auto, unfolding(crate::specs::Terms::limit_of))]
fn limit(part: &Part) -> u8
    ensures { result ≡ limit_of part.now }
{
    match part.number {
        Some(0) => FARTHEST,
        Some(number) => number,
        None if part.is_far() => FARTHEST,
        None => 1,
    }
}

#[tactic(auto, unfolding(crate::specs::Terms::way_of))]
fn way(part: &Part) -> Way
    ensures { result ≡ way_of part.now }
{
    if part.lame {
        return Way::Lame;
    }
    match part.hop {
        HopKind::Over => Way::Hop,
        HopKind::Behind => Way::Grass,
        HopKind::No if part.is_far() => Way::Slide,
        HopKind::No => Way::Leap,
    }
}

/// What one step of a part lets the piece do.
fn term(part: &Part, step: Step) -> Term
    ensures { result ≡ term_of part.now step }
{
    Term {
        dx: step.dx,
        dy: step.dy,
        way: way(part),
        limit: limit(part),
        quiet: part.quiet,
        takes: part.takes,
    }
}

/// Appends the terms of a part.
fn push_terms(part: &Part, out: &mut ArrayVec<Term, 64>)
    requires { array_vec_len out.old + length (steps_of part.now) ≤ 64 }
    ensures { out.new.items ≡ out.old.items ++ terms_of_part part.now }
{
    let steps = part_steps(part);
    for step in steps.items.iter() {
        out.push(term(part, *step));
    }
}

/// The terms of a word for White: those of its parts in order, and of a part in the order of rank and then file;
/// a king's and a queen's part has its steps along ranks and files first.
pub fn compile(b: &Betza) -> Terms
    requires { step_count b.now ≤ 64 }
    ensures { result ≡ terms b.now }
{
    let mut items = ArrayVec::new();
    for part in b.items.iter() {
        push_terms(part, &mut items);
    }
    Terms { items }
}
