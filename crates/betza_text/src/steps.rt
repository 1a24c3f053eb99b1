//! The steps of the atoms.
ghost use Rattle.std.specs.Prelude.{◌≡◌, ◌<◌, ◌/◌, length, filter};
ghost use Rattle.std.specs.List.{list_any, list_all};
ghost use Rattle.foundation.specs.Count.{any_below};
ghost use Rattle.betza_text.specs.Steps as Picks;
ghost use Rattle.betza_text.specs.Steps.{shape_of, all_steps, steps_of, IsShort};

use crate::part::{Dirs, Part};
use arrayvec::ArrayVec;
use std::marker::Model;

/// A step: files to the right and ranks forward, as White sees them.
#[derive(Clone, Copy, Default, PartialEq, Eq)]
pub struct Step {
    pub dx: i8,
    pub dy: i8,
}

impl Step {
    ghost use Rattle.std.specs.Prelude.{◌≡◌};
    ghost use Rattle.betza_text.specs.Steps.{step};

    const fn new(dx: i8, dy: i8) -> Step
        ensures { result ≡ step dx dy }
    {
        Step { dx, dy }
    }
}

/// The steps of a part, at most eight.
#[derive(Drop)]
pub struct Steps {
    pub items: ArrayVec<Step, 8>,
}

impl Model for Steps {
    ghost use Rattle.std.specs.Prelude.{List};
    ghost use Rattle.betza_text.specs.declared.steps.Step.{Step};

    ghost Value = { List Step };

    ghost view = { λ steps. steps.items.items };
}

/// What the steps of an atom have in common, up to turns and reflections.
#[derive(Clone, Copy, PartialEq, Eq)]
pub enum Shape {
    /// So many squares along a rank or a file.
    Orthogonal(i8),
    /// So many squares along a diagonal.
    Diagonal(i8),
    /// A long leg and a short one.
    Oblique(i8, i8),
    /// One square along a rank, a file or a diagonal.
    Royal,
    /// No atom.
    Nothing,
}

/// The shape of the steps of an atom, by its letter.
#[tactic(auto, unfolding(crate::specs::Steps::shape_of))]
fn atom_shape(atom: u8) -> Shape
    ensures is { result ≡ shape_of atom }
    ensures short { IsShort result }
{
    match atom {
        b'W' | b'R' => Shape::Orthogonal(1),
        b'D' => Shape::Orthogonal(2),
        b'H' => Shape::Orthogonal(3),
        b'F' | b'B' => Shape::Diagonal(1),
        b'A' => Shape::Diagonal(2),
        b'G' => Shape::Diagonal(3),
        b'N' => Shape::Oblique(2, 1),
        b'L' | b'C' => Shape::Oblique(3, 1),
        b'J' | b'Z' => Shape::Oblique(3, 2),
        b'K' | b'Q' => Shape::Royal,
        _ => Shape::Nothing,
    }
}

/// All steps of a shape, by rank and then by file.
fn shape_steps(shape: Shape) -> Steps
    requires { IsShort shape }
    ensures { result ≡ all_steps shape }
{
    let mut items = ArrayVec::new();
    let added = match shape {
        Shape::Orthogonal(n) => {
            items.try_extend_from_slice(&[
                Step::new(0, -n),
                Step::new(-n, 0),
                Step::new(n, 0),
                Step::new(0, n),
            ])
        }
        Shape::Diagonal(n) => {
            items.try_extend_from_slice(&[
                Step::new(-n, -n),
                Step::new(n, -n),
                Step::new(-n, n),
                Step::new(n, n),
            ])
        }
        Shape::Oblique(long, short) => items.try_extend_from_slice(&[
            Step::new(-short, -long),
            Step::new(short, -long),
            Step::new(-long, -short),
            Step::new(long, -short),
            Step::new(-long, short),
            Step::new(long, short),
            Step::new(-short, long),
            Step::new(short, long),
        ]),
        Shape::Royal => items.try_extend_from_slice(&[
            Step::new(0, -1),
            Step::new(-1, 0),
            Step::new(1, 0),
            Step::new(0, 1),
            Step::new(-1, -1),
            Step::new(1, -1),
            Step::new(-1, 1),
            Step::new(1, 1),
        ]),
        Shape::Nothing => Ok(()),
    };
    added.unwrap();
    Steps { items }
}

/// Whether the step goes to the side that the letter names.
#[tactic(auto, unfolding(crate::specs::Steps::points))]
fn points(letter: u8, step: Step) -> bool
    ensures { result ≡ Picks.points letter step }
{
    match letter {
        b'f' => step.dy > 0,
        b'b' => step.dy < 0,
        b'l' => step.dx < 0,
        b'r' => step.dx > 0,
        b'v' => step.dy.unsigned_abs() != 0,
        b's' => step.dx.unsigned_abs() != 0,
        _ => false,
    }
}

#[tactic(auto, unfolding(crate::specs::Steps::is_rankwise))]
fn is_rankwise(letter: u8) -> bool
    ensures { result ≡ Picks.is_rankwise letter }
{
    matches!(letter, b'f' | b'b' | b'v')
}

#[tactic(auto, unfolding(crate::specs::Steps::is_filewise))]
fn is_filewise(letter: u8) -> bool
    ensures { result ≡ Picks.is_filewise letter }
{
    matches!(letter, b'l' | b'r' | b's')
}

#[tactic(auto, unfolding(crate::specs::Steps::is_plain_side))]
fn is_plain_side(letter: u8) -> bool
    ensures { result ≡ Picks.is_plain_side letter }
{
    matches!(letter, b'f' | b'b' | b'l' | b'r')
}

fn is_side(letter: u8) -> bool
    ensures { result ≡ Picks.is_side letter }
{
    is_rankwise(letter) || is_filewise(letter)
}

/// How far the step goes along the line of which the letter speaks.
#[tactic(auto, unfolding(crate::specs::Steps::leg_along))]
fn leg_along(letter: u8, step: Step) -> u8
    ensures { result ≡ Picks.leg_along letter step }
{
    if is_rankwise(letter) {
        step.dy.unsigned_abs()
    } else {
        step.dx.unsigned_abs()
    }
}

/// Whether two letters name one direction of the shape.
#[tactic(auto, unfolding(crate::specs::Steps::is_pair))]
fn is_pair(shape: Shape, first: u8, second: u8) -> bool
    ensures { result ≡ Picks.is_pair shape first second }
{
    match shape {
        Shape::Diagonal(_) => {
            (first == b'f' || first == b'b') && (second == b'l' || second == b'r')
        }
        Shape::Oblique(_, _) => {
            (first == second && is_side(first))
                || ((first == b'f' || first == b'b') && second == b's')
                || (is_plain_side(first) && second == b'h')
        }
        Shape::Orthogonal(_) | Shape::Royal | Shape::Nothing => false,
    }
}

/// Whether the step goes where the two letters say.
#[tactic(auto, unfolding(crate::specs::Steps::pair_points))]
fn pair_points(shape: Shape, first: u8, second: u8, step: Step) -> bool
    ensures { result ≡ Picks.pair_points shape first second step }
{
    match shape {
        Shape::Diagonal(_) => points(first, step) && points(second, step),
        Shape::Oblique(long, short) => {
            let leg = if first == second { long } else { short };
            points(first, step) && (second == b'h' || leg_along(first, step) == leg.unsigned_abs())
        }
        Shape::Orthogonal(_) | Shape::Royal | Shape::Nothing => false,
    }
}

#[tactic(auto, unfolding(crate::specs::Steps::is_bad_pair))]
fn is_bad_pair(shape: Shape, letters: &[u8], k: usize) -> bool
    requires { k < length letters.now / 2 }
    ensures { result ≡ Picks.is_bad_pair shape letters.now k }
{
    !is_pair(shape, letters[2 * k], letters[2 * k + 1])
}

#[tactic(auto, unfolding(crate::specs::Steps::is_pair_to))]
fn is_pair_to(shape: Shape, letters: &[u8], step: Step, k: usize) -> bool
    requires { k < length letters.now / 2 }
    ensures { result ≡ Picks.is_pair_to shape letters.now step k }
{
    pair_points(shape, letters[2 * k], letters[2 * k + 1], step)
}

/// Whether the letters split into pairs that name directions of the shape.
#[tactic(auto, unfolding(crate::specs::Steps::are_pairs), using(foundation::proofs::CountLemmas::any))]
fn are_pairs(shape: Shape, letters: &[u8]) -> bool
    ensures { result ≡ Picks.are_pairs shape letters.now }
{
    for k in 0..letters.len() / 2 {
        if is_bad_pair(shape, letters, k) {
            return false;
        }
    }
    letters.len() % 2 == 0
}

/// Whether one of the pairs points to the step.
#[tactic(auto, using(foundation::proofs::CountLemmas::any))]
fn has_pair_to(shape: Shape, letters: &[u8], step: Step) -> bool
    ensures { result ≡ any_below (Picks.is_pair_to shape letters.now step) (length letters.now / 2) }
{
    for k in 0..letters.len() / 2 {
        if is_pair_to(shape, letters, step, k) {
            return true;
        }
    }
    false
}

fn are_sides(letters: &[u8]) -> bool
    ensures { result ≡ list_all Picks.is_side letters.now }
{
    letters.iter().all(|letter| is_side(*letter))
}

fn are_rankwise(letters: &[u8]) -> bool
    ensures { result ≡ list_all Picks.is_rankwise letters.now }
{
    letters.iter().all(|letter| is_rankwise(*letter))
}

fn are_filewise(letters: &[u8]) -> bool
    ensures { result ≡ list_all Picks.is_filewise letters.now }
{
    letters.iter().all(|letter| is_filewise(*letter))
}

fn are_plain_sides(letters: &[u8]) -> bool
    ensures { result ≡ list_all Picks.is_plain_side letters.now }
{
    letters.iter().all(|letter| is_plain_side(*letter))
}

/// Whether the letters, one by one, name directions of the shape.
#[tactic(auto, unfolding(crate::specs::Steps::are_single))]
fn are_single(shape: Shape, letters: &[u8]) -> bool
    ensures { result ≡ Picks.are_single shape letters.now }
{
    match shape {
        Shape::Orthogonal(_) => are_sides(letters),
        Shape::Diagonal(_) => are_rankwise(letters) || are_filewise(letters),
        Shape::Royal => letters.len() == 1 && are_plain_sides(letters),
        Shape::Oblique(_, _) | Shape::Nothing => false,
    }
}

/// Whether one of the letters points to the step.
fn has_letter_to(letters: &[u8], step: Step) -> bool
    ensures { result ≡ list_any (λ letter. Picks.points letter step) letters.now }
{
    letters.iter().any(|letter| points(*letter, step))
}

/// Whether the direction letters have one meaning for the shape.
#[tactic(auto, unfolding(crate::specs::Steps::is_clear))]
fn is_clear(shape: Shape, letters: &[u8]) -> bool
    ensures { result ≡ Picks.is_clear shape letters.now }
{
    letters.is_empty() || are_pairs(shape, letters) || are_single(shape, letters)
}

/// Whether the direction letters leave the shape this step.
#[tactic(auto, unfolding(crate::specs::Steps::picks))]
fn picks(shape: Shape, letters: &[u8], step: Step) -> bool
    ensures { result ≡ Picks.picks shape letters.now step }
{
    letters.is_empty()
        || if are_pairs(shape, letters) {
            has_pair_to(shape, letters, step)
        } else {
            has_letter_to(letters, step)
        }
}

/// Whether the direction letters of a part have one meaning for its atom.
pub(crate) fn has_clear_directions(part: &Part) -> bool
    ensures { result ≡ Picks.is_clear (shape_of part.now.atom) part.now.dirs }
{
    let dirs = &part.dirs;
    is_clear(atom_shape(part.atom), dirs.items.as_slice())
}

fn picked_steps(shape: Shape, dirs: &Dirs) -> Steps
    requires { IsShort shape }
    ensures { result ≡ filter (Picks.picks shape dirs.now) (all_steps shape) }
{
    let letters = dirs.items.as_slice();
    let all = shape_steps(shape);
    let mut items = ArrayVec::new();
    for step in all.items.iter() {
        if picks(shape, letters, *step) {
            items.push(*step);
        }
    }
    Steps { items }
}

/// The steps of a part that its direction letters leave, by rank and then by file;
/// a king's and a queen's have those along ranks and files first.
#[tactic(auto, unfolding(crate::specs::Steps::steps_of))]
pub fn part_steps(part: &Part) -> Steps
    ensures { result ≡ steps_of part.now }
{
    picked_steps(atom_shape(part.atom), &part.dirs)
}
