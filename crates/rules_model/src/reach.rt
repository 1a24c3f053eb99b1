//! What a piece reaches, by walking its terms.
ghost use Rattle.std.specs.Prelude.{◌≡◌, ◌≤◌, ◌<◌, ◌+◌, ◌*◌, ◌-◌, ◌==◌, ◌&&◌, IfSome, Some, ℤ, pos, negsuc, ◌+ℤ◌, ◌*ℤ◌, ◌≤ℤ◌, nat_abs, max};
ghost use Rattle.rules_model.specs.Squares.{turned, within, step_to};
ghost use Rattle.rules_model.specs.Reach.{ray_of, weight, blockers, sign, leg, long_leg, block_squares, passes, is_at, reaches_over, reaches, IsOnBoard, IsShort};

use crate::board::{BoardSize, Cells, Side, Square};
use crate::rules::{Term, Way};

/// The squares at the multiples of a step from a square.
#[derive(Clone, Copy)]
pub struct Ray {
    pub board: BoardSize,
    pub from: Square,
    pub dx: i32,
    pub dy: i32,
}

pub(crate) fn turn(side: Side, d: i8) -> i32
    ensures is { result ≡ turned side d }
    ensures short { IsShort result }
{
    match side {
        Side::White => d as i32,
        Side::Black => -(d as i32),
    }
}

/// The multiples of the term's step from the square, as the side sees them.
pub fn term_ray(board: BoardSize, side: Side, term: &Term, from: Square) -> Ray
    ensures is { result ≡ ray_of board side term.now from }
    ensures short_dx { IsShort result.dx }
    ensures short_dy { IsShort result.dy }
{
    Ray {
        board,
        from,
        dx: turn(side, term.dx),
        dy: turn(side, term.dy),
    }
}

fn moved(at: u8, d: i32, k: u8, n: u8) -> Option<u8>
    requires { IsShort d }
    ensures is { result ≡ within n (pos at +ℤ (pos k *ℤ d)) }
    ensures below { IfSome result (λ x. x < n) }
{
    let to = at as i32 + k as i32 * d;
    if to >= 0 && to < n as i32 {
        Some(to as u8)
    } else {
        None
    }
}

/// The square `k` steps along the ray, where it is on the board.
#[tactic(auto, unfolding(crate::specs::Squares::step_to))]
pub fn step(ray: &Ray, k: u8) -> Option<u8>
    requires board { IsOnBoard ray.now.board }
    requires short_dx { IsShort ray.now.dx }
    requires short_dy { IsShort ray.now.dy }
    ensures is { result ≡ step_to ray.now k }
    ensures on_board { IfSome result (λ s. s < 120) }
{
    let file = moved(ray.from.file(), ray.dx, k, ray.board.files)?;
    let rank = moved(ray.from.rank(), ray.dy, k, ray.board.ranks)?;
    Some(Square::at(file, rank).0)
}

/// 1 where a piece stands on the square, and 0 where none does or there is no square.
pub fn weight_at(cells: &Cells, at: Option<u8>) -> u8
    requires { IfSome at (λ s. s < 120) }
    ensures is { result ≡ weight cells.now at }
    ensures small { result ≤ 1 }
{
    match at {
        None => 0,
        Some(at) => match cells[at as usize] {
            None => 0,
            Some(_) => 1,
        },
    }
}

/// How many of the squares at 1 to `k` steps are occupied.
#[tactic(auto, using(crate::proofs::ReachLemmas::stepping))]
fn blockers_within(cells: &Cells, ray: &Ray, k: u8) -> u8
    requires board { IsOnBoard ray.now.board }
    requires short_dx { IsShort ray.now.dx }
    requires short_dy { IsShort ray.now.dy }
    ensures is { result ≡ blockers cells.now ray.now k }
    ensures few { result ≤ k }
{
    let mut found: u8 = 0;
    for i in 0..k {
        found += weight_at(cells, step(ray, i + 1));
    }
    found
}

/// The step's sign along one axis: -1, 0 or 1.
pub fn signum(d: i32) -> i32
    ensures is { result ≡ sign d }
    ensures short { IsShort result }
{
    if d == 0 {
        0
    } else if d > 0 {
        1
    } else {
        -1
    }
}

/// The part of the step `d` along one axis that the long leg has, where the step along the other axis is `other`: its
/// sign, or 0 where the other is longer.
pub fn leg_of(d: i32, other: i32) -> i32
    ensures is { result ≡ leg d other }
    ensures short { IsShort result }
{
    if d.unsigned_abs() < other.unsigned_abs() {
        0
    } else {
        signum(d)
    }
}

fn is_clear(cells: &Cells, ray: &Ray) -> bool
    requires board { IsOnBoard ray.now.board }
    requires short_dx { IsShort ray.now.dx }
    requires short_dy { IsShort ray.now.dy }
    ensures { result ≡ (blockers cells.now (long_leg ray.now) (block_squares ray.now) == 0) }
{
    let long = Ray {
        board: ray.board,
        from: ray.from,
        dx: leg_of(ray.dx, ray.dy),
        dy: leg_of(ray.dy, ray.dx),
    };
    let squares = ray
        .dx
        .unsigned_abs()
        .max(ray.dy.unsigned_abs())
        .saturating_sub(1);
    blockers_within(cells, &long, squares as u8) == 0
}

/// Whether the way gets over the `between` squares before the target, of which `found` are occupied.
#[tactic(auto, unfolding(crate::specs::Reach::passes))]
pub fn gets_over(cells: &Cells, way: Way, ray: &Ray, between: u8, found: u8) -> bool
    requires board { IsOnBoard ray.now.board }
    requires short_dx { IsShort ray.now.dx }
    requires short_dy { IsShort ray.now.dy }
    requires found { found ≡ blockers cells.now ray.now between }
    ensures { result ≡ passes cells.now way ray.now between }
{
    match way {
        Way::Leap => between == 0,
        Way::Lame => between == 0 && is_clear(cells, ray),
        Way::Slide => found == 0,
        Way::Hop => found == 1,
        Way::Grass => found == 1 && weight_at(cells, step(ray, between)) == 1,
    }
}

/// Whether the number, if there is one, is that of the square.
pub fn is_target(at: Option<u8>, to: Square) -> bool
    ensures { result ≡ is_at to.0 at }
{
    match at {
        None => false,
        Some(at) => at == to.0,
    }
}

/// Whether a piece of the side on `from` reaches `to` by the term, on a board of this size with these pieces.
/// What stands on the two squares does not matter.
#[tactic(auto, using(crate::proofs::ReachLemmas::stepping))]
pub fn reaches_plain(
    board: BoardSize,
    cells: &Cells,
    side: Side,
    term: &Term,
    from: Square,
    to: Square,
) -> bool
    requires { IsOnBoard board }
    ensures { result ≡ reaches board cells.now side term.now from to.0 }
{
    let ray = term_ray(board, side, term, from);
    let mut found: u8 = 0;
    for between in 0..term.limit {
        let next = step(&ray, between + 1);
        if is_target(next, to) && gets_over(cells, term.way, &ray, between, found) {
            return true;
        }
        found += weight_at(cells, next);
    }
    false
}
