//! The sets of a ray's squares.
ghost use Rattle.std.specs.Prelude.{◌≡◌, ℕ, ◌<◌, ◌||◌, IfSome};
ghost use Rattle.rules_model.specs.Reach.{IsOnBoard, IsShort, is_at, long_leg, block_squares};
ghost use Rattle.rules_model.specs.Squares.{step_to};
ghost use Rattle.square_set.specs.Members.{has};
ghost use Rattle.move_tables.specs.Rays as Rays;

use rules_model::reach::{Ray, leg_of, step};
use square_set::{EMPTY, Set};

fn with_next(set: Set, next: Option<u8>) -> Set
    requires { IfSome next (λ s. s < 120) }
    ensures { (t : ℕ) → has result t ≡ (has set t || is_at t next) }
{
    match next {
        None => set,
        Some(s) => set.with(s),
    }
}

/// The squares at 1 to `k` steps.
pub(crate) fn squares_to(ray: &Ray, k: u8) -> Set
    requires board { IsOnBoard ray.now.board }
    requires short_dx { IsShort ray.now.dx }
    requires short_dy { IsShort ray.now.dy }
    ensures { (t : ℕ) → has result t ≡ Rays.on_ray ray.now k t }
{
    let mut squares = EMPTY;
    for i in 0..k {
        squares = with_next(squares, step(ray, i + 1));
    }
    squares
}

/// The square at `k` steps, where it is on the board.
pub(crate) fn square_at(ray: &Ray, k: u8) -> Set
    requires board { IsOnBoard ray.now.board }
    requires short_dx { IsShort ray.now.dx }
    requires short_dy { IsShort ray.now.dy }
    ensures { (t : ℕ) → has result t ≡ is_at t (step_to ray.now k) }
{
    with_next(EMPTY, step(ray, k))
}

/// The squares that block a lame leap.
pub(crate) fn blocks(ray: &Ray) -> Set
    requires board { IsOnBoard ray.now.board }
    requires short_dx { IsShort ray.now.dx }
    requires short_dy { IsShort ray.now.dy }
    ensures { (t : ℕ) → has result t ≡ Rays.on_ray (long_leg ray.now) (block_squares ray.now) t }
{
    let long = Ray {
        board: ray.board,
        from: ray.from,
        dx: leg_of(ray.dx, ray.dy),
        dy: leg_of(ray.dy, ray.dx),
    };
    let squares = ray
        .dx
        .unsigned_abs()
        .max(ray.dy.unsigned_abs())
        .saturating_sub(1);
    squares_to(&long, squares as u8)
}

/// Whether the numbers of the squares rise with the steps.
pub(crate) fn rises(ray: &Ray) -> bool
    ensures { result ≡ Rays.rises ray.now.dx ray.now.dy }
{
    if ray.dy == 0 { ray.dx > 0 } else { ray.dy > 0 }
}
