//! What a term adds to a spot.
ghost use Rattle.std.specs.Prelude.{◌≡◌, ℕ, ◌<◌, true, OnOk};
ghost use Rattle.rules_model.specs.Fit.{fits_term};
ghost use Rattle.rules_model.specs.Reach.{IsOnBoard, IsShort, reaches};
ghost use Rattle.move_tables.specs.Added as Added;

use crate::add::{add_jump, add_leap, add_line};
use crate::jump::Jump;
use crate::line::{Line, Passage};
use crate::ray::{blocks, rises, square_at, squares_to};
use crate::spot::Spot;
use foundation::Memory;
use rules_model::reach::{Ray, term_ray};
use rules_model::{BoardSize, Side, Square, Term, Way};

/// Adds the line of a slider or a hopper.
fn add_rider(spot: &mut Spot, ray: &Ray, limit: u8, passage: Passage) -> Result<(), Memory>
    requires board { IsOnBoard ray.now.board }
    requires short_dx { IsShort ray.now.dx }
    requires short_dy { IsShort ray.now.dy }
    ensures { OnOk result (Added.Adds spot.old spot.new (Added.along_ray ray.now limit passage)) }
{
    let squares = squares_to(ray, limit);
    // A line off the board would reach nothing.
    if squares.is_empty() {
        return Ok(());
    }
    let rising = rises(ray);
    add_line(
        spot,
        Line {
            squares,
            rising,
            passage,
        },
    )?;
    Ok(())
}

/// Adds what the term reaches.
pub(crate) fn add_term(
    spot: &mut Spot,
    board: BoardSize,
    side: Side,
    term: &Term,
    from: Square,
) -> Result<(), Memory>
    requires board { IsOnBoard board }
    requires fits { fits_term term.now ≡ true }
    ensures { OnOk result (Added.AddsThere spot.old spot.new (λ cells t. reaches board cells side term.now from t)) }
{
    let ray = term_ray(board, side, term, from);
    match term.way {
        Way::Leap => add_leap(spot, square_at(&ray, 1)),
        Way::Lame => {
            let target = square_at(&ray, 1);
            let over = blocks(&ray);
            add_jump(spot, Jump { target, over })?;
        }
        Way::Slide => add_rider(spot, &ray, term.limit, Passage::Slide)?,
        Way::Hop => add_rider(spot, &ray, term.limit, Passage::Hop)?,
        Way::Grass => add_rider(spot, &ray, term.limit, Passage::Grass)?,
    }
    Ok(())
}
