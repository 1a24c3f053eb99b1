//! Where a pawn may go from each square.
ghost use Rattle.std.specs.Prelude.{◌≡◌, ℕ, ◌<◌, true, ◌&&◌, IfSome};
ghost use Rattle.std.specs.Bool.{OnTrue};
ghost use Rattle.rules_model.specs.Attacks as Attacks;
ghost use Rattle.rules_model.specs.Fit.{IsFit};
ghost use Rattle.rules_model.specs.Kinds as Kinds;
ghost use Rattle.rules_model.specs.Reach.{is_at};
ghost use Rattle.square_set.specs.Members.{has, leads, length_of, OnSquares};
ghost use Rattle.attack_tables.specs.PawnMasks as Masks;
ghost use Rattle.attack_tables.specs.PawnSpots as Pawns;

use rules_model::attacks::ahead;
use rules_model::kinds::{board_of, in_region, names_any};
use rules_model::reach::{step, term_ray};
use rules_model::{FILES, Rules, Side, Square, Term, Way};
use square_set::{EMPTY, Set, Shift};

/// Where a pawn of a side may go from a square, as far as the rules alone tell.
#[derive(Clone, Copy)]
struct PawnSpot {
    /// The square of one step.
    one: Set,
    /// The square of two steps, where a pawn may step twice from here.
    two: Set,
    /// The squares diagonally one step forward.
    diagonals: Set,
    /// Known to be so: on none of these squares a pawn promotes.
    plain: bool,
}

/// Where the pawns of a side may go from many squares at once, as far as the rules alone tell.
#[derive(Clone, Copy, PartialEq, Eq)]
pub struct PawnMasks {
    /// From these squares a pawn is known to promote nowhere, and to go where the rest tells. There may be more such
    /// squares.
    pub plain: Set,
    /// Of the plain squares, those from which it may step once. Of others in it nothing is said, here and below.
    pub once: Set,
    /// Of the plain squares, those from which it may step twice.
    pub twice: Set,
    /// Of the plain squares, those from which it may take to the left.
    pub left: Set,
    /// Of the plain squares, those from which it may take to the right.
    pub right: Set,
    /// One step straight forward.
    pub ahead: Shift,
    /// Diagonally one step forward to the left, as the side sees it.
    pub leftward: Shift,
    /// The same to the right.
    pub rightward: Shift,
}

/// The square, where there is one.
fn only(at: Option<u8>) -> Set
    requires { IfSome at (λ s. s < 120) }
    ensures { (t : ℕ) → has result t ≡ is_at t at }
{
    match at {
        None => EMPTY,
        Some(at) => EMPTY.with(at),
    }
}

/// The square of two steps from a square of the double-step region.
fn two_ahead(rules: &Rules, side: Side, from: Square) -> Set
    requires { IsFit rules.now }
    ensures { (t : ℕ) → has result t ≡ Pawns.two_ahead rules.now side from t }
{
    if rules.double_step && in_region(&rules.double_region, side, from.0) {
        only(ahead(board_of(rules), side, from, 2))
    } else {
        EMPTY
    }
}

/// The square one step forward and `dx` files to the right, as the side sees it.
fn one_diagonal(rules: &Rules, side: Side, dx: i8, from: Square) -> Set
    requires fit { IsFit rules.now }
    ensures { (t : ℕ) → has result t ≡ Pawns.one_diagonal rules.now side dx from t }
{
    let diagonal = Term {
        dx,
        dy: 1,
        way: Way::Leap,
        limit: 1,
        quiet: false,
        takes: true,
    };
    only(step(&term_ray(board_of(rules), side, &diagonal, from), 1))
}

/// The squares diagonally one step forward.
#[tactic(auto, unfolding(rules_model::specs::Attacks::is_diagonal))]
fn both_diagonals(rules: &Rules, side: Side, from: Square) -> Set
    requires { IsFit rules.now }
    ensures { (t : ℕ) → has result t ≡ Attacks.is_diagonal (Kinds.board_of rules.now) side from t }
{
    one_diagonal(rules, side, 1, from).or(one_diagonal(rules, side, -1, from))
}

/// Whether it is known that a pawn promotes on none of the squares.
fn promotes_nowhere(rules: &Rules, side: Side, squares: Set) -> bool
    ensures { OnTrue result (Pawns.PromotesNowhere rules.now side squares) }
{
    if !names_any(&rules.promotion_kinds) {
        return true;
    }
    for at in 0..120u8 {
        if squares.has(at) && in_region(&rules.promotion, side, at) {
            return false;
        }
    }
    true
}

fn pawn_spot_of(rules: &Rules, side: Side, from: Square) -> PawnSpot
    requires { IsFit rules.now }
    ensures { Pawns.IsPawnSpot rules.now side from result }
{
    let one = only(ahead(board_of(rules), side, from, 1));
    let two = two_ahead(rules, side, from);
    let diagonals = both_diagonals(rules, side, from);
    let plain = promotes_nowhere(rules, side, one.or(two).or(diagonals));
    PawnSpot {
        one,
        two,
        diagonals,
        plain,
    }
}

/// No square, and the shifts of the side's pawns. The square above one has a number that is greater by `FILES`.
fn no_masks(side: Side) -> PawnMasks
    ensures { Masks.HasPawnShifts result }
{
    let (ahead, leftward, rightward) = match side {
        Side::White => (Shift::Up(FILES), Shift::Up(FILES - 1), Shift::Up(FILES + 1)),
        Side::Black => (
            Shift::Down(FILES),
            Shift::Down(FILES - 1),
            Shift::Down(FILES + 1),
        ),
    };
    PawnMasks {
        plain: EMPTY,
        once: EMPTY,
        twice: EMPTY,
        left: EMPTY,
        right: EMPTY,
        ahead,
        leftward,
        rightward,
    }
}

/// The set where `squares` has a square, else the empty set.
fn where_any(set: Set, squares: Set) -> Set {
    if squares.is_empty() { EMPTY } else { set }
}

/// The masks with the square in each set that fits the spot. No proof rests on the sets: `tells` tests what they say.
fn with_spot(masks: &PawnMasks, spot: &PawnSpot, from: u8) -> PawnMasks
    requires from { from < 120 }
    requires shifts { Masks.HasPawnShifts masks.now }
    ensures { Masks.HasPawnShifts result }
{
    let here = EMPTY.with(from);
    let left = spot.diagonals.and(here.shifted(masks.leftward));
    let right = spot.diagonals.and(here.shifted(masks.rightward));
    PawnMasks {
        once: masks.once.or(where_any(here, spot.one)),
        twice: masks.twice.or(where_any(here, spot.two)),
        left: masks.left.or(where_any(here, left)),
        right: masks.right.or(where_any(here, right)),
        ..*masks
    }
}

/// The masks by the spots of all squares, none of them known to be plain yet.
fn spotted_masks(rules: &Rules, side: Side) -> PawnMasks
    requires { IsFit rules.now }
    ensures { Masks.HasPawnShifts result }
{
    let mut masks = no_masks(side);
    for from in 0..120u8 {
        masks = with_spot(&masks, &pawn_spot_of(rules, side, Square(from)), from);
    }
    masks
}

/// The square to which the shift leads from this one, where the pawn goes by it.
fn led(from: u8, shift: Shift, goes: bool) -> Set
    requires from { from < 120 }
    requires short { length_of shift < 128 }
    ensures { (t : ℕ) → t < 128 → has result t ≡ (goes && leads shift from t) }
{
    if goes {
        EMPTY.with(from).shifted(shift)
    } else {
        EMPTY
    }
}

/// Whether it is known that from the square a pawn promotes nowhere, and goes where the masks tell.
fn tells(rules: &Rules, side: Side, masks: &PawnMasks, from: u8) -> bool
    requires fit { IsFit rules.now }
    requires from { from < 120 }
    requires shifts { Masks.HasPawnShifts masks.now }
    ensures { OnTrue result (Masks.Tells rules.now side masks.now from) }
{
    let spot = pawn_spot_of(rules, side, Square(from));
    let one = led(from, masks.ahead, masks.once.has(from));
    let two = led(from, masks.ahead.twice(), masks.twice.has(from));
    let left = led(from, masks.leftward, masks.left.has(from));
    let right = led(from, masks.rightward, masks.right.has(from));
    spot.plain && spot.one == one && spot.two == two && spot.diagonals == left.or(right)
}

/// The squares from which the masks are known to tell where a pawn goes.
fn plain_squares(rules: &Rules, side: Side, masks: &PawnMasks) -> Set
    requires fit { IsFit rules.now }
    requires shifts { Masks.HasPawnShifts masks.now }
    ensures board { OnSquares result }
    ensures tells { (s : ℕ) → has result s ≡ true → Masks.Tells rules.now side masks.now s }
{
    let mut plain = EMPTY;
    for from in 0..120u8 {
        if tells(rules, side, masks, from) {
            plain = plain.with(from);
        }
    }
    plain
}

/// Where the pawns of the side go from many squares at once.
pub(crate) fn pawn_masks(rules: &Rules, side: Side) -> PawnMasks
    requires { IsFit rules.now }
    ensures { Masks.ArePawnMasks rules.now side result }
{
    let masks = spotted_masks(rules, side);
    let plain = plain_squares(rules, side, &masks);
    PawnMasks { plain, ..masks }
}
