//! How pieces move.
ghost use Rattle.std.specs.Prelude.{◌≡◌, ◌+◌, ◌-◌, ◌≤◌, ◌<◌, ◌++◌, [], map, length, slice_set, Some};
ghost use Rattle.sample_rules.specs.Pieces as Pieces;

use crate::regions::area;
use arrayvec::ArrayVec;
use rules_model::{Kind, KindRule, Region, Rules, Term, Terms, Way};

/// How a piece gets along its steps: by leaping to the first square.
pub const LEAP: Term = Term {
    dx: 0,
    dy: 0,
    way: Way::Leap,
    limit: 1,
    quiet: true,
    takes: true,
};

/// By leaping over an empty square or two.
pub const LAME: Term = Term {
    way: Way::Lame,
    ..LEAP
};

/// By sliding as far as the squares are empty.
pub const SLIDE: Term = Term {
    way: Way::Slide,
    limit: 11,
    ..LEAP
};

/// By sliding, without taking.
pub const QUIET_SLIDE: Term = Term {
    takes: false,
    ..SLIDE
};

/// By taking what is after the one piece on the way.
pub const HOP: Term = Term {
    way: Way::Hop,
    quiet: false,
    ..SLIDE
};

pub const ORTHOGONAL: [(i8, i8); 4] = [(0, 1), (1, 0), (0, -1), (-1, 0)];

pub const DIAGONAL: [(i8, i8); 4] = [(1, 1), (1, -1), (-1, -1), (-1, 1)];

pub const ELEPHANT: [(i8, i8); 4] = [(2, 2), (2, -2), (-2, -2), (-2, 2)];

pub const KNIGHT: [(i8, i8); 8] = [
    (1, 2),
    (2, 1),
    (2, -1),
    (1, -2),
    (-1, -2),
    (-2, -1),
    (-2, 1),
    (-1, 2),
];

pub const CAMEL: [(i8, i8); 8] = [
    (1, 3),
    (3, 1),
    (3, -1),
    (1, -3),
    (-1, -3),
    (-3, -1),
    (-3, 1),
    (-1, 3),
];

/// Forward and sideways.
pub const SOLDIER: [(i8, i8); 3] = [(0, 1), (1, 0), (-1, 0)];

/// Forward and along the diagonals.
pub const SILVER: [(i8, i8); 5] = [(0, 1), (1, 1), (1, -1), (-1, -1), (-1, 1)];

/// Along the ranks and files, and forward along the diagonals.
pub const GOLD: [(i8, i8); 6] = [(0, 1), (1, 0), (0, -1), (-1, 0), (1, 1), (-1, 1)];

/// The kind of a small letter.
pub fn kind(letter: u8) -> Kind
    ensures { result ≡ record { 0 = letter - 97 } }
{
    Kind(letter.saturating_sub(b'a'))
}

/// No terms.
pub fn none() -> Terms
    ensures { result ≡ [] }
{
    Terms {
        items: ArrayVec::new(),
    }
}

/// The terms and, for each of the steps, one of this manner.
#[tactic(auto, unfolding(crate::specs::Pieces::with))]
pub fn with(terms: Terms, steps: &[(i8, i8)], manner: Term) -> Terms
    requires { length terms + length steps.now ≤ 64 }
    ensures is { result ≡ Pieces.with terms steps.now manner }
    ensures count { length result ≡ length terms + length steps.now }
{
    let mut items = terms.items;
    for step in steps {
        items.push(Term {
            dx: step.0,
            dy: step.1,
            ..manner
        });
    }
    Terms { items }
}

/// Gives the variant a piece that may go anywhere on the board.
#[tactic(auto, unfolding(crate::specs::Pieces::with_piece))]
pub fn add(rules: &mut Rules, letter: u8, terms: Terms)
    requires small { 97 ≤ letter }
    requires letter { letter < 123 }
    ensures { rules.new ≡ Pieces.with_piece rules.old letter terms }
{
    let board = board(rules);
    add_bound(rules, letter, terms, [board, board]);
}

fn board(rules: &Rules) -> Region
    ensures { result ≡ Pieces.board rules.now }
{
    area(0, rules.files, 0, rules.ranks)
}

/// Gives the variant a piece that may go only where its side's region is.
#[tactic(auto, unfolding(crate::specs::Pieces::with_bound_piece))]
pub fn add_bound(rules: &mut Rules, letter: u8, terms: Terms, mobility: [Region; 2])
    requires small { 97 ≤ letter }
    requires letter { letter < 123 }
    ensures { rules.new ≡ Pieces.with_bound_piece rules.old letter terms mobility }
{
    rules.kinds[(letter - b'a') as usize] = Some(KindRule {
        terms,
        mobility,
        pawn: false,
        promoted: None,
    });
}

/// Gives the variant a piece that may go anywhere on the board, and that becomes one of the other kind where it is
/// promoted.
#[tactic(auto, unfolding(crate::specs::Pieces::with_promoted_piece))]
pub fn add_promoted(rules: &mut Rules, letter: u8, terms: Terms, promoted: Kind)
    requires small { 97 ≤ letter }
    requires letter { letter < 123 }
    ensures { rules.new ≡ Pieces.with_promoted_piece rules.old letter terms promoted }
{
    let board = board(rules);
    rules.kinds[(letter - b'a') as usize] = Some(KindRule {
        terms,
        mobility: [board, board],
        pawn: false,
        promoted: Some(promoted),
    });
}

/// Gives the variant the chess pawn, by the letter p.
#[tactic(auto, unfolding(crate::specs::Pieces::with_pawn))]
pub fn add_pawn(rules: &mut Rules)
    ensures { rules.new ≡ Pieces.with_pawn rules.old }
{
    let board = board(rules);
    rules.kinds[15] = Some(KindRule {
        terms: none(),
        mobility: [board, board],
        pawn: true,
        promoted: None,
    });
    rules.pawn = Some(Kind(15));
}
