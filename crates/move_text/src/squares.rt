//! The squares at the front of a text.
ghost use Rattle.std.specs.Prelude.{◌≡◌, ◌<◌, IfSome};
ghost use Rattle.std.specs.Option.{option_map};
ghost use Rattle.move_text.specs.Cuts.{cut_view, squares_view};
ghost use Rattle.move_text.specs.Squares as Squares;

use rules_model::Square;

/// A number that stands at the front of a text, and what follows it.
#[derive(Clone, Copy)]
pub(crate) struct SplitNumber<'a> {
    pub value: u8,
    pub rest: &'a [u8],
}

/// Two squares at the front of a text, and what follows them.
#[derive(Clone, Copy)]
pub(crate) struct CutSquares<'a> {
    pub from: Square,
    pub to: Square,
    pub ending: &'a [u8],
}

/// The rank whose number from 1 to 10 stands at the front, counted from 0.
fn cut_rank(text: &[u8]) -> Option<SplitNumber<'_>>
    ensures is { option_map cut_view result ≡ Squares.rank_front text.now }
    ensures below { IfSome result (λ f. f.value < 10) }
{
    let (digit, rest) = text.split_first()?;
    if *digit == b'1' {
        if let Some((second, rest)) = rest.split_first() {
            if *second == b'0' {
                return Some(SplitNumber { value: 9, rest });
            }
        }
    }
    if matches!(*digit, b'1'..=b'9') {
        Some(SplitNumber {
            value: *digit - b'1',
            rest,
        })
    } else {
        None
    }
}

/// The square at the front: the letter of a file from `a` to `l`, and the number of a rank.
#[tactic(auto, unfolding(crate::specs::Squares::square_front))]
pub(crate) fn cut_square(text: &[u8]) -> Option<SplitNumber<'_>>
    ensures is { option_map cut_view result ≡ Squares.square_front text.now }
    ensures below { IfSome result (λ f. f.value < 120) }
{
    let (file, rest) = text.split_first()?;
    if !matches!(*file, b'a'..=b'l') {
        return None;
    }
    let rank = cut_rank(rest)?;
    Some(SplitNumber {
        value: 12 * rank.value + (*file - b'a'),
        rest: rank.rest,
    })
}

/// Two squares at the front.
#[tactic(auto, unfolding(crate::specs::Squares::squares_front))]
pub(crate) fn cut_squares(text: &[u8]) -> Option<CutSquares<'_>>
    ensures is { option_map squares_view result ≡ Squares.squares_front text.now }
    ensures start { IfSome result (λ s. s.from.0 < 120) }
    ensures target { IfSome result (λ s. s.to.0 < 120) }
{
    let from = cut_square(text)?;
    let to = cut_square(from.rest)?;
    Some(CutSquares {
        from: Square(from.value),
        to: Square(to.value),
        ending: to.rest,
    })
}
