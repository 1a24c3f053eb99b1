//! What `reach` prints: where a piece can go on a board of 8 by 8 squares.
ghost use Rattle.std.specs.Prelude.{◌≡◌, IfOk};
ghost use Rattle.one_shot_checks.specs.ReachText.{is_enemy, reaches_quietly, reaches_to_take, is_quiet_target, is_taking_target, reach_text};
ghost use Rattle.checkers.specs.SquareList.{squares_where};

use checkers::push_squares;
use foundation::Text;
use rules_model::reach::reaches_plain;
use rules_model::{BoardSize, Cell, Cells, Side, Square, Term, cell_at};
use std::alloc::{AllocError, Global};

/// The board of the command.
const CHESSBOARD: BoardSize = BoardSize { files: 8, ranks: 8 };

fn is_enemy(cell: Option<Cell>) -> bool
    ensures { result ≡ is_enemy cell }
{
    match cell {
        None => false,
        Some(cell) => match cell.side {
            Side::White => false,
            Side::Black => true,
        },
    }
}

#[tactic(auto, unfolding(crate::specs::ReachText::reaches_quietly))]
fn reaches_quietly(cells: &Cells, terms: &[Term], from: Square, to: u8) -> bool
    ensures { result ≡ reaches_quietly cells.now terms.now from to }
{
    terms.iter().any(|term| {
        term.quiet && reaches_plain(CHESSBOARD, cells, Side::White, term, from, Square(to))
    })
}

#[tactic(auto, unfolding(crate::specs::ReachText::reaches_to_take))]
fn reaches_to_take(cells: &Cells, terms: &[Term], from: Square, to: u8) -> bool
    ensures { result ≡ reaches_to_take cells.now terms.now from to }
{
    terms.iter().any(|term| {
        term.takes && reaches_plain(CHESSBOARD, cells, Side::White, term, from, Square(to))
    })
}

// The squares of the targets of quiet moves, by index.
fn quiet_targets(
    alloc: Global,
    cells: &Cells,
    terms: &[Term],
    from: Square,
) -> Result<Vec<u8>, AllocError>
    ensures { IfOk result (λ squares. squares.items ≡ squares_where (is_quiet_target cells.now terms.now from)) }
{
    (0..120)
        .filter(|to| cell_at(cells, Square(*to)).is_none()
            && reaches_quietly(cells, terms, from, *to))
        .collect(alloc)
}

// The squares of the pieces that it can take, by index.
fn taking_targets(
    alloc: Global,
    cells: &Cells,
    terms: &[Term],
    from: Square,
) -> Result<Vec<u8>, AllocError>
    ensures { IfOk result (λ squares. squares.items ≡ squares_where (is_taking_target cells.now terms.now from)) }
{
    (0..120)
        .filter(|to| is_enemy(cell_at(cells, Square(*to)))
            && reaches_to_take(cells, terms, from, *to))
        .collect(alloc)
}

/// The two lines of `reach` for a White piece with these terms on this square of a board.
#[tactic(auto, unfolding(crate::specs::ReachText::reach_text))]
pub fn reach_text(
    alloc: Global,
    cells: &Cells,
    terms: &[Term],
    from: Square,
) -> Result<Text, AllocError>
    ensures { IfOk result (λ text. text ≡ reach_text cells.now terms.now from) }
{
    let mut text = Vec::new(alloc);
    text.extend_from_slice(b"quiet")?;
    push_squares(
        &mut text,
        quiet_targets(alloc, cells, terms, from)?.as_slice(),
    )?;
    text.extend_from_slice(b"\ntake")?;
    push_squares(
        &mut text,
        taking_targets(alloc, cells, terms, from)?.as_slice(),
    )?;
    text.extend_from_slice(b"\n")?;
    Ok(Text { items: text })
}
