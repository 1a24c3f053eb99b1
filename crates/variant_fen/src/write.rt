//! Writing a placement.
ghost use Rattle.std.specs.Prelude.{◌≡◌, ◌≤◌, ◌<◌, ◌++◌, OnOk};
ghost use Rattle.std.specs.Fmt.{decimal};
ghost use Rattle.rules_model.specs.Fit.{IsFit};
ghost use Rattle.fen_model.specs.Board.{row_at};
ghost use Rattle.fen_model.specs.Printing as Printing;

use move_text::{lower, upper};
use rules_model::kinds::{names, promoted_of};
use rules_model::{Cell, Cells, Kind, Memory, Rules, Side};

/// Appends a number in decimal digits.
pub(crate) fn push_number(text: &mut Vec<u8>, n: u16) -> Result<(), Memory>
    ensures { OnOk result (text.new.items ≡ text.old.items ++ decimal n) }
{
    if n >= 10 {
        push_number(text, n / 10)?;
    }
    text.push(b'0' + (n % 10) as u8)?;
    Ok(())
}

/// The letter of a kind, in upper case for White.
pub(crate) fn kind_letter(side: Side, kind: Kind) -> u8
    ensures { result ≡ Printing.kind_letter side kind }
{
    match side {
        Side::White => upper(kind),
        Side::Black => lower(kind),
    }
}

/// Appends a piece: `+` and its origin's letter where it is the origin's promoted kind, else its own letter, with `~`
/// after it where it has another origin.
fn push_cell(rules: &Rules, text: &mut Vec<u8>, cell: Cell) -> Result<(), Memory>
    ensures { OnOk result (text.new.items ≡ text.old.items ++ Printing.cell_text rules.now cell) }
{
    match cell.origin {
        None => text.push(kind_letter(cell.side, cell.kind))?,
        Some(origin) if names(promoted_of(rules, origin), cell.kind) => {
            text.push(b'+')?;
            text.push(kind_letter(cell.side, origin))?;
        }
        Some(_) => {
            text.push(kind_letter(cell.side, cell.kind))?;
            text.push(b'~')?;
        }
    }
    Ok(())
}

/// Appends the number of a run of empty squares, if there are any.
fn push_run(text: &mut Vec<u8>, empty: u8) -> Result<(), Memory>
    ensures { OnOk result (text.new.items ≡ text.old.items ++ Printing.run_text empty) }
{
    if empty > 0 {
        push_number(text, u16::from(empty))?;
    }
    Ok(())
}

/// Appends a rank.
fn push_rank(rules: &Rules, text: &mut Vec<u8>, cells: &Cells, rank: u8) -> Result<(), Memory>
    requires fit { IsFit rules.now }
    requires rank { rank < 10 }
    ensures { OnOk result (text.new.items
        ≡ text.old.items ++ Printing.row_text rules.now 0 (row_at cells.now rank rules.now.files)) }
{
    let mut empty = 0;
    for file in 0..rules.files {
        match cells[12 * rank as usize + file as usize] {
            None => empty += 1,
            Some(cell) => {
                push_run(text, empty)?;
                push_cell(rules, text, cell)?;
                empty = 0;
            }
        }
    }
    push_run(text, empty)
}

/// Appends the ranks from the highest on.
#[tactic(auto, using(crate::proofs::WriteLemmas::writing))]
pub(crate) fn push_board(rules: &Rules, text: &mut Vec<u8>, cells: &Cells) -> Result<(), Memory>
    requires { IsFit rules.now }
    ensures { OnOk result (text.new.items ≡ text.old.items ++ Printing.board_text rules.now cells.now) }
{
    for above in 0..rules.ranks {
        if above > 0 {
            text.push(b'/')?;
        }
        push_rank(rules, text, cells, rules.ranks - 1 - above)?;
    }
    Ok(())
}
