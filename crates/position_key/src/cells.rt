//! A board in fewer bytes: three squares in each number.
ghost use Rattle.std.specs.Prelude.{◌≡◌, ◌<◌, ◌^◌};
ghost use Rattle.position_key.specs.Cells as Cells;
ghost use Rattle.position_key.specs.Cells.{HoldCells, IsByteCell, IsByteKind};

use rules_model::{Cell, Kind};

/// The squares of a board, three in each number.
pub type CellWords = [u64; 40];

/// The squares, three in each number.
pub(crate) fn in_threes(cells: &[Option<Cell>; 120]) -> CellWords
    ensures { HoldCells result cells.now }
{
    let mut words = [0; 40];
    for k in 0..40 {
        words[k] = three(cells[3 * k], cells[3 * k + 1], cells[3 * k + 2]);
    }
    words
}

fn three(a: Option<Cell>, b: Option<Cell>, c: Option<Cell>) -> u64
    ensures is { result ≡ Cells.three a b c }
    ensures bytes { IsByteCell a × IsByteCell b × IsByteCell c }
{
    (cell_code(a) * 0x10_0000 + cell_code(b)) * 0x10_0000 + cell_code(c)
}

fn kind_code(kind: Option<Kind>) -> u64
    ensures is { result ≡ Cells.kind_code kind }
    ensures below { result < 257 }
    ensures bytes { IsByteKind kind }
{
    match kind {
        None => 0,
        Some(kind) => u64::from(kind.0) + 1,
    }
}

fn cell_code(cell: Option<Cell>) -> u64
    ensures is { result ≡ Cells.cell_code cell }
    ensures below { result < 2 ^ 20 }
    ensures bytes { IsByteCell cell }
{
    match cell {
        None => 0,
        Some(cell) => {
            (kind_code(cell.origin) * 256 + u64::from(cell.kind.0)) * 2
                + cell.side.index() as u64
                + 1
        }
    }
}
