//! The regions that the options of a section say, on its board.
ghost use Rattle.std.specs.Prelude.{◌≡◌, ◌&&◌, ◌%◌, ◌/◌, nat_lt, IfOk};
ghost use Rattle.variant_options.specs.Readings.{read_region};
ghost use Rattle.variant_rules.specs.Said.{board_of, both_now, cut_to, regions_on, resolved_at, value_or};

use crate::resolved::Resolved;
use rules_model::{BoardSize, FILES, Memory, Region};
use std::alloc::Global;
use variant_options::readings::{SQUARES, read_region};

/// The size of a section's board.
pub(crate) fn board_of(section: &Resolved<'_>) -> BoardSize
    ensures { result ≡ board_of (resolved_at section.now) }
{
    BoardSize {
        files: section.file(b"maxFile", 7) + 1,
        ranks: section.small_number(b"maxRank", 1, 10, 8),
    }
}

fn is_on_board(board: BoardSize, square: u8) -> bool
    ensures { result ≡ nat_lt (square % 12) board.files && nat_lt (square / 12) board.ranks }
{
    square % FILES < board.files && square / FILES < board.ranks
}

/// The squares of a region that are on the board.
#[tactic(auto, unfolding(crate::specs::Said::cut_to))]
fn cut_to(board: BoardSize, region: &Region) -> Region
    ensures { result ≡ cut_to board region.now }
{
    let mut squares = [false; 120];
    for s in 0..SQUARES {
        squares[s as usize] = region.squares[s as usize] && is_on_board(board, s);
    }
    Region { squares }
}

/// The region of a key.
fn region(
    alloc: Global,
    section: &Resolved<'_>,
    key: &[u8],
    default: Region,
) -> Result<Region, Memory>
    ensures { IfOk result (λ region. region ≡ value_or (resolved_at section.now) key.now read_region default) }
{
    Ok(match section.value(key) {
        Some(text) => read_region(alloc, text)?.unwrap_or(default),
        None => default,
    })
}

/// The keys of White's and of Black's region.
pub(crate) type Keys<'a> = (&'a [u8], &'a [u8]);

/// The regions of White and of Black, on the board.
pub(crate) fn regions(
    alloc: Global,
    section: &Resolved<'_>,
    board: BoardSize,
    keys: Keys<'_>,
    defaults: [Region; 2],
) -> Result<[Region; 2], Memory>
    ensures { IfOk result (λ regions. regions
        ≡ regions_on board (resolved_at section.now) (both_now keys.entry) defaults) }
{
    let white = region(alloc, section, keys.0, defaults[0])?;
    let black = region(alloc, section, keys.1, defaults[1])?;
    Ok([cut_to(board, &white), cut_to(board, &black)])
}
