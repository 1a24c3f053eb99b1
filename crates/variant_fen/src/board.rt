//! The placement.
ghost use Rattle.std.specs.Prelude.{◌≡◌, ◌<◌, ◌≤◌, ◌+◌, count_by, length, replicate, MatchResult, None, Ok, Err, OnOk, take, drop};
ghost use Rattle.std.specs.List.{slice_split, prefix_len};
ghost use Rattle.rules_model.specs.Fit.{IsFit};
ghost use Rattle.fen_model.specs.Board as Board;
ghost use Rattle.foundation.specs.Numbers as Numbers;
ghost use Rattle.variant_fen.specs.Cells.{put_at, IsFreeFrom, IsSameBut};

use crate::number::value;
use crate::pieces::cut_piece;
use fen_model::FenFault;
use foundation::{begins_with_zero, cut_at, is_digit};
use rules_model::{Cell, Cells, Rules};

fn digit_count(text: &[u8]) -> usize
    ensures is { result ≡ prefix_len Numbers.is_digit text.now }
    ensures within { result ≤ length text.now }
{
    text.iter().take_while(|byte| is_digit(**byte)).count()
}

/// The digits at the front, and what follows them.
fn cut_run(text: &[u8]) -> (&[u8], &[u8])
    ensures run { result.0.now ≡ take (prefix_len Numbers.is_digit text.now) text.now }
    ensures rest { result.1.now ≡ drop (prefix_len Numbers.is_digit text.now) text.now }
{
    text.split_at(digit_count(text))
}

/// Puts a piece on a file of a rank, where the board has the file.
fn put(rules: &Rules, cells: &mut Cells, rank: u8, file: u16, cell: Cell)
    requires fit { IsFit rules.now }
    requires rank { rank < 10 }
    ensures is { cells.new ≡ put_at rules.now cells.old rank file cell }
    ensures long { length cells.old ≡ 120 }
{
    if file < u16::from(rules.files) {
        cells[12 * rank as usize + file as usize] = Some(cell);
    }
}

/// Reads a rank that is empty so far.
fn read_rank(rules: &Rules, text: &[u8], rank: u8, cells: &mut Cells) -> Result<(), FenFault>
    requires fit { IsFit rules.now }
    requires rank { rank < 10 }
    requires empty { IsFreeFrom cells.old rank 0 }
    ensures row { MatchResult result
        (λ _. Board.row_of rules.now text.now ≡ Ok (Board.row_at cells.new rank rules.now.files))
        (λ fault. Board.row_of rules.now text.now ≡ Err fault) }
    ensures beyond { OnOk result (IsFreeFrom cells.new rank rules.now.files) }
    ensures others { IsSameBut rank cells.old cells.new }
{
    let mut left = text;
    let mut file: u16 = 0;
    while let Some((first, _)) = left.split_first() {
        if is_digit(*first) {
            let (run, rest) = cut_run(left);
            if begins_with_zero(run) {
                return Err(FenFault::Width);
            }
            file = file.saturating_add(value(run));
            left = rest;
        } else {
            let Some((cell, rest)) = cut_piece(rules, left) else {
                return Err(FenFault::Letter);
            };
            put(rules, cells, rank, file, cell);
            file = file.saturating_add(1);
            left = rest;
        }
    }
    if file == u16::from(rules.files) {
        Ok(())
    } else {
        Err(FenFault::Width)
    }
}

fn slash_count(board: &[u8]) -> usize
    ensures is { result ≡ count_by Board.is_slash board.now }
    ensures within { result ≤ length board.now }
{
    board.iter().filter(|byte| **byte == b'/').count()
}

/// How many ranks the placement has.
fn rank_count(board: &[u8]) -> usize
    ensures { result ≡ length (slice_split Board.is_slash board.now) }
{
    slash_count(board) + 1
}

/// Reads a placement onto an empty board.
pub(crate) fn read_board(rules: &Rules, board: &[u8], cells: &mut Cells) -> Result<(), FenFault>
    requires fit { IsFit rules.now }
    requires empty { cells.old ≡ replicate 120 None }
    ensures { MatchResult result (λ _. Board.cells_of rules.now board.now ≡ Ok cells.new)
        (λ fault. Board.cells_of rules.now board.now ≡ Err fault) }
{
    if rank_count(board) != usize::from(rules.ranks) {
        return Err(FenFault::Rank);
    }
    let mut rank = rules.ranks;
    let mut left = Some(board);
    while let Some(text) = left {
        let (rank_text, rest) = cut_at(text, b'/');
        rank -= 1;
        read_rank(rules, rank_text, rank, cells)?;
        left = rest;
    }
    Ok(())
}
