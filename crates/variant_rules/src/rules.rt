//! The rules that the options and the pieces of a section make.
ghost use Rattle.std.specs.Prelude.{◌≡◌, IfOk};
ghost use Rattle.variant_model.specs.Entry.{bare_rules};
ghost use Rattle.variant_model.specs.Made as Made;
ghost use Rattle.variant_rules.specs.Said.{resolved_at};

use crate::kinds::{held_by_key, held_letter, held_letters, kinds, letter_at};
use crate::regions::{board_of, regions};
use crate::resolved::Resolved;
use rules_model::{Memory, Position, Region, Rules, Side, Value};
use std::alloc::Global;
use variant_options::Listed;
use variant_options::letters::mask_of;
use variant_options::pieces::{KING, PAWN, ROOK, SOLDIER};
use variant_options::readings::{ALL_SQUARES, rank_alone};

const NO_SQUARE: Region = Region {
    squares: [false; 120],
};

/// A position without a piece.
fn no_position() -> Position
    ensures { result ≡ Made.no_position }
{
    Position {
        cells: [None; 120],
        hands: [[0; 26]; 2],
        gates: [0; 2],
        counter: 0,
        number: 1,
        rights: [[false; 2]; 2],
        checks: [0; 2],
        ep: None,
        side: Side::White,
    }
}

/// The kinds that a list names by themselves.
fn listed_kinds(listed: &Listed) -> [bool; 26]
    ensures { result ≡ Made.listed_kinds listed.now }
{
    match *listed {
        Listed::All => [false; 26],
        Listed::Only(mask) => mask,
    }
}

fn is_all(listed: &Listed) -> bool
    ensures { result ≡ Made.is_all listed.now }
{
    matches!(*listed, Listed::All)
}

/// The rules that a section's options and pieces make, with what it inherits, and a start without a piece. A value that
/// is not of its key's kind counts as if it were not there.
#[tactic(auto, unfolding(variant_model::specs::Made::rules_from))]
pub fn bare_rules(alloc: Global, section: &Resolved<'_>) -> Result<Rules, Memory>
    ensures { IfOk result (λ rules. rules ≡ bare_rules (resolved_at section.now)) }
{
    let board = board_of(section);
    let pawn = letter_at(section, PAWN);
    let rook = letter_at(section, ROOK);
    let extinct = section.letters_or_all(b"extinctionPieceTypes");
    Ok(Rules {
        kinds: kinds(alloc, section, board)?,
        start: no_position(),
        promotion: regions(
            alloc,
            section,
            board,
            (b"promotionRegionWhite", b"promotionRegionBlack"),
            [rank_alone(7), rank_alone(0)],
        )?,
        double_region: regions(
            alloc,
            section,
            board,
            (b"doubleStepRegionWhite", b"doubleStepRegionBlack"),
            [rank_alone(1), rank_alone(6)],
        )?,
        drop_region: regions(
            alloc,
            section,
            board,
            (b"dropRegionWhite", b"dropRegionBlack"),
            [ALL_SQUARES, ALL_SQUARES],
        )?,
        flag_region: regions(
            alloc,
            section,
            board,
            (b"flagRegionWhite", b"flagRegionBlack"),
            [NO_SQUARE, NO_SQUARE],
        )?,
        promotion_kinds: held_by_key(section, b"promotionPieceTypes", None),
        castle_rooks: held_by_key(section, b"castlingRookPieces", rook),
        n_move_kinds: held_by_key(section, b"nMoveRuleTypes", pawn),
        extinct_kinds: held_letters(section, &listed_kinds(&extinct)),
        n_move: section.number(b"nMoveRule", 0, 500, 50),
        n_fold: section.fold(b"nFoldRule", 3),
        files: board.files,
        ranks: board.ranks,
        king: letter_at(section, KING),
        pawn,
        soldier: letter_at(section, SOLDIER),
        soldier_rank: section.small_number(b"soldierPromotionRank", 1, 10, 1),
        no_doubled: held_letter(section, section.letter(b"dropNoDoubled")),
        flag_kind: held_letter(section, section.letter(b"flagPiece")),
        castle_king: section.file(b"castlingKingFile", 4),
        castle_near: section.file(b"castlingKingsideFile", 6),
        castle_far: section.file(b"castlingQueensideFile", 2),
        castle_rank: section.small_number(b"castlingRank", 1, 10, 1),
        extinct_most: section.small_number(b"extinctionPieceCount", 0, 240, 0),
        extinct_least: section.small_number(b"extinctionOpponentPieceCount", 0, 240, 0),
        extinction: section.result_or_none(b"extinctionValue"),
        n_fold_value: section.result(b"nFoldValue", Value::Draw),
        stalemate: section.result(b"stalemateValue", Value::Draw),
        checkmate: section.result(b"checkmateValue", Value::Loss),
        must_promote_pawn: section.flag(b"mandatoryPawnPromotion", true),
        must_promote_piece: section.flag(b"mandatoryPiecePromotion", false),
        double_step: section.flag(b"doubleStep", true),
        castling: section.flag(b"castling", true),
        checking: section.flag(b"checking", true),
        drop_checks: section.flag(b"dropChecks", true),
        must_capture: section.flag(b"mustCapture", false),
        drops: section.flag(b"pieceDrops", false),
        to_hand: section.flag(b"capturesToHand", false),
        pawn_first: section.flag(b"firstRankPawnDrops", false),
        pawn_zone: section.flag(b"promotionZonePawnDrops", false),
        immobile_bad: section.flag(b"immobilityIllegal", false),
        gating: section.flag(b"gating", false),
        gate_hand: section.flag(b"seirawanGating", false),
        extinct_all: is_all(&extinct),
        check_counting: section.flag(b"checkCounting", false),
        flying: section.flag(b"flyingGeneral", false),
    })
}
