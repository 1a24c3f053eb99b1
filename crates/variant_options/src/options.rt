//! The options of a variants file: their keys, and the kinds of their values.
ghost use Rattle.std.specs.Prelude.{◌≡◌, IfOk, is_some, map};
ghost use Rattle.std.specs.List.{find};
ghost use Rattle.std.specs.Option.{option_copied};
ghost use Rattle.std.specs.Str.{bytes_eq};
ghost use Rattle.variant_options.specs.Options.{options, option_kind, is_skipped, read};
ghost use Rattle.variant_options.specs.OptionView.{row_view, row_of};

use crate::pieces::is_mobility_key;
use crate::readings::{
    read_file, read_flag, read_fold, read_letter, read_letters, read_letters_or_all, read_pairs,
    read_region, read_result, read_result_or_none,
};
use crate::value::ValueKind;
use foundation::number_within;
use std::alloc::{AllocError, Global};

/// The options, but for the regions of pieces.
static OPTIONS: [(&[u8], ValueKind); 47] = [
    (b"maxRank", ValueKind::Number(1, 10)),
    (b"maxFile", ValueKind::File),
    (b"startFen", ValueKind::Position),
    (b"promotionRegionWhite", ValueKind::Region),
    (b"promotionRegionBlack", ValueKind::Region),
    (b"promotionPieceTypes", ValueKind::Letters),
    (b"promotedPieceType", ValueKind::Pairs),
    (b"mandatoryPawnPromotion", ValueKind::Flag),
    (b"mandatoryPiecePromotion", ValueKind::Flag),
    (b"doubleStep", ValueKind::Flag),
    (b"doubleStepRegionWhite", ValueKind::Region),
    (b"doubleStepRegionBlack", ValueKind::Region),
    (b"castling", ValueKind::Flag),
    (b"castlingKingFile", ValueKind::File),
    (b"castlingKingsideFile", ValueKind::File),
    (b"castlingQueensideFile", ValueKind::File),
    (b"castlingRank", ValueKind::Number(1, 10)),
    (b"castlingRookPieces", ValueKind::Letters),
    (b"checking", ValueKind::Flag),
    (b"dropChecks", ValueKind::Flag),
    (b"mustCapture", ValueKind::Flag),
    (b"pieceDrops", ValueKind::Flag),
    (b"capturesToHand", ValueKind::Flag),
    (b"firstRankPawnDrops", ValueKind::Flag),
    (b"promotionZonePawnDrops", ValueKind::Flag),
    (b"dropRegionWhite", ValueKind::Region),
    (b"dropRegionBlack", ValueKind::Region),
    (b"dropNoDoubled", ValueKind::Letter),
    (b"immobilityIllegal", ValueKind::Flag),
    (b"gating", ValueKind::Flag),
    (b"seirawanGating", ValueKind::Flag),
    (b"nMoveRule", ValueKind::Number(0, 500)),
    (b"nMoveRuleTypes", ValueKind::Letters),
    (b"nFoldRule", ValueKind::Fold),
    (b"nFoldValue", ValueKind::Result),
    (b"stalemateValue", ValueKind::Result),
    (b"checkmateValue", ValueKind::Result),
    (b"extinctionValue", ValueKind::ResultOrNone),
    (b"extinctionPieceTypes", ValueKind::LettersOrAll),
    (b"extinctionPieceCount", ValueKind::Number(0, 240)),
    (b"extinctionOpponentPieceCount", ValueKind::Number(0, 240)),
    (b"checkCounting", ValueKind::Flag),
    (b"flagPiece", ValueKind::Letter),
    (b"flagRegionWhite", ValueKind::Region),
    (b"flagRegionBlack", ValueKind::Region),
    (b"flyingGeneral", ValueKind::Flag),
    (b"soldierPromotionRank", ValueKind::Number(1, 10)),
];

/// The table of options.
fn options() -> &'static [(&'static [u8], ValueKind)]
    ensures { map row_view result.now ≡ map row_of options }
{
    &OPTIONS
}

fn find_row<'a>(
    rows: &'a [(&'static [u8], ValueKind)],
    key: &[u8],
) -> Option<&'a (&'static [u8], ValueKind)>
    ensures { option_copied result ≡ find (λ row. bytes_eq (row_view row).0 key.now) rows.now }
{
    rows.iter().find(|row| row.0 == key)
}

/// The kind of an option's values, by its key.
#[tactic(auto, unfolding(crate::specs::Options::option_kind))]
pub fn option_kind(key: &[u8]) -> Option<ValueKind>
    ensures { result ≡ option_kind key.now }
{
    match find_row(options(), key) {
        Some(row) => Some(row.1),
        None => is_mobility_key(key).then_some(ValueKind::Region),
    }
}

/// Whether a value is of the kind.
pub fn is_of_kind(alloc: Global, kind: ValueKind, text: &[u8]) -> Result<bool, AllocError>
    ensures { IfOk result (λ is. is ≡ is_some (read kind text.now)) }
{
    Ok(match kind {
        ValueKind::Flag => read_flag(text).is_some(),
        ValueKind::Number(low, high) => number_within(low, high, text).is_some(),
        ValueKind::Fold => read_fold(text).is_some(),
        ValueKind::File => read_file(text).is_some(),
        ValueKind::Result => read_result(text).is_some(),
        ValueKind::ResultOrNone => read_result_or_none(text).is_some(),
        ValueKind::Letter => read_letter(text).is_some(),
        ValueKind::Letters => read_letters(text).is_some(),
        ValueKind::LettersOrAll => read_letters_or_all(text).is_some(),
        ValueKind::Pairs => read_pairs(alloc, text)?.is_some(),
        ValueKind::Region => read_region(alloc, text)?.is_some(),
        ValueKind::Position => true,
    })
}

/// Whether lines with this key are read over.
#[tactic(auto, unfolding(crate::specs::Options::skipped_keys))]
pub fn is_skipped(key: &[u8]) -> bool
    ensures { result ≡ is_skipped key.now }
{
    b"variantTemplate".as_slice() == key
        || b"pieceToCharTable".as_slice() == key
        || b"pocketSize".as_slice() == key
        || b"pieceValueMg".as_slice() == key
        || b"pieceValueEg".as_slice() == key
}
