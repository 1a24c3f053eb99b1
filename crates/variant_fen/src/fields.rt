//! The fields of a text.
ghost use Rattle.std.specs.Prelude.{◌≡◌, ◌≤◌, length, take, drop, MatchResult, Ok, Err};
ghost use Rattle.std.specs.Option.{option_map};
ghost use Rattle.std.specs.List.{slice_split};
ghost use Rattle.variant_fen.specs.FieldView.{fields_view};
ghost use Rattle.fen_model.specs.Fields as Fields;

use fen_model::FenFault;
use foundation::{are_digits, cut_at, place_of};
use rules_model::Rules;

/// The most bytes of a text.
const MOST_BYTES: usize = 1024;

/// The texts of what may be left out.
const NO_RIGHTS: &[u8] = b"-";

const NO_SQUARE: &[u8] = b"-";

const NO_CHECKS: &[u8] = b"0+0";

const NO_HALFMOVES: &[u8] = b"0";

const FIRST_NUMBER: &[u8] = b"1";

/// What a text says in each field.
#[derive(Clone, Copy)]
pub(crate) struct FieldTexts<'a> {
    pub board: &'a [u8],
    pub pocket: &'a [u8],
    pub side: &'a [u8],
    pub rights: &'a [u8],
    pub ep: &'a [u8],
    pub checks: &'a [u8],
    pub halfmoves: &'a [u8],
    pub number: &'a [u8],
}

/// The place of the first `[` of the first field, or its end.
#[tactic(auto, unfolding(fen_model::specs::Fields::pocket_place))]
fn pocket_place(placement: &[u8]) -> usize
    ensures is { result ≡ Fields.pocket_place placement.now }
    ensures within { result ≤ length placement.now }
{
    match place_of(placement, b'[') {
        Some(place) => place,
        None => placement.len(),
    }
}

/// The board and the pocket of the first field.
fn cut_pocket(placement: &[u8]) -> (&[u8], &[u8])
    ensures board { result.0.now ≡ take (Fields.pocket_place placement.now) placement.now }
    ensures pocket { result.1.now ≡ drop (Fields.pocket_place placement.now) placement.now }
{
    placement.split_at(pocket_place(placement))
}

/// The fields of a text in a variant that counts no checks: four or six, or else none.
fn cut_plain(text: &[u8]) -> Option<FieldTexts<'_>>
    ensures { Fields.plain_fields (slice_split Fields.is_space text.now) ≡ option_map fields_view result }
{
    let (placement, rest) = cut_at(text, b' ');
    let (side, rest) = cut_at(rest?, b' ');
    let (third, rest) = cut_at(rest?, b' ');
    let (fourth, rest) = cut_at(rest?, b' ');
    let left_out = are_digits(third);
    let (board, pocket) = cut_pocket(placement);
    let mut texts = FieldTexts {
        board,
        pocket,
        side,
        rights: third,
        ep: fourth,
        checks: NO_CHECKS,
        halfmoves: NO_HALFMOVES,
        number: FIRST_NUMBER,
    };
    let Some(counts) = rest else {
        if left_out {
            texts.rights = NO_RIGHTS;
            texts.ep = NO_SQUARE;
            texts.halfmoves = third;
            texts.number = fourth;
        }
        return Some(texts);
    };
    let (halfmoves, rest) = cut_at(counts, b' ');
    let (number, rest) = cut_at(rest?, b' ');
    if left_out || rest.is_some() {
        return None;
    }
    texts.halfmoves = halfmoves;
    texts.number = number;
    Some(texts)
}

/// The fields of a text in a variant that counts checks: five or seven, or else none.
fn cut_counted(text: &[u8]) -> Option<FieldTexts<'_>>
    ensures { Fields.counted_fields (slice_split Fields.is_space text.now) ≡ option_map fields_view result }
{
    let (placement, rest) = cut_at(text, b' ');
    let (side, rest) = cut_at(rest?, b' ');
    let (rights, rest) = cut_at(rest?, b' ');
    let (ep, rest) = cut_at(rest?, b' ');
    let (checks, rest) = cut_at(rest?, b' ');
    let (board, pocket) = cut_pocket(placement);
    let mut texts = FieldTexts {
        board,
        pocket,
        side,
        rights,
        ep,
        checks,
        halfmoves: NO_HALFMOVES,
        number: FIRST_NUMBER,
    };
    let Some(counts) = rest else {
        return Some(texts);
    };
    let (halfmoves, rest) = cut_at(counts, b' ');
    let (number, rest) = cut_at(rest?, b' ');
    if rest.is_some() {
        return None;
    }
    texts.halfmoves = halfmoves;
    texts.number = number;
    Some(texts)
}

fn cut_fields<'a>(rules: &Rules, text: &'a [u8]) -> Option<FieldTexts<'a>>
    ensures { Fields.fields_in rules.now (slice_split Fields.is_space text.now) ≡ option_map fields_view result }
{
    if rules.check_counting {
        cut_counted(text)
    } else {
        cut_plain(text)
    }
}

/// Cuts a text of at most 1,024 bytes into its fields.
#[tactic(auto, unfolding(fen_model::specs::Fields::fields_of))]
pub(crate) fn read_fields<'a>(rules: &Rules, text: &'a [u8]) -> Result<FieldTexts<'a>, FenFault>
    ensures { MatchResult result (λ texts. Fields.fields_of rules.now text.now ≡ Ok (fields_view texts))
        (λ fault. Fields.fields_of rules.now text.now ≡ Err fault) }
{
    if text.len() > MOST_BYTES {
        return Err(FenFault::Length);
    }
    cut_fields(rules, text).ok_or(FenFault::Length)
}
