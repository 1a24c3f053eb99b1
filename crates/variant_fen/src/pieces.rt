//! The letter of a piece and its marks.
ghost use Rattle.std.specs.Prelude.{◌≡◌, ◌<◌, length, IfSome, IfNone, Err};
ghost use Rattle.std.specs.List.{prefix_len};
ghost use Rattle.fen_model.specs.Board as Board;
ghost use Rattle.foundation.specs.Numbers.{is_digit};
ghost use Rattle.fen_model.specs.Tokens.{tokens_of};
ghost use Rattle.fen_model.specs.declared.fault.FenFault.TheVariants.{Letter};
ghost use Rattle.rules_model.specs.Kinds as Kinds;
ghost use Rattle.variant_fen.specs.Pieces.{byte_cell, piece_first};

use crate::cut::cut_mark;
use rules_model::kinds::{has_kind, masks, promoted_of};
use rules_model::{Cell, Kind, Rules, Side};

/// A piece of the kind, where the variant has it.
fn plain_cell(rules: &Rules, side: Side, kind: Kind) -> Option<Cell>
    ensures { result ≡ Board.plain_cell rules.now side kind }
{
    if has_kind(rules, kind) {
        Some(Cell {
            side,
            kind,
            origin: None,
        })
    } else {
        None
    }
}

/// The promoted kind of the origin, where it has one.
fn promoted_cell(rules: &Rules, side: Side, origin: Kind) -> Option<Cell>
    ensures { result ≡ Board.promoted_cell rules.now side origin (Kinds.promoted_of rules.now origin) }
{
    let kind = promoted_of(rules, origin)?;
    Some(Cell {
        side,
        kind,
        origin: Some(origin),
    })
}

/// A promoted pawn, where takings go to hands and pawns become the kind.
fn pawn_cell(rules: &Rules, side: Side, kind: Kind) -> Option<Cell>
    ensures { result ≡ Board.pawn_cell rules.now side kind rules.now.pawn }
{
    let pawn = rules.pawn?;
    if rules.to_hand && has_kind(rules, kind) && masks(&rules.promotion_kinds, kind) {
        Some(Cell {
            side,
            kind,
            origin: Some(pawn),
        })
    } else {
        None
    }
}

/// The piece of a letter with the marks `+` before it and `~` after it: White's letters are the upper case ones.
fn byte_cell(rules: &Rules, plus: bool, byte: u8, tilde: bool) -> Option<Cell>
    ensures { result ≡ byte_cell rules.now plus byte tilde }
{
    let (side, letter) = match byte {
        b'A'..=b'Z' => (Side::White, byte - b'A'),
        b'a'..=b'z' => (Side::Black, byte - b'a'),
        _ => return None,
    };
    let kind = Kind(letter);
    match (plus, tilde) {
        (false, false) => plain_cell(rules, side, kind),
        (true, false) => promoted_cell(rules, side, kind),
        (false, true) => pawn_cell(rules, side, kind),
        (true, true) => None,
    }
}

/// The piece at the front of a text, and what follows it. The text begins with no digit.
pub(crate) fn cut_piece<'a>(rules: &Rules, text: &'a [u8]) -> Option<(Cell, &'a [u8])>
    requires some { 0 < length text.now }
    requires no_digit { prefix_len is_digit text.now ≡ 0 }
    ensures said { IfSome result (λ r. Board.squares_of rules.now (tokens_of text.now)
        ≡ piece_first rules.now r.0 r.1.now) }
    ensures shorter { IfSome result (λ r. length r.1.now < length text.now) }
    ensures fault { IfNone result (Board.squares_of rules.now (tokens_of text.now) ≡ Err Letter) }
{
    let (plus, unmarked) = cut_mark(text, b'+');
    let (letter, rest) = unmarked.split_first()?;
    let (tilde, rest) = cut_mark(rest, b'~');
    let cell = byte_cell(rules, plus, *letter, tilde)?;
    Some((cell, rest))
}
