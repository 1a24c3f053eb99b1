//! What the texts of moves name, in the long algebraic notation of the UCI protocol, with Fairy-Stockfish's drops and
//! gates.
ghost use Rattle.std.specs.Prelude.{◌≡◌, true, IfSome, IfNone};
ghost use Rattle.rules_model.specs.Fit.{IsFit};
ghost use Rattle.rules_model.specs.Sound.{is_sound};
ghost use Rattle.move_text.specs.Names.{Names, NamesNothing};

use crate::read::said;
use rules_model::{Move, Position, Rules};

/// The move that a text names in a position, legal or not: a start, a target, the letter of what a pawn becomes or `+`
/// for another piece, and the letter of a gated kind, as `e2e4`, `a7a8q` or `h2h3+`; a drop is as `N@f3`.
///
/// From the king's castling square to the target of a wing whose right is held the text means the castle, and so does
/// the one from that wing's castling rook to the king with a letter, which is gated on the rook's square. None is the
/// answer where the text has not the form of a move's, or no own piece stands on its start.
pub fn read_move(rules: &Rules, p: &Position, text: &[u8]) -> Option<Move>
    requires fit { IsFit rules.now }
    requires sound { is_sound rules.now p.now ≡ true }
    ensures named { IfSome result (λ m. Names rules.now p.now text.now m) }
    ensures nothing { IfNone result (NamesNothing rules.now p.now text.now) }
{
    said(rules, p, text)
}
