//! Reading a text as a whole.
ghost use Rattle.std.specs.Prelude.{◌≡◌};
ghost use Rattle.rules_model.specs.Fit.{IsFit};
ghost use Rattle.fen_model.specs.Reading.{said_by};
ghost use Rattle.variant_fen.specs.FieldView.{fields_view};

use crate::board::read_board;
use crate::counts::{read_checks, read_side};
use crate::fields::FieldTexts;
use crate::held::read_held;
use crate::judge::judge;
use crate::number::read_count;
use crate::passed::read_passed;
use crate::pocket::read_pocket;
use fen_model::FenFault;
use rules_model::{Position, Rules};

/// Reads the fields of a text, in their order.
pub(crate) fn read_position(rules: &Rules, texts: FieldTexts<'_>) -> Result<Position, FenFault>
    requires { IsFit rules.now }
    ensures { result ≡ said_by rules.now (fields_view texts.entry) }
{
    let mut cells = [None; 120];
    read_board(rules, texts.board, &mut cells)?;
    let hands = read_pocket(rules, texts.pocket)?;
    let side = read_side(texts.side)?;
    let held = read_held(rules, &cells, texts.rights)?;
    let ep = read_passed(rules, &cells, side, texts.ep)?;
    let checks = read_checks(texts.checks)?;
    let counter = read_count(texts.halfmoves)?;
    let number = read_count(texts.number)?.max(1);
    let p = Position {
        cells,
        hands,
        gates: held.gates,
        counter,
        number,
        rights: held.rights,
        checks,
        ep,
        side,
    };
    judge(rules, &p)?;
    Ok(p)
}
