ghost use Rattle.std.specs.Prelude.{◌≡◌, true};
ghost use Rattle.rules_model.specs.Fit.{IsFit};
ghost use Rattle.rules_model.specs.Sound.{is_sound};

use super::chess::chess;
use rules_model::Rules;

/// Chess on twelve files, with regions of eight: from a7 to h7 a pawn promotes, and from i7 where it takes.
pub fn wide_chess() -> Rules
    ensures fit { IsFit result }
    ensures start { is_sound result result.start ≡ true }
{
    let mut rules = chess();
    rules.files = 12;
    rules
}
