//! Whether the move-count rule could end a game while it is searched.
ghost use Rattle.std.specs.Prelude.{◌≡◌};
ghost use Rattle.mate_search.specs.Least as Least;

use rules_model::{Position, Rules};

/// Whether the move-count rule could end the game within n moves of the side that is to move in the position.
pub fn is_counted(rules: &Rules, n: u16, p: &Position) -> bool
    ensures { result ≡ Least.is_counted rules.now n p.now }
{
    let limit = 2 * u32::from(rules.n_move);
    rules.n_move != 0 && limit <= u32::from(p.counter) + 2 * u32::from(n)
}
