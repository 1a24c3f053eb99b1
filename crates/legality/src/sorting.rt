//! The order of a list of moves.
ghost use Rattle.std.specs.Prelude.{OnOk};
ghost use Rattle.std.specs.List.Sorted.{IsPermutation, IsStrictlySortedBy};
ghost use Rattle.foundation.specs.Member.{IsEachOnce};
ghost use Rattle.rules_model.specs.MoveText.{move_cmp};
ghost use Rattle.legality.specs.Texts.{AreFit, TextsDiffer};

use foundation::Memory;
use move_text::move_key;
use rules_model::Move;

/// Sorts the moves by their texts, of which no two are one. The key of each is made once.
pub(crate) fn sort_moves(moves: &mut Vec<Move>) -> Result<(), Memory>
    requires once { IsEachOnce moves.old.items }
    requires fit { AreFit moves.old.items }
    requires texts { TextsDiffer moves.old.items }
    ensures same { IsPermutation moves.old.items moves.new.items }
    ensures sorted { OnOk result (IsStrictlySortedBy move_cmp moves.new.items) }
{
    moves.sort_by_cached_key(move_key)?;
    Ok(())
}
