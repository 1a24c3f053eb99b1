//! What is owed of keys.
ghost use Rattle.std.specs.Prelude.{◌≡◌, true};
ghost use Rattle.rules_model.specs.declared.board.Repeat.{Repeat};
ghost use Rattle.rules_model.specs.Games.{same_repeat};
ghost use Rattle.position_key.specs.Key as Key;

/// Positions that repeat each other have equal keys.
pub fn equal_repeats_have_equal_keys()
    ensures { (a b : Repeat) → same_repeat a b ≡ true → Key.key_of a ≡ Key.key_of b }
{}
