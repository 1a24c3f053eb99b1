//! What texts of moves play, as a law.
ghost use Rattle.std.specs.Prelude.{◌≡◌, ◌↔◌, ℕ, List, Some};
ghost use Rattle.foundation.specs.Member.{Member};
ghost use Rattle.rules_model.specs.declared.moves.Move.{Move};
ghost use Rattle.move_text.specs.Names.{Names};
ghost use Rattle.game_play.specs.Played.{IsPlayed, Played, legal_in, story};
ghost use Rattle.game_text.specs.Playing.{move_of};

/// In a game, a text plays the legal move that it names: exactly this one, and no other.
pub fn texts_play_the_moves_that_they_name()
    ensures law { (g : Played) (text : List ℕ) (m : Move) → IsPlayed g
        → (move_of g text ≡ Some m) ↔ (Names g.rules (story g).last text m × Member m (legal_in g)) }
{}
