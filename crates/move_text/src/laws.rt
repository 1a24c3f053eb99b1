//! What is known of the moves that texts name. Each law is the contract of a call that does nothing.
ghost use Rattle.std.specs.Prelude.{◌≡◌, List, ℕ, true};
ghost use Rattle.foundation.specs.Member.{Member};
ghost use Rattle.rules_model.specs.declared.board.Position.{Position};
ghost use Rattle.rules_model.specs.declared.moves.Move.{Move};
ghost use Rattle.rules_model.specs.declared.rules.Rules.{Rules};
ghost use Rattle.rules_model.specs.Fit.{IsFit};
ghost use Rattle.rules_model.specs.Legal.{legal};
ghost use Rattle.rules_model.specs.MoveText.{text_of};
ghost use Rattle.rules_model.specs.Repeats.{repeat_of};
ghost use Rattle.rules_model.specs.Sound.{is_sound};
ghost use Rattle.move_text.specs.Form.{HasForm};
ghost use Rattle.move_text.specs.Names.{Names};

/// A text names at most one move in a sound position.
pub fn text_names_one_move()
    ensures one { (rules : Rules) (p : Position) (text : List ℕ) (m n : Move) → IsFit rules → is_sound rules p ≡ true
        → Names rules p text m → Names rules p text n → m ≡ n }
{}

/// Each legal move of a sound position is named by its text.
pub fn legal_moves_are_named()
    ensures named { (rules : Rules) (p : Position) (m : Move) → IsFit rules → is_sound rules p ≡ true
        → Member m (legal rules (repeat_of p)) → Names rules p (text_of m) m }
{}

/// A text names a move exactly where it has the form of a move's text: it is that of a drop, or two squares with what
/// may follow them, and an own piece stands on the first.
pub fn texts_of_the_form_name()
    ensures form { (rules : Rules) (p : Position) (text : List ℕ) (m : Move) → IsFit rules → is_sound rules p ≡ true
        → Names rules p text m → HasForm rules p text }
    ensures named { (rules : Rules) (p : Position) (text : List ℕ) → IsFit rules → is_sound rules p ≡ true
        → HasForm rules p text → (m : Move) × Names rules p text m }
{}
