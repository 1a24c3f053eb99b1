//! What the layers above know of games and their results without opening a definition. Each law is the contract of a
//! call that does nothing.
ghost use Rattle.std.specs.Prelude.{◌≡◌, ℕ, ◌+◌, ◌*◌, ◌<◌, ◌≤◌, true, false, List, [], ◌∷◌};
ghost use Rattle.std.specs.Bool.{Decides};
ghost use Rattle.foundation.specs.Member.{Member};
ghost use Rattle.rules_model.specs.declared.board.Position.{Position};
ghost use Rattle.rules_model.specs.declared.board.Repeat.{Repeat};
ghost use Rattle.rules_model.specs.declared.moves.Cause.TheVariants.{Checkmate, Stalemate, Repetition, MoveCount};
ghost use Rattle.rules_model.specs.declared.moves.Move.{Move};
ghost use Rattle.rules_model.specs.declared.moves.Outcome.TheVariants.{Ongoing, Drawn};
ghost use Rattle.rules_model.specs.declared.rules.Rules.{Rules};
ghost use Rattle.rules_model.specs.Repeats.{repeat_of};
ghost use Rattle.rules_model.specs.Attacks.{king_attacked};
ghost use Rattle.rules_model.specs.Next.{next};
ghost use Rattle.rules_model.specs.Ends.{is_ongoing, valued, early_end};
ghost use Rattle.rules_model.specs.Legal.{legal, is_stuck, own_end};
ghost use Rattle.rules_model.specs.Games as Games;
ghost use Rattle.rules_model.specs.Games.{times, are_legal, Story, history, played, story_from, is_repeated, is_run_out};

/// A game goes on move by move, and every one of its moves is legal in its turn.
pub fn games_go_on_by_moves()
    ensures no_move { (rules : Rules) (g : Story) → story_from rules g [] ≡ g }
    ensures one_more { (rules : Rules) (g : Story) (m : Move) (ms : List Move)
        → story_from rules g (m ∷ ms) ≡ story_from rules (played rules g m) ms }
    ensures none_illegal { (rules : Rules) (p : Position) → are_legal rules p [] ≡ true }
    ensures each_legal { (rules : Rules) (p : Position) (m : Move) (ms : List Move)
        → Decides (are_legal rules p (m ∷ ms))
        (Member m (legal rules (repeat_of p)) × (are_legal rules (next rules p m) ms ≡ true)) }
{}

/// How often a repeat stands among positions: once for each position that has it.
pub fn standings_are_counted()
    ensures none { (r : Repeat) → times r [] ≡ 0 }
    ensures here { (r : Repeat) (p : Position) (ps : List Position) → repeat_of p ≡ r
        → times r (p ∷ ps) ≡ times r ps + 1 }
    ensures elsewhere { (r : Repeat) (p : Position) (ps : List Position) → (repeat_of p ≡ r → ⊥)
        → times r (p ∷ ps) ≡ times r ps }
{}

/// A game is repeated where the repetition rule is on and the repeat of the last position has stood in the game, that
/// position included, as often as the rule says.
pub fn repetition_is_counted()
    ensures { (rules : Rules) (g : Story)
        → Decides (is_repeated rules g) ((0 < rules.n_fold) × (rules.n_fold ≤ times (repeat_of g.last) (history g))) }
{}

/// A counter of plies has run out where the move-count rule is on and the counter has two plies for each of its moves.
pub fn counter_runs_out()
    ensures { (rules : Rules) (c : ℕ) → Decides (is_run_out rules c) ((0 < rules.n_move) × (2 * rules.n_move ≤ c)) }
{}

/// How a position ends by itself: by an early end; else, where no move is legal, by checkmate or stalemate, as its king
/// is attacked or not; and not at all where some move is legal.
pub fn position_ends_by_itself()
    ensures early { (rules : Rules) (r : Repeat) → is_ongoing (early_end rules r) ≡ false
        → own_end rules r ≡ early_end rules r }
    ensures checkmate { (rules : Rules) (r : Repeat) → is_ongoing (early_end rules r) ≡ true → is_stuck rules r ≡ true
        → king_attacked rules r.cells r.side ≡ true → own_end rules r ≡ valued rules.checkmate r.side Checkmate }
    ensures stalemate { (rules : Rules) (r : Repeat) → is_ongoing (early_end rules r) ≡ true → is_stuck rules r ≡ true
        → king_attacked rules r.cells r.side ≡ false → own_end rules r ≡ valued rules.stalemate r.side Stalemate }
    ensures ongoing { (rules : Rules) (r : Repeat) → is_stuck rules r ≡ false → own_end rules r ≡ Ongoing }
{}

/// The result of a game, the first that holds: an early end; no legal move, as checkmate or stalemate; repetition; the
/// move count; else it is ongoing. Where some move is legal there is no early end, so the last three do not ask for
/// that.
pub fn result_is_the_first_that_holds()
    ensures early { (rules : Rules) (g : Story) → is_ongoing (early_end rules (repeat_of g.last)) ≡ false
        → Games.result rules g ≡ early_end rules (repeat_of g.last) }
    ensures checkmate { (rules : Rules) (g : Story) → is_ongoing (early_end rules (repeat_of g.last)) ≡ true
        → is_stuck rules (repeat_of g.last) ≡ true → king_attacked rules g.last.cells g.last.side ≡ true
        → Games.result rules g ≡ valued rules.checkmate g.last.side Checkmate }
    ensures stalemate { (rules : Rules) (g : Story) → is_ongoing (early_end rules (repeat_of g.last)) ≡ true
        → is_stuck rules (repeat_of g.last) ≡ true → king_attacked rules g.last.cells g.last.side ≡ false
        → Games.result rules g ≡ valued rules.stalemate g.last.side Stalemate }
    ensures repetition { (rules : Rules) (g : Story) → is_stuck rules (repeat_of g.last) ≡ false
        → is_repeated rules g ≡ true → Games.result rules g ≡ valued rules.n_fold_value g.last.side Repetition }
    ensures move_count { (rules : Rules) (g : Story) → is_stuck rules (repeat_of g.last) ≡ false
        → is_repeated rules g ≡ false → is_run_out rules g.last.counter ≡ true
        → Games.result rules g ≡ Drawn MoveCount }
    ensures ongoing { (rules : Rules) (g : Story) → is_stuck rules (repeat_of g.last) ≡ false
        → is_repeated rules g ≡ false → is_run_out rules g.last.counter ≡ false → Games.result rules g ≡ Ongoing }
    ensures by_itself { (rules : Rules) (g : Story) → is_stuck rules (repeat_of g.last) ≡ true
        → Games.result rules g ≡ own_end rules (repeat_of g.last) }
{}
