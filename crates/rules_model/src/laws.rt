//! What the layers above know of the rules without opening a definition. Each law is the contract of a call that does
//! nothing.
ghost use Rattle.std.specs.Prelude.{◌≡◌, ◌↔◌, ℕ, ◌+◌, ◌<◌, ◌≤◌, Bool, true, false, not, List, []};
ghost use Rattle.std.specs.Bool.{Decides};
ghost use Rattle.std.specs.List.Sorted.{IsStrictlySortedBy};
ghost use Rattle.foundation.specs.Member.{Member, IsEachOnce};
ghost use Rattle.rules_model.specs.declared.board.Position.{Position};
ghost use Rattle.rules_model.specs.declared.board.Repeat.{Repeat};
ghost use Rattle.rules_model.specs.declared.board.Side.TheVariants.{White, Black};
ghost use Rattle.rules_model.specs.declared.board.Square.{Square};
ghost use Rattle.rules_model.specs.declared.moves.Move.{Move};
ghost use Rattle.rules_model.specs.declared.rules.Rules.{Rules};
ghost use Rattle.rules_model.specs.Repeats.{repeat_of};
ghost use Rattle.rules_model.specs.Sides.{other};
ghost use Rattle.rules_model.specs.Squares.{square_on, file_of, rank_of};
ghost use Rattle.rules_model.specs.Moves.{IsFitMove, same_move};
ghost use Rattle.rules_model.specs.MoveText.{move_cmp, text_of};
ghost use Rattle.rules_model.specs.Next.{next, next_repeat, next_counter};
ghost use Rattle.rules_model.specs.Ends.{is_ongoing, early_end};
ghost use Rattle.rules_model.specs.Legal.{legal, is_stuck, own_end};
ghost use Rattle.rules_model.specs.Allowed.{is_legal};
ghost use Rattle.rules_model.specs.Games.{same_repeat, are_legal};
ghost use Rattle.rules_model.specs.Sizes.{HasSizes, has_sizes};
ghost use Rattle.rules_model.specs.Sound.{is_sound_repeat};
ghost use Rattle.rules_model.specs.Fit.{IsFit};
ghost use Rattle.rules_model.specs.Promised.{IsMoveOf, ReachStaysOnBoard};

/// A square is its file and its rank, and the squares of the largest board are those below 120.
pub fn squares_are_files_and_ranks()
    ensures whole { (s : Square) → square_on (file_of s) (rank_of s) ≡ s }
    ensures file { (file rank : ℕ) → file < 12 → file_of (square_on file rank) ≡ file }
    ensures rank { (file rank : ℕ) → file < 12 → rank_of (square_on file rank) ≡ rank }
    ensures below { (file rank : ℕ) → file < 12 → rank < 10 → (square_on file rank).0 < 120 }
    ensures file_below { (s : Square) → file_of s < 12 }
    ensures rank_below { (s : Square) → s.0 < 120 → rank_of s < 10 }
{}

/// Whether two repeats are one, and two moves, is decided by a test.
pub fn equality_is_tested()
    ensures repeats { (a b : Repeat) → Decides (same_repeat a b) (a ≡ b) }
    ensures moves { (a b : Move) → Decides (same_move a b) (a ≡ b) }
{}

/// The legal moves, the end by itself and the side to move are the same in positions that differ in their counts alone.
pub fn counts_change_no_move()
    ensures moves { (rules : Rules) (p q : Position) → repeat_of p ≡ repeat_of q
        → legal rules (repeat_of p) ≡ legal rules (repeat_of q) }
    ensures ends { (rules : Rules) (p q : Position) → repeat_of p ≡ repeat_of q
        → own_end rules (repeat_of p) ≡ own_end rules (repeat_of q) }
    ensures sides { (p q : Position) → repeat_of p ≡ repeat_of q → p.side ≡ q.side }
{}

/// What the next position takes from the repeat, and that every move, legal or not, gives the other side the move.
pub fn next_position_follows()
    ensures repeats { (rules : Rules) (p : Position) (m : Move)
        → repeat_of (next rules p m) ≡ next_repeat rules (repeat_of p) m }
    ensures sides { (rules : Rules) (p : Position) (m : Move) → (next rules p m).side ≡ other p.side }
    ensures sides_of_repeats { (rules : Rules) (r : Repeat) (m : Move) → (next_repeat rules r m).side ≡ other r.side }
{}

/// How the counter of plies goes on: at one repeat and move it keeps the order of counters, and it rises by at most
/// one.
pub fn counter_goes_on()
    ensures is { (rules : Rules) (p : Position) (m : Move)
        → (next rules p m).counter ≡ next_counter rules (repeat_of p) m p.counter }
    ensures keeps_order { (rules : Rules) (r : Repeat) (m : Move) (c d : ℕ) → c ≤ d
        → next_counter rules r m c ≤ next_counter rules r m d }
    ensures rises { (rules : Rules) (r : Repeat) (m : Move) (c : ℕ) → next_counter rules r m c ≤ c + 1 }
    ensures stays_in_range { (rules : Rules) (r : Repeat) (m : Move) (c : ℕ) → c ≤ 9999
        → next_counter rules r m c ≤ 9999 }
{}

/// The number of the move rises after Black's move, up to 9,999.
pub fn number_goes_on()
    ensures white { (rules : Rules) (p : Position) (m : Move) → p.side ≡ White → (next rules p m).number ≡ p.number }
    ensures black { (rules : Rules) (p : Position) (m : Move) → p.side ≡ Black → p.number < 9999
        → (next rules p m).number ≡ p.number + 1 }
    ensures last { (rules : Rules) (p : Position) (m : Move) → p.side ≡ Black → 9999 ≤ p.number
        → (next rules p m).number ≡ p.number }
{}

/// The legal list is in the order of the moves' texts, has no move twice, and has exactly the legal moves.
pub fn legal_list_is_one()
    ensures ordered { (rules : Rules) (r : Repeat) → IsStrictlySortedBy move_cmp (legal rules r) }
    ensures once { (rules : Rules) (r : Repeat) → IsEachOnce (legal rules r) }
    ensures members { (rules : Rules) (r : Repeat) (m : Move)
        → Member m (legal rules r) ↔ (IsFitMove m × (is_legal rules r m ≡ true)) }
    ensures one { (xs ys : List Move) → IsStrictlySortedBy move_cmp xs → IsStrictlySortedBy move_cmp ys
        → ((m : Move) → Member m xs ↔ Member m ys) → xs ≡ ys }
{}

/// A position has an end by itself exactly where no move is legal there, and a game goes on behind it with no move.
pub fn ends_have_no_move()
    ensures exactly { (rules : Rules) (r : Repeat) → is_ongoing (own_end rules r) ≡ not (is_stuck rules r) }
    ensures none { (rules : Rules) (r : Repeat) → is_ongoing (own_end rules r) ≡ false → legal rules r ≡ [] }
    ensures early { (rules : Rules) (r : Repeat) → is_ongoing (early_end rules r) ≡ false → legal rules r ≡ [] }
    ensures games { (rules : Rules) (p : Position) (ms : List Move) → is_ongoing (own_end rules (repeat_of p)) ≡ false
        → are_legal rules p ms ≡ true → ms ≡ [] }
{}

/// The legal moves of a sound position go between squares of the variant's board, and name kinds of the variant alone.
pub fn legal_moves_are_the_variants()
    ensures { (rules : Rules) (r : Repeat) (m : Move) → IsFit rules → is_sound_repeat rules r ≡ true
        → Member m (legal rules r) → IsMoveOf rules m }
{}

/// Two legal moves of a sound position never have one text.
pub fn texts_of_legal_moves_differ()
    ensures { (rules : Rules) (r : Repeat) (x y : Move) → IsFit rules → is_sound_repeat rules r ≡ true
        → Member x (legal rules r) → Member y (legal rules r) → text_of x ≡ text_of y → x ≡ y }
{}

/// What a kind reaches lies on the variant's board, by whatever terms.
pub fn reached_squares_are_on_board()
    ensures { (rules : Rules) → IsFit rules → ReachStaysOnBoard rules }
{}

/// The lists of a sound position are as long as its fields, and a test decides that.
pub fn sound_positions_have_sizes()
    ensures tested { (r : Repeat) → Decides (has_sizes r) (HasSizes r) }
    ensures sound { (rules : Rules) (r : Repeat) → is_sound_repeat rules r ≡ true → HasSizes r }
{}
