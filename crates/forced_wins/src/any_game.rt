//! Forced wins in any game of two sides: `P` are its positions, `R` what a repetition compares, `M` its moves.
//!
//! A `Game` is the rules as the side that attacks sees them, and `GameLaws` is all that the laws ask of them.
//! `forced` counts the attacker's own moves; a win with the history of the game is `wins`, and one from a position
//! alone, where some repeats are barred to the attacker, is `near`.
ghost use Rattle.std.specs.Prelude.{◌≡◌, ℕ, ◌≤◌, Bool, true, false, Some, None};
ghost use Rattle.forced_wins.specs.Contests.{Contest, forced};
ghost use Rattle.forced_wins.specs.Games.{Game, GameLaws, TableLaws, Story, IsPlayed};
ghost use Rattle.forced_wins.specs.Sentences.{TakesTurns, GoesByMoves, NearWinsStay, LooksPastRoot, WinsAreNear, ClaimsDerive, GoodStrategiesWin, HasStrategies};
ghost use Rattle.forced_wins.specs.Tables.{Accessors};

/// The sentences of a forced win, whatever the states `X` are, where the sides take turns: an ended state has its
/// result; without a move of his own the attacker wins no ongoing state where he is to move; else he needs some move
/// that wins by one move less; and each move of the other side must leave it won.
pub fn a_forced_win_is_a_bounded_recursion<X, M>()
    ensures ended { (g : Contest X M) (n : ℕ) (x : X) (won : Bool) → g.end x ≡ Some won → forced g n x ≡ won }
    ensures no_move { (g : Contest X M) (x : X) → g.end x ≡ None → g.attacking x ≡ true → forced g 0 x ≡ false }
    ensures moves { (g : Contest X M) → TakesTurns g → GoesByMoves X M g }
{}

/// A forced win stays one with more moves.
pub fn more_moves_do_no_harm<X, M>()
    ensures { (g : Contest X M) → TakesTurns g → (k n : ℕ) (x : X) → k ≤ n → forced g k x ≡ true → forced g n x ≡ true }
{}

/// A near win is one at each lower counter of the same repeat, and where fewer repeats are barred.
pub fn a_lower_counter_does_no_harm<P, R, M>()
    ensures { (r : Game P R M) → GameLaws P R M r → (n : ℕ) → NearWinsStay P R M r n }
{}

/// A near win of a game stays one with more moves, and where the root's repeat is not barred it is one of the root's
/// position.
pub fn a_near_win_of_a_game_looks_past_its_root<P, R, M>()
    ensures { (r : Game P R M) → GameLaws P R M r → (g : Story P) → LooksPastRoot P R M r g }
{}

/// A table of nodes in which no fault is found wins against every legal defence, with the whole history of the game.
pub fn a_good_strategy_wins<P, R, M, N, E>()
    ensures { (r : Game P R M) (tb : Accessors P M N E) → GameLaws P R M r → GoodStrategiesWin r tb }
{}

/// Wins with the history are near wins, and where the counter cannot run out the two are one.
pub fn a_win_is_a_near_win<P, R, M>()
    ensures { (r : Game P R M) → GameLaws P R M r → (n : ℕ) (g : Story P) → WinsAreNear P R M r n g }
{}

/// What follows of a repeat from what holds of those that its moves lead to: the six ways in which facts derive.
pub fn derived_claims_hold<P, R, M>()
    ensures { (r : Game P R M) → GameLaws P R M r → (barred : R → Bool) (p : P) → ClaimsDerive P R M r barred p }
{}

/// Where the counter cannot run out, a good strategy exists exactly where the game is won. A near win has a good
/// strategy, or it is unsettled: near the limit, some repeat stands on won lines at too many counters.
pub fn a_win_has_a_good_strategy<P, R, M>()
    ensures { (r : Game P R M) → TableLaws P R M r → (n : ℕ) (g : Story P) → IsPlayed r g → HasStrategies P R M r n g }
{}
