//! Forced wins by the rules of play, over games with their whole history (`Story`) and for either side as the attacker.
//!
//! How a game stands is said by the laws of `rules_model`, in `game_laws`, and what stays sound by `sound_play`: these
//! laws use them, and open no definition of the rules.
ghost use Rattle.std.specs.Prelude.{◌≡◌, ℕ, ◌≤◌, List, true};
ghost use Rattle.rules_model.specs.declared.board.Position.{Position};
ghost use Rattle.rules_model.specs.declared.board.Repeat.{Repeat};
ghost use Rattle.rules_model.specs.declared.board.Side.{Side};
ghost use Rattle.rules_model.specs.declared.moves.Move.{Move};
ghost use Rattle.rules_model.specs.declared.rules.Rules.{Rules};
ghost use Rattle.rules_model.specs.Fit.{IsFit};
ghost use Rattle.rules_model.specs.Games.{Story};
ghost use Rattle.forced_wins.specs.declared.fact.Fact.{Fact};
ghost use Rattle.forced_wins.specs.RuleSentences.{AreTrueFacts, GoodIsGood, GoodStrategiesWin, HasSoundStrategies, HasStrategies, IsAnyGame, IsLower, MeansTheSame, NearSentences, RootSentences, TruthFollows, TruthIsKept, WasPlayed, WinSentences, WinsAreNear, WinsGrow};
ghost use Rattle.forced_wins.specs.Tables.{Accessors};
ghost use Rattle.forced_wins.specs.Wins.{near};

/// The sentences on wins: a game that has ended is won exactly by a win of the attacker that is no repetition; with no
/// move left the attacker wins no ongoing game where he is to move; else he needs some legal move; and each legal move
/// of the other side must leave the game won.
pub fn wins_are_a_bounded_recursion()
    ensures { (rules : Rules) (n : ℕ) (g : Story) (a : Side) → WinSentences rules n g a }
{}

/// The sentences on near wins of a position: an end by itself decides; else a barred repeat or a counter that has run
/// out is lost; else the moves decide, as for wins.
pub fn near_wins_are_a_bounded_recursion()
    ensures { (rules : Rules) (n : ℕ) (p : Position) (b : List Repeat) (a : Side) → NearSentences rules n p b a }
{}

/// The sentences on near wins of a game: its own result decides where it has ended; else what follows the first move is
/// looked at without history, and the repeats that the game has used up are barred. Where the root's repeat is not one
/// of these, a near win of the game is one of its last position.
pub fn near_wins_of_games_look_past_the_root()
    ensures { (rules : Rules) (n : ℕ) (g : Story) (a : Side) → RootSentences rules n g a }
{}

/// A good strategy beats every legal defence within n moves by the rules, whatever the history of the game.
pub fn good_strategies_win<N, E>()
    ensures { (rules : Rules) (tb : Accessors Position Move N E) → GoodStrategiesWin rules tb }
{}

/// A win is a near win, and where the counter cannot run out the two are equal.
pub fn wins_are_near_wins()
    ensures { (rules : Rules) (n : ℕ) (g : Story) (a : Side) → WinsAreNear rules n g a }
{}

/// What is won within some number of moves is won within more: games with their history and without, and positions.
pub fn more_moves_do_no_harm()
    ensures { (rules : Rules) (a : Side) (k n : ℕ) → k ≤ n → WinsGrow rules a k n }
{}

/// A near win stays one at each lower counter of its repeat.
pub fn lower_counters_do_no_harm()
    ensures { (rules : Rules) (n : ℕ) (p q : Position) (b : List Repeat) (a : Side) → IsLower p q →
        near rules n p b a ≡ true → near rules n q b a ≡ true }
{}

/// What derives from true facts is true, and so is a fact that is grounded on them.
pub fn derived_facts_are_true()
    ensures { (rules : Rules) (b : List Repeat) (a : Side) (known : List Fact) →
        AreTrueFacts rules b a known → TruthFollows rules b a known }
{}

/// A winning fact stays true where every barred repeat was barred before, a refuting one where those that were barred
/// still are.
pub fn kept_facts_are_true()
    ensures { (rules : Rules) (a : Side) (old new : List Repeat) (f : Fact) → TruthIsKept rules a old new f }
{}

/// Where the counter cannot run out, a good strategy exists exactly where the game is won. A near win has a good
/// strategy, or it is unsettled: the counter can run out, and some repeat stands on winning lines at too many counters.
/// Where the rules fit, such a strategy can be written with sound positions alone, each with the number 1.
pub fn won_games_have_good_strategies()
    ensures exist { (rules : Rules) (n : ℕ) (g : Story) (a : Side) → WasPlayed rules g → HasStrategies rules n g a }
    ensures sound { (rules : Rules) (n : ℕ) (g : Story) (a : Side) → IsFit rules → WasPlayed rules g →
        HasSoundStrategies rules n g a }
{}

/// The rules of play are a game as `any_game` has them: they meet its laws, its wins and near wins are those by the
/// rules, and evidence and good strategies there are evidence and good strategies here.
pub fn rules_of_play_are_a_game<N, E>()
    ensures game { (rules : Rules) (a : Side) → IsAnyGame rules a }
    ensures wins { (rules : Rules) (n : ℕ) (g : Story) (a : Side) → MeansTheSame rules n g a }
    ensures strategies { (rules : Rules) (tb : Accessors Position Move N E) → GoodIsGood rules tb }
{}
