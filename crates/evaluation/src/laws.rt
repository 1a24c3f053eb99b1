//! Laws of the definitions in specs/.
ghost use Rattle.std.specs.Prelude.{◌≡◌, ℕ, Some};
ghost use Rattle.std.specs.Prelude.{ℤ, ◌≤◌};
ghost use Rattle.rules_model.specs.declared.rules.Rules.{Rules};
ghost use Rattle.evaluation.specs.Laws.{IsAttained, LargeScoresAreEnds, MatesAreNear, PlayLaws, QuietValuesAreScores, RootsAreASet, RootsAreLines, RootsAttain, RootValuesAreScores, TreesGrow, ValuesAreScores, Within};
ghost use Rattle.evaluation.specs.Values.{play, Play, quiet, tree, value};

/// Games by the rules of play meet what the laws ask of a game: an ended game is drawn or won, and an ongoing one has
/// a legal move.
pub fn games_are_play()
    ensures { (rules : Rules) → PlayLaws (play rules) }
{}

/// An ended state has the value of its end, however deep one looks.
pub fn ended_states_have_the_value_of_their_end<X, M>()
    ensures values { (g : Play X M) (depth ply : ℕ) (x : X) (v : ℤ) → g.ended x ply ≡ Some v → value g depth ply x ≡ v }
    ensures quiet_values { (g : Play X M) (limit ply : ℕ) (x : X) (v : ℤ) → g.ended x ply ≡ Some v
        → quiet g limit ply x ≡ v }
{}

/// A value is from -30,000 to 30,000, or it is that of an end that is no further from the root than the depth and
/// four captures.
pub fn values_are_scores<X, M>()
    ensures quiet_values { (g : Play X M) → PlayLaws g → QuietValuesAreScores g }
    ensures values { (g : Play X M) → PlayLaws g → ValuesAreScores g }
    ensures roots { (g : Play X M) → PlayLaws g → RootValuesAreScores g }
{}

/// No value leaves the range from -32,001 to 32,001.
pub fn values_stay_in_range<X, M>()
    ensures quiet_values { (g : Play X M) → PlayLaws g → (limit ply : ℕ) (x : X) → Within (quiet g limit ply x) }
    ensures values { (g : Play X M) → PlayLaws g → (depth ply : ℕ) (x : X) → Within (value g depth ply x) }
{}

/// Where there is a root move, some root move attains the value.
pub fn some_root_move_attains_the_value<X, M>()
    ensures any_game { (g : Play X M) → PlayLaws g → RootsAttain g }
    ensures by_rules { IsAttained }
{}

/// Neither the order of the root moves nor how often they are in the list changes the value.
pub fn roots_are_a_set<X, M>()
    ensures { (g : Play X M) → RootsAreASet g }
{}

/// There is at least one line, there are more of more moves, and those that begin with different root moves are
/// different.
pub fn trees_grow<X, M>()
    ensures some { (g : Play X M) (length : ℕ) (x : X) → 1 ≤ tree g length x }
    ensures longer { (g : Play X M) → TreesGrow g }
    ensures roots { (g : Play X M) → RootsAreLines g }
{}

/// A mate that a search of some depth finds is an end within the depth and four captures, so near that the bound of a
/// solve for it is within what the depth allows.
pub fn mates_are_near()
    ensures ends { LargeScoresAreEnds }
    ensures solves { MatesAreNear }
{}
