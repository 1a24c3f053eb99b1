//! Laws of the definitions in specs/, each the contract of a function without code.
ghost use Rattle.session_model.specs.CecpSession.{cecp};
ghost use Rattle.session_model.specs.Laws.{AnsweredMatesAreWon, AnswersAsHeard, BytesAreRefusedAsFiles, ChessIsFirst, DepthsArePrinted, EnoughPolls, EvidenceIsSound, HasOutput, HearsAsRead, LinesAreWanted, MatesArePrinted, MatesAreShown, MatesAreWon, QuitsStop, RootsOfShown, RunsWhole, SessionsBegin, ShownWins, ShowsWhereWon, SoughtIsNear, ThinksWhole, VariantPlaces};
ghost use Rattle.session_model.specs.UciSession.{uci};

/// A session in which the polls owed at its start cover the bounds of all its searches is one whose polls are without
/// end: no line and no end of the lines cuts a search.
pub fn enough_polls_leave_no_cut()
    ensures uci { EnoughPolls uci }
    ensures cecp { EnoughPolls cecp }
{}

/// A search that nothing may interrupt, without a share of nodes and without a time, does all its depths.
pub fn an_uncut_search_is_whole()
    ensures { RunsWhole }
{}

/// Where nothing may cut `go mate`, and the counter cannot run out, it shows a mate exactly where the mover has one, at
/// the least number of moves.
pub fn an_uncut_mate_is_decided()
    ensures { MatesAreShown }
{}

/// Each mate that a session announces is a win against every legal defence, within the number of moves that is
/// announced.
pub fn announced_mates_are_won()
    ensures { MatesAreWon }
{}

/// A session reads the command of a line as a search that hears the line does, and answers a line that does not stop a
/// search as that does.
pub fn commands_are_heard_as_read()
    ensures uci { HearsAsRead }
    ensures cecp { AnswersAsHeard }
{}

/// A line that ends a session stops a search.
pub fn a_search_stops_where_a_session_ends()
    ensures uci { QuitsStop uci }
    ensures cecp { QuitsStop cecp }
{}

/// The lines that a session wants are those of its turns, and the one that ends it.
pub fn wanted_lines_are_those_of_the_turns()
    ensures uci { LinesAreWanted uci }
    ensures cecp { LinesAreWanted cecp }
{}

/// The bytes of a file are refused as the file is, also where there are too many.
pub fn bytes_are_refused_as_files()
    ensures { BytesAreRefusedAsFiles }
{}

/// Where polls are not told, so that the next line or the end may cut any search, a session allows some output for any
/// lines, without a reading of the clock and without a failed read.
pub fn sessions_have_outputs()
    ensures uci { HasOutput uci }
    ensures cecp { HasOutput cecp }
{}

/// What is shown for a side is a win of that side, and so is each mate that `go mate` shows, at the least number of
/// moves, cut or not.
pub fn shown_mates_are_won()
    ensures strategy { ShownWins }
    ensures answer { AnsweredMatesAreWon }
{}

/// Where nothing may cut `go mate`, and the counter cannot run out, it shows a mate exactly where the mover wins within
/// the last number of moves.
pub fn an_uncut_mate_is_shown_where_won()
    ensures { ShowsWhereWon }
{}

/// Where polls are without end, `go depth d` with no other limit prints all d depths, and a thinking without a deadline
/// finishes all of its depths and plays the move of the last one.
pub fn endless_polls_print_all_depths()
    ensures uci { DepthsArePrinted }
    ensures cecp { ThinksWhole }
{}

/// Where polls are without end, `go mate` with no other limit prints the mate at the least number of moves, which is
/// won, or that there is none and depth 1, if the counter cannot run out.
pub fn endless_polls_print_the_mate()
    ensures { MatesArePrinted }
{}

/// A solve for the mate that a depth finds stays within what the depth allows.
pub fn solves_stay_within_the_bound_of_their_depth()
    ensures { SoughtIsNear }
{}

/// Where a move is legal, the root move of a strategy that is shown for the mover is a legal move.
pub fn shown_strategies_begin_with_a_legal_move()
    ensures { RootsOfShown }
{}

/// The position that a line on an unsettled mate prints is sound.
pub fn evidence_is_of_sound_positions()
    ensures { EvidenceIsSound }
{}

/// A variant is that at the place of the first section of its name. Whatever sections follow those that are built in,
/// chess is the first and is accepted, and so both sessions begin.
pub fn variants_have_places()
    ensures places { VariantPlaces }
    ensures chess { ChessIsFirst }
    ensures sessions { SessionsBegin }
{}
