//! What a line `go` asks of the session's game.
ghost use Rattle.std.specs.Prelude.{◌≡◌, IfOk};
ghost use Rattle.std.specs.Option.{option_map};
ghost use Rattle.session_model.specs.UciGo as UciGo;
ghost use Rattle.session_model.specs.UciGo.{go_of};
ghost use Rattle.uci_front.specs.PlanView.{words_said};
ghost use Rattle.uci_front.specs.PlanView.{ArePlies, IsPlan};

use crate::session::UciSession;
use foundation::Memory;
use legality::legal_moves;
use rules_model::{Move, MoveList};
use std::alloc::Global;
use uci_lines::{is_held, last_depth, last_mate, read_go, roots_of, share_of, time_for, words_in};

/// What a line `go` asks of a game, so that the search no longer needs the line.
#[derive(Drop)]
pub(crate) struct GoPlan {
    /// The legal moves.
    pub legal: MoveList,
    /// Those that are searched.
    pub roots: Vec<Move>,
    /// The last depth, from 1 to 64.
    pub depths: u8,
    /// The last number of moves of a mate, from 1 to 100, where `mate` is asked.
    pub mate: Option<u16>,
    /// The number of plies, from 1 to 9, where `perft` is asked.
    pub perft: Option<u8>,
    /// The nodes that each worker may enter.
    pub share: Option<u64>,
    /// The milliseconds from the first reading of the clock to the deadline.
    pub time: Option<u64>,
    /// The best move is held back.
    pub holds: bool,
}

fn plies_of(perft: Option<u64>) -> Option<u8>
    requires { ArePlies perft }
    ensures { result ≡ perft }
{
    match perft {
        Some(plies) => Some(plies as u8),
        None => None,
    }
}

fn mate_of(mate: Option<u64>) -> Option<u16>
    ensures { result ≡ option_map UciGo.last_mate mate }
{
    match mate {
        Some(moves) => Some(last_mate(moves)),
        None => None,
    }
}

/// What the words after `go` ask of the session's game.
///
/// # Errors
///
/// `Memory`.
pub(crate) fn read_plan(
    alloc: Global,
    session: &UciSession,
    rest: Option<&[u8]>,
) -> Result<GoPlan, Memory>
    ensures { IfOk result (IsPlan session.now (go_of (words_said rest.entry))) }
{
    let words = words_in(alloc, rest)?;
    let go = read_go(alloc, &words)?;
    let game = session.game();
    game.prove_played();
    let side = game.position().side;
    let legal = legal_moves(alloc, game.rules(), game.tables(), game.position())?;
    let roots = roots_of(alloc, &go, legal.items.as_slice())?;
    Ok(GoPlan {
        legal,
        roots,
        depths: last_depth(&go),
        mate: mate_of(go.mate),
        perft: plies_of(go.perft),
        share: share_of(&go, session.threads()),
        time: time_for(&go, side),
        holds: is_held(&go, side),
    })
}
