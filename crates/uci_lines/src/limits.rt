//! The limits of a search, by what `go` asks.
ghost use Rattle.std.specs.Prelude.{◌≡◌, ◌<◌, IfOk};
ghost use Rattle.session_model.specs.Deadlines as Deadlines;
ghost use Rattle.session_model.specs.UciGo as UciGo;
ghost use Rattle.uci_lines.specs.GoView.{go_seen};
ghost use Rattle.uci_lines.specs.View.{texts};

use crate::Go;
use crate::words::is_text;
use foundation::Memory;
use move_text::write_move;
use rules_model::{Move, Side};
use session_model::limits::{MOST_DEPTH, MOST_MATE};
use std::alloc::Global;

const MOVES_TO_GO: u64 = 30;

/// The last depth, from 1 to 64: the one that is asked, else 64.
pub fn last_depth(go: &Go) -> u8
    ensures { result ≡ UciGo.last_depth (go_seen go.now) }
{
    go.depth.unwrap_or(MOST_DEPTH).min(MOST_DEPTH).max(1) as u8
}

/// The last number of moves of a mate, from 1 to 100, where `go mate` asks for n.
pub fn last_mate(n: u64) -> u16
    ensures { result ≡ UciGo.last_mate n }
{
    n.min(u64::from(MOST_MATE)).max(1) as u16
}

/// The nodes that each worker may enter, rounded up, where `nodes` sets a limit.
pub fn share_of(go: &Go, workers: u32) -> Option<u64>
    requires some { 0 < workers }
    ensures { result ≡ UciGo.share_of (go_seen go.now) workers }
{
    let nodes = go.nodes?;
    Some(nodes.div_ceil(u64::from(workers)))
}

/// What a move may take of the time that is left, in milliseconds: at least 1.
#[tactic(auto, unfolding(session_model::specs::Deadlines::allowance))]
pub fn allowance(left: u64, increment: u64, moves: Option<u64>) -> u64
    ensures { result ≡ Deadlines.allowance left increment moves }
{
    let moves = match moves {
        Some(moves) if moves != 0 => moves,
        _ => MOVES_TO_GO,
    };
    let slice = (left / moves).saturating_add(increment / 2);
    let within = if left <= slice { left / 2 } else { slice };
    within.max(1)
}

/// The time from the first reading of the clock to the deadline, in milliseconds, where a side is to move and there is
/// a deadline.
pub fn time_for(go: &Go, side: Side) -> Option<u64>
    ensures { result ≡ UciGo.time_for (go_seen go.now) side }
{
    if let Some(time) = go.movetime {
        return Some(time);
    }
    let (left, increment) = match side {
        Side::White => (go.wtime, go.winc),
        Side::Black => (go.btime, go.binc),
    };
    Some(allowance(left?, increment.unwrap_or(0), go.movestogo))
}

/// Whether the best move is held back: `go` asks it, or sets no limit.
pub fn is_held(go: &Go, side: Side) -> bool
    ensures { result ≡ UciGo.is_held (go_seen go.now) side }
{
    go.holds
        || go.depth.is_none()
            && go.nodes.is_none()
            && go.mate.is_none()
            && time_for(go, side).is_none()
}

fn is_named(words: &[&[u8]], m: &Move) -> bool
    ensures { result ≡ UciGo.is_named (texts words.now) m.now }
{
    let text = write_move(m);
    let text = text.items.as_slice();
    words.iter().any(|word| is_text(word, text))
}

/// The legal moves that `searchmoves` names, in their order, or all where it names none.
#[tactic(auto, unfolding(session_model::specs::UciGo::roots_of))]
pub fn roots_of(alloc: Global, go: &Go, legal: &[Move]) -> Result<Vec<Move>, Memory>
    ensures { IfOk result (λ roots. roots.items ≡ UciGo.roots_of (go_seen go.now) legal.now) }
{
    let mut roots = Vec::new(alloc);
    for m in legal {
        if is_named(&go.searchmoves, m) {
            roots.push(*m)?;
        }
    }
    if roots.is_empty() {
        roots.extend_from_slice(legal)?;
    }
    Ok(roots)
}
