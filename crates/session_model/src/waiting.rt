//! Lines that are heard while a best move is held back.
ghost use Rattle.std.specs.Prelude.{◌≡◌, true, IfOk, IfErr, OnErr, IsErrOf, Some};
ghost use Rattle.std.specs.Io.KnownBytes.{IsAtEnd};
ghost use Rattle.session_model.specs.Lines.{Causes, Exchanges, HeardPart, WaitedIfHeld, Waited, must_wait};

use io_ports::{Dialect, LineBuf, SearchFault, Sink, Source};
use watching::{Cut, Halt, heed};

/// Hears lines, and answers them as a search does, until one stops a search, or to their end. Answers which of the two
/// it was.
///
/// # Errors
///
/// The fault of the source or of the sink; or, after 2^64 - 1 lines, no memory. The lines that were heard until then
/// are answered, and only where the sink failed the last one in part.
pub fn wait<S: Source, K: Sink>(
    source: &mut S,
    sink: &mut K,
    dialect: Dialect,
    line: &mut LineBuf,
) -> Result<Cut, SearchFault>
    ensures waited { IfOk result
        (Waited dialect (Exchanges S.left K.taken source.old source.new sink.old sink.new) line.new) }
    ensures broken { IfErr result
        (HeardPart dialect (Exchanges S.left K.taken source.old source.new sink.old sink.new)) }
    ensures end { IfOk result (λ why. why ≡ Cut.End → IsAtEnd (S.left source.new)) }
    ensures owed { S.owed source.new ≡ S.owed source.old }
    ensures causes { Causes (S.faults source.old) (S.faults source.new) (K.faults sink.old) (K.faults sink.new)
        (IsErrOf result) }
{
    for _ in 0..u64::MAX {
        let got = source.next_line(line);
        match heed(sink, dialect, got.into(), line) {
            Ok(()) => {}
            Err(Halt::Cut(why)) => return Ok(why),
            Err(Halt::Fault(why)) => return Err(why),
        }
    }
    Err(SearchFault::Memory)
}

/// Waits for a line or the end of the lines where a best move is held back, unless one of these cut its search already.
/// The answer says which of them came last, else what cut the search, if anything.
///
/// # Errors
///
/// As `wait` has them.
pub fn wait_if_held<S: Source, K: Sink>(
    source: &mut S,
    sink: &mut K,
    dialect: Dialect,
    line: &mut LineBuf,
    holds: bool,
    why: Option<Cut>,
) -> Result<Option<Cut>, SearchFault>
    ensures settled { IfOk result (WaitedIfHeld dialect
        (Exchanges S.left K.taken source.old source.new sink.old sink.new) holds line.old why line.new) }
    ensures broken { IfErr result
        (HeardPart dialect (Exchanges S.left K.taken source.old source.new sink.old sink.new)) }
    ensures waits { OnErr result (must_wait holds why ≡ true) }
    ensures end { IfOk result (λ why'. why' ≡ Some Cut.End → (why ≡ Some Cut.End → IsAtEnd (S.left source.old))
        → IsAtEnd (S.left source.new)) }
    ensures owed { S.owed source.new ≡ S.owed source.old }
    ensures causes { Causes (S.faults source.old) (S.faults source.new) (K.faults sink.old) (K.faults sink.new)
        (IsErrOf result) }
{
    if !holds {
        return Ok(why);
    }
    match why {
        Some(Cut::Line) | Some(Cut::End) => Ok(why),
        Some(Cut::Quota(_)) | Some(Cut::Deadline(_)) | None => {
            let stopped = wait(source, sink, dialect, line)?;
            Ok(Some(stopped))
        }
    }
}
