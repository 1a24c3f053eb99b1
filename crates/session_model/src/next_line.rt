//! The line that is answered next.
ghost use Rattle.std.specs.Prelude.{◌≡◌, None, Some};
ghost use Rattle.std.specs.Io.KnownBytes.{IsAtEnd};
ghost use Rattle.io_ports.specs.Cause.{HasCause};
ghost use Rattle.session_model.specs.Lines.{IsNext};

use io_ports::{Got, LineBuf, Source};
use watching::Cut;

/// The line to answer next, after a search that was cut so or not at all: the line that cut it, which the buffer holds,
/// or the next of the source. After a search that the end of the lines cut, no line is left.
pub fn next_of<S: Source>(source: &mut S, line: &mut LineBuf, why: Option<Cut>) -> Got
    ensures next { IsNext why (S.left source.old) (S.left source.new) line.old result line.new }
    ensures end { result ≡ Got.End → (why ≡ Some Cut.End → IsAtEnd (S.left source.old)) → IsAtEnd (S.left source.new) }
    ensures owed { S.owed source.new ≡ S.owed source.old }
    ensures cause { HasCause (S.faults source.old) (S.faults source.new) (result ≡ Got.Failed) }
{
    match why {
        Some(Cut::Line) => Got::Line,
        Some(Cut::End) => Got::End,
        Some(Cut::Quota(_)) | Some(Cut::Deadline(_)) | None => source.next_line(line),
    }
}
